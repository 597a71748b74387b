ghost use Rattle.std.specs.Prelude.{◌≡◌, ◌++◌, [], ◌∷◌, List, IfErr, IfOk, IfSome, Some, length, position, take};
ghost use Rattle.wasm_leb.specs.Places.{Place};
ghost use Rattle.wasm_types.specs.Signatures.{Signature};
ghost use Rattle.binary_index.specs.Keys.{IsKeyOf, Says, one};
ghost use Rattle.binary_types.specs.Reading.{Reads};
ghost use Rattle.binary_types.specs.Types.{prefixed};
ghost use Rattle.binary_code.specs.BlockTypes.{ReadsIn, gives, number_of};
ghost use Rattle.binary_code.specs.Slots.{IsBlockKey, IsPlainBlock, results_of};

use crate::context::CodeContext;
use binary_index::{IndexedTypes, TypeKey};
use binary_types::{BinaryFault, keyed_reference, made};
use std::alloc::Global;
use std::marker::Model;
use std::mem;
use wasm_leb::Cursor;
use wasm_types::{Finality, FuncType, HeapType, RefType, ValType};

/// The types that code names: those of the type section, and behind them those that blocks added. Contracts see the list.
///
/// For each block type that names no other type it keeps the number of the first type that is meant, once it was found, so
/// that such a block needs no key.
#[derive(Drop)]
pub(crate) struct CodeTypes {
    types: IndexedTypes,
    known: Vec<Option<u32>>,
}

impl Model for CodeTypes {
    ghost use Rattle.std.specs.Prelude.{List};
    ghost use Rattle.wasm_types.specs.Signatures.{Signature};
    ghost use Rattle.binary_code.specs.Slots.{AreKnown};
    ghost use Rattle.std.specs.Coded.{coded_list};
    ghost use Rattle.wasm_types.specs.SignatureCode.{signature_code};

    ghost Value = { List Signature };

    ghost coded = { coded_list signature_code };

    ghost view = { λ t. t.types };

    ghost invariant = { λ t. AreKnown t.types t.known.items };
}

/// How many block types name no other type, but for those that are not nullable.
const KINDS: usize = 14;

fn kind_of_reference(ty: &RefType) -> Option<usize>
    ensures { IfSome result (λ k. results_of k ≡ ValType.Ref ty.now ∷ []) }
{
    match (ty.is_nullable(), ty.heap_type()) {
        (true, HeapType::NoFunc) => Some(6),
        (true, HeapType::Func) => Some(7),
        (true, HeapType::NoExtern) => Some(8),
        (true, HeapType::Extern) => Some(9),
        (true, HeapType::None) => Some(10),
        (true, HeapType::I31) => Some(11),
        (true, HeapType::Eq) => Some(12),
        (true, HeapType::Any) => Some(13),
        _ => None,
    }
}

// The number of the block type of these results, if it is one of those.
fn kind_of(results: &[ValType]) -> Option<usize>
    ensures { IfSome result (λ k. results_of k ≡ results.now) }
{
    match results {
        [] => Some(0),
        [ValType::I32] => Some(1),
        [ValType::I64] => Some(2),
        [ValType::F32] => Some(3),
        [ValType::F64] => Some(4),
        [ValType::V128] => Some(5),
        [ValType::Ref(ty)] => kind_of_reference(ty),
        _ => None,
    }
}

/// A number has 32 bits. More of them than that are more than there is memory for, since what is numbered takes bytes.
pub(crate) fn number_32(number: usize) -> Result<u32, BinaryFault>
    ensures ok { IfOk result (λ n. n ≡ number) }
    ensures err { IfErr result (λ e. e ≡ BinaryFault.OutOfMemory) }
{
    match u32::try_from(number) {
        Ok(number) => Ok(number),
        Err(_) => Err(BinaryFault::OutOfMemory),
    }
}

/// The key of a block type as far as the results are not in it.
pub(crate) fn block_key(alloc: Global) -> Result<TypeKey, BinaryFault>
    ensures ok { IfOk result (λ key. key ≡ 0 ∷ 0 ∷ 0 ∷ []) }
    ensures err { IfErr result (λ e. e ≡ BinaryFault.OutOfMemory) }
{
    let mut key = TypeKey::new(alloc);
    key.push_finality(Finality::Final)?;
    key.push_end()?;
    key.push_end()?;
    Ok(key)
}

// The key of a block type that names no function type.
fn plain_key(alloc: Global, results: &[ValType]) -> Result<TypeKey, BinaryFault>
    requires { IsPlainBlock results.now }
    ensures ok { (ts : List Signature) → IfOk result (λ key. IsBlockKey ts results.now key) }
    ensures err { IfErr result (λ e. e ≡ BinaryFault.OutOfMemory) }
{
    let mut key = block_key(alloc)?;
    if let [ty] = results {
        key.push_plain(ty)?;
    }
    Ok(key)
}

impl CodeTypes {
    /// The types of the type section, to which blocks may add.
    pub(crate) fn new(alloc: Global, types: IndexedTypes) -> Result<CodeTypes, BinaryFault>
        ensures ok { IfOk result (λ t. t ≡ types) }
        ensures err { IfErr result (λ e. e ≡ BinaryFault.OutOfMemory) }
    {
        match vec![in alloc; None; KINDS] {
            Ok(known) => Ok(CodeTypes { types, known }),
            Err(_) => Err(BinaryFault::OutOfMemory),
        }
    }

    /// The first so many types, or all.
    pub(crate) fn first(&self, count: usize) -> &[FuncType]
        ensures { result.now ≡ take count self.now }
    {
        self.types.first(count)
    }

    /// All of them; no memory is taken.
    pub(crate) fn into_types(self) -> IndexedTypes
        ensures { result ≡ self }
    {
        self.types
    }

    // The number of the first type that gives these results, where it is known.
    fn known_number(&self, results: &[ValType]) -> Option<u32>
        ensures { IfSome result (λ n. position (gives results.now) self.now ≡ Some n) }
    {
        let kind = kind_of(results)?;
        match self.known.get(kind) {
            Some(slot) => *slot,
            None => None,
        }
    }

    // Keeps the number of the first type that gives these results.
    fn keep(&mut self, results: &[ValType], number: u32)
        requires { position (gives results.now) self.old ≡ Some number }
        ensures { self.new ≡ self.old }
    {
        if let Some(kind) = kind_of(results) {
            if let Some(slot) = self.known.get_mut(kind) {
                *slot = Some(number);
            }
        }
    }

    // The number of the first type that gives these results, by their key.
    fn find(&self, results: &[ValType], key: &TypeKey) -> Option<u32>
        requires { IsBlockKey self.now results.now key.now }
        ensures { result ≡ position (gives results.now) self.now }
    {
        self.types.find(key)
    }

    fn add(&mut self, alloc: Global, ty: FuncType, key: &TypeKey) -> Result<u32, BinaryFault>
        requires { IsKeyOf self.old ty key.now }
        ensures ok { IfOk result (λ n. (n ≡ length self.old) × (self.new ≡ self.old ++ ty ∷ [])) }
        ensures err { IfErr result (λ e. e ≡ BinaryFault.OutOfMemory) }
    {
        let number = number_32(self.types.len())?;
        let types = mem::replace(&mut self.types, IndexedTypes::new(alloc));
        match types.extended(alloc, ty, key) {
            Ok(types) => {
                self.types = types;
                Ok(number)
            }
            Err(_) => {
                self.known.clear();
                Err(BinaryFault::OutOfMemory)
            }
        }
    }

    /// The number of the first type that gives these results, which is added where there is none. `at` is where the block
    /// type begins.
    pub(crate) fn number_of(
        &mut self,
        alloc: Global,
        context: CodeContext,
        at: usize,
        results: &[ValType],
        key: &TypeKey,
    ) -> Result<u32, BinaryFault>
        requires { IsBlockKey self.old results.now key.now }
        ensures { (p : Place) → ReadsIn (number_of context at self.old results.now p) result self.new p }
    {
        if let Some(number) = self.find(results, key) {
            self.keep(results, number);
            return Ok(number);
        }
        let ty = made(
            alloc,
            context.engine,
            at,
            Finality::Final,
            None,
            &[],
            results,
        )?;
        self.add(alloc, ty, key)
    }

    /// The same, where there is no result or one that names no function type.
    pub(crate) fn plain_number(
        &mut self,
        alloc: Global,
        context: CodeContext,
        at: usize,
        results: &[ValType],
    ) -> Result<u32, BinaryFault>
        requires { IsPlainBlock results.now }
        ensures { (p : Place) → ReadsIn (number_of context at self.old results.now p) result self.new p }
    {
        if let Some(number) = self.known_number(results) {
            return Ok(number);
        }
        let key = plain_key(alloc, results)?;
        self.number_of(alloc, context, at, results, &key)
    }

    /// A reference type, behind the code that says whether it is nullable, which may name one of the first so many types. It
    /// also lengthens the key.
    pub(crate) fn reference(
        &self,
        count: usize,
        nullable: bool,
        key: &mut TypeKey,
        input: &mut Cursor<'_>,
    ) -> Result<RefType, BinaryFault>
        ensures read { Reads (prefixed nullable (take count self.now) input.old) result input.new }
        ensures key { IfOk result (λ t. Says self.now (one (ValType.Ref t)) key.old key.new) }
    {
        keyed_reference(self.types.first(count), &self.types, nullable, key, input)
    }
}
