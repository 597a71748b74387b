ghost use Rattle.std.specs.Prelude.{◌≡◌, ◌+◌, ◌++◌, [], ◌∷◌, Some, slice_get, take, length, IfOk, OnOk};
ghost use Rattle.wasm_types.specs.FunctionParts.{engine};
ghost use Rattle.wasm_types.specs.Signatures.{Signature};
ghost use Rattle.binary_index.specs.Keys.{IsKeyOf, IsPlaced, first_alike, place};

use crate::index::Index;
use crate::type_key::TypeKey;
use std::alloc::Global;
use std::marker::Model;
use wasm_types::{FuncType, Items, OutOfMemory};

/// The types of a module in order, with an index from what a type says to the number of the first type that says it.
/// Contracts see the list.
#[derive(Drop)]
pub struct IndexedTypes {
    types: Vec<FuncType>,
    /// For each type, the number of the first one that says the same but for the engine.
    firsts: Vec<u32>,
    index: Index,
}

impl Model for IndexedTypes {
    ghost use Rattle.std.specs.Prelude.{List};
    ghost use Rattle.wasm_types.specs.Signatures.{Signature};
    ghost use Rattle.std.specs.Coded.{coded_list};
    ghost use Rattle.wasm_types.specs.SignatureCode.{signature_code};
    ghost use Rattle.binary_index.specs.Indexes.{IsIndexed};

    ghost Value = { List Signature };

    ghost coded = { coded_list signature_code };

    ghost view = { λ t. t.types.items };

    ghost invariant = { λ t. IsIndexed t.types.items t.firsts.items t.index };
}

impl IndexedTypes {
    /// Of no type.
    pub fn new(alloc: Global) -> IndexedTypes
        ensures { result ≡ [] }
    {
        IndexedTypes {
            types: Vec::new(alloc),
            firsts: Vec::new(alloc),
            index: Index::new(alloc),
        }
    }

    /// How many types there are.
    pub fn len(&self) -> usize
        ensures { result ≡ length self.now }
    {
        self.types.len()
    }

    /// The types, lent.
    pub fn as_slice(&self) -> &[FuncType]
        ensures { result.now ≡ self.now }
    {
        self.types.as_slice()
    }

    /// The first so many types, or all.
    pub fn first(&self, count: usize) -> &[FuncType]
        ensures { result.now ≡ take count self.now }
    {
        if count < self.types.len() {
            &self.types[..count]
        } else {
            self.types.as_slice()
        }
    }

    /// The types; no memory is taken.
    pub fn into_items(self) -> Items<FuncType>
        ensures { result ≡ self }
    {
        Items(self.types)
    }

    /// The number of the first type that says what the key says.
    pub fn find(&self, key: &TypeKey) -> Option<u32>
        ensures { (t : Signature) → IsKeyOf self.now t key.now → result ≡ first_alike self.now t }
    {
        self.index.get(key.as_slice())
    }

    /// Lengthens a key by the type of this number, counted from `base` on.
    pub fn push_to(
        &self,
        number: u32,
        ty: &FuncType,
        base: u8,
        key: &mut TypeKey,
    ) -> Result<(), OutOfMemory>
        requires { slice_get self.now number ≡ Some ty.now }
        ensures key { OnOk result (key.new ≡ key.old ++ (base + place self.now ty.now) ∷ engine ty.now ∷ []) }
        ensures placed { IsPlaced self.now ty.now }
    {
        let first = self.firsts[number as usize];
        key.push(u64::from(base) + u64::from(first))?;
        key.push(ty.engine().0)
    }

    /// With one type more, of this key.
    pub fn extended(
        self,
        alloc: Global,
        ty: FuncType,
        key: &TypeKey,
    ) -> Result<IndexedTypes, OutOfMemory>
        requires { IsKeyOf self ty key.now }
        ensures { IfOk result (λ more. more ≡ self ++ ty ∷ []) }
    {
        let mut types = self.types;
        let mut firsts = self.firsts;
        let mut index = self.index;
        let Ok(number) = u32::try_from(types.len()) else {
            return Err(OutOfMemory);
        };
        let first = match index.get(key.as_slice()) {
            Some(first) => first,
            None => {
                index.insert(alloc, key.as_slice(), number)?;
                number
            }
        };
        firsts.push(first)?;
        types.push(ty)?;
        Ok(IndexedTypes {
            types,
            firsts,
            index,
        })
    }
}
