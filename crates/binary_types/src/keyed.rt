//! Value types that also lengthen a key. They name the types in front, which have the same numbers in an index.
ghost use Rattle.std.specs.Prelude.{◌≡◌, List, IfOk};
ghost use Rattle.binary_index.specs.Indexes.{AreNumberedIn};
ghost use Rattle.binary_index.specs.Keys.{Says, SaysHeap, one};
ghost use Rattle.binary_types.specs.Reading.{Reads, listed, times};
ghost use Rattle.binary_types.specs.Types as forms;
ghost use Rattle.wasm_types.specs.FunctionParts.{heap_of, types_of};
ghost use Rattle.wasm_types.specs.Signatures.{Signature};
ghost use Rattle.wasm_types.specs.declared.value_types.ValType.{ValType};

use crate::faults::BinaryFault;
use crate::reading::{byte, next_byte, whole_32};
use crate::types::{abstract_type, is_code, named, not_below_zero, value_by};
use binary_index::{IndexedTypes, TypeKey};
use std::alloc::Global;
use wasm_leb::Cursor;
use wasm_types::{FuncType, HeapType, Items, RefType, ValType};

fn keyed_abstract(key: &mut TypeKey, input: &mut Cursor<'_>) -> Result<HeapType, BinaryFault>
    ensures read { Reads (forms.abstract_type input.old) result input.new }
    ensures key { (ts : List Signature) → IfOk result (λ t. SaysHeap ts (heap_of t) key.old key.new) }
{
    let ty = abstract_type(input)?;
    key.push_abstract(&ty)?;
    Ok(ty)
}

fn keyed_concrete(
    types: &[FuncType],
    index: &IndexedTypes,
    key: &mut TypeKey,
    input: &mut Cursor<'_>,
) -> Result<HeapType, BinaryFault>
    requires { AreNumberedIn types.now index.now }
    ensures read { Reads (forms.concrete_type types.now input.old) result input.new }
    ensures key { IfOk result (λ t. SaysHeap index.now (heap_of t) key.old key.new) }
{
    let at = input.at();
    let number = not_below_zero(input)?;
    let ty = named(types, at, number)?;
    index.push_to(number, &ty, 8, key)?;
    Ok(HeapType::ConcreteFunc(ty))
}

fn keyed_heap(
    types: &[FuncType],
    index: &IndexedTypes,
    key: &mut TypeKey,
    input: &mut Cursor<'_>,
) -> Result<HeapType, BinaryFault>
    requires { AreNumberedIn types.now index.now }
    ensures read { Reads (forms.heap_type types.now input.old) result input.new }
    ensures key { IfOk result (λ t. SaysHeap index.now (heap_of t) key.old key.new) }
{
    if is_code(next_byte(input)?) {
        keyed_abstract(key, input)
    } else {
        keyed_concrete(types, index, key, input)
    }
}

/// A reference type, but for the code that stands in front and says whether it is nullable. It also lengthens the key.
pub fn keyed_reference(
    types: &[FuncType],
    index: &IndexedTypes,
    nullable: bool,
    key: &mut TypeKey,
    input: &mut Cursor<'_>,
) -> Result<RefType, BinaryFault>
    requires { AreNumberedIn types.now index.now }
    ensures read { Reads (forms.prefixed nullable types.now input.old) result input.new }
    ensures key { IfOk result (λ t. Says index.now (one (ValType.Ref t)) key.old key.new) }
{
    key.push_nullability(nullable)?;
    let ty = keyed_heap(types, index, key, input)?;
    Ok(RefType::new(nullable, ty))
}

// A value type, which may name each type of the index.
fn keyed_value(
    index: &IndexedTypes,
    key: &mut TypeKey,
    input: &mut Cursor<'_>,
) -> Result<ValType, BinaryFault>
    ensures read { Reads (forms.value_type index.now input.old) result input.new }
    ensures key { IfOk result (λ t. Says index.now (one t) key.old key.new) }
{
    let types = index.as_slice();
    let at = input.at();
    let code = byte(input)?;
    match code {
        0x63 | 0x64 => {
            let ty = keyed_reference(types, index, code == 0x63, key, input)?;
            Ok(ValType::Ref(ty))
        }
        _ => {
            let ty = value_by(types, at, code, input)?;
            key.push_plain(&ty)?;
            Ok(ty)
        }
    }
}

#[tactic(auto, using(crate::proofs::Repeats::times_begun, crate::proofs::Repeats::times_ended, crate::proofs::Repeats::times_more, crate::proofs::Repeats::times_failed, binary_index::proofs::SaidLemmas::nothing_said))]
fn keyed_times(
    alloc: Global,
    count: u32,
    index: &IndexedTypes,
    key: &mut TypeKey,
    input: &mut Cursor<'_>,
) -> Result<Items<ValType>, BinaryFault>
    ensures read { Reads (times count (forms.value_type index.now) input.old) result input.new }
    ensures key { IfOk result (λ ts. Says index.now (types_of ts) key.old key.new) }
{
    let mut items = Vec::new(alloc);
    for _ in 0..count {
        match keyed_value(index, key, input) {
            Ok(item) => {
                if items.push(item).is_err() {
                    return Err(BinaryFault::OutOfMemory);
                }
            }
            Err(fault) => return Err(fault),
        }
    }
    Ok(Items(items))
}

/// Value types, which may name each type of the index. They also lengthen the key.
pub(crate) fn keyed_values(
    alloc: Global,
    index: &IndexedTypes,
    key: &mut TypeKey,
    input: &mut Cursor<'_>,
) -> Result<Items<ValType>, BinaryFault>
    ensures read { Reads (listed (forms.value_type index.now) input.old) result input.new }
    ensures key { IfOk result (λ ts. Says index.now (types_of ts) key.old key.new) }
{
    let count = whole_32(input)?;
    keyed_times(alloc, count, index, key, input)
}
