ghost use Rattle.std.specs.Prelude.{◌≡◌, option_map, slice_get};
ghost use Rattle.std.specs.Option.{option_copied};
ghost use Rattle.wasm_leb.specs.Places.{Place};
ghost use Rattle.binary_types.specs.Reading.{Reads, peek};
ghost use Rattle.binary_types.specs.Types as forms;

use crate::faults::BinaryFault;
use crate::reading::{byte, next_byte, signed_33, whole_32};
use wasm_leb::Cursor;
use wasm_types::{FuncType, HeapType, RefType, ValType};

fn type_in(types: &[FuncType], number: usize) -> Option<&FuncType>
    ensures { option_copied result ≡ slice_get types.now number }
{
    types.get(number)
}

/// The number of a type.
///
/// `Index` exactly where no type has it.
pub fn type_index(types: &[FuncType], input: &mut Cursor<'_>) -> Result<u32, BinaryFault>
    ensures { Reads (forms.type_index types.now input.old) result input.new }
{
    let at = input.at();
    let number = whole_32(input)?;
    if (number as usize) < types.len() {
        Ok(number)
    } else {
        Err(BinaryFault::Index { at })
    }
}

pub(crate) fn named(types: &[FuncType], at: usize, number: u32) -> Result<FuncType, BinaryFault>
    ensures { forms.Named types.now at number result }
{
    match type_in(types, number as usize) {
        Some(ty) => match ty.clone() {
            Ok(ty) => Ok(ty),
            Err(_) => Err(BinaryFault::OutOfMemory),
        },
        None => Err(BinaryFault::Index { at }),
    }
}

/// The type of a number.
///
/// `Index` exactly where no type has it.
pub fn type_at(types: &[FuncType], input: &mut Cursor<'_>) -> Result<FuncType, BinaryFault>
    ensures { Reads (forms.type_at types.now input.old) result input.new }
{
    let at = input.at();
    let number = whole_32(input)?;
    let ty = named(types, at, number)?;
    Ok(ty)
}

/// The number of a type, which is written with a sign that it does not have.
///
/// `Index` exactly where no type has it.
pub fn signed_index(types: &[FuncType], input: &mut Cursor<'_>) -> Result<u32, BinaryFault>
    ensures { Reads (forms.signed_index types.now input.old) result input.new }
{
    let at = input.at();
    let number = not_below_zero(input)?;
    if (number as usize) < types.len() {
        Ok(number)
    } else {
        Err(BinaryFault::Index { at })
    }
}

pub(crate) fn not_below_zero(input: &mut Cursor<'_>) -> Result<u32, BinaryFault>
    ensures { Reads (forms.not_below_zero input.old) result input.new }
{
    let number = signed_33(input)?;
    if number < 0 {
        return Err(BinaryFault::Malformed);
    }
    Ok(number as u32)
}

fn abstract_heap(code: u8) -> Option<HeapType>
    ensures { result ≡ forms.abstract_heap code }
{
    match code {
        0x70 => Some(HeapType::Func),
        0x73 => Some(HeapType::NoFunc),
        0x6f => Some(HeapType::Extern),
        0x72 => Some(HeapType::NoExtern),
        0x6e => Some(HeapType::Any),
        0x6d => Some(HeapType::Eq),
        0x6c => Some(HeapType::I31),
        0x71 => Some(HeapType::None),
        _ => None,
    }
}

/// Whether a byte is the code of a type, and does not begin the number of one.
pub fn is_code(b: u8) -> bool
    ensures { result ≡ forms.is_code b }
{
    0x40 <= b && b < 0x80
}

pub(crate) fn abstract_type(input: &mut Cursor<'_>) -> Result<HeapType, BinaryFault>
    ensures { Reads (forms.abstract_type input.old) result input.new }
{
    let at = input.at();
    let code = byte(input)?;
    match abstract_heap(code) {
        Some(ty) => Ok(ty),
        None => Err(BinaryFault::Unsupported {
            at,
            code: u64::from(code),
        }),
    }
}

fn concrete_type(types: &[FuncType], input: &mut Cursor<'_>) -> Result<HeapType, BinaryFault>
    ensures { Reads (forms.concrete_type types.now input.old) result input.new }
{
    let at = input.at();
    let number = not_below_zero(input)?;
    let ty = named(types, at, number)?;
    Ok(HeapType::ConcreteFunc(ty))
}

/// What references point to: one of these types, or an abstract type.
pub fn heap_type(types: &[FuncType], input: &mut Cursor<'_>) -> Result<HeapType, BinaryFault>
    ensures { Reads (forms.heap_type types.now input.old) result input.new }
{
    if is_code(next_byte(input)?) {
        abstract_type(input)
    } else {
        concrete_type(types, input)
    }
}

fn prefixed(
    types: &[FuncType],
    nullable: bool,
    input: &mut Cursor<'_>,
) -> Result<RefType, BinaryFault>
    ensures { Reads (forms.prefixed nullable types.now input.old) result input.new }
{
    let ty = heap_type(types, input)?;
    Ok(RefType::new(nullable, ty))
}

fn reference_by(
    types: &[FuncType],
    at: usize,
    code: u8,
    input: &mut Cursor<'_>,
) -> Result<RefType, BinaryFault>
    ensures { Reads (forms.reference_by types.now at code input.old) result input.new }
{
    match code {
        0x63 => prefixed(types, true, input),
        0x64 => prefixed(types, false, input),
        _ => match abstract_heap(code) {
            Some(ty) => Ok(RefType::new(true, ty)),
            None => Err(BinaryFault::Unsupported {
                at,
                code: u64::from(code),
            }),
        },
    }
}

/// A reference type, which may name one of these types.
pub fn reference_type(types: &[FuncType], input: &mut Cursor<'_>) -> Result<RefType, BinaryFault>
    ensures { Reads (forms.reference_type types.now input.old) result input.new }
{
    let at = input.at();
    let code = byte(input)?;
    reference_by(types, at, code, input)
}

fn number_type(code: u8) -> Option<ValType>
    ensures { result ≡ forms.number_type code }
{
    match code {
        0x7f => Some(ValType::I32),
        0x7e => Some(ValType::I64),
        0x7d => Some(ValType::F32),
        0x7c => Some(ValType::F64),
        0x7b => Some(ValType::V128),
        _ => None,
    }
}

/// A value type that begins with this code, which stands at `at` and is read.
pub fn value_by(
    types: &[FuncType],
    at: usize,
    code: u8,
    input: &mut Cursor<'_>,
) -> Result<ValType, BinaryFault>
    ensures { Reads (forms.value_by types.now at code (forms.number_type code) input.old) result input.new }
{
    match number_type(code) {
        Some(ty) => Ok(ty),
        None => {
            let ty = reference_by(types, at, code, input)?;
            Ok(ValType::Ref(ty))
        }
    }
}

/// A value type, which may name one of these types.
pub fn value_type(types: &[FuncType], input: &mut Cursor<'_>) -> Result<ValType, BinaryFault>
    ensures { Reads (forms.value_type types.now input.old) result input.new }
{
    let at = input.at();
    let code = byte(input)?;
    value_by(types, at, code, input)
}
