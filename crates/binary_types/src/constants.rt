ghost use Rattle.std.specs.Prelude.{◌≡◌};
ghost use Rattle.binary_types.specs.Constants as forms;
ghost use Rattle.binary_types.specs.Reading.{Reads};

use crate::faults::BinaryFault;
use crate::reading::{BinaryReader, byte, fixed, raw, signed_32, signed_64, whole_32};
use crate::types::heap_type;
use std::alloc::Global;
use wasm_leb::Cursor;
use wasm_syntax::ConstExpr;
use wasm_types::FuncType;

fn bits_32(input: &mut Cursor<'_>) -> Result<u32, BinaryFault>
    ensures { Reads (forms.bits_32 input.old) result input.new }
{
    let bytes = raw(4, input)?;
    let mut all = [0u8; 4];
    all.copy_from_slice(bytes);
    Ok(u32::from_le_bytes(all))
}

fn bits_64(input: &mut Cursor<'_>) -> Result<u64, BinaryFault>
    ensures { Reads (forms.bits_64 input.old) result input.new }
{
    let bytes = raw(8, input)?;
    let mut all = [0u8; 8];
    all.copy_from_slice(bytes);
    Ok(u64::from_le_bytes(all))
}

fn bits_128(input: &mut Cursor<'_>) -> Result<u128, BinaryFault>
    ensures { Reads (forms.bits_128 input.old) result input.new }
{
    fixed(0x0c, input)?;
    let bytes = raw(16, input)?;
    let mut all = [0u8; 16];
    all.copy_from_slice(bytes);
    Ok(u128::from_le_bytes(all))
}

fn number_by(at: usize, code: u8, input: &mut Cursor<'_>) -> Result<ConstExpr, BinaryFault>
    ensures { Reads (forms.number_by at code input.old) result input.new }
{
    match code {
        0x41 => Ok(ConstExpr::I32(signed_32(input)?)),
        0x42 => Ok(ConstExpr::I64(signed_64(input)?)),
        0x43 => Ok(ConstExpr::F32(bits_32(input)?)),
        0x44 => Ok(ConstExpr::F64(bits_64(input)?)),
        0xfd => Ok(ConstExpr::V128(bits_128(input)?)),
        _ => Err(BinaryFault::Unsupported {
            at,
            code: u64::from(code),
        }),
    }
}

fn null(types: &[FuncType], input: &mut Cursor<'_>) -> Result<ConstExpr, BinaryFault>
    ensures { Reads (forms.null types.now input.old) result input.new }
{
    let ty = heap_type(types, input)?;
    Ok(ConstExpr::RefNull(ty.top()))
}

fn constant_by(
    types: &[FuncType],
    at: usize,
    code: u8,
    input: &mut Cursor<'_>,
) -> Result<ConstExpr, BinaryFault>
    ensures { Reads (forms.constant_by types.now at code input.old) result input.new }
{
    match code {
        0x23 => Ok(ConstExpr::GlobalGet(whole_32(input)?)),
        0xd0 => null(types, input),
        0xd2 => Ok(ConstExpr::RefFunc(whole_32(input)?)),
        _ => number_by(at, code, input),
    }
}

/// A constant expression: one instruction, and the end.
pub fn constant(types: &[FuncType], input: &mut Cursor<'_>) -> Result<ConstExpr, BinaryFault>
    ensures { Reads (forms.constant types.now input.old) result input.new }
{
    let at = input.at();
    let code = byte(input)?;
    let constant = constant_by(types, at, code, input)?;
    fixed(0x0b, input)?;
    Ok(constant)
}

/// Reads a constant expression, which may name one of these types.
#[derive(Clone, Copy)]
pub(crate) struct ConstantReader<'a> {
    pub(crate) types: &'a [FuncType],
}

impl<'a> BinaryReader for ConstantReader<'a> {
    ghost use Rattle.binary_types.specs.Constants.{constant};

    type Item = ConstExpr;

    ghost meaning = { λ reader. constant reader.types.now };

    fn read(&self, _alloc: Global, input: &mut Cursor<'_>) -> Result<ConstExpr, BinaryFault> {
        constant(self.types, input)
    }
}
