ghost use Rattle.std.specs.Prelude.{◌≡◌};
ghost use Rattle.binary_types.specs.Reading.{Reads};
ghost use Rattle.binary_types.specs.Types as forms;

use crate::faults::BinaryFault;
use crate::reading::{byte, whole_32};
use crate::types::{reference_type, value_type};
use wasm_leb::Cursor;
use wasm_types::{FuncType, GlobalType, MemoryType, Mutability, RefType, TableType, TypeFault};

/// The least number of pages or elements, and the greatest one where it is named.
#[derive(Clone, Copy)]
pub(crate) struct Limits {
    pub(crate) minimum: u32,
    pub(crate) maximum: Option<u32>,
}

fn open_limits(input: &mut Cursor<'_>) -> Result<Limits, BinaryFault>
    ensures { Reads (forms.open_limits input.old) result input.new }
{
    let minimum = whole_32(input)?;
    Ok(Limits {
        minimum,
        maximum: None,
    })
}

fn closed_limits(input: &mut Cursor<'_>) -> Result<Limits, BinaryFault>
    ensures { Reads (forms.closed_limits input.old) result input.new }
{
    let minimum = whole_32(input)?;
    let most = whole_32(input)?;
    Ok(Limits {
        minimum,
        maximum: Some(most),
    })
}

fn limits_by(at: usize, code: u8, input: &mut Cursor<'_>) -> Result<Limits, BinaryFault>
    ensures { Reads (forms.limits_by at code input.old) result input.new }
{
    match code {
        0x00 => open_limits(input),
        0x01 => closed_limits(input),
        _ => Err(BinaryFault::Unsupported {
            at,
            code: u64::from(code),
        }),
    }
}

fn limits_at(input: &mut Cursor<'_>) -> Result<Limits, BinaryFault>
    ensures { Reads (forms.limits input.old) result input.new }
{
    let at = input.at();
    let code = byte(input)?;
    limits_by(at, code, input)
}

fn table_of(at: usize, element: RefType, limits: Limits) -> Result<TableType, BinaryFault>
    ensures { forms.TableMade at element limits result }
{
    match TableType::new(element, limits.minimum, limits.maximum) {
        Ok(ty) => Ok(ty),
        Err(_) => Err(BinaryFault::Refused {
            at,
            fault: TypeFault::BadLimits,
        }),
    }
}

/// The type of a table, whose elements may be references to one of these types.
pub fn table_type(types: &[FuncType], input: &mut Cursor<'_>) -> Result<TableType, BinaryFault>
    ensures { Reads (forms.table_type types.now input.old) result input.new }
{
    let at = input.at();
    let element = reference_type(types, input)?;
    let limits = limits_at(input)?;
    let ty = table_of(at, element, limits)?;
    Ok(ty)
}

fn memory_of(at: usize, limits: Limits) -> Result<MemoryType, BinaryFault>
    ensures { forms.MemoryMade at limits result }
{
    match MemoryType::new(limits.minimum, limits.maximum, 16) {
        Ok(ty) => Ok(ty),
        Err(_) => Err(BinaryFault::Refused {
            at,
            fault: TypeFault::BadLimits,
        }),
    }
}

/// The type of a memory, of pages of 64 KiB.
pub fn memory_type(input: &mut Cursor<'_>) -> Result<MemoryType, BinaryFault>
    ensures { Reads (forms.memory_type input.old) result input.new }
{
    let at = input.at();
    let limits = limits_at(input)?;
    let ty = memory_of(at, limits)?;
    Ok(ty)
}

fn mutability(code: u8) -> Option<Mutability>
    ensures { result ≡ forms.mutability code }
{
    match code {
        0x00 => Some(Mutability::Const),
        0x01 => Some(Mutability::Var),
        _ => None,
    }
}

fn mutability_at(input: &mut Cursor<'_>) -> Result<Mutability, BinaryFault>
    ensures { Reads (forms.mutability_at input.old) result input.new }
{
    let at = input.at();
    let code = byte(input)?;
    match mutability(code) {
        Some(mutability) => Ok(mutability),
        None => Err(BinaryFault::Unsupported {
            at,
            code: u64::from(code),
        }),
    }
}

/// The type of a global, whose value may be a reference to one of these types.
pub fn global_type(types: &[FuncType], input: &mut Cursor<'_>) -> Result<GlobalType, BinaryFault>
    ensures { Reads (forms.global_type types.now input.old) result input.new }
{
    let content = value_type(types, input)?;
    let mutability = mutability_at(input)?;
    Ok(GlobalType::new(content, mutability))
}
