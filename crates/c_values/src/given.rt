ghost use Rattle.std.specs.Prelude.{◌≡◌, ◌+◌, ◌*◌, ◌^◌};
ghost use Rattle.c_values.specs.Values as values;

use crate::c_value::{CValue, Kind};
use wasm_values::{V128, Val};

/// How many numbers there are of 64 bits.
const HALF: u128 = 18_446_744_073_709_551_616;

/// The bits of a value that has 32 of them, where no other is set.
fn narrow(low: u64, high: u64) -> Option<u32>
    ensures { result ≡ values.narrow low high }
{
    if high != 0 || low > 4_294_967_295 {
        return None;
    }
    Some(low as u32)
}

/// The bits of a value that has 64 of them, where no other is set.
fn wide(low: u64, high: u64) -> Option<u64>
    ensures { result ≡ values.wide low high }
{
    if high != 0 {
        return None;
    }
    Some(low)
}

fn whole(low: u64, high: u64) -> u128
    ensures { result ≡ values.whole low high }
{
    high as u128 * HALF + low as u128
}

/// The null reference of this value, where no bit is set.
fn null(reference: Val, low: u64, high: u64) -> Option<Val>
    ensures { result ≡ values.null reference low high }
{
    if high != 0 || low != 0 {
        return None;
    }
    Some(reference)
}

fn value_of(kind: Kind, low: u64, high: u64) -> Option<Val>
    ensures { result ≡ values.value_of kind low high }
{
    match kind {
        Kind::I32 => Some(Val::I32(narrow(low, high)?.cast_signed())),
        Kind::I64 => Some(Val::I64(wide(low, high)?.cast_signed())),
        Kind::F32 => Some(Val::F32(narrow(low, high)?)),
        Kind::F64 => Some(Val::F64(wide(low, high)?)),
        Kind::V128 => Some(Val::V128(V128(whole(low, high)))),
        Kind::Func => null(Val::FuncRef(None), low, high),
        Kind::Extern => null(Val::ExternRef(None), low, high),
        Kind::Any => null(Val::AnyRef(None), low, high),
    }
}

/// The value that C gave: `None` exactly where there is no kind of the number, or a bit is set that the kind has not. Of
/// references there are null ones alone.
pub fn value_in(given: CValue) -> Option<Val>
    ensures { result ≡ values.value_in given }
{
    let kind = Kind::from_number(given.kind)?;
    value_of(kind, given.low, given.high)
}
