ghost use Rattle.std.specs.Prelude.{◌≡◌, is_some};
ghost use Rattle.c_values.specs.Values as values;

use crate::c_value::{CValue, Kind};
use wasm_values::{V128, Val};

/// How many numbers there are of 64 bits.
const HALF: u128 = 18_446_744_073_709_551_616;

fn parts(kind: Kind, low: u64, high: u64) -> CValue
    ensures { result ≡ values.parts kind low high }
{
    CValue {
        kind: kind.number(),
        low,
        high,
    }
}

fn halves(vector: V128) -> CValue
    ensures { result ≡ values.halves vector }
{
    let V128(bits) = vector;
    parts(Kind::V128, (bits % HALF) as u64, (bits / HALF) as u64)
}

/// A reference: 0 where it is null, and else 1.
fn reference(kind: Kind, is_there: bool) -> CValue
    ensures { result ≡ values.reference kind is_there }
{
    parts(kind, if is_there { 1 } else { 0 }, 0)
}

/// A value as C has it. A reference tells whether it is null.
pub fn value_out(value: Val) -> CValue
    ensures { result ≡ values.value_out value }
{
    match value {
        Val::I32(number) => parts(Kind::I32, number.cast_unsigned() as u64, 0),
        Val::I64(number) => parts(Kind::I64, number.cast_unsigned(), 0),
        Val::F32(bits) => parts(Kind::F32, bits as u64, 0),
        Val::F64(bits) => parts(Kind::F64, bits, 0),
        Val::V128(vector) => halves(vector),
        Val::FuncRef(func) => reference(Kind::Func, func.is_some()),
        Val::ExternRef(data) => reference(Kind::Extern, data.is_some()),
        Val::AnyRef(data) => reference(Kind::Any, data.is_some()),
    }
}
