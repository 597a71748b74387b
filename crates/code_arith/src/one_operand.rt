ghost use Rattle.std.specs.Prelude.{◌≡◌, ◌<◌, ◌^◌};
ghost use Rattle.wasm_syntax.specs.Operators.{unary_arith, unary_width, unary_result_width};

use crate::{signed32, signed64};
use wasm_syntax::UnOp;

/// What an operator gives of the slot `x`.
///
/// `x` has to be below 2^32 where the operator takes an `i32`, and so is the number that it gives where that is an
/// `i32`. The rules are those of the WebAssembly core specification, "Execution, Numerics, Integer operations".
#[inline]
pub fn unary(op: UnOp, x: u64) -> u64
    requires { x < 2 ^ unary_width op }
    ensures value { result ≡ unary_arith op x }
    ensures in_range { result < 2 ^ unary_result_width op }
{
    match op {
        UnOp::I32Clz => (x as u32).leading_zeros() as u64,
        UnOp::I32Ctz => (x as u32).trailing_zeros() as u64,
        UnOp::I32Popcnt | UnOp::I64Popcnt => x.count_ones() as u64,
        UnOp::I32Eqz | UnOp::I64Eqz => (x == 0) as u64,
        UnOp::I32Extend8S => signed32::extend8_s(x as u32) as u64,
        UnOp::I32Extend16S => signed32::extend16_s(x as u32) as u64,
        UnOp::I64Clz => x.leading_zeros() as u64,
        UnOp::I64Ctz => x.trailing_zeros() as u64,
        UnOp::I64Extend8S => signed64::extend8_s(x),
        UnOp::I64Extend16S => signed64::extend16_s(x),
        UnOp::I64Extend32S => signed64::extend32_s(x),
        UnOp::I32WrapI64 => x % 0x1_0000_0000,
        UnOp::I64ExtendI32S => signed64::extend_i32_s(x as u32),
        UnOp::I64ExtendI32U => x,
    }
}
