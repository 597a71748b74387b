ghost use Rattle.std.specs.Prelude.{◌≡◌, ◌<◌, ◌^◌, if◌then◌else◌, IfOk};
ghost use Rattle.code_arith.specs.Answers.{answer};
ghost use Rattle.wasm_syntax.specs.Operators.{arith, binary_width, binary_result_width};

use crate::trap::ArithTrap;
use crate::{signed32, signed64};
use wasm_syntax::BinOp;

/// What an operator gives of the slots `x` and `y`, its first and its second operand.
///
/// Both have to be below 2^32 where the operator takes `i32`, and so is the number that it gives where that is an
/// `i32`. Errors: a division or a remainder by 0, and `div_s` of the least number by -1. The rules are those of the
/// WebAssembly core specification, "Execution, Numerics, Integer operations".
#[inline]
pub fn binary(op: BinOp, x: u64, y: u64) -> Result<u64, ArithTrap>
    requires first_in_range { x < 2 ^ binary_width op }
    requires second_in_range { y < 2 ^ binary_width op }
    ensures value { result ≡ answer (arith op x y) }
    ensures in_range { IfOk result (λ n. n < 2 ^ binary_result_width op) }
{
    if takes_two_wide(op) {
        return binary64(op, x, y);
    }
    binary32(op, x as u32, y as u32).map(u64::from)
}

/// Whether an operator takes two integers of 64 bits.
#[inline]
pub fn takes_two_wide(op: BinOp) -> bool
    ensures { binary_width op ≡ (if result then 64 else 32) }
{
    match op {
        BinOp::I32Add
        | BinOp::I32Sub
        | BinOp::I32Mul
        | BinOp::I32DivS
        | BinOp::I32DivU
        | BinOp::I32RemS
        | BinOp::I32RemU
        | BinOp::I32And
        | BinOp::I32Or
        | BinOp::I32Xor
        | BinOp::I32Shl
        | BinOp::I32ShrS
        | BinOp::I32ShrU
        | BinOp::I32Rotl
        | BinOp::I32Rotr
        | BinOp::I32Eq
        | BinOp::I32Ne
        | BinOp::I32LtS
        | BinOp::I32LtU
        | BinOp::I32GtS
        | BinOp::I32GtU
        | BinOp::I32LeS
        | BinOp::I32LeU
        | BinOp::I32GeS
        | BinOp::I32GeU => false,
        _ => true,
    }
}

/// What an operator of two integers of 32 bits gives. All of these give one of 32 bits too, so that whoever knows that
/// an operator is one of them need not ask for the width of its result.
#[inline(always)]
pub fn binary32(op: BinOp, x: u32, y: u32) -> Result<u32, ArithTrap>
    requires width { binary_width op ≡ 32 }
    ensures value { result ≡ answer (arith op x y) }
    ensures result_width { binary_result_width op ≡ 32 }
{
    match op {
        BinOp::I32Add => Ok(x.wrapping_add(y)),
        BinOp::I32Sub => Ok(x.wrapping_sub(y)),
        BinOp::I32Mul => Ok(x.wrapping_mul(y)),
        BinOp::I32DivS => signed32::div_s(x, y),
        BinOp::I32DivU => signed32::div_u(x, y),
        BinOp::I32RemS => signed32::rem_s(x, y),
        BinOp::I32RemU => signed32::rem_u(x, y),
        BinOp::I32And => Ok(x & y),
        BinOp::I32Or => Ok(x | y),
        BinOp::I32Xor => Ok(x ^ y),
        BinOp::I32Shl => Ok(x.wrapping_shl(y)),
        BinOp::I32ShrS => Ok(signed32::shr_s(x, y)),
        BinOp::I32ShrU => Ok(x.wrapping_shr(y)),
        BinOp::I32Rotl => Ok(signed32::rotl(x, y)),
        BinOp::I32Rotr => Ok(signed32::rotr(x, y)),
        BinOp::I32Eq => Ok((x == y) as u32),
        BinOp::I32Ne => Ok((x != y) as u32),
        BinOp::I32LtS => Ok(signed32::lt_s(x, y) as u32),
        BinOp::I32LtU => Ok((x < y) as u32),
        BinOp::I32GtS => Ok(signed32::lt_s(y, x) as u32),
        BinOp::I32GtU => Ok((y < x) as u32),
        BinOp::I32LeS => Ok(signed32::le_s(x, y) as u32),
        BinOp::I32LeU => Ok((x <= y) as u32),
        BinOp::I32GeS => Ok(signed32::le_s(y, x) as u32),
        BinOp::I32GeU => Ok((y <= x) as u32),
        _ => unreachable!(),
    }
}

/// What an operator of two integers of 64 bits gives: a number below 2^32 where that is an `i32`.
#[tactic(auto, using(crate::proofs::BitwiseLemmas::or_64, crate::proofs::BitwiseLemmas::xor_64))]
#[inline(always)]
pub fn binary64(op: BinOp, x: u64, y: u64) -> Result<u64, ArithTrap>
    requires width { binary_width op ≡ 64 }
    ensures value { result ≡ answer (arith op x y) }
    ensures in_range { IfOk result (λ n. n < 2 ^ binary_result_width op) }
{
    match op {
        BinOp::I64Add => Ok(x.wrapping_add(y)),
        BinOp::I64Sub => Ok(x.wrapping_sub(y)),
        BinOp::I64Mul => Ok(x.wrapping_mul(y)),
        BinOp::I64DivS => signed64::div_s(x, y),
        BinOp::I64DivU => signed64::div_u(x, y),
        BinOp::I64RemS => signed64::rem_s(x, y),
        BinOp::I64RemU => signed64::rem_u(x, y),
        BinOp::I64And => Ok(x & y),
        BinOp::I64Or => Ok(x | y),
        BinOp::I64Xor => Ok(x ^ y),
        BinOp::I64Shl => Ok(x.wrapping_shl((y % 64) as u32)),
        BinOp::I64ShrS => Ok(signed64::shr_s(x, (y % 64) as u32)),
        BinOp::I64ShrU => Ok(x.wrapping_shr((y % 64) as u32)),
        BinOp::I64Rotl => Ok(signed64::rotl(x, (y % 64) as u32)),
        BinOp::I64Rotr => Ok(signed64::rotr(x, (y % 64) as u32)),
        BinOp::I64Eq => Ok((x == y) as u64),
        BinOp::I64Ne => Ok((x != y) as u64),
        BinOp::I64LtS => Ok(signed64::lt_s(x, y) as u64),
        BinOp::I64LtU => Ok((x < y) as u64),
        BinOp::I64GtS => Ok(signed64::lt_s(y, x) as u64),
        BinOp::I64GtU => Ok((y < x) as u64),
        BinOp::I64LeS => Ok(signed64::le_s(x, y) as u64),
        BinOp::I64LeU => Ok((x <= y) as u64),
        BinOp::I64GeS => Ok(signed64::le_s(y, x) as u64),
        BinOp::I64GeU => Ok((y <= x) as u64),
        _ => unreachable!(),
    }
}
