// What the operators of 64 bits do beyond the methods of `u64`: signed readings, and traps.
ghost use Rattle.std.specs.Prelude.{◌≡◌, int_lt, int_le};
ghost use Rattle.code_arith.specs.Answers.{answer};
ghost use Rattle.wasm_syntax.specs.Operators.{signed, ishr_s, irotl, irotr, idiv_s, idiv_u, irem_s, irem_u, extend_s, iextend_s};

use crate::trap::ArithTrap;

// The bits of the least signed number.
const LEAST: u64 = 0x8000_0000_0000_0000;

#[inline]
pub(crate) fn lt_s(x: u64, y: u64) -> bool
    ensures { result ≡ int_lt (signed 64 x) (signed 64 y) }
{
    x.cast_signed() < y.cast_signed()
}

#[inline]
pub(crate) fn le_s(x: u64, y: u64) -> bool
    ensures { result ≡ int_le (signed 64 x) (signed 64 y) }
{
    x.cast_signed() <= y.cast_signed()
}

#[inline]
pub(crate) fn shr_s(x: u64, y: u32) -> u64
    ensures { result ≡ ishr_s 64 x y }
{
    x.cast_signed().wrapping_shr(y).cast_unsigned()
}

#[inline]
pub(crate) fn rotl(x: u64, y: u32) -> u64
    ensures { result ≡ irotl 64 x y }
{
    x.rotate_left(y)
}

#[inline]
pub(crate) fn rotr(x: u64, y: u32) -> u64
    ensures { result ≡ irotr 64 x y }
{
    x.rotate_right(y)
}

#[inline]
pub(crate) fn div_u(x: u64, y: u64) -> Result<u64, ArithTrap>
    ensures { result ≡ answer (idiv_u 64 x y) }
{
    if y == 0 {
        return Err(ArithTrap::IntegerDivisionByZero);
    }
    Ok(x / y)
}

#[inline]
pub(crate) fn rem_u(x: u64, y: u64) -> Result<u64, ArithTrap>
    ensures { result ≡ answer (irem_u 64 x y) }
{
    if y == 0 {
        return Err(ArithTrap::IntegerDivisionByZero);
    }
    Ok(x % y)
}

#[inline]
pub(crate) fn div_s(x: u64, y: u64) -> Result<u64, ArithTrap>
    ensures { result ≡ answer (idiv_s 64 x y) }
{
    if y == 0 {
        return Err(ArithTrap::IntegerDivisionByZero);
    }
    if x == LEAST && y == u64::MAX {
        return Err(ArithTrap::IntegerOverflow);
    }
    Ok((x.cast_signed() / y.cast_signed()).cast_unsigned())
}

#[inline]
pub(crate) fn rem_s(x: u64, y: u64) -> Result<u64, ArithTrap>
    ensures { result ≡ answer (irem_s 64 x y) }
{
    if y == 0 {
        return Err(ArithTrap::IntegerDivisionByZero);
    }
    Ok(
        x.cast_signed()
            .wrapping_rem(y.cast_signed())
            .cast_unsigned(),
    )
}

#[inline]
pub(crate) fn extend8_s(x: u64) -> u64
    ensures { result ≡ iextend_s 8 64 x }
{
    (((x % 0x100) as u8).cast_signed() as i64).cast_unsigned()
}

#[inline]
pub(crate) fn extend16_s(x: u64) -> u64
    ensures { result ≡ iextend_s 16 64 x }
{
    (((x % 0x1_0000) as u16).cast_signed() as i64).cast_unsigned()
}

#[inline]
pub(crate) fn extend32_s(x: u64) -> u64
    ensures { result ≡ iextend_s 32 64 x }
{
    (((x % 0x1_0000_0000) as u32).cast_signed() as i64).cast_unsigned()
}

#[inline]
pub(crate) fn extend_i32_s(x: u32) -> u64
    ensures { result ≡ extend_s 32 64 x }
{
    (x.cast_signed() as i64).cast_unsigned()
}
