// What the operators of 32 bits do beyond the methods of `u32`: signed readings, and traps.
ghost use Rattle.std.specs.Prelude.{◌≡◌, int_lt, int_le};
ghost use Rattle.code_arith.specs.Answers.{answer};
ghost use Rattle.wasm_syntax.specs.Operators.{signed, ishr_s, irotl, irotr, idiv_s, idiv_u, irem_s, irem_u, iextend_s};

use crate::trap::ArithTrap;

// The bits of the least signed number.
const LEAST: u32 = 0x8000_0000;

#[inline]
pub(crate) fn lt_s(x: u32, y: u32) -> bool
    ensures { result ≡ int_lt (signed 32 x) (signed 32 y) }
{
    x.cast_signed() < y.cast_signed()
}

#[inline]
pub(crate) fn le_s(x: u32, y: u32) -> bool
    ensures { result ≡ int_le (signed 32 x) (signed 32 y) }
{
    x.cast_signed() <= y.cast_signed()
}

#[inline]
pub(crate) fn shr_s(x: u32, y: u32) -> u32
    ensures { result ≡ ishr_s 32 x y }
{
    x.cast_signed().wrapping_shr(y).cast_unsigned()
}

#[inline]
pub(crate) fn rotl(x: u32, y: u32) -> u32
    ensures { result ≡ irotl 32 x y }
{
    x.rotate_left(y)
}

#[inline]
pub(crate) fn rotr(x: u32, y: u32) -> u32
    ensures { result ≡ irotr 32 x y }
{
    x.rotate_right(y)
}

#[inline]
pub(crate) fn div_u(x: u32, y: u32) -> Result<u32, ArithTrap>
    ensures { result ≡ answer (idiv_u 32 x y) }
{
    if y == 0 {
        return Err(ArithTrap::IntegerDivisionByZero);
    }
    Ok(x / y)
}

#[inline]
pub(crate) fn rem_u(x: u32, y: u32) -> Result<u32, ArithTrap>
    ensures { result ≡ answer (irem_u 32 x y) }
{
    if y == 0 {
        return Err(ArithTrap::IntegerDivisionByZero);
    }
    Ok(x % y)
}

#[inline]
pub(crate) fn div_s(x: u32, y: u32) -> Result<u32, ArithTrap>
    ensures { result ≡ answer (idiv_s 32 x y) }
{
    if y == 0 {
        return Err(ArithTrap::IntegerDivisionByZero);
    }
    if x == LEAST && y == u32::MAX {
        return Err(ArithTrap::IntegerOverflow);
    }
    Ok((x.cast_signed() / y.cast_signed()).cast_unsigned())
}

#[inline]
pub(crate) fn rem_s(x: u32, y: u32) -> Result<u32, ArithTrap>
    ensures { result ≡ answer (irem_s 32 x y) }
{
    if y == 0 {
        return Err(ArithTrap::IntegerDivisionByZero);
    }
    Ok(
        x.cast_signed()
            .wrapping_rem(y.cast_signed())
            .cast_unsigned(),
    )
}

#[inline]
pub(crate) fn extend8_s(x: u32) -> u32
    ensures { result ≡ iextend_s 8 32 x }
{
    (((x % 0x100) as u8).cast_signed() as i32).cast_unsigned()
}

#[inline]
pub(crate) fn extend16_s(x: u32) -> u32
    ensures { result ≡ iextend_s 16 32 x }
{
    (((x % 0x1_0000) as u16).cast_signed() as i32).cast_unsigned()
}
