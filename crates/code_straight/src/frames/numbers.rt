ghost use Rattle.std.specs.Prelude.{◌≡◌, ◌≤◌, List, length};
ghost use Rattle.wasm_objects.specs.declared.raw.RawVal.{RawVal};
ghost use Rattle.wasm_syntax.specs.Operators.{binary_width};
ghost use Rattle.wasm_syntax.specs.declared.instr.Instr.TheVariants as i;
ghost use Rattle.code_straight.specs.Frames.{ActsInAny, IsWithin};

use crate::frames::Framed;
use crate::frames::operands::{put_value, top_integer, top_two};
use crate::numbers::{
    gives_one_wide, integer, integer32, takes_two_wide, takes_wide, trap_of, unary_operand,
};
use wasm_objects::RawVal;
use wasm_syntax::{BinOp, UnOp};

/// An operator of one operand.
#[inline]
pub fn unary(operands: &mut [RawVal], height: usize, op: UnOp) -> Framed
    requires within { height ≤ length operands.old }
    ensures acts { (locals : List RawVal) →
        ActsInAny (i.Unary op) height operands.old locals result operands.new locals }
    ensures long { length operands.new ≡ length operands.old }
    ensures height { IsWithin result operands.new }
{
    let Some(x) = top_integer(operands, height, takes_wide(op)) else {
        return Framed::Sticks;
    };
    put_value(&mut operands[height - 1], unary_operand(op, x));
    Framed::Goes(height)
}

/// An operator of two operands.
#[inline]
pub fn binary(operands: &mut [RawVal], height: usize, op: BinOp) -> Framed
    requires within { height ≤ length operands.old }
    ensures acts { (locals : List RawVal) →
        ActsInAny (i.Binary op) height operands.old locals result operands.new locals }
    ensures long { length operands.new ≡ length operands.old }
    ensures height { IsWithin result operands.new }
{
    if takes_two_wide(op) {
        return binary64(operands, height, op);
    }
    binary32(operands, height, op)
}

/// An operator of two integers of 32 bits. Each of these gives one of 32 bits too, so that nothing is asked of the
/// width of its result.
#[inline]
fn binary32(operands: &mut [RawVal], height: usize, op: BinOp) -> Framed
    requires within { height ≤ length operands.old }
    requires width { binary_width op ≡ 32 }
    ensures acts { (locals : List RawVal) →
        ActsInAny (i.Binary op) height operands.old locals result operands.new locals }
    ensures long { length operands.new ≡ length operands.old }
    ensures height { IsWithin result operands.new }
{
    let Some((x, y)) = top_two(operands, height, false) else {
        return Framed::Sticks;
    };
    match code_arith::binary32(op, x as u32, y as u32) {
        Ok(n) => {
            put_value(&mut operands[height - 2], integer32(n));
            Framed::Goes(height - 1)
        }
        Err(trap) => Framed::Traps(trap_of(trap)),
    }
}

/// An operator of two integers of 64 bits.
#[inline]
fn binary64(operands: &mut [RawVal], height: usize, op: BinOp) -> Framed
    requires within { height ≤ length operands.old }
    requires width { binary_width op ≡ 64 }
    ensures acts { (locals : List RawVal) →
        ActsInAny (i.Binary op) height operands.old locals result operands.new locals }
    ensures long { length operands.new ≡ length operands.old }
    ensures height { IsWithin result operands.new }
{
    let Some((x, y)) = top_two(operands, height, true) else {
        return Framed::Sticks;
    };
    let wide = gives_one_wide(op);
    match code_arith::binary64(op, x, y) {
        Ok(n) => {
            put_value(&mut operands[height - 2], integer(wide, n));
            Framed::Goes(height - 1)
        }
        Err(trap) => Framed::Traps(trap_of(trap)),
    }
}
