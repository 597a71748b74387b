ghost use Rattle.std.specs.Prelude.{◌≡◌, ◌≤◌, ◌<◌, ◌-◌, ◌^◌, ◌∷◌, ◌==◌, if◌then◌else◌, ℕ, List, length, IfSome, MatchOption};
ghost use Rattle.wasm_objects.specs.declared.raw.RawVal.{RawVal};
ghost use Rattle.wasm_objects.specs.declared.raw.RawVal.TheVariants as w;
ghost use Rattle.wasm_syntax.specs.declared.instr.Instr.TheVariants as i;
ghost use Rattle.spec_execution.specs.Operands as on;
ghost use Rattle.spec_execution.specs.Straight.{Sticks};
ghost use Rattle.code_stack.specs.Reading.{LacksI32, TakesI32};
ghost use Rattle.code_straight.specs.Frames.{topmost, ActsInAny, IsWithin};
ghost use Rattle.code_straight.specs.Taking.{Takes, Takes2, width, taking_two, taking_stored};

use crate::frames::Framed;
use code_stack::copy_value;
use wasm_objects::RawVal;

/// Makes an operand an integer of 32 bits: where it is one, its number alone is written.
#[inline]
fn put_integer32(operand: &mut RawVal, n: i32)
    ensures { operand.new ≡ w.I32 n }
{
    match operand {
        RawVal::I32(number) => *number = n,
        _ => *operand = RawVal::I32(n),
    }
}

/// Makes an operand an integer of 64 bits: where it is one, its number alone is written.
#[inline]
fn put_integer64(operand: &mut RawVal, n: i64)
    ensures { operand.new ≡ w.I64 n }
{
    match operand {
        RawVal::I64(number) => *number = n,
        _ => *operand = RawVal::I64(n),
    }
}

/// Makes an operand this value. An integer goes into the one of its width that mostly stands there: one store, where a
/// whole value takes four.
#[inline]
pub(crate) fn put_value(operand: &mut RawVal, value: RawVal)
    ensures { operand.new ≡ value }
{
    match value {
        RawVal::I32(n) => put_integer32(operand, n),
        RawVal::I64(n) => put_integer64(operand, n),
        _ => *operand = value,
    }
}

/// An operand more, and the height with it.
#[inline]
pub fn constant(operands: &mut [RawVal], height: usize, value: RawVal) -> usize
    requires room { height < length operands.old }
    ensures pushed { topmost result operands.new ≡ value ∷ topmost height operands.old }
    ensures long { length operands.new ≡ length operands.old }
    ensures height { result ≤ length operands.new }
{
    put_value(&mut operands[height], value);
    height + 1
}

/// `drop`.
#[inline]
pub fn drop_value(operands: &[RawVal], height: usize) -> Framed
    requires within { height ≤ length operands.now }
    ensures acts { (locals : List RawVal) →
        ActsInAny i.Drop height operands.now locals result operands.now locals }
    ensures height { IsWithin result operands.now }
{
    if height == 0 {
        return Framed::Sticks;
    }
    Framed::Goes(height - 1)
}

/// `select`.
#[inline]
pub fn select(operands: &mut [RawVal], height: usize) -> Framed
    requires within { height ≤ length operands.old }
    ensures acts { (locals : List RawVal) →
        ActsInAny i.Select height operands.old locals result operands.new locals }
    ensures long { length operands.new ≡ length operands.old }
    ensures height { IsWithin result operands.new }
{
    if height < 3 {
        return Framed::Sticks;
    }
    let Some(condition) = integer32_in(&operands[height - 1]) else {
        return Framed::Sticks;
    };
    let chosen = chosen_place(height, condition);
    copy_value(operands, height - 3, chosen);
    Framed::Goes(height - 2)
}

// The place of the second of the two values below a condition where that is 0, else of the first: a place and no value,
// so that machine code can pick it without a jump.
#[inline]
fn chosen_place(height: usize, condition: u32) -> usize
    requires { 2 < height }
    ensures { result ≡ (if condition == 0 then height - 2 else height - 3) }
{
    if condition == 0 {
        return height - 2;
    }
    height - 3
}

/// The topmost operand.
#[inline]
pub(crate) fn top_value(operands: &[RawVal], height: usize) -> Option<RawVal>
    requires within { height ≤ length operands.now }
    ensures takes { Takes (on.on_value Sticks (topmost height operands.now)) result
        (topmost (height - 1) operands.now) }
    ensures some { IfSome result (λ v. 0 < height) }
{
    if height == 0 {
        return None;
    }
    Some(operands[height - 1])
}

/// The integer of 32 bits that an operand holds.
#[inline]
pub(crate) fn integer32_in(value: &RawVal) -> Option<u32>
    ensures { result ≡ on.integer_in 32 value.now }
{
    match value {
        RawVal::I32(n) => Some(n.cast_unsigned()),
        _ => None,
    }
}

/// The integer of 64 bits, or of 32, that an operand holds.
#[inline]
pub(crate) fn integer_in(value: &RawVal, wide: bool) -> Option<u64>
    ensures is { result ≡ on.integer_in (width wide) value.now }
    ensures in_range { IfSome result (λ x. x < 2 ^ width wide) }
{
    if wide {
        return match value {
            RawVal::I64(n) => Some(n.cast_unsigned()),
            _ => None,
        };
    }
    match value {
        RawVal::I32(n) => Some(u64::from(n.cast_unsigned())),
        _ => None,
    }
}

/// The topmost integer, of 64 bits or of 32.
#[inline]
pub(crate) fn top_integer(operands: &[RawVal], height: usize, wide: bool) -> Option<u64>
    requires within { height ≤ length operands.now }
    ensures takes { (n : ℕ) → n ≡ width wide →
        Takes (on.on_integer Sticks n (topmost height operands.now)) result (topmost (height - 1) operands.now) }
    ensures in_range { IfSome result (λ x. x < 2 ^ width wide) }
    ensures some { IfSome result (λ x. 0 < height) }
{
    if height == 0 {
        return None;
    }
    integer_in(&operands[height - 1], wide)
}

/// The topmost integer of 32 bits.
#[inline]
pub(crate) fn top_integer32(operands: &[RawVal], height: usize) -> Option<u32>
    requires within { height ≤ length operands.now }
    ensures takes { Takes (on.on_i32 Sticks (topmost height operands.now)) result
        (topmost (height - 1) operands.now) }
    ensures some { IfSome result (λ x. 0 < height) }
{
    if height == 0 {
        return None;
    }
    integer32_in(&operands[height - 1])
}

/// The topmost two integers, of 64 bits or of 32, the second on top.
#[inline]
pub(crate) fn top_two(operands: &[RawVal], height: usize, wide: bool) -> Option<(u64, u64)>
    requires within { height ≤ length operands.now }
    ensures takes { (n : ℕ) → n ≡ width wide →
        Takes2 (taking_two n (topmost height operands.now)) result (topmost (height - 2) operands.now) }
    ensures in_range { IfSome result (λ p. (p.0 < 2 ^ width wide) × (p.1 < 2 ^ width wide)) }
    ensures some { IfSome result (λ p. 1 < height) }
{
    if height < 2 {
        return None;
    }
    let y = integer_in(&operands[height - 1], wide)?;
    let x = integer_in(&operands[height - 2], wide)?;
    Some((x, y))
}

/// The topmost integer, of 64 bits or of 32, and the address below it.
#[inline]
pub(crate) fn top_stored(operands: &[RawVal], height: usize, wide: bool) -> Option<(u32, u64)>
    requires within { height ≤ length operands.now }
    ensures takes { (n : ℕ) → n ≡ width wide →
        Takes2 (taking_stored n (topmost height operands.now)) result (topmost (height - 2) operands.now) }
    ensures in_range { IfSome result (λ p. p.1 < 2 ^ width wide) }
    ensures some { IfSome result (λ p. 1 < height) }
{
    if height < 2 {
        return None;
    }
    let x = integer_in(&operands[height - 1], wide)?;
    let address = integer32_in(&operands[height - 2])?;
    Some((address, x))
}
