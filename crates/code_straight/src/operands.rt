ghost use Rattle.std.specs.Prelude.{◌≡◌, ◌≤◌, ◌<◌, ◌^◌, IfSome, ℕ};
ghost use Rattle.spec_execution.specs.Operands as on;
ghost use Rattle.spec_execution.specs.Straight.{Sticks};
ghost use Rattle.code_straight.specs.Taking.{Takes, Takes2, Takes3, width, taking_two, taking_three, taking_stored, taking_element, taking_filling, taking_choice};

use code_stack::Values;
use wasm_objects::{RawRef, RawVal};

/// Takes a value.
#[inline]
pub(crate) fn take_value(values: &mut Values) -> Option<RawVal>
    ensures takes { Takes (on.on_value Sticks values.old.operands) result values.new.operands }
    ensures locals { values.new.locals ≡ values.old.locals }
    ensures below { values.new.below ≡ values.old.below }
    ensures room { IfSome result (λ v. values.old.room < values.new.room) }
    ensures least { values.old.room ≤ values.new.room }
{
    values.pop()
}

/// Takes an integer of 32 bits.
#[inline]
pub(crate) fn take_i32(values: &mut Values) -> Option<u32>
    ensures takes { Takes (on.on_i32 Sticks values.old.operands) result values.new.operands }
    ensures locals { values.new.locals ≡ values.old.locals }
    ensures below { values.new.below ≡ values.old.below }
    ensures room { IfSome result (λ v. values.old.room < values.new.room) }
    ensures least { values.old.room ≤ values.new.room }
{
    values.pop_i32()
}

/// Takes a reference.
#[inline]
pub(crate) fn take_reference(values: &mut Values) -> Option<RawRef>
    ensures takes { Takes (on.on_reference Sticks values.old.operands) result values.new.operands }
    ensures locals { values.new.locals ≡ values.old.locals }
    ensures below { values.new.below ≡ values.old.below }
    ensures room { IfSome result (λ v. values.old.room < values.new.room) }
    ensures least { values.old.room ≤ values.new.room }
{
    values.pop_reference()
}

/// Takes an integer, of 64 bits or of 32.
#[inline]
pub(crate) fn take_integer(values: &mut Values, wide: bool) -> Option<u64>
    ensures takes { Takes (on.on_integer Sticks (width wide) values.old.operands) result values.new.operands }
    ensures in_range { IfSome result (λ x. x < 2 ^ width wide) }
    ensures locals { values.new.locals ≡ values.old.locals }
    ensures below { values.new.below ≡ values.old.below }
    ensures room { IfSome result (λ v. values.old.room < values.new.room) }
    ensures least { values.old.room ≤ values.new.room }
{
    if wide {
        return values.pop_i64();
    }
    let x = values.pop_i32()?;
    Some(u64::from(x))
}

/// Takes two integers, of 64 bits or of 32, the second on top.
#[inline]
pub(crate) fn take_two(values: &mut Values, wide: bool) -> Option<(u64, u64)>
    ensures takes { (n : ℕ) → n ≡ width wide →
        Takes2 (taking_two n values.old.operands) result values.new.operands }
    ensures in_range { IfSome result (λ p. (p.0 < 2 ^ width wide) × (p.1 < 2 ^ width wide)) }
    ensures locals { values.new.locals ≡ values.old.locals }
    ensures below { values.new.below ≡ values.old.below }
    ensures room { IfSome result (λ v. values.old.room < values.new.room) }
    ensures least { values.old.room ≤ values.new.room }
{
    let y = take_integer(values, wide)?;
    let x = take_integer(values, wide)?;
    Some((x, y))
}

/// Takes three integers of 32 bits, the last on top.
#[inline]
pub(crate) fn take_three(values: &mut Values) -> Option<(u32, u32, u32)>
    ensures takes { Takes3 (taking_three values.old.operands) result values.new.operands }
    ensures locals { values.new.locals ≡ values.old.locals }
    ensures below { values.new.below ≡ values.old.below }
    ensures least { values.old.room ≤ values.new.room }
{
    let c = take_i32(values)?;
    let b = take_i32(values)?;
    let a = take_i32(values)?;
    Some((a, b, c))
}

/// Takes an address, and an integer on top of it.
#[inline]
pub(crate) fn take_stored(values: &mut Values, wide: bool) -> Option<(u32, u64)>
    ensures takes { (n : ℕ) → n ≡ width wide →
        Takes2 (taking_stored n values.old.operands) result values.new.operands }
    ensures in_range { IfSome result (λ p. p.1 < 2 ^ width wide) }
    ensures locals { values.new.locals ≡ values.old.locals }
    ensures below { values.new.below ≡ values.old.below }
    ensures least { values.old.room ≤ values.new.room }
{
    let v = take_integer(values, wide)?;
    let a = take_i32(values)?;
    Some((a, v))
}

/// Takes a place, and a reference on top of it.
#[inline]
pub(crate) fn take_element(values: &mut Values) -> Option<(u32, RawRef)>
    ensures takes { Takes2 (taking_element values.old.operands) result values.new.operands }
    ensures locals { values.new.locals ≡ values.old.locals }
    ensures below { values.new.below ≡ values.old.below }
    ensures least { values.old.room ≤ values.new.room }
{
    let y = take_reference(values)?;
    let at = take_i32(values)?;
    Some((at, y))
}

/// Takes a place, a reference and a number of elements on top of it.
#[inline]
pub(crate) fn take_filling(values: &mut Values) -> Option<(u32, RawRef, u32)>
    ensures takes { Takes3 (taking_filling values.old.operands) result values.new.operands }
    ensures locals { values.new.locals ≡ values.old.locals }
    ensures below { values.new.below ≡ values.old.below }
    ensures least { values.old.room ≤ values.new.room }
{
    let len = take_i32(values)?;
    let y = take_reference(values)?;
    let at = take_i32(values)?;
    Some((at, y, len))
}

/// Takes two values, and a condition on top of them.
#[inline]
pub(crate) fn take_choice(values: &mut Values) -> Option<(RawVal, RawVal, u32)>
    ensures takes { Takes3 (taking_choice values.old.operands) result values.new.operands }
    ensures locals { values.new.locals ≡ values.old.locals }
    ensures below { values.new.below ≡ values.old.below }
    ensures room { IfSome result (λ v. values.old.room < values.new.room) }
    ensures least { values.old.room ≤ values.new.room }
{
    let c = take_i32(values)?;
    let y = take_value(values)?;
    let x = take_value(values)?;
    Some((x, y, c))
}
