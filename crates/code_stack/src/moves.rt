// Values copied as the machine does it best. A value is an enum, which an assignment copies a field of each variant at a
// time; an array of one value is copied in whole, by two moves of 16 bytes. And a row's branches and calls pass none or
// one value nearly always, where a call of the C library's `memmove` would cost more than all else that they do.
ghost use Rattle.std.specs.Prelude.{◌≡◌, ◌+◌, ◌≤◌, ◌<◌, length, drop, set, get_or, vec_len};
ghost use lib.Seq.{paste};
ghost use Rattle.wasm_objects.specs.declared.raw.RawVal.{RawVal};

use std::array;
use wasm_objects::RawVal;

/// Makes the value at a place that at a place of another slice.
#[inline]
pub fn copy_value_from(values: &mut [RawVal], at: usize, from: &[RawVal], place: usize)
    requires there { at < length values.old }
    requires found { place < length from.now }
    ensures { (d : RawVal) → values.new ≡ set values.old at (get_or from.now place d) }
{
    *array::from_mut(&mut values[at]) = *array::from_ref(&from[place]);
}

/// Makes the value at a place that at another place.
#[inline]
pub fn copy_value(values: &mut [RawVal], at: usize, place: usize)
    requires there { at < length values.old }
    requires found { place < length values.old }
    ensures { (d : RawVal) → values.new ≡ set values.old at (get_or values.old place d) }
{
    let value = *array::from_ref(&values[place]);
    *array::from_mut(&mut values[at]) = value;
}

/// Makes the items from a place on these values.
#[inline]
pub(crate) fn write(items: &mut Vec<RawVal>, at: usize, values: &[RawVal])
    requires { at + length values.now ≤ vec_len items.old }
    ensures items { items.new.items ≡ paste items.old.items at values.now (length values.now) }
    ensures len { vec_len items.new ≡ vec_len items.old }
{
    match values.len() {
        0 => {}
        1 => copy_value_from(items.as_mut_slice(), at, values, 0),
        _ => write_many(items, at, values),
    }
}

// Out of place, so that the loop takes no registers of the code around the frequent cases.
#[inline(never)]
fn write_many(items: &mut Vec<RawVal>, at: usize, values: &[RawVal])
    requires { at + length values.now ≤ vec_len items.old }
    ensures items { items.new.items ≡ paste items.old.items at values.now (length values.now) }
    ensures len { vec_len items.new ≡ vec_len items.old }
{
    items
        .slice_mut(at..at + values.len())
        .copy_from_slice(values);
}

/// Makes the items from a place on those from another place on.
#[inline]
pub(crate) fn copy_within(items: &mut Vec<RawVal>, at: usize, place: usize, count: usize)
    requires there { at + count ≤ vec_len items.old }
    requires found { place + count ≤ vec_len items.old }
    ensures items { items.new.items ≡ paste items.old.items at (drop place items.old.items) count }
    ensures len { vec_len items.new ≡ vec_len items.old }
{
    match count {
        0 => {}
        1 => copy_value(items.as_mut_slice(), at, place),
        _ => copy_many(items, at, place, count),
    }
}

// Out of place too, and behind all else: few labels and functions have more than one result.
#[cold]
#[inline(never)]
fn copy_many(items: &mut Vec<RawVal>, at: usize, place: usize, count: usize)
    requires there { at + count ≤ vec_len items.old }
    requires found { place + count ≤ vec_len items.old }
    ensures items { items.new.items ≡ paste items.old.items at (drop place items.old.items) count }
    ensures len { vec_len items.new ≡ vec_len items.old }
{
    items.copy_within(place..place + count, at);
}
