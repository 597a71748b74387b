ghost use Rattle.std.specs.Bool.{OnTrue, OnFalse};
ghost use Rattle.std.specs.Prelude.{◌≡◌, ◌+◌, ◌≤◌, ◌++◌, ◌&&◌, length, map, slice_get, vec_len, vec_capacity};
ghost use Rattle.wasm_types.specs.Ranges.{is_range, range_of, with_range};
ghost use Rattle.wasm_objects.specs.Slots.{
  reference_in,
  slot_of,
  cell_slot,
  is_open,
  settled,
  functions_of,
  references_in,
  AreSettledWithout,
};
ghost use Rattle.wasm_objects.specs.Lazy.{found_function};

use crate::ranges::{copy_from, copy_within};
use crate::raw::RawRef;
use std::rc::RcSlice;
use wasm_types::Cell;

/// What stands at a place of a table: a reference, or what a module's image has there, which no look-up has filled in yet.
// One enum of 16 bytes: a slot that held a reference or a cell would have 24.
#[derive(Clone, Copy)]
pub(crate) enum Slot {
    Null,
    Func(usize),
    Extern(u64),
    I31(u32),
    AtInit,
    AtNull,
    AtFunc(u32),
}

impl Slot {
    // A reference at its place.
    pub(crate) fn of(value: RawRef) -> Slot
        ensures { result ≡ slot_of value }
    {
        match value {
            RawRef::Null => Slot::Null,
            RawRef::Func(number) => Slot::Func(number),
            RawRef::Extern(number) => Slot::Extern(number),
            RawRef::I31(number) => Slot::I31(number),
        }
    }

    // A cell of an image, unfilled.
    pub(crate) fn unfilled(cell: Cell) -> Slot
        ensures { result ≡ cell_slot cell }
    {
        match cell {
            Cell::Init => Slot::AtInit,
            Cell::Null => Slot::AtNull,
            Cell::Func(function) => Slot::AtFunc(function),
        }
    }

    // Whether nothing was filled in yet.
    pub(crate) fn is_open(self) -> bool
        ensures { result ≡ is_open self }
    {
        match self {
            Slot::AtInit | Slot::AtNull | Slot::AtFunc(_) => true,
            _ => false,
        }
    }

    // What it means in a table that begins with `init`, over the functions of a module.
    pub(crate) fn reference(self, init: RawRef, functions: &[usize]) -> RawRef
        ensures { result ≡ reference_in init functions.now self }
    {
        match self {
            Slot::Null | Slot::AtNull => RawRef::Null,
            Slot::Func(number) => RawRef::Func(number),
            Slot::Extern(number) => RawRef::Extern(number),
            Slot::I31(number) => RawRef::I31(number),
            Slot::AtInit => init,
            Slot::AtFunc(function) => function_at(functions, function),
        }
    }
}

// The function of a module that has this number there.
fn function_at(functions: &[usize], function: u32) -> RawRef
    ensures { result ≡ found_function (slice_get functions.now function) }
{
    match functions.get(function as usize).copied() {
        Some(number) => RawRef::Func(number),
        None => RawRef::Null,
    }
}

// Fills in what each place means.
pub(crate) fn settle(slots: &mut [Slot], init: RawRef, functions: &[usize])
    ensures { slots.new ≡ map (settled init functions.now) slots.old }
{
    for slot in slots.iter_mut() {
        *slot = Slot::of(slot.reference(init, functions));
    }
}

// Appends the cells of an image, unfilled, for which there is room. It takes no memory.
pub(crate) fn open_cells(slots: &mut Vec<Slot>, image: &[Cell])
    requires { vec_len slots.old + length image.now ≤ vec_capacity slots.old }
    ensures cells { slots.new.items ≡ slots.old.items ++ map cell_slot image.now }
    ensures room { vec_capacity slots.new ≡ vec_capacity slots.old }
{
    for cell in image {
        slots.push_reserved(Slot::unfilled(*cell));
    }
}

// Appends references, for which there is room. It takes no memory.
pub(crate) fn references(slots: &mut Vec<Slot>, items: &[RawRef])
    requires { vec_len slots.old + length items.now ≤ vec_capacity slots.old }
    ensures { slots.new.items ≡ slots.old.items ++ map slot_of items.now }
{
    for item in items {
        slots.push_reserved(Slot::of(*item));
    }
}

// What stands at a place.
#[inline]
pub(crate) fn slot_at(slots: &[Slot], at: usize) -> Option<Slot>
    ensures { result ≡ slice_get slots.now at }
{
    slots.get(at).copied()
}

// The functions of a module that open places name; none where there are no such places.
pub(crate) fn listed(functions: &Option<RcSlice<usize>>) -> &[usize]
    ensures { result.now ≡ functions_of functions.now }
{
    match functions {
        Some(functions) => functions.as_slice(),
        None => &[],
    }
}

// Fills in what each place of a range means.
fn settle_range(slots: &mut [Slot], at: usize, len: usize, init: RawRef, functions: &[usize])
    requires { at + len ≤ length slots.old }
    ensures { slots.new ≡ with_range at (map (settled init functions.now) (range_of at len slots.old)) slots.old }
{
    settle(&mut slots[at..at + len], init, functions);
}

// Replaces `len` places from the place `dst` on by what those from the place `src` on meant; `false` exactly where one of
// the two ranges passes the end.
pub(crate) fn copy_slots_within(
    slots: &mut [Slot],
    dst: usize,
    src: usize,
    len: usize,
    init: RawRef,
    functions: &Option<RcSlice<usize>>,
) -> bool
    requires { AreSettledWithout functions.now slots.old }
    ensures range { result ≡ (is_range dst len slots.old && is_range src len slots.old) }
    ensures copied { OnTrue result (slots.new ≡ with_range dst
        (map slot_of (range_of src len (references_in init (functions_of functions.now) slots.old))) slots.old) }
    ensures refused { OnFalse result (slots.new ≡ slots.old) }
{
    if !copy_within(slots, dst, src, len) {
        return false;
    }
    if let Some(functions) = functions {
        settle_range(slots, dst, len, init, functions.as_slice());
    }
    true
}

// Replaces `len` places from the place `dst` on by what those of `source` from its place `src` on mean where they stand;
// `false` exactly where one of the two ranges passes its end.
pub(crate) fn copy_slots_from(
    slots: &mut [Slot],
    dst: usize,
    source: &[Slot],
    src: usize,
    len: usize,
    init: RawRef,
    functions: &Option<RcSlice<usize>>,
) -> bool
    requires { AreSettledWithout functions.now source.now }
    ensures range { result ≡ (is_range dst len slots.old && is_range src len source.now) }
    ensures copied { OnTrue result (slots.new ≡ with_range dst
        (map slot_of (range_of src len (references_in init (functions_of functions.now) source.now))) slots.old) }
    ensures refused { OnFalse result (slots.new ≡ slots.old) }
{
    if !copy_from(slots, dst, source, src, len) {
        return false;
    }
    if let Some(functions) = functions {
        settle_range(slots, dst, len, init, functions.as_slice());
    }
    true
}
