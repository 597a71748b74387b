ghost use Rattle.std.specs.Bool.{OnTrue, OnFalse};
ghost use Rattle.std.specs.Prelude.{◌≡◌, ◌&&◌, [], length, map, slice_get, IfOk};
ghost use Rattle.wasm_types.specs.Ranges.{is_range, range_of, with_range};
ghost use Rattle.wasm_objects.specs.Slots.{slot_of};

use crate::raw::RawRef;
use crate::slots::{Slot, copy_slots_from, references, slot_at};
use std::alloc::Global;
use std::marker::Model;
use wasm_types::OutOfMemory;

/// An element segment: the references that `table.init` copies from. Contracts see the list of them.
pub struct ElemSegment {
    // As they stand in a table, each of them filled, so that they are copied as they are.
    slots: Vec<Slot>,
}

// Written out, so that the crates above do not prove it again of all that is in it.
impl Drop for ElemSegment {
    fn drop(self) {
        let ElemSegment { slots: _slots } = self;
    }
}

impl Model for ElemSegment {
    ghost use Rattle.std.specs.Prelude.{List, []};
    ghost use Rattle.std.specs.Coded.{coded_list};
    ghost use Rattle.wasm_objects.specs.declared.raw.RawRef.{RawRef};
    ghost use Rattle.wasm_objects.specs.declared.raw.RawRef.TheVariants as r;
    ghost use Rattle.wasm_objects.specs.contracts.raw.RawRef as raw_ref;
    ghost use Rattle.wasm_objects.specs.Slots.{references_in, AreSettled};

    ghost Value = { List RawRef };

    ghost coded = { coded_list raw_ref.the_row.coded };

    ghost view = { λ s. references_in r.Null [] s.slots.items };

    ghost invariant = { λ s. AreSettled s.slots.items };
}

impl ElemSegment {
    /// A segment of these references.
    pub fn try_new(alloc: Global, items: &[RawRef]) -> Result<ElemSegment, OutOfMemory>
        ensures { IfOk result (λ made. made ≡ items.now) }
    {
        let mut slots = Vec::with_capacity(alloc, items.len())?;
        references(&mut slots, items);
        Ok(ElemSegment { slots })
    }

    /// How many references there are.
    pub fn len(&self) -> usize
        ensures { result ≡ length self.now }
    {
        self.slots.len()
    }

    /// The reference at the place `at`, from 0 on; `None` past the end.
    pub fn get(&self, at: usize) -> Option<RawRef>
        ensures { result ≡ slice_get self.now at }
    {
        let slot = slot_at(&self.slots, at)?;
        Some(slot.reference(RawRef::Null, &[]))
    }

    /// Makes it empty, and gives its memory back.
    pub fn clear(&mut self)
        ensures { self.new ≡ [] }
    {
        self.slots.clear();
        self.slots.shrink_to_fit();
    }

    // Replaces `len` places of a table from the place `dst` on by the references from the place `src` on; `false` exactly
    // where one of the two ranges passes its end.
    pub(crate) fn copy_into(&self, slots: &mut [Slot], dst: usize, src: usize, len: usize) -> bool
        ensures range { result ≡ (is_range dst len slots.old && is_range src len self.now) }
        ensures copied { OnTrue result (slots.new ≡ with_range dst (map slot_of (range_of src len self.now)) slots.old) }
        ensures refused { OnFalse result (slots.new ≡ slots.old) }
    {
        copy_slots_from(slots, dst, &self.slots, src, len, RawRef::Null, &None)
    }
}

/// A data segment: the bytes that `memory.init` copies from. Contracts see the list of them.
pub struct DataSegment {
    bytes: Vec<u8>,
}

// Written out, so that the crates above do not prove it again of all that is in it.
impl Drop for DataSegment {
    fn drop(self) {
        let DataSegment { bytes: _bytes } = self;
    }
}

impl Model for DataSegment {
    ghost use Rattle.std.specs.Prelude.{ℕ, List};

    ghost Value = { List ℕ };

    ghost view = { λ s. s.bytes.items };
}

impl DataSegment {
    /// A segment of these bytes.
    pub fn try_new(alloc: Global, bytes: &[u8]) -> Result<DataSegment, OutOfMemory>
        ensures { IfOk result (λ made. made ≡ bytes.now) }
    {
        let bytes = Vec::from_slice(alloc, bytes)?;
        Ok(DataSegment { bytes })
    }

    /// How many bytes there are.
    pub fn len(&self) -> usize
        ensures { result ≡ length self.now }
    {
        self.bytes.len()
    }

    /// Makes it empty, and gives its memory back.
    pub fn clear(&mut self)
        ensures { self.new ≡ [] }
    {
        self.bytes.clear();
        self.bytes.shrink_to_fit();
    }

    pub(crate) fn items(&self) -> &[u8]
        ensures { result.now ≡ self.now }
    {
        self.bytes.as_slice()
    }
}
