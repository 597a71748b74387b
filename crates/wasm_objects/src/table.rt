ghost use Rattle.std.specs.Prelude.{◌≡◌, ◌≤◌, ◌&&◌, ◌++◌, length, map, nat_lt, replicate, slice_get, set, false, true, Some, IfOk, IfSome, OnOk};
ghost use Rattle.std.specs.Bool.{OnTrue, OnFalse};
ghost use Rattle.std.specs.Rc.{rc_slice_items};
ghost use Rattle.wasm_types.specs.Ranges.{is_range, range_of, with_range};
ghost use Rattle.wasm_objects.specs.Tables.{table, new_table};
ghost use Rattle.wasm_objects.specs.Growth.{longer_table};
ghost use Rattle.wasm_objects.specs.Lazy.{lazy_table, filled_behind};
ghost use Rattle.wasm_objects.specs.declared.raw.RawRef.TheVariants as r;

use crate::ranges::{fill, lengthen};
use crate::raw::RawRef;
use crate::segments::ElemSegment;
use crate::slots::{Slot, copy_slots_from, copy_slots_within, listed, open_cells, slot_at};
use std::alloc::Global;
use std::marker::Model;
use std::rc::RcSlice;
use wasm_types::{Cell, OutOfMemory, TableType};

/// A table: its type, and its elements. Contracts see both; for how many more elements there is room; which places are
/// unfilled, as those of a table that begins with an image are until they are looked up or written to; and how many of
/// them look-ups filled.
pub struct TableObject {
    ty: TableType,
    slots: Vec<Slot>,
    // What a place means that the image left as it was, and the functions that its cells name.
    init: RawRef,
    functions: Option<RcSlice<usize>>,
    filled: usize,
}

// Written out, so that the crates above do not prove it again of all that is in it.
impl Drop for TableObject {
    fn drop(self) {
        let TableObject {
            ty: _ty,
            slots: _slots,
            init: _init,
            functions: _functions,
            filled: _filled,
        } = self;
    }
}

impl Model for TableObject {
    ghost use Rattle.std.specs.Prelude.{◌-◌, ◌≤◌, vec_len, vec_capacity};
    ghost use Rattle.wasm_objects.specs.Tables.{table};
    ghost use Rattle.wasm_objects.specs.Growth.{TableObjectParts};
    ghost use Rattle.wasm_objects.specs.Objects.{table_object_parts, table_object_code};
    ghost use Rattle.wasm_objects.specs.Slots.{references_in, open_places, functions_of, count_settled, AreSettledWithout};

    ghost Value = { TableObjectParts };

    ghost coded = { table_object_code };

    ghost view = { λ t. table_object_parts (table t.ty (references_in t.init (functions_of t.functions) t.slots.items))
        (vec_capacity t.slots - vec_len t.slots) (open_places t.slots.items) t.filled };

    ghost invariant = { λ t. (t.filled ≤ count_settled t.slots.items) × AreSettledWithout t.functions t.slots.items };
}

impl TableObject {
    /// A table of the minimum of `ty`, with `init` as each element.
    pub fn try_new(alloc: Global, ty: TableType, init: RawRef) -> Result<TableObject, OutOfMemory>
        ensures made { IfOk result (λ made. made.table ≡ new_table ty init) }
        ensures places { IfOk result (λ made. made.unfilled ≡ replicate ty.minimum false) }
        ensures count { IfOk result (λ made. made.filled ≡ 0) }
    {
        let size = ty.minimum() as usize;
        let slots = vec![in alloc; Slot::of(init); size]?;
        Ok(TableObject {
            ty,
            slots,
            init,
            functions: None,
            filled: 0,
        })
    }

    /// A table of the minimum of `ty` that begins with an image, which fits it: `init` where the image has `Cell::Init` and
    /// behind it, and the functions of a module by their numbers in the store. No place is filled.
    pub fn try_new_lazy(
        alloc: Global,
        ty: TableType,
        init: RawRef,
        image: RcSlice<Cell>,
        functions: RcSlice<usize>,
    ) -> Result<TableObject, OutOfMemory>
        requires fits { length (rc_slice_items image) ≤ ty.minimum }
        ensures made { IfOk result (λ made. made.table ≡ lazy_table ty init (rc_slice_items image) (rc_slice_items functions)) }
        ensures places { IfOk result (λ made. made.unfilled ≡ replicate ty.minimum true) }
        ensures count { IfOk result (λ made. made.filled ≡ 0) }
    {
        let size = ty.minimum() as usize;
        let mut slots = Vec::with_capacity(alloc, size)?;
        open_cells(&mut slots, image.as_slice());
        let rest = size - image.len();
        lengthen(&mut slots, rest, Slot::AtInit);
        Ok(TableObject {
            ty,
            slots,
            init,
            functions: Some(functions),
            filled: 0,
        })
    }

    /// The type that it was made with.
    pub fn ty(&self) -> &TableType
        ensures { result.now ≡ self.now.table.ty }
    {
        &self.ty
    }

    /// How many elements there are.
    pub fn size(&self) -> usize
        ensures { result ≡ length self.now.table.elements }
    {
        self.slots.len()
    }

    /// How many look-ups filled a place.
    pub fn filled(&self) -> usize
        ensures value { result ≡ self.now.filled }
        ensures within { result ≤ length self.now.table.elements }
    {
        self.filled
    }

    /// The element at the place `at`, from 0 on, without filling it; `None` past the end.
    pub fn peek(&self, at: usize) -> Option<RawRef>
        ensures { result ≡ slice_get self.now.table.elements at }
    {
        let slot = slot_at(&self.slots, at)?;
        Some(slot.reference(self.init, listed(&self.functions)))
    }

    /// The element at the place `at`, from 0 on; `None` past the end. A place that was unfilled is filled, and counted.
    pub fn get(&mut self, at: usize) -> Option<RawRef>
        ensures value { result ≡ slice_get self.old.table.elements at }
        ensures unchanged { self.new.table ≡ self.old.table }
        ensures places { self.new.unfilled ≡ set self.old.unfilled at false }
        ensures count { self.new.filled ≡ filled_behind self.old.filled self.old.unfilled at }
    {
        let slot = slot_at(&self.slots, at)?;
        let value = slot.reference(self.init, listed(&self.functions));
        if !slot.is_open() {
            return Some(value);
        }
        self.slots[at] = Slot::of(value);
        self.filled += 1;
        Some(value)
    }

    /// The function at the place `at`, by its number in the store, where one stands there and the place is filled.
    #[inline]
    pub fn filled_function(&self, at: usize) -> Option<usize>
        ensures { IfSome result (λ number. slice_get self.now.table.elements at ≡ Some (r.Func number)) }
    {
        match slot_at(&self.slots, at) {
            Some(Slot::Func(number)) => Some(number),
            _ => None,
        }
    }

    /// Makes `value` the element at the place `at`, and changes no other. The place is filled then, and not counted.
    ///
    /// `false` exactly past the end: then nothing changes.
    pub fn set(&mut self, at: usize, value: RawRef) -> bool
        ensures range { result ≡ nat_lt at (length self.old.table.elements) }
        ensures written { OnTrue result
            (self.new.table ≡ table self.old.table.ty (set self.old.table.elements at value)) }
        ensures refused { OnFalse result (self.new.table ≡ self.old.table) }
        ensures places { OnTrue result (self.new.unfilled ≡ set self.old.unfilled at false) }
        ensures refused_places { OnFalse result (self.new.unfilled ≡ self.old.unfilled) }
        ensures count { self.new.filled ≡ self.old.filled }
    {
        if at >= self.slots.len() {
            return false;
        }
        self.slots[at] = Slot::of(value);
        true
    }

    /// Makes room for `extra` more elements, without which `grow` may not be called.
    pub fn reserve(&mut self, extra: usize) -> Result<(), OutOfMemory>
        ensures room { OnOk result (extra ≤ self.new.spare) }
        ensures unchanged { self.new.table ≡ self.old.table }
        ensures places { self.new.unfilled ≡ self.old.unfilled }
        ensures count { self.new.filled ≡ self.old.filled }
    {
        self.slots.reserve(extra)?;
        Ok(())
    }

    /// Appends `extra` elements, each of them `value`, for which there is room. It takes no memory.
    pub fn grow(&mut self, extra: usize, value: RawRef)
        requires { extra ≤ self.old.spare }
        ensures longer { self.new.table ≡ longer_table self.old.table extra value }
        ensures places { self.new.unfilled ≡ self.old.unfilled ++ replicate extra false }
        ensures count { self.new.filled ≡ self.old.filled }
    {
        lengthen(&mut self.slots, extra, Slot::of(value));
    }

    /// Makes `len` elements from the place `at` on all `value`.
    ///
    /// `false` exactly where that range passes the end: then nothing changes.
    pub fn fill(&mut self, at: usize, value: RawRef, len: usize) -> bool
        ensures range { result ≡ is_range at len self.old.table.elements }
        ensures filled { OnTrue result (self.new.table ≡ table self.old.table.ty
            (with_range at (replicate len value) self.old.table.elements)) }
        ensures refused { OnFalse result (self.new.table ≡ self.old.table) }
        ensures places { OnTrue result (self.new.unfilled ≡ with_range at (replicate len false) self.old.unfilled) }
        ensures refused_places { OnFalse result (self.new.unfilled ≡ self.old.unfilled) }
        ensures count { self.new.filled ≡ self.old.filled }
    {
        fill(&mut self.slots, at, Slot::of(value), len)
    }

    /// Replaces `len` elements from the place `dst` on by those from the place `src` on, as they were before. A place that
    /// is copied to is filled, and one that is copied from stays as it was.
    ///
    /// `false` exactly where one of the two ranges passes the end: then nothing changes.
    pub fn copy_within(&mut self, dst: usize, src: usize, len: usize) -> bool
        ensures range { result ≡
            (is_range dst len self.old.table.elements && is_range src len self.old.table.elements) }
        ensures copied { OnTrue result (self.new.table ≡ table self.old.table.ty
            (with_range dst (range_of src len self.old.table.elements) self.old.table.elements)) }
        ensures refused { OnFalse result (self.new.table ≡ self.old.table) }
        ensures places { OnTrue result (self.new.unfilled ≡ with_range dst (replicate len false) self.old.unfilled) }
        ensures refused_places { OnFalse result (self.new.unfilled ≡ self.old.unfilled) }
        ensures count { self.new.filled ≡ self.old.filled }
    {
        copy_slots_within(&mut self.slots, dst, src, len, self.init, &self.functions)
    }

    /// Replaces `len` elements from the place `dst` on by those of another table from its place `src` on.
    ///
    /// `false` exactly where one of the two ranges passes the end of its table: then nothing changes.
    pub fn copy_from(&mut self, dst: usize, other: &TableObject, src: usize, len: usize) -> bool
        ensures range { result ≡
            (is_range dst len self.old.table.elements && is_range src len other.now.table.elements) }
        ensures copied { OnTrue result (self.new.table ≡ table self.old.table.ty
            (with_range dst (range_of src len other.now.table.elements) self.old.table.elements)) }
        ensures refused { OnFalse result (self.new.table ≡ self.old.table) }
        ensures places { OnTrue result (self.new.unfilled ≡ with_range dst (replicate len false) self.old.unfilled) }
        ensures refused_places { OnFalse result (self.new.unfilled ≡ self.old.unfilled) }
        ensures count { self.new.filled ≡ self.old.filled }
    {
        copy_slots_from(
            &mut self.slots,
            dst,
            &other.slots,
            src,
            len,
            other.init,
            &other.functions,
        )
    }

    /// Replaces `len` elements from the place `dst` on by those of a segment from its place `src` on.
    ///
    /// `false` exactly where one of the two ranges passes its end: then nothing changes.
    pub fn init(&mut self, dst: usize, segment: &ElemSegment, src: usize, len: usize) -> bool
        ensures range { result ≡ (is_range dst len self.old.table.elements && is_range src len segment.now) }
        ensures copied { OnTrue result (self.new.table ≡ table self.old.table.ty
            (with_range dst (range_of src len segment.now) self.old.table.elements)) }
        ensures refused { OnFalse result (self.new.table ≡ self.old.table) }
        ensures places { OnTrue result (self.new.unfilled ≡ with_range dst (replicate len false) self.old.unfilled) }
        ensures refused_places { OnFalse result (self.new.unfilled ≡ self.old.unfilled) }
        ensures count { self.new.filled ≡ self.old.filled }
    {
        segment.copy_into(&mut self.slots, dst, src, len)
    }
}
