ghost use Rattle.std.specs.Prelude.{◌≡◌, ◌≤◌, ◌<◌, length, option_map, slice_get};
ghost use Rattle.std.proofs.Common.{subst, sym};
ghost use Rattle.spec_machine.specs.Growth.{table_range, table_growing};
ghost use Rattle.wasm_objects.specs.Growth.{longer_table};
ghost use Rattle.wasm_objects.specs.Tables.{table};
ghost use Rattle.store_state.specs.Changes.{Changes};
ghost use Rattle.store_state.specs.Lists.{element_at};
ghost use Rattle.store_state.specs.Objects.{takes_element, with_element};
ghost use Rattle.store_state.specs.Within.{IsTableSized, MayGrow};

use crate::object_list::{ObjectList, StoredObject};
use std::marker::Model;
use wasm_objects::{ElemSegment, RawRef, TableObject};
use wasm_types::{OutOfMemory, TableType};

/// The tables of a store.
pub(crate) type Tables = ObjectList<TableObject>;

/// A table as contracts see it. None is ever made.
#[derive(Drop)]
pub(crate) struct SeenTable {
    ty: TableType,
}

impl Model for SeenTable {
    ghost use Rattle.std.specs.Prelude.{[]};
    ghost use Rattle.wasm_objects.specs.Tables.{Table, table};
    ghost use Rattle.store_state.specs.Codes.{stored_table_code};

    ghost Value = { Table };

    ghost coded = { stored_table_code };

    ghost view = { λ s. table s.ty [] };
}

/// What a table is to grow by: so many elements, each of them `value`.
#[derive(Clone, Copy)]
pub(crate) struct MoreElements {
    pub(crate) extra: usize,
    pub(crate) value: RawRef,
}

impl StoredObject for TableObject {
    type Seen = SeenTable;

    type Item = RawRef;

    type Segment = ElemSegment;

    type Growth = MoreElements;

    ghost seen = { λ h. h.table };

    ghost is_sized = { IsTableSized };

    ghost items = { λ t. t.elements };

    ghost with_items = { λ t elements. table t.ty elements };

    ghost segment_items = { λ s. s };

    ghost may_grow = { λ t more. MayGrow table_range (table_growing t.ty (length t.elements) more.extra) };

    ghost longer = { λ t more. longer_table t more.extra more.value };

    #[inline]
    fn fill_items(&mut self, at: usize, value: RawRef, len: usize) -> bool {
        self.fill(at, value, len)
    }

    #[inline]
    fn copy_items(&mut self, at: usize, from: usize, len: usize) -> bool {
        self.copy_within(at, from, len)
    }

    #[inline]
    fn copy_items_of(&mut self, at: usize, other: &TableObject, from: usize, len: usize) -> bool {
        self.copy_from(at, other, from, len)
    }

    #[inline]
    fn init_items(&mut self, at: usize, segment: &ElemSegment, from: usize, len: usize) -> bool {
        self.init(at, segment, from, len)
    }

    fn lengthen(&mut self, more: MoreElements) -> Result<(), OutOfMemory> {
        self.reserve(more.extra)?;
        self.grow(more.extra, more.value);
        Ok(())
    }

    ghost sized_alike = { λ t other e s. subst (λ n. n ≤ table_range) (sym e) s };
}

impl ObjectList<TableObject> {
    /// The element at a place of the table of a number; `Some(None)` past its end, and `None` where there is no such
    /// table. A place that was unfilled is filled, which contracts do not see.
    #[inline]
    pub(crate) fn look_up(&mut self, number: usize, at: usize) -> Option<Option<RawRef>>
        ensures value { result ≡ option_map (element_at at) (slice_get self.old number) }
        ensures same { self.new ≡ self.old }
    {
        if number >= self.len() {
            return None;
        }
        Some(self.objects[number].get(at))
    }

    /// Replaces an element of the table at a place; `false` exactly past its end.
    pub(crate) fn set(&mut self, number: usize, at: usize, value: RawRef) -> bool
        requires { number < length self.old }
        ensures { Changes number (takes_element at) (with_element at value) self.old result self.new }
    {
        self.objects[number].set(at, value)
    }
}
