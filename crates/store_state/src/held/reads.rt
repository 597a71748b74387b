ghost use Rattle.std.specs.Prelude.{◌≡◌, slice_get, option_map, option_copied, Some};
ghost use Rattle.wasm_types.specs.Memories.{Memory as MemoryParts};
ghost use Rattle.wasm_objects.specs.Globals.{Global as GlobalParts};
ghost use Rattle.wasm_objects.specs.Tables.{Table as TableParts};
ghost use Rattle.store_state.specs.Lists.{memory_behind, table_behind, element_at};
ghost use Rattle.store_state.specs.Machine.{segments_at};
ghost use Rattle.store_state.specs.Within.{IsMemorySized, IsTableSized};

use crate::held::Held;
use wasm_objects::{ElemSegment, GlobalObject, MemoryObject, RawRef, RawVal, TableObject};
use wasm_types::FuncType;

impl Held {
    /// The memory of this number, lent.
    #[inline]
    pub fn memory(&self, number: usize) -> Option<&MemoryObject>
        ensures lent { option_map memory_behind result ≡ slice_get self.now.memories number }
        ensures sized { (m : MemoryParts) → slice_get self.now.memories number ≡ Some m → IsMemorySized m }
    {
        self.memories.get(number)
    }

    /// The table of this number, lent.
    #[inline]
    pub fn table(&self, number: usize) -> Option<&TableObject>
        ensures lent { option_map table_behind result ≡ slice_get self.now.tables number }
        ensures sized { (t : TableParts) → slice_get self.now.tables number ≡ Some t → IsTableSized t }
    {
        self.tables.get(number)
    }

    /// The element at a place of the table of this number; `Some(None)` past its end, and `None` where there is no such
    /// table. A place that was unfilled is filled, which contracts do not see.
    #[inline]
    pub fn look_up(&mut self, number: usize, at: usize) -> Option<Option<RawRef>>
        ensures value { result ≡ option_map (element_at at) (slice_get self.old.tables number) }
        ensures same { self.new ≡ self.old }
    {
        self.tables.look_up(number, at)
    }

    /// The global of this number, lent.
    pub fn global_object(&self, number: usize) -> Option<&GlobalObject>
        ensures { option_copied result ≡ slice_get self.now.globals number }
    {
        self.globals.get(number)
    }

    /// The type of the tag of this number, lent.
    pub fn tag(&self, number: usize) -> Option<&FuncType>
        ensures { option_copied result ≡ slice_get self.now.tags number }
    {
        self.tags.get(number)
    }

    /// The value of the global of this number.
    #[inline]
    pub fn global(&self, number: usize) -> Option<RawVal>
        ensures { result ≡ option_map (λ (g : GlobalParts). g.value) (slice_get self.now.globals number) }
    {
        Some(self.globals.get(number)?.get())
    }

    /// The element segments of an instance, lent; none where none are held.
    pub fn element_segments(&self, instance: usize) -> &[ElemSegment]
        ensures { result.now ≡ (segments_at self.now.segments instance).elements }
    {
        match self.segments.get(instance) {
            Some(segments) => segments.elements(),
            None => &[],
        }
    }
}
