ghost use Rattle.std.specs.Prelude.{◌≡◌, ◌<◌, ◌*◌, length, option_map, slice_get, Some};
ghost use Rattle.std.specs.Borrow.{sem};
ghost use Rattle.std.proofs.Common.{subst, sym};
ghost use Rattle.wasm_types.specs.Memories.{memory};
ghost use Rattle.wasm_types.specs.MemoryTypes.{page_size};
ghost use Rattle.spec_machine.specs.Growth.{memory_range, memory_growing, pages};
ghost use Rattle.wasm_objects.specs.Growth.{longer_memory};
ghost use Rattle.store_state.specs.Changes.{Changes};
ghost use Rattle.store_state.specs.Lending.{LendsBytesOf, bytes_of};
ghost use Rattle.store_state.specs.Objects.{takes_bytes, with_bytes};
ghost use Rattle.store_state.specs.Within.{IsSize, IsMemorySized, MayGrow};

use crate::object_list::{ObjectList, StoredObject};
use std::marker::Model;
use wasm_objects::{DataSegment, MemoryObject};
use wasm_types::{MemoryType, OutOfMemory};

/// The memories of a store.
pub(crate) type Memories = ObjectList<MemoryObject>;

/// A memory as contracts see it. None is ever made.
#[derive(Drop)]
pub(crate) struct SeenMemory {
    ty: MemoryType,
}

impl Model for SeenMemory {
    ghost use Rattle.std.specs.Prelude.{[]};
    ghost use Rattle.wasm_types.specs.Memories.{Memory, memory};

    ghost Value = { Memory };

    ghost view = { λ s. memory s.ty [] };
}

impl StoredObject for MemoryObject {
    type Seen = SeenMemory;

    type Item = u8;

    type Segment = DataSegment;

    type Growth = usize;

    ghost seen = { λ h. h.memory };

    ghost is_sized = { IsMemorySized };

    ghost items = { λ m. m.bytes };

    ghost with_items = { λ m bytes. memory m.ty bytes };

    ghost segment_items = { λ s. s };

    ghost may_grow = { λ m delta. MayGrow (memory_range m.ty) (memory_growing m.ty (pages m) delta) };

    ghost longer = { λ m delta. longer_memory m (delta * page_size m.ty) };

    #[inline]
    fn fill_items(&mut self, at: usize, byte: u8, len: usize) -> bool {
        self.fill(at, byte, len)
    }

    #[inline]
    fn copy_items(&mut self, at: usize, from: usize, len: usize) -> bool {
        self.copy_within(at, from, len)
    }

    #[inline]
    fn copy_items_of(&mut self, at: usize, other: &MemoryObject, from: usize, len: usize) -> bool {
        self.copy_from(at, other, from, len)
    }

    #[inline]
    fn init_items(&mut self, at: usize, segment: &DataSegment, from: usize, len: usize) -> bool {
        self.init(at, segment, from, len)
    }

    fn lengthen(&mut self, delta: usize) -> Result<(), OutOfMemory> {
        let extra = delta * self.ty().page_size() as usize;
        self.reserve(extra)?;
        self.grow(extra);
        Ok(())
    }

    ghost sized_alike = { λ m other e s. subst (IsSize m.ty) (sym e) s };
}

impl ObjectList<MemoryObject> {
    /// Replaces bytes of the memory at a place; `false` exactly where the range passes its end.
    pub(crate) fn write(&mut self, number: usize, at: usize, bytes: &[u8]) -> bool
        requires { number < length self.old }
        ensures { Changes number (takes_bytes at bytes.now) (with_bytes at bytes.now) self.old result self.new }
    {
        self.objects[number].write(at, bytes)
    }

    /// The bytes of the memory at a place, lent to be written. Once the loan ends, the memory holds what was left there.
    pub(crate) fn bytes_mut(&mut self, number: usize) -> &mut [u8]
        requires { number < length self.old }
        ensures* lends { sem 𝓛 (LendsBytesOf ⟦<MemoryObject as StoredObject>⟧ self.entry number result) }
        ensures value { option_map bytes_of (slice_get self.old number) ≡ Some result.now }
    {
        self.objects[number].bytes_mut()
    }
}
