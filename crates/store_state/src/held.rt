ghost use Rattle.std.specs.Prelude.{◌≡◌, ◌<◌, ◌*◌, length, set, slice_get, option_map, replicate, MatchOption, List, ℕ, OnOk, OnErr, Some, None};
ghost use Rattle.wasm_objects.specs.declared.raw.RawRef.{RawRef};
ghost use Rattle.std.specs.Bool.{OnTrue, OnFalse};
ghost use Rattle.std.specs.Borrow.{sem};
ghost use Rattle.wasm_types.specs.Memories.{Memory as MemoryParts};
ghost use Rattle.wasm_types.specs.MemoryTypes.{page_size};
ghost use Rattle.spec_machine.specs.Growth.{memory_range, memory_growing, pages, table_range, table_growing};
ghost use Rattle.wasm_objects.specs.Globals.{Global as GlobalParts, global};
ghost use Rattle.wasm_objects.specs.Growth.{longer_memory, longer_table};
ghost use Rattle.wasm_objects.specs.Tables.{Table as TableParts};
ghost use Rattle.store_state.specs.Changes.{Changes, ChangesBy};
ghost use Rattle.store_state.specs.HeldLending.{LendsHeldBytes};
ghost use Rattle.store_state.specs.Lending.{bytes_of};
ghost use Rattle.store_state.specs.Machine.{elements_of, data_of, without_elements, without_data};
ghost use Rattle.store_state.specs.Objects.{takes_bytes, with_bytes, takes_copy, with_copy, takes_element, with_element, takes_elements, with_elements, takes_references, with_references};
ghost use Rattle.store_state.specs.Parts.{held_nothing};
ghost use Rattle.store_state.specs.Within.{MayGrow};

mod meters;
mod new_objects;
mod reads;

use crate::memories::Memories;
use crate::object_list::ObjectList;
use crate::segments::Segments;
use crate::tables::{MoreElements, Tables};
use crate::tank::Tank;
use std::alloc::Global;
use std::marker::Model;
use wasm_meter::{Counts, Deadline};
use wasm_objects::{GlobalObject, RawRef, RawVal};
use wasm_types::{FuncType, OutOfMemory};

/// What a run changes: the memories, the tables, the globals and the tags of a store, each in the order in which they
/// were made, and of each instance the segments; the fuel, which is below zero where more was consumed than there was;
/// the deadline; and how much was made by instantiation, and the most of it. Each memory is whole pages within its
/// range, and each table within the range of indices.
pub struct Held {
    memories: Memories,
    tables: Tables,
    globals: Vec<GlobalObject>,
    tags: Vec<FuncType>,
    segments: Vec<Segments>,
    fuel: Tank,
    deadline: Deadline,
    counts: Counts,
}

// Written out, so that the crates above do not prove it again of all that is in it.
impl Drop for Held {
    fn drop(self) {
        let Held {
            memories: _memories,
            tables: _tables,
            globals: _globals,
            tags: _tags,
            segments: _segments,
            fuel: _fuel,
            deadline: _deadline,
            counts: _counts,
        } = self;
    }
}

impl Model for Held {
    ghost use Rattle.store_state.specs.Codes.{held_code};
    ghost use Rattle.store_state.specs.Parts.{HeldParts, held_parts};

    ghost Value = { HeldParts };

    ghost coded = { held_code };

    ghost view = { λ h. held_parts h.memories h.tables h.globals.items h.tags.items h.segments.items h.fuel h.deadline
        h.counts.made h.counts.limits };
}

impl Held {
    /// No objects, no fuel, the deadline 0, nothing made by instantiation, and 10,000 as the most of each. It takes no
    /// memory.
    pub fn new(alloc: Global) -> Held
        ensures { result ≡ held_nothing }
    {
        Held {
            memories: ObjectList::new(alloc),
            tables: ObjectList::new(alloc),
            globals: Vec::new(alloc),
            tags: Vec::new(alloc),
            segments: Vec::new(alloc),
            fuel: Tank::new(),
            deadline: Deadline::new(),
            counts: Counts::new(),
        }
    }

    /// Makes `value` the value of the global of this number, whatever its type says of changes; `false` where there
    /// is none, and then nothing changes.
    #[inline]
    pub fn set_global(&mut self, number: usize, value: RawVal) -> bool
        ensures none { OnFalse result ((slice_get self.old.globals number ≡ None) × (self.new ≡ self.old)) }
        ensures set { OnTrue result ((x : GlobalParts) × (slice_get self.old.globals number ≡ Some x)
            × (self.new ≡ record self.old { globals = set self.old.globals number (global x.ty value) })) }
    {
        if number >= self.globals.len() {
            return false;
        }
        self.globals[number].set(value);
        true
    }

    /// How many memories there are.
    #[inline]
    pub fn memory_count(&self) -> usize
        ensures { result ≡ length self.now.memories }
    {
        self.memories.len()
    }

    /// How many tables there are.
    #[inline]
    pub fn table_count(&self) -> usize
        ensures { result ≡ length self.now.tables }
    {
        self.tables.len()
    }

    /// How many globals there are.
    pub fn global_count(&self) -> usize
        ensures { result ≡ length self.now.globals }
    {
        self.globals.len()
    }

    /// How many tags there are.
    pub fn tag_count(&self) -> usize
        ensures { result ≡ length self.now.tags }
    {
        self.tags.len()
    }

    /// Replaces the bytes of a memory from the byte `at` on; `false` exactly where that range passes its end, and
    /// then nothing changes.
    #[inline]
    pub fn write_bytes(&mut self, memory: usize, at: usize, bytes: &[u8]) -> bool
        requires { memory < length self.old.memories }
        ensures memories { Changes memory (takes_bytes at bytes.now) (with_bytes at bytes.now)
            self.old.memories result self.new.memories }
        ensures rest { self.new ≡ record self.old { memories = self.new.memories } }
    {
        self.memories.write(memory, at, bytes)
    }

    /// The bytes of a memory, lent to be written. Once the loan ends, the memory holds what was left there, and all else
    /// is as it was.
    pub fn bytes_mut(&mut self, memory: usize) -> &mut [u8]
        requires { memory < length self.old.memories }
        ensures* lends { sem 𝓛 (LendsHeldBytes self.entry memory result) }
        ensures value { option_map bytes_of (slice_get self.old.memories memory) ≡ Some result.now }
    {
        self.memories.bytes_mut(memory)
    }

    /// Makes `len` bytes of a memory from the byte `at` on all `byte`; `false` exactly where that range passes its
    /// end, and then nothing changes.
    pub fn fill_bytes(&mut self, memory: usize, at: usize, byte: u8, len: usize) -> bool
        requires { memory < length self.old.memories }
        ensures memories { let piece = replicate len byte in Changes memory (takes_bytes at piece)
            (with_bytes at piece) self.old.memories result self.new.memories }
        ensures rest { self.new ≡ record self.old { memories = self.new.memories } }
    {
        self.memories.fill(memory, at, byte, len)
    }

    /// Replaces `len` bytes of the memory `dst` from the byte `at` on by those of the memory `src` from the byte
    /// `from` on, as they were; `false` exactly where one of the two ranges passes its end, and then nothing
    /// changes.
    pub fn copy_bytes(&mut self, dst: usize, at: usize, src: usize, from: usize, len: usize) -> bool
        requires dst_there { dst < length self.old.memories }
        requires src_there { src < length self.old.memories }
        ensures memories { ChangesBy dst (slice_get self.old.memories src) (λ y. takes_copy at from len y.bytes)
            (λ y. with_copy at from len y.bytes) self.old.memories result self.new.memories }
        ensures rest { self.new ≡ record self.old { memories = self.new.memories } }
    {
        self.memories.copy(dst, at, src, from, len)
    }

    /// Replaces `len` bytes of a memory from the byte `at` on by those of a data segment of an instance from its byte
    /// `from` on. `None` where there is no such segment; `false` exactly where one of the two ranges passes its end.
    /// Where it is not `true` nothing changes.
    pub fn init_bytes(
        &mut self,
        memory: usize,
        at: usize,
        instance: usize,
        segment: usize,
        from: usize,
        len: usize,
    ) -> Option<bool>
        requires { memory < length self.old.memories }
        ensures memories { MatchOption result ((data_of self.old instance segment ≡ None) × (self.new ≡ self.old))
            (λ done. (y : List ℕ) × (data_of self.old instance segment ≡ Some y)
            × Changes memory (takes_copy at from len y) (with_copy at from len y) self.old.memories done
            self.new.memories) }
        ensures rest { self.new ≡ record self.old { memories = self.new.memories } }
    {
        let data = self.segments.get(instance)?.data(segment)?;
        Some(self.memories.init(memory, at, data, from, len))
    }

    /// Adds pages of zeros to a memory, within its range. `OutOfMemory` changes nothing.
    pub fn grow_memory(&mut self, memory: usize, delta: usize) -> Result<(), OutOfMemory>
        requires there { memory < length self.old.memories }
        requires may_grow { (m : MemoryParts) → slice_get self.old.memories memory ≡ Some m →
            MayGrow (memory_range m.ty) (memory_growing m.ty (pages m) delta) }
        ensures ok { (m : MemoryParts) → slice_get self.old.memories memory ≡ Some m → OnOk result (self.new ≡ record
            self.old { memories = set self.old.memories memory (longer_memory m (delta * page_size m.ty)) }) }
        ensures err { OnErr result (self.new ≡ self.old) }
    {
        self.memories.grow(memory, delta)?;
        Ok(())
    }

    /// Makes `value` the element of a table at the place `at`; `false` exactly past its end, and then nothing
    /// changes.
    #[inline]
    pub fn set_element(&mut self, table: usize, at: usize, value: RawRef) -> bool
        requires { table < length self.old.tables }
        ensures tables { Changes table (takes_element at) (with_element at value)
            self.old.tables result self.new.tables }
        ensures rest { self.new ≡ record self.old { tables = self.new.tables } }
    {
        self.tables.set(table, at, value)
    }

    /// Makes `len` elements of a table from the place `at` on all `value`; `false` exactly where that range passes
    /// its end, and then nothing changes.
    pub fn fill_elements(&mut self, table: usize, at: usize, value: RawRef, len: usize) -> bool
        requires { table < length self.old.tables }
        ensures tables { let piece = replicate len value in Changes table (takes_elements at piece)
            (with_elements at piece) self.old.tables result self.new.tables }
        ensures rest { self.new ≡ record self.old { tables = self.new.tables } }
    {
        self.tables.fill(table, at, value, len)
    }

    /// Replaces `len` elements of the table `dst` from the place `at` on by those of the table `src` from the place
    /// `from` on, as they were; `false` exactly where one of the two ranges passes its end, and then nothing changes.
    pub fn copy_elements(
        &mut self,
        dst: usize,
        at: usize,
        src: usize,
        from: usize,
        len: usize,
    ) -> bool
        requires dst_there { dst < length self.old.tables }
        requires src_there { src < length self.old.tables }
        ensures tables { ChangesBy dst (slice_get self.old.tables src)
            (λ y. takes_references at from len y.elements) (λ y. with_references at from len y.elements)
            self.old.tables result self.new.tables }
        ensures rest { self.new ≡ record self.old { tables = self.new.tables } }
    {
        self.tables.copy(dst, at, src, from, len)
    }

    /// Replaces `len` elements of a table from the place `at` on by those of an element segment of an instance from
    /// its place `from` on. `None` where there is no such segment; `false` exactly where one of the two ranges
    /// passes its end. Where it is not `true` nothing changes.
    pub fn init_elements(
        &mut self,
        table: usize,
        at: usize,
        instance: usize,
        segment: usize,
        from: usize,
        len: usize,
    ) -> Option<bool>
        requires { table < length self.old.tables }
        ensures tables { MatchOption result ((elements_of self.old instance segment ≡ None) × (self.new ≡ self.old))
            (λ done. (y : List RawRef) × (elements_of self.old instance segment ≡ Some y)
            × Changes table (takes_references at from len y) (with_references at from len y) self.old.tables done
            self.new.tables) }
        ensures rest { self.new ≡ record self.old { tables = self.new.tables } }
    {
        let elements = self.segments.get(instance)?.element(segment)?;
        Some(self.tables.init(table, at, elements, from, len))
    }

    /// Adds so many elements to a table, each of them `value`, within the range. `OutOfMemory` changes nothing.
    pub fn grow_table(
        &mut self,
        table: usize,
        extra: usize,
        value: RawRef,
    ) -> Result<(), OutOfMemory>
        requires there { table < length self.old.tables }
        requires may_grow { (t : TableParts) → slice_get self.old.tables table ≡ Some t →
            MayGrow table_range (table_growing t.ty (length t.elements) extra) }
        ensures ok { (t : TableParts) → slice_get self.old.tables table ≡ Some t → OnOk result (self.new ≡ record
            self.old { tables = set self.old.tables table (longer_table t extra value) }) }
        ensures err { OnErr result (self.new ≡ self.old) }
    {
        self.tables.grow(table, MoreElements { extra, value })?;
        Ok(())
    }

    /// Makes an element segment of an instance empty; `false` where there is none, and then nothing changes.
    pub fn drop_elements(&mut self, instance: usize, segment: usize) -> bool
        ensures none { OnFalse result ((elements_of self.old instance segment ≡ None) × (self.new ≡ self.old)) }
        ensures dropped { OnTrue result ((instance < length self.old.segments)
            × (y : List RawRef) × (elements_of self.old instance segment ≡ Some y)
            × (self.new ≡ without_elements self.old instance segment)) }
    {
        if instance >= self.segments.len() {
            return false;
        }
        if !self.segments[instance].drop_element(segment) {
            return false;
        }
        true
    }

    /// Makes a data segment of an instance empty; `false` where there is none, and then nothing changes.
    pub fn drop_data(&mut self, instance: usize, segment: usize) -> bool
        ensures none { OnFalse result ((data_of self.old instance segment ≡ None) × (self.new ≡ self.old)) }
        ensures dropped { OnTrue result ((instance < length self.old.segments)
            × (y : List ℕ) × (data_of self.old instance segment ≡ Some y)
            × (self.new ≡ without_data self.old instance segment)) }
    {
        if instance >= self.segments.len() {
            return false;
        }
        if !self.segments[instance].drop_data(segment) {
            return false;
        }
        true
    }
}
