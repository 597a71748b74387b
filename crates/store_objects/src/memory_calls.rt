ghost use Rattle.std.specs.Prelude.{◌≡◌, Some, Ok, Err, IsOk, MatchResult, slice_get, length};
ghost use Rattle.std.specs.Borrow.{sem};
ghost use Rattle.spec_machine.specs.MemoryCalls.{memory_at, memory_new, memory_ty, memory_data_size, memory_size, memory_read, memory_write, memory_grow};
ghost use Rattle.wasm_values.specs.Handles.{memory_index};
ghost use Rattle.store_state.specs.Calls.{Changes, Reads};
ghost use Rattle.store_state.specs.Growing.{plan_says, due_says, IsDue, Acts};
ghost use Rattle.law_store.specs.PageSizes.{memory_page_size, memory_page_size_log2};
ghost use Rattle.store_objects.specs.LentData.{memory_data, Shows, LendsData};
ghost use Rattle.store_objects.specs.Machines.{AsksAlike};

use crate::objects::Objects;
use store_state::{GrowthRule, memory_rule, rule_of_memory};
use wasm_objects::MemoryObject;
use wasm_types::{MemoryType, OutOfMemory};
use wasm_values::{Memory, Refusal};

impl Objects {
    /// The memory of a handle, lent.
    pub fn memory(&self, memory: Memory) -> Result<&MemoryObject, Refusal>
        ensures { MatchResult result
            (λ object. (memory_at self.now memory ≡ Ok object.now.memory)
            × (slice_get self.now.memories (memory_index memory) ≡ Some object.now.memory))
            (λ why. memory_at self.now memory ≡ Err why) }
    {
        if !self.is_own(memory.store_id()) {
            return Err(Refusal::WrongStore);
        }
        match self.held.memory(memory.index()) {
            Some(object) => Ok(object),
            None => Err(Refusal::WrongStore),
        }
    }

    /// The type that a memory was made with.
    pub fn memory_ty(&self, memory: Memory) -> Result<MemoryType, Refusal>
        ensures { result ≡ memory_ty self.now memory }
    {
        let object = self.memory(memory)?;
        match object.ty().clone() {
            Ok(ty) => Ok(ty),
            Err(_) => unreachable!(),
        }
    }

    /// The number of bytes of a memory.
    pub fn memory_data_size(&self, memory: Memory) -> Result<usize, Refusal>
        ensures { result ≡ memory_data_size self.now memory }
    {
        let object = self.memory(memory)?;
        Ok(object.bytes().len())
    }

    /// The number of pages of a memory.
    pub fn memory_size(&self, memory: Memory) -> Result<u64, Refusal>
        ensures { result ≡ memory_size self.now memory }
    {
        let object = self.memory(memory)?;
        Ok(object.bytes().len() as u64 / object.ty().page_size())
    }

    /// The bytes of a page of a memory: 1 or 65,536.
    pub fn memory_page_size(&self, memory: Memory) -> Result<u64, Refusal>
        ensures { result ≡ memory_page_size self.now memory }
    {
        let object = self.memory(memory)?;
        Ok(object.ty().page_size())
    }

    /// The size of a page of a memory as an exponent of 2: 0 or 16.
    pub fn memory_page_size_log2(&self, memory: Memory) -> Result<u8, Refusal>
        ensures { result ≡ memory_page_size_log2 self.now memory }
    {
        let object = self.memory(memory)?;
        Ok(object.ty().page_size_log2())
    }

    /// The bytes of a memory, lent.
    pub fn memory_data(&self, memory: Memory) -> Result<&[u8], Refusal>
        ensures { Shows (memory_data self.now memory) result }
    {
        let object = self.memory(memory)?;
        Ok(object.bytes())
    }

    /// The bytes of a memory of this store, lent to be written. Once the loan ends, the memory holds what was left there,
    /// and all else of the store is as it was.
    pub fn memory_data_mut(&mut self, memory: Memory) -> &mut [u8]
        requires { IsOk (memory_data self.old memory) }
        ensures* lends { sem 𝓛 (LendsData self.entry memory result) }
        ensures value { memory_data self.old memory ≡ Ok result.now }
    {
        let number = memory.index();
        self.held.bytes_mut(number)
    }

    /// Copies the bytes of a memory from the byte `offset` on into all of `buffer`.
    ///
    /// `MemoryAccessError` where that range passes the end: then nothing is copied.
    pub fn memory_read(
        &self,
        memory: Memory,
        offset: usize,
        buffer: &mut [u8],
    ) -> Result<(), Refusal>
        ensures { Reads (memory_read self.now memory offset (length buffer.old)) buffer.old result buffer.new }
    {
        let object = self.memory(memory)?;
        if object.read(offset, buffer) {
            return Ok(());
        }
        Err(Refusal::MemoryAccessError)
    }

    /// Replaces the bytes of a memory from the byte `at` on by `bytes`, and no other byte.
    ///
    /// `MemoryAccessError` where that range passes the end: then nothing changes.
    pub fn memory_write(&mut self, memory: Memory, at: usize, bytes: &[u8]) -> Result<(), Refusal>
        ensures due { Changes (memory_write self.old memory at bytes.now) self.old result self.new }
        ensures asks { AsksAlike self.old self.new }
    {
        self.memory(memory)?;
        if self.held.write_bytes(memory.index(), at, bytes) {
            return Ok(());
        }
        Err(Refusal::MemoryAccessError)
    }

    /// What is said of a new memory.
    pub fn memory_new_rule(&self, ty: &MemoryType) -> GrowthRule
        ensures { result ≡ plan_says self.now (memory_new self.now ty.now) }
    {
        memory_rule(self.flags.limited, ty, 0, ty.minimum())
    }

    /// Makes a memory that was granted, with all bytes zero.
    pub fn memory_new(&mut self, ty: MemoryType) -> Result<Memory, OutOfMemory>
        requires { IsDue self.old (Ok (memory_new self.old ty)) }
        ensures due { Acts (Ok (memory_new self.old ty)) self.old result self.new }
        ensures asks { AsksAlike self.old self.new }
    {
        ty.keeps_limits();
        let handle = Memory::from_parts(self.id, self.held.memory_count());
        let object = MemoryObject::try_new(self.alloc, ty)?;
        self.held.add_memory(object)?;
        Ok(handle)
    }

    /// What is said of a memory that is to have `delta` more pages.
    pub fn memory_grow_rule(&self, memory: Memory, delta: u64) -> Result<GrowthRule, Refusal>
        ensures { result ≡ due_says self.now (memory_grow self.now memory delta) }
    {
        let object = self.memory(memory)?;
        let said = rule_of_memory(self.flags.limited, object, delta);
        Ok(said.rule)
    }

    /// Adds pages of zeros that were granted, and answers the number of pages before.
    pub fn memory_grow(&mut self, memory: Memory, delta: u64) -> Result<u64, OutOfMemory>
        requires { IsDue self.old (memory_grow self.old memory delta) }
        ensures due { Acts (memory_grow self.old memory delta) self.old result self.new }
        ensures asks { AsksAlike self.old self.new }
    {
        let Ok(object) = self.memory(memory) else {
            unreachable!();
        };
        let pages = object.bytes().len() as u64 / object.ty().page_size();
        self.held.grow_memory(memory.index(), delta as usize)?;
        Ok(pages)
    }
}
