ghost use Rattle.std.specs.Prelude.{◌≡◌, Ok, Err, IfOk, IfErr, List, ℕ, length};
ghost use Rattle.std.specs.Borrow.{MutBor};
ghost use Rattle.spec_machine.specs.MemoryCalls.{memory_new, memory_ty, memory_data_size, memory_size, memory_read, memory_write, memory_grow};
ghost use Rattle.wasm_values.specs.declared.handles.Memory.{Memory as Handle};
ghost use Rattle.store_state.specs.Calls.{Changes, Reads};
ghost use Rattle.law_store.specs.PageSizes.{memory_page_size, memory_page_size_log2};
ghost use Rattle.store_objects.specs.LentData.{memory_data, Shows};
ghost use Rattle.wasm_store.specs.Growths.{GrowsAs};
ghost use Rattle.wasm_store.specs.MemoryLending.{ChangesBoth};
ghost use Rattle.wasm_store.specs.Stores.{KeepsRest};

use crate::growth::or_refused;
use crate::parts;
use crate::store::Store;
use wasm_meter::{CallHooks, DeadlineBehaviour, HostData};
use wasm_types::MemoryType;
use wasm_values::{Memory, Refusal};

/// What a host does with memories. Contracts see the implementor as the handle of a memory.
///
/// Each call but `new` is refused with `WrongStore` where the handle is not of the store, before all else, and a
/// refused call changes nothing but the host's data, which a limiter that was asked may have changed.
/// WebAssembly core specification, "Execution, modules", of memories.
pub trait MemoryCalls {
    /// The handle.
    ghost handle: { Self → Handle };

    /// A new memory of the minimum of `ty`, in pages, with all bytes zero.
    ///
    /// `GrowFailed` where the minimum passes the range or the limiter says no, `LimiterFault` where the limiter fails.
    fn new<T: HostData, K: CallHooks<T>, B: DeadlineBehaviour<T>>(
        store: &mut Store<T, K, B>,
        ty: MemoryType,
    ) -> Result<Memory, Refusal>
        ensures grows { GrowsAs T.growths (Ok (memory_new store.old.machine ty)) store.old result store.new }
        ensures turns { store.new.turns ≡ store.old.turns };

    /// The type that it was made with.
    fn ty<T: HostData, K: CallHooks<T>, B: DeadlineBehaviour<T>>(
        &self,
        store: &Store<T, K, B>,
    ) -> Result<MemoryType, Refusal>
        ensures { result ≡ memory_ty store.now.machine (handle self.now) };

    /// The number of bytes.
    fn data_size<T: HostData, K: CallHooks<T>, B: DeadlineBehaviour<T>>(
        &self,
        store: &Store<T, K, B>,
    ) -> Result<usize, Refusal>
        ensures { result ≡ memory_data_size store.now.machine (handle self.now) };

    /// The number of pages.
    fn size<T: HostData, K: CallHooks<T>, B: DeadlineBehaviour<T>>(
        &self,
        store: &Store<T, K, B>,
    ) -> Result<u64, Refusal>
        ensures { result ≡ memory_size store.now.machine (handle self.now) };

    /// The bytes of a page: 1 or 65,536.
    fn page_size<T: HostData, K: CallHooks<T>, B: DeadlineBehaviour<T>>(
        &self,
        store: &Store<T, K, B>,
    ) -> Result<u64, Refusal>
        ensures { result ≡ memory_page_size store.now.machine (handle self.now) };

    /// The size of a page as an exponent of 2: 0 or 16.
    fn page_size_log2<T: HostData, K: CallHooks<T>, B: DeadlineBehaviour<T>>(
        &self,
        store: &Store<T, K, B>,
    ) -> Result<u8, Refusal>
        ensures { result ≡ memory_page_size_log2 store.now.machine (handle self.now) };

    /// The bytes, lent.
    fn data<'a, T: HostData, K: CallHooks<T>, B: DeadlineBehaviour<T>>(
        &self,
        store: &'a Store<T, K, B>,
    ) -> Result<&'a [u8], Refusal>
        ensures { Shows (memory_data store.now.machine (handle self.now)) result };

    /// Calls a closure on the bytes and on the host's data, both lent to be changed. The memory then holds the bytes that
    /// the closure left, the store its host data, and all else of the store is as it was. The closure is not called where
    /// this is refused.
    fn data_and_store_mut<
        T: HostData,
        K: CallHooks<T>,
        B: DeadlineBehaviour<T>,
        R,
        F: FnOnce(&mut [u8], &mut T) -> R + Drop,
    >(&self, store: &mut Store<T, K, B>, change: F) -> Result<R, Refusal>
        requires { (x : MutBor (List ℕ)) (y : MutBor T) →
            memory_data store.old.machine (handle self.now) ≡ Ok x.now → y.now ≡ store.old.host_data → F.pre change x y }
        ensures called { IfOk result (λ given. ChangesBoth (λ x y r left kept. F.post change x y r left kept)
            (handle self.now) store.old given store.new) }
        ensures refused { IfErr result (λ why. (memory_data store.old.machine (handle self.now) ≡ Err why)
            × (store.new ≡ store.old)) };

    /// Copies the bytes from the byte `offset` on into all of `buffer`.
    ///
    /// `MemoryAccessError` where that range passes the end: then nothing is copied. The empty range is there at the
    /// end, and not past it.
    fn read<T: HostData, K: CallHooks<T>, B: DeadlineBehaviour<T>>(
        &self,
        store: &Store<T, K, B>,
        offset: usize,
        buffer: &mut [u8],
    ) -> Result<(), Refusal>
        ensures { Reads (memory_read store.now.machine (handle self.now) offset (length buffer.old))
            buffer.old result buffer.new };

    /// Replaces the bytes from the byte `offset` on by `buffer`, and no other byte.
    ///
    /// `MemoryAccessError` where that range passes the end: then nothing changes. The empty range is there at the end,
    /// and not past it.
    fn write<T: HostData, K: CallHooks<T>, B: DeadlineBehaviour<T>>(
        &self,
        store: &mut Store<T, K, B>,
        offset: usize,
        buffer: &[u8],
    ) -> Result<(), Refusal>
        ensures machine { Changes (memory_write store.old.machine (handle self.now) offset buffer.now)
            store.old.machine result store.new.machine }
        ensures rest { KeepsRest store.old store.new };

    /// Adds `delta` pages of zeros, and answers the number of pages before.
    ///
    /// `GrowFailed` where the size would pass the range or the declared maximum, or the limiter says no; `LimiterFault`
    /// where the limiter fails.
    fn grow<T: HostData, K: CallHooks<T>, B: DeadlineBehaviour<T>>(
        &self,
        store: &mut Store<T, K, B>,
        delta: u64,
    ) -> Result<u64, Refusal>
        ensures grows { GrowsAs T.growths (memory_grow store.old.machine (handle self.now) delta)
            store.old result store.new }
        ensures turns { store.new.turns ≡ store.old.turns };
}

impl MemoryCalls for Memory {
    ghost handle = { λ memory. memory };

    fn new<T: HostData, K: CallHooks<T>, B: DeadlineBehaviour<T>>(
        store: &mut Store<T, K, B>,
        ty: MemoryType,
    ) -> Result<Memory, Refusal> {
        let rule = parts::memory_new_rule(store, &ty);
        parts::settle(store, &rule)?;
        or_refused(parts::memory_new(store, ty))
    }

    fn ty<T: HostData, K: CallHooks<T>, B: DeadlineBehaviour<T>>(
        &self,
        store: &Store<T, K, B>,
    ) -> Result<MemoryType, Refusal> {
        store.objects.memory_ty(*self)
    }

    fn data_size<T: HostData, K: CallHooks<T>, B: DeadlineBehaviour<T>>(
        &self,
        store: &Store<T, K, B>,
    ) -> Result<usize, Refusal> {
        store.objects.memory_data_size(*self)
    }

    fn size<T: HostData, K: CallHooks<T>, B: DeadlineBehaviour<T>>(
        &self,
        store: &Store<T, K, B>,
    ) -> Result<u64, Refusal> {
        store.objects.memory_size(*self)
    }

    fn page_size<T: HostData, K: CallHooks<T>, B: DeadlineBehaviour<T>>(
        &self,
        store: &Store<T, K, B>,
    ) -> Result<u64, Refusal> {
        store.objects.memory_page_size(*self)
    }

    fn page_size_log2<T: HostData, K: CallHooks<T>, B: DeadlineBehaviour<T>>(
        &self,
        store: &Store<T, K, B>,
    ) -> Result<u8, Refusal> {
        store.objects.memory_page_size_log2(*self)
    }

    fn data<'a, T: HostData, K: CallHooks<T>, B: DeadlineBehaviour<T>>(
        &self,
        store: &'a Store<T, K, B>,
    ) -> Result<&'a [u8], Refusal> {
        store.objects.memory_data(*self)
    }

    fn data_and_store_mut<
        T: HostData,
        K: CallHooks<T>,
        B: DeadlineBehaviour<T>,
        R,
        F: FnOnce(&mut [u8], &mut T) -> R + Drop,
    >(&self, store: &mut Store<T, K, B>, change: F) -> Result<R, Refusal> {
        self.data(store)?;
        Ok(store.change_both(*self, change))
    }

    fn read<T: HostData, K: CallHooks<T>, B: DeadlineBehaviour<T>>(
        &self,
        store: &Store<T, K, B>,
        offset: usize,
        buffer: &mut [u8],
    ) -> Result<(), Refusal> {
        store.objects.memory_read(*self, offset, buffer)
    }

    fn write<T: HostData, K: CallHooks<T>, B: DeadlineBehaviour<T>>(
        &self,
        store: &mut Store<T, K, B>,
        offset: usize,
        buffer: &[u8],
    ) -> Result<(), Refusal> {
        store.objects.memory_write(*self, offset, buffer)
    }

    fn grow<T: HostData, K: CallHooks<T>, B: DeadlineBehaviour<T>>(
        &self,
        store: &mut Store<T, K, B>,
        delta: u64,
    ) -> Result<u64, Refusal> {
        let rule = parts::memory_grow_rule(store, *self, delta)?;
        parts::settle(store, &rule)?;
        or_refused(parts::memory_grow(store, *self, delta))
    }
}
