//! The bytes of a memory of a store, lent to be written in place.
ghost use Rattle.std.specs.Prelude.{◌≡◌, Ok, IsOk, List, ℕ};
ghost use Rattle.std.specs.Borrow.{sem, MutBor};
ghost use Rattle.store_objects.specs.LentData.{memory_data};
ghost use Rattle.wasm_store.specs.MemoryLending.{lends_bytes, ChangesBoth};

use crate::store::Store;
use wasm_meter::{CallHooks, DeadlineBehaviour, HostData};
use wasm_values::Memory;

impl<T: HostData, K: CallHooks<T>, B: DeadlineBehaviour<T>> Store<T, K, B> {
    /// The bytes of a memory of this store, lent to be written. Once the loan ends, the memory holds what was left there,
    /// and all else of the store is as it was. That the memory is this store's, `MemoryCalls::data` tells.
    pub fn memory_data_mut(&mut self, memory: Memory) -> &mut [u8]
        requires { IsOk (memory_data self.old.machine memory) }
        ensures* lends { sem 𝓛 (lends_bytes T.row K.row B.row self.entry memory result) }
        ensures value { memory_data self.old.machine memory ≡ Ok result.now }
    {
        self.objects.memory_data_mut(memory)
    }

    // Calls a closure on the bytes of a memory of this store and on the host's data.
    pub(crate) fn change_both<R, F: FnOnce(&mut [u8], &mut T) -> R>(
        &mut self,
        memory: Memory,
        change: F,
    ) -> R
        requires there { IsOk (memory_data self.old.machine memory) }
        requires callable { (x : MutBor (List ℕ)) (y : MutBor T) → memory_data self.old.machine memory ≡ Ok x.now
            → y.now ≡ self.old.host_data → F.pre change x y }
        ensures { ChangesBoth (λ x y r left kept. F.post change x y r left kept) memory self.old result self.new }
    {
        change(self.objects.memory_data_mut(memory), &mut self.host_data)
    }
}
