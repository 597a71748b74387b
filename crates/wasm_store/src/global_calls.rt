ghost use Rattle.std.specs.Prelude.{◌≡◌};
ghost use Rattle.wasm_values.specs.declared.handles.Global.{Global as Handle};
ghost use Rattle.spec_machine.specs.GlobalCalls.{global_new, global_ty, global_get, global_set};
ghost use Rattle.store_state.specs.Calls.{Changes, Copies, Makes};
ghost use Rattle.wasm_store.specs.Stores.{KeepsRest};

use crate::store::Store;
use wasm_meter::{CallHooks, DeadlineBehaviour, HostData};
use wasm_types::GlobalType;
use wasm_values::{Global, Refusal, Val};

/// What a host does with globals. Contracts see the implementor as the handle of a global.
///
/// Each call is refused with `WrongStore` where the handle, or a function in a value, is not of the store, before all
/// else. A refused call changes nothing.
/// WebAssembly core specification, "Execution, modules", of globals.
pub trait GlobalCalls {
    /// The handle.
    ghost handle: { Self → Handle };

    /// A new global that holds `val`.
    ///
    /// `WrongEngine` where the type is of another engine, then `TypeMismatch` where the value does not fit.
    fn new<T: HostData, K: CallHooks<T>, B: DeadlineBehaviour<T>>(
        store: &mut Store<T, K, B>,
        ty: GlobalType,
        val: Val,
    ) -> Result<Global, Refusal>
        ensures machine { Makes (global_new store.old.machine ty val) store.old.machine result store.new.machine }
        ensures rest { KeepsRest store.old store.new };

    /// The type that it was made with. It takes memory where the type of the value is that of a function.
    fn ty<T: HostData, K: CallHooks<T>, B: DeadlineBehaviour<T>>(
        &self,
        store: &Store<T, K, B>,
    ) -> Result<GlobalType, Refusal>
        ensures { Copies (global_ty store.now.machine (handle self.now)) result };

    /// Its value.
    fn get<T: HostData, K: CallHooks<T>, B: DeadlineBehaviour<T>>(
        &self,
        store: &Store<T, K, B>,
    ) -> Result<Val, Refusal>
        ensures { result ≡ global_get store.now.machine (handle self.now) };

    /// Makes `val` its value.
    ///
    /// `ImmutableGlobal` where the global is constant, then `TypeMismatch` where the value does not fit.
    fn set<T: HostData, K: CallHooks<T>, B: DeadlineBehaviour<T>>(
        &self,
        store: &mut Store<T, K, B>,
        val: Val,
    ) -> Result<(), Refusal>
        ensures machine { Changes (global_set store.old.machine (handle self.now) val)
            store.old.machine result store.new.machine }
        ensures rest { KeepsRest store.old store.new };
}

impl GlobalCalls for Global {
    ghost handle = { λ global. global };

    fn new<T: HostData, K: CallHooks<T>, B: DeadlineBehaviour<T>>(
        store: &mut Store<T, K, B>,
        ty: GlobalType,
        val: Val,
    ) -> Result<Global, Refusal> {
        store.objects.global_new(ty, val)
    }

    fn ty<T: HostData, K: CallHooks<T>, B: DeadlineBehaviour<T>>(
        &self,
        store: &Store<T, K, B>,
    ) -> Result<GlobalType, Refusal> {
        store.objects.global_ty(*self)
    }

    fn get<T: HostData, K: CallHooks<T>, B: DeadlineBehaviour<T>>(
        &self,
        store: &Store<T, K, B>,
    ) -> Result<Val, Refusal> {
        store.objects.global_get(*self)
    }

    fn set<T: HostData, K: CallHooks<T>, B: DeadlineBehaviour<T>>(
        &self,
        store: &mut Store<T, K, B>,
        val: Val,
    ) -> Result<(), Refusal> {
        store.objects.global_set(*self, val)
    }
}
