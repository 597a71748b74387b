ghost use Rattle.std.specs.Prelude.{◌≡◌};
ghost use Rattle.wasm_values.specs.declared.handles.Func.{Func as Handle};
ghost use Rattle.spec_machine.specs.ValueCalls.{func_new, func_ty, func_matches_ty};
ghost use Rattle.store_state.specs.Calls.{Copies, Makes};
ghost use Rattle.wasm_store.specs.Stores.{KeepsRest};

use crate::store::Store;
use wasm_meter::{CallHooks, DeadlineBehaviour, HostData};
use wasm_types::FuncType;
use wasm_values::{Extern, Func, Refusal};

/// What a host does with functions, but for calls. Contracts see the implementor as the handle of a function.
///
/// Each call is refused with `WrongStore` where a handle is not of the store, before all else. A refused call changes
/// nothing.
pub trait FuncCalls {
    /// The handle.
    ghost handle: { Self → Handle };

    /// A new function of the host: its type, the number of its body, and the objects that its body may name.
    ///
    /// `WrongEngine` where the type is of another engine.
    fn try_new<T: HostData, K: CallHooks<T>, B: DeadlineBehaviour<T>>(
        store: &mut Store<T, K, B>,
        ty: FuncType,
        body: usize,
        stored: &[Extern],
    ) -> Result<Func, Refusal>
        ensures machine { Makes (func_new store.old.machine ty body stored.now)
            store.old.machine result store.new.machine }
        ensures rest { KeepsRest store.old store.new };

    /// The type that it was made with. It takes memory.
    fn ty<T: HostData, K: CallHooks<T>, B: DeadlineBehaviour<T>>(
        &self,
        store: &Store<T, K, B>,
    ) -> Result<FuncType, Refusal>
        ensures { Copies (func_ty store.now.machine (handle self.now)) result };

    /// Whether it may stand where a function of the type is wanted. `WrongEngine` where the type is of another engine.
    fn matches_ty<T: HostData, K: CallHooks<T>, B: DeadlineBehaviour<T>>(
        &self,
        store: &Store<T, K, B>,
        func_ty: &FuncType,
    ) -> Result<bool, Refusal>
        ensures { result ≡ func_matches_ty store.now.machine (handle self.now) func_ty.now };
}

impl FuncCalls for Func {
    ghost handle = { λ func. func };

    fn try_new<T: HostData, K: CallHooks<T>, B: DeadlineBehaviour<T>>(
        store: &mut Store<T, K, B>,
        ty: FuncType,
        body: usize,
        stored: &[Extern],
    ) -> Result<Func, Refusal> {
        store.objects.func_new(ty, body, stored)
    }

    fn ty<T: HostData, K: CallHooks<T>, B: DeadlineBehaviour<T>>(
        &self,
        store: &Store<T, K, B>,
    ) -> Result<FuncType, Refusal> {
        store.objects.func_ty(*self)
    }

    fn matches_ty<T: HostData, K: CallHooks<T>, B: DeadlineBehaviour<T>>(
        &self,
        store: &Store<T, K, B>,
        func_ty: &FuncType,
    ) -> Result<bool, Refusal> {
        store.objects.func_matches_ty(*self, func_ty)
    }
}
