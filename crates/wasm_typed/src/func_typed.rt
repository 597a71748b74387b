ghost use Rattle.std.specs.Prelude.{◌≡◌, Ok, IfOk, IfErr};
ghost use Rattle.store_state.specs.Calls.{cause, Makes};
ghost use Rattle.wasm_store.specs.Stores.{KeepsRest};
ghost use Rattle.wasm_typed.specs.TypedFunctions.{typed, wrapped};
ghost use Rattle.wasm_values.specs.declared.handles.Func.{Func as Handle};

use crate::typed_func::TypedFunc;
use typed_closures::{WasmRet, WasmTyList, closure_type};
use typed_values::{WasmParams, WasmResults};
use wasm_meter::{CallHooks, DeadlineBehaviour, HostData};
use wasm_store::parts::{allocator, objects};
use wasm_store::{FuncCalls, Store};
use wasm_values::{Func, Refusal};

/// Functions by static types of the host: `func.typed::<(i32, i32), i32>(store)`. Contracts see the implementor as the
/// handle of a function.
pub trait FuncTyped<T: HostData, K: CallHooks<T>, B: DeadlineBehaviour<T>> {
    /// The handle.
    ghost handle: { Self → Handle };

    /// The function, whose parameters may be handed as a `P` and whose results may be taken as an `R`.
    ///
    /// `WrongStore` where it is not of the store. Then for the parameters `TypeMismatch` at the first that does not fit,
    /// and `ArgumentCount`; and likewise for the results `TypeMismatch` and `ResultCount`. `OutOfMemory` comes only where
    /// none of these is due, since the function's type is kept.
    fn typed<P: WasmParams, R: WasmResults>(
        &self,
        store: &Store<T, K, B>,
    ) -> Result<TypedFunc<P, R>, Refusal>
        ensures made { IfOk result (λ made. typed P.tys R.tys store.now.machine (handle self.now) ≡ Ok made) }
        ensures refused { IfErr result (λ why. why ≡ cause (typed P.tys R.tys store.now.machine (handle self.now))) };

    /// A new function of the host that takes a `P` and gives an `R`, with the number of its body and nothing stored: such
    /// as one that `Wrap` has the body of. It is refused for want of memory alone, and then nothing changes.
    fn try_wrap<P: WasmTyList, R: WasmRet>(
        store: &mut Store<T, K, B>,
        body: usize,
    ) -> Result<Func, Refusal>
        ensures machine { Makes (wrapped P.tys R.returned store.old.machine body)
            store.old.machine result store.new.machine }
        ensures rest { KeepsRest store.old store.new }
        ensures short { IfErr result (λ why. why ≡ Refusal.OutOfMemory) };
}

impl<T: HostData, K: CallHooks<T>, B: DeadlineBehaviour<T>> FuncTyped<T, K, B> for Func {
    ghost handle = { λ func. func };

    fn typed<P: WasmParams, R: WasmResults>(
        &self,
        store: &Store<T, K, B>,
    ) -> Result<TypedFunc<P, R>, Refusal> {
        TypedFunc::with_type(*self, objects(store).func(*self)?)
    }

    #[tactic(auto, using(crate::proofs::WrappedTypes::wrapped_unmade, crate::proofs::WrappedTypes::wrapped_short))]
    fn try_wrap<P: WasmTyList, R: WasmRet>(
        store: &mut Store<T, K, B>,
        body: usize,
    ) -> Result<Func, Refusal> {
        let Ok(ty) = closure_type::<P, R>(allocator(store), store.engine().id()) else {
            return Err(Refusal::OutOfMemory);
        };
        Func::try_new(store, ty, body, &[])
    }
}
