ghost use Rattle.std.specs.Prelude.{◌≡◌, Ok, IfOk, IfErr};
ghost use Rattle.store_state.specs.Calls.{cause};
ghost use Rattle.wasm_typed.specs.TypedExports.{get_typed_func};
ghost use Rattle.wasm_values.specs.declared.handles.Instance.{Instance as Handle};

use crate::func_typed::FuncTyped;
use crate::typed_func::TypedFunc;
use typed_values::{WasmParams, WasmResults};
use wasm_instance::InstanceCalls;
use wasm_meter::{CallHooks, DeadlineBehaviour, HostData};
use wasm_store::Store;
use wasm_values::{Instance, Refusal};

/// Functions that instances export, by static types of the host. Contracts see the implementor as the handle of an
/// instance.
pub trait InstanceTyped<T: HostData, K: CallHooks<T>, B: DeadlineBehaviour<T>> {
    /// The handle.
    ghost handle: { Self → Handle };

    /// The function that it exports under a name: `instance.get_typed_func::<(i32, i32), i32>(store, "gcd")`.
    ///
    /// `WrongStore` where the instance is not of the store, then `NoExport` where no export has the name, or what has it
    /// is no function; then as `FuncTyped::typed`.
    fn get_typed_func<P: WasmParams, R: WasmResults>(
        &self,
        store: &Store<T, K, B>,
        name: &str,
    ) -> Result<TypedFunc<P, R>, Refusal>
        ensures made { IfOk result (λ made.
            get_typed_func P.tys R.tys store.now.machine (handle self.now) name.now ≡ Ok made) }
        ensures refused { IfErr result (λ why.
            why ≡ cause (get_typed_func P.tys R.tys store.now.machine (handle self.now) name.now)) };
}

impl<T: HostData, K: CallHooks<T>, B: DeadlineBehaviour<T>> InstanceTyped<T, K, B> for Instance {
    ghost handle = { λ instance. instance };

    fn get_typed_func<P: WasmParams, R: WasmResults>(
        &self,
        store: &Store<T, K, B>,
        name: &str,
    ) -> Result<TypedFunc<P, R>, Refusal> {
        let Some(func) = self.get_func(store, name)? else {
            return Err(Refusal::NoExport);
        };
        func.typed(store)
    }
}
