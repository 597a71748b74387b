ghost use Rattle.std.specs.Prelude.{◌≡◌, ◌↔◌, ℕ, length, Ok, Err, IsTrue, IfOk, IfErr, OnOk};
ghost use Rattle.code_hosts.specs.Asked.{outside_by};
ghost use Rattle.law_causes.specs.Tallies.{RefusedByCounts};
ghost use Rattle.law_store.specs.Laws.{KeepsObjects};
ghost use Rattle.wasm_call.specs.Calls.{Failed};
ghost use Rattle.wasm_call.specs.Outside.{asked, surrounded};
ghost use Rattle.wasm_typed.specs.TypedFunctions.{Gave, TypedConfined, is_kept, typed_called, typed_row};

use crate::typed_func::TypedFunc;
use typed_values::{WasmParams, WasmResults};
use wasm_call::{FuncRun, HostBody, begin_turns};
use wasm_meter::{CallHooks, DeadlineBehaviour, EpochSource, HostData};
use wasm_store::{Store, parts};
use wasm_values::{Refusal, Val};

/// Whether it is that something is of another store.
fn is_wrong_store(tested: Result<(), Refusal>) -> bool
    ensures { IsTrue result ↔ (tested ≡ Err Refusal.WrongStore) }
{
    matches!(tested, Err(Refusal::WrongStore))
}

impl<P: WasmParams, R: WasmResults> TypedFunc<P, R> {
    /// Calls the function, as an outermost command, on the list of these values, and gives its results back.
    ///
    /// `WrongStore` where the function or an argument is not of the store, then `TypeMismatch` where the function is of
    /// another type than the one that was kept, as a function of another store may be whose id is the same. Then all is as
    /// in `FuncRun::call` on that list: so the refusal that is due is told, also where memory is short. The arguments and
    /// the results take no memory of their own. A refusal by what is outside comes only where the count of what gave it rose
    /// in this call, or stands at its last value. However it ends, what does not lead from the function and the functions
    /// among the arguments, nor from what the host handed out unshown, is as it was.
    pub fn call<
        T: HostData,
        K: CallHooks<T>,
        B: DeadlineBehaviour<T>,
        H: HostBody<T>,
        E: EpochSource,
    >(
        &self,
        store: &mut Store<T, K, B>,
        host: &mut H,
        epochs: &mut E,
        params: P,
    ) -> Result<R, Refusal>
        requires ready { H.ready host.old }
        ensures ready { H.ready host.new }
        ensures returned { IfOk result (λ given. Gave (asked T.growths H.has K.hooks B.behaves E.readings H.steps)
            (typed_row store.old.machine self.now (P.to_vals params) (length R.tys)) self.now.func R.of_vals
            (surrounded store.old host.old epochs.old) (surrounded store.new host.new epochs.new) given) }
        ensures failed { IfErr result (λ why. Failed (asked T.growths H.has K.hooks B.behaves E.readings H.steps)
            (typed_row store.old.machine self.now (P.to_vals params) (length R.tys))
            (surrounded store.old host.old epochs.old) why (surrounded store.new host.new epochs.new)) }
        ensures refused { IfErr (typed_called store.old.machine self.now (P.to_vals params) (length R.tys))
            (λ why. result ≡ Err why) }
        ensures causes { IfErr result (λ why. RefusedByCounts T.denials T.limiter_faults T.hook_faults T.behaviour_faults
            E.epoch_faults H.host_faults (outside_by store.old.host_data host.old epochs.old)
            (outside_by store.new.host_data host.new epochs.new) ⊥ why) }
        ensures confined { TypedConfined (asked T.growths H.has K.hooks B.behaves E.readings H.steps) self.now
            (P.to_vals params) (length R.tys) R.of_vals (surrounded store.old host.old epochs.old) result
            (surrounded store.new host.new epochs.new) }
        ensures kept { KeepsObjects store.old.machine store.new.machine }
        ensures engine { store.new.machine.engine ≡ store.old.machine.engine }
    {
        store.keeps_well_formed();
        let places = params.into_places();
        let taken = P::count();
        let args = &places[..taken];
        if let Err(why) = self.test(store, args) {
            begin_turns(store);
            return Err(why);
        }
        let mut room = [Val::I32(0); 6];
        let given = R::count();
        self.func
            .call(store, host, epochs, args, &mut room[..given])?;
        match R::from_vals(&room[..given]) {
            Some(results) => Ok(results),
            None => unreachable!(),
        }
    }

    /// Whether the function and each argument are of the store, and the function is of the kept type. It takes no memory,
    /// and looks at the arguments only where the function is of another type.
    fn test<T: HostData, K: CallHooks<T>, B: DeadlineBehaviour<T>>(
        &self,
        store: &Store<T, K, B>,
        args: &[Val],
    ) -> Result<(), Refusal>
        ensures kept { OnOk result (is_kept store.now.machine self.now ≡ Ok tt) }
        ensures refused { IfErr result (λ why.
            (count : ℕ) → typed_called store.now.machine self.now args.now count ≡ Err why) }
    {
        let own = parts::objects(store).func(self.func)?;
        if *own == self.ty {
            return Ok(());
        }
        if is_wrong_store(parts::may_call(store, self.func, args, None)) {
            return Err(Refusal::WrongStore);
        }
        Err(Refusal::TypeMismatch)
    }
}
