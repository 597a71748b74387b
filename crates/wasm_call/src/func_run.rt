ghost use Rattle.std.specs.List.{list_all};
ghost use Rattle.std.specs.Prelude.{◌≡◌, true, length, Some, Err, OnOk, OnErr, IfErr};
ghost use Rattle.wasm_values.specs.declared.handles.Func.{Func as Handle};
ghost use Rattle.spec_machine.specs.FunctionCalls.{called};
ghost use Rattle.spec_machine.specs.Values.{owns_val};
ghost use Rattle.wasm_call.specs.Calls.{call_row, Returned, Failed, ResultsFit, CallRefuses};
ghost use Rattle.wasm_call.specs.Confined.{CallConfined};
ghost use Rattle.code_hosts.specs.Asked.{outside_by};
ghost use Rattle.law_causes.specs.Tallies.{RefusedByCounts};
ghost use Rattle.law_store.specs.Laws.{KeepsObjects};
ghost use Rattle.wasm_call.specs.Outside.{asked, surrounded};

use crate::laws::law_failures_are_counted;
use crate::outermost::begin_turns;
use crate::value_calls::call_values;
use wasm_host::HostBody;
use wasm_meter::{CallHooks, DeadlineBehaviour, EpochSource, HostData};
use wasm_store::Store;
use wasm_values::{Func, Refusal, Val};

/// Calls of functions by a host. Contracts see the implementor as the handle of a function.
pub trait FuncRun {
    /// The handle.
    ghost handle: { Self → Handle };

    /// Calls the function on these arguments, as an outermost command, of which `Store::turns` tells the turns. The
    /// values that it returns are written to `results`: as many as the function's type has, each of the store and of its
    /// type. `epochs` is read where the store's engine reads epochs.
    ///
    /// `WrongStore` where the function or an argument is not of the store, then `ArgumentCount`, `ResultCount` and
    /// `TypeMismatch`: these change nothing, and the one that is due is told, also where memory is short. After that
    /// what the run gives: a trap, `TurnLimit`, a refusal of a function of the host, of the limiter, of the hook, of the
    /// deadline behaviour or of the source of epochs, and `OutOfMemory`; what code did before stays. Where there are no
    /// results, `results` stays as it was. Each of the first four comes only where it is due; a refusal by what is outside
    /// only where the count of what gave it rose in this call, or stands at its last value. A refusal that is not named
    /// here never comes.
    ///
    /// However it ends, each memory, table, global and segment is as it was, its length included, that does not lead from
    /// the function and the functions among the arguments, nor from a function that a body of the host handed out in this
    /// call and was not shown. What was out of reach stays so, each object stays and keeps its type, and no memory or
    /// table shrinks.
    ///
    /// The hook of the store is told before the function and behind it. A store begins with no fuel and with the
    /// deadline 0, so that a function of an instance traps before its code where the engine consumes fuel, by
    /// `OutOfFuel`, or reads epochs, by `Interrupt`, until the host has set them.
    fn call<T: HostData, K: CallHooks<T>, B: DeadlineBehaviour<T>, H: HostBody<T>, E: EpochSource>(
        &self,
        store: &mut Store<T, K, B>,
        host: &mut H,
        epochs: &mut E,
        params: &[Val],
        results: &mut [Val],
    ) -> Result<(), Refusal>
        requires ready { H.ready host.old }
        ensures ready { H.ready host.new }
        ensures returned { OnOk result (Returned (asked T.growths H.has K.hooks B.behaves E.readings H.steps)
            (call_row store.old.machine (handle self.now) params.now (Some (length results.old)))
            (surrounded store.old host.old epochs.old) results.new (surrounded store.new host.new epochs.new)) }
        ensures failed { IfErr result (λ why. Failed (asked T.growths H.has K.hooks B.behaves E.readings H.steps)
            (call_row store.old.machine (handle self.now) params.now (Some (length results.old)))
            (surrounded store.old host.old epochs.old) why (surrounded store.new host.new epochs.new)) }
        ensures refused { IfErr (called store.old.machine (handle self.now) params.now (Some (length results.old)))
            (λ why. result ≡ Err why) }
        ensures due { IfErr result (CallRefuses store.old.machine (handle self.now) params.now
            (Some (length results.old))) }
        ensures fit { OnOk result (ResultsFit store.old.machine (handle self.now) store.new.machine results.new) }
        ensures owned { OnOk result (list_all (owns_val store.new.machine) results.new ≡ true) }
        ensures causes { IfErr result (λ why. RefusedByCounts T.denials T.limiter_faults T.hook_faults T.behaviour_faults
            E.epoch_faults H.host_faults (outside_by store.old.host_data host.old epochs.old)
            (outside_by store.new.host_data host.new epochs.new) ⊥ why) }
        ensures confined { CallConfined (asked T.growths H.has K.hooks B.behaves E.readings H.steps) (handle self.now)
            params.now (Some (length results.old)) (surrounded store.old host.old epochs.old) result results.new
            (surrounded store.new host.new epochs.new) }
        ensures kept { KeepsObjects store.old.machine store.new.machine }
        ensures unwritten { OnErr result (results.new ≡ results.old) }
        ensures engine { store.new.machine.engine ≡ store.old.machine.engine };
}

impl FuncRun for Func {
    ghost handle = { λ func. func };

    fn call<T: HostData, K: CallHooks<T>, B: DeadlineBehaviour<T>, H: HostBody<T>, E: EpochSource>(
        &self,
        store: &mut Store<T, K, B>,
        host: &mut H,
        epochs: &mut E,
        params: &[Val],
        results: &mut [Val],
    ) -> Result<(), Refusal> {
        law_failures_are_counted::<T, K, B, H, E>();
        store.keeps_well_formed();
        begin_turns(store);
        let values = call_values(
            store,
            host,
            epochs,
            *self,
            params,
            Some(results.len() as u64),
        )?;
        results.copy_from_slice(values.as_slice());
        Ok(())
    }
}
