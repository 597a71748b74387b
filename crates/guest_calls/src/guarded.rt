ghost use Rattle.std.specs.List.{list_all};
ghost use Rattle.std.specs.Prelude.{◌≡◌, true, length, Some, Err, OnOk, OnErr, IfErr, IfOk};
ghost use Rattle.spec_machine.specs.Commands.{Instantiate};
ghost use Rattle.spec_machine.specs.FunctionCalls.{called};
ghost use Rattle.spec_machine.specs.Values.{owns_val};
ghost use Rattle.spec_execution.specs.Instantiation.{imports_fit};
ghost use Rattle.code_hosts.specs.Asked.{outside_by};
ghost use Rattle.law_causes.specs.Causes.{GrowsInVain};
ghost use Rattle.law_causes.specs.Tallies.{RefusedByCounts};
ghost use Rattle.wasm_call.specs.Calls.{call_row, Returned, Failed, ResultsFit, CallRefuses};
ghost use Rattle.wasm_call.specs.Outside.{asked, surrounded};
ghost use Rattle.wasm_instance.specs.Instances.{Instantiated, MakingShort};
ghost use Rattle.law_plugins.specs.Showing.{ShowsStep};
ghost use Rattle.guest_calls.specs.Guarded.{CallKeepsGuests, MakingKeepsGuests, MakingAddsGuest};

use host_shown::Shown;
use wasm_call::{FuncRun, HostBody};
use wasm_instance::InstanceCalls;
use wasm_meter::{CallHooks, DeadlineBehaviour, EpochSource, HostData};
use wasm_module::Module;
use wasm_store::Store;
use wasm_values::{Extern, Func, Instance, Refusal, Val};

/// Calls a function, as `FuncRun::call`. Where guests are apart, and one of them reaches the function and its
/// arguments, they stay apart, and each other one is kept, whatever it answers.
pub fn call_guest<
    T: HostData,
    K: CallHooks<T>,
    B: DeadlineBehaviour<T>,
    H: HostBody<T>,
    E: EpochSource,
>(
    store: &mut Store<T, K, B>,
    host: &mut Shown<H>,
    epochs: &mut E,
    func: Func,
    params: &[Val],
    results: &mut [Val],
) -> Result<(), Refusal>
    requires ready { H.ready host.old.inner }
    ensures ready { H.ready host.new.inner }
    ensures returned { OnOk result (Returned (asked T.growths (λ h body. H.has h.inner body) K.hooks B.behaves
        E.readings (λ h s body state cause view after say k t.
        ShowsStep H.steps h.inner h.faults s body state cause view after say k.inner k.faults t))
        (call_row store.old.machine func params.now (Some (length results.old)))
        (surrounded store.old host.old epochs.old) results.new (surrounded store.new host.new epochs.new)) }
    ensures failed { IfErr result (λ why. Failed (asked T.growths (λ h body. H.has h.inner body) K.hooks B.behaves
        E.readings (λ h s body state cause view after say k t.
        ShowsStep H.steps h.inner h.faults s body state cause view after say k.inner k.faults t))
        (call_row store.old.machine func params.now (Some (length results.old)))
        (surrounded store.old host.old epochs.old) why (surrounded store.new host.new epochs.new)) }
    ensures refused { IfErr (called store.old.machine func params.now (Some (length results.old)))
        (λ why. result ≡ Err why) }
    ensures due { IfErr result (CallRefuses store.old.machine func params.now (Some (length results.old))) }
    ensures fit { OnOk result (ResultsFit store.old.machine func store.new.machine results.new) }
    ensures owned { OnOk result (list_all (owns_val store.new.machine) results.new ≡ true) }
    ensures causes { IfErr result (λ why. RefusedByCounts T.denials T.limiter_faults T.hook_faults T.behaviour_faults
        E.epoch_faults (λ h. h.faults) (outside_by store.old.host_data host.old epochs.old)
        (outside_by store.new.host_data host.new epochs.new) ⊥ why) }
    ensures unwritten { OnErr result (results.new ≡ results.old) }
    ensures engine { store.new.machine.engine ≡ store.old.machine.engine }
    ensures guests { CallKeepsGuests store.old.machine store.new.machine func params.now (Some (length results.old)) }
{
    store.keeps_well_formed();
    func.call(store, host, epochs, params, results)
}

/// Makes an instance, as `InstanceCalls::new`. Where guests are apart, and its imports lead to nothing that one of them
/// reaches, they stay apart, each is kept, and the new instance is apart from each.
pub fn make_guest<
    T: HostData,
    K: CallHooks<T>,
    B: DeadlineBehaviour<T>,
    H: HostBody<T>,
    E: EpochSource,
>(
    store: &mut Store<T, K, B>,
    host: &mut Shown<H>,
    epochs: &mut E,
    module: &Module,
    imports: &[Extern],
) -> Result<Instance, Refusal>
    requires ready { H.ready host.old.inner }
    ensures ready { H.ready host.new.inner }
    ensures instantiated { Instantiated (asked T.growths (λ h body. H.has h.inner body) K.hooks B.behaves E.readings
        (λ h s body state cause view after say k t.
        ShowsStep H.steps h.inner h.faults s body state cause view after say k.inner k.faults t))
        «module».now imports.now (surrounded store.old host.old epochs.old) result
        (surrounded store.new host.new epochs.new) }
    ensures refused { IfErr (imports_fit store.old.machine «module».now imports.now) (λ why. result ≡ Err why) }
    ensures short { result ≡ Err Refusal.OutOfMemory →
        MakingShort (asked T.growths (λ h body. H.has h.inner body) K.hooks B.behaves E.readings
        (λ h s body state cause view after say k t.
        ShowsStep H.steps h.inner h.faults s body state cause view after say k.inner k.faults t))
        «module».now imports.now (surrounded store.old host.old epochs.old) (surrounded store.new host.new epochs.new) }
    ensures causes { IfErr result (λ why. RefusedByCounts T.denials T.limiter_faults T.hook_faults T.behaviour_faults
        E.epoch_faults (λ h. h.faults) (outside_by store.old.host_data host.old epochs.old)
        (outside_by store.new.host_data host.new epochs.new)
        (GrowsInVain store.old.machine (Instantiate «module».now imports.now)) why) }
    ensures engine { store.new.machine.engine ≡ store.old.machine.engine }
    ensures guests { MakingKeepsGuests store.old.machine store.new.machine imports.now }
    ensures added { IfOk result (λ made. MakingAddsGuest store.old.machine store.new.machine imports.now made) }
{
    store.keeps_well_formed();
    module.decl();
    <Instance as InstanceCalls>::new(store, module, imports, host, epochs)
}
