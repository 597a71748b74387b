ghost use Rattle.std.specs.Prelude.{◌≡◌, ◌+◌, ◌≤◌, Ok, Err, IfErr};
ghost use Rattle.spec_execution.specs.Instantiation.{imports_fit};
ghost use Rattle.spec_machine.specs.WellFormed.{IsWellFormed};
ghost use Rattle.store_state.specs.Engines.{engine_parts};
ghost use Rattle.wasm_syntax.specs.Modules.{IsModule};
ghost use Rattle.wasm_call.specs.Invoking.{machine_in, store_in};
ghost use Rattle.spec_machine.specs.Commands.{Instantiate};
ghost use Rattle.code_hosts.specs.Asked.{outside_by};
ghost use Rattle.law_causes.specs.Causes.{GrowsInVain};
ghost use Rattle.law_causes.specs.Tallies.{RefusedByCounts};
ghost use Rattle.law_store.specs.Laws.{KeepsObjects};
ghost use Rattle.wasm_call.specs.Confined.{InstantiationConfined};
ghost use Rattle.wasm_call.specs.Outside.{asked, surrounded};
ghost use Rattle.wasm_instance.specs.Instances.{Instantiated, MakingShort, InstantiationRefuses};

use crate::asking::grow_all;
use crate::making::make;
use instance_parts::{check_imports, raise_counts};
use store_objects::{ObjectParts, Objects};
use wasm_call::laws::law_failures_are_counted;
use wasm_call::{HostBody, begin_turns};
use wasm_meter::{CallHooks, DeadlineBehaviour, EpochSource, HostData};
use wasm_module::Module;
use wasm_store::{Store, parts};
use wasm_values::{Extern, Instance, Refusal};

// Counts so many turns more.
fn count_turns<T: HostData, K: CallHooks<T>, B: DeadlineBehaviour<T>>(
    store: &mut Store<T, K, B>,
    turns: u64,
)
    requires { store.old.turns + turns ≤ 1000000000 }
    ensures { store.new ≡ record store.old { turns = store.old.turns + turns } }
{
    let made = store.turns();
    parts::set_turns(store, made + turns);
}

// Instantiates a module over imports that fit, on the objects of a store: the counts, the questions to the limiter, and
// then the turn that makes the instance, with its start function.
fn instantiate_in<
    T: HostData,
    K: CallHooks<T>,
    B: DeadlineBehaviour<T>,
    H: HostBody<T>,
    E: EpochSource,
>(
    parts: &mut ObjectParts,
    store: &mut Store<T, K, B>,
    host: &mut H,
    epochs: &mut E,
    validated: &Module,
    imports: &[Extern],
) -> Result<Instance, Refusal>
    requires ready { H.ready host.old }
    requires formed { IsWellFormed (machine_in parts.old) }
    requires module_is { IsModule validated.now }
    requires fit { imports_fit (machine_in parts.old) validated.now imports.now ≡ Ok tt }
    requires fresh { store.old.turns ≡ 0 }
    requires id { parts.old.id ≡ store.old.machine.id }
    requires engine { engine_parts parts.old.engine ≡ store.old.machine.engine }
    requires limiter { parts.old.flags.limited ≡ store.old.machine.is_limited }
    requires hook { parts.old.flags.hooked ≡ store.old.machine.is_hooked }
    requires behaviour { parts.old.flags.behaving ≡ store.old.machine.is_behaving }
    ensures ready { H.ready host.new }
    ensures instantiated { Instantiated (asked T.growths H.has K.hooks B.behaves E.readings H.steps) validated.now imports.now
        (surrounded (store_in parts.old 0 store.old.host_data) host.old epochs.old) result
        (surrounded (store_in parts.new store.new.turns store.new.host_data) host.new epochs.new) }
    ensures short { result ≡ Err Refusal.OutOfMemory →
        MakingShort (asked T.growths H.has K.hooks B.behaves E.readings H.steps) validated.now imports.now
        (surrounded (store_in parts.old 0 store.old.host_data) host.old epochs.old)
        (surrounded (store_in parts.new store.new.turns store.new.host_data) host.new epochs.new) }
    ensures formed { IsWellFormed (machine_in parts.new) }
    ensures rest { parts.new ≡ record parts.old { program = parts.new.program; held = parts.new.held } }
    ensures machine { store.new.machine ≡ store.old.machine }
{
    let most = parts.engine.turns();
    raise_counts(&mut parts.held, validated.decl())?;
    grow_all(store, parts.flags.limited, validated.decl(), most)?;
    let left = most - store.turns();
    let ended = make(parts, store, host, epochs, validated, imports, left);
    count_turns(store, ended.turns);
    ended.instance
}

/// Makes an instance of a module over these imports, as an outermost command.
pub(crate) fn instantiate<
    T: HostData,
    K: CallHooks<T>,
    B: DeadlineBehaviour<T>,
    H: HostBody<T>,
    E: EpochSource,
>(
    store: &mut Store<T, K, B>,
    validated: &Module,
    imports: &[Extern],
    host: &mut H,
    epochs: &mut E,
) -> Result<Instance, Refusal>
    requires ready { H.ready host.old }
    ensures ready { H.ready host.new }
    ensures instantiated { Instantiated (asked T.growths H.has K.hooks B.behaves E.readings H.steps) validated.now imports.now
        (surrounded store.old host.old epochs.old) result (surrounded store.new host.new epochs.new) }
    ensures refused { IfErr (imports_fit store.old.machine validated.now imports.now) (λ why. result ≡ Err why) }
    ensures due { IfErr result (InstantiationRefuses store.old.machine validated.now imports.now) }
    ensures short { result ≡ Err Refusal.OutOfMemory →
        MakingShort (asked T.growths H.has K.hooks B.behaves E.readings H.steps) validated.now imports.now
        (surrounded store.old host.old epochs.old) (surrounded store.new host.new epochs.new) }
    ensures causes { IfErr result (λ why. RefusedByCounts T.denials T.limiter_faults T.hook_faults T.behaviour_faults
        E.epoch_faults H.host_faults (outside_by store.old.host_data host.old epochs.old)
        (outside_by store.new.host_data host.new epochs.new)
        (GrowsInVain store.old.machine (Instantiate validated.now imports.now)) why) }
    ensures confined { InstantiationConfined (asked T.growths H.has K.hooks B.behaves E.readings H.steps) validated.now
        imports.now (surrounded store.old host.old epochs.old) result
        (surrounded store.new host.new epochs.new) }
    ensures kept { KeepsObjects store.old.machine store.new.machine }
    ensures engine { store.new.machine.engine ≡ store.old.machine.engine }
{
    law_failures_are_counted::<T, K, B, H, E>();
    store.keeps_well_formed();
    begin_turns(store);
    check_imports(parts::objects(store), validated.decl(), imports)?;
    let mut taken = parts::take_objects(store).into_parts();
    let instance = instantiate_in(&mut taken, store, host, epochs, validated, imports);
    parts::put_objects(store, Objects::from_parts(taken));
    instance
}
