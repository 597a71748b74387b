ghost use Rattle.std.specs.Prelude.{◌≡◌, ◌≤◌, ◌⊎◌, Err, IfOk, OnErr};
ghost use Rattle.spec_machine.specs.Machine.{Machine};
ghost use Rattle.spec_machine.specs.WellFormed.{IsWellFormed};
ghost use Rattle.wasm_call.specs.Invoking.{machine_in, store_in};
ghost use Rattle.wasm_call.specs.Outside.{asked, surrounded};
ghost use Rattle.store_state.specs.Engines.{engine_parts};
ghost use Rattle.store_state.specs.Machine.{run_machine};
ghost use Rattle.instance_parts.specs.Preparing.{AreInRange, IsMade};
ghost use Rattle.law_images.specs.Leading.{AreAligned};
ghost use Rattle.wasm_instance.specs.Instances.{Starts, told_of};
ghost use Rattle.wasm_instance.specs.Making.{IsReady, Makes};

use instance_parts::{Ending, Made, make_instance};
use std::alloc::Global;
use store_objects::{ObjectParts, SharedProgram};
use store_state::Held;
use wasm_call::{HostBody, run_start};
use wasm_meter::{CallHooks, DeadlineBehaviour, EpochSource, HostData};
use wasm_module::Module;
use wasm_store::Store;
use wasm_types::OutOfMemory;
use wasm_values::{Extern, Instance, Refusal};

/// What an instantiation came to behind its questions, and how many turns that took.
#[derive(Drop)]
pub(crate) struct Ended {
    pub(crate) instance: Result<Instance, Refusal>,
    pub(crate) turns: u64,
}

// There is an instance, or not, after so many turns.
fn end_after(instance: Result<Instance, Refusal>, turns: u64) -> Ended
    ensures instance { result.instance ≡ instance }
    ensures turns { result.turns ≡ turns }
{
    Ended { instance, turns }
}

// What a host is told of an instance whose start function came to this.
fn told(instance: Instance, start: Result<(), Refusal>) -> Result<Instance, Refusal>
    ensures { result ≡ told_of instance start }
{
    match start {
        Ok(()) => Ok(instance),
        Err(why) => Err(why),
    }
}

// The turn that makes the instance and takes its segments. The program is changed by its owner alone: no other holds it
// outside a run.
fn make_in(
    alloc: Global,
    shared: &mut SharedProgram,
    held: &mut Held,
    validated: &Module,
    imports: &[Extern],
) -> Result<Made, OutOfMemory>
    requires range { AreInRange validated.now }
    requires aligned { AreAligned validated.now imports.now }
    ensures ok { (base : Machine) → IfOk result (λ made. IsMade validated.now imports.now
        (run_machine base shared.old held.old) made (run_machine base shared.new held.new)) }
    ensures err { (base : Machine) → OnErr result
        (run_machine base shared.new held.new ≡ run_machine base shared.old held.old) }
{
    let Some(mut program) = shared.take(alloc) else {
        return Err(OutOfMemory);
    };
    let made = make_instance(alloc, &mut program, held, validated, imports);
    *shared = SharedProgram::from_program(program);
    made
}

/// Makes an instance of a module on the objects of a store behind all questions, in one turn of so many that are left,
/// and enters its start function. `TurnLimit` where no turn is left. All room is made before that turn, so that nothing
/// fails behind it but a segment or the start function.
pub(crate) fn make<
    T: HostData,
    K: CallHooks<T>,
    B: DeadlineBehaviour<T>,
    H: HostBody<T>,
    E: EpochSource,
>(
    parts: &mut ObjectParts,
    store: &mut Store<T, K, B>,
    host: &mut H,
    epochs: &mut E,
    validated: &Module,
    imports: &[Extern],
    turns: u64,
) -> Ended
    requires host_ready { H.ready host.old }
    requires ready { IsReady (machine_in parts.old) validated.now imports.now }
    requires few { turns ≤ 1000000000 }
    requires id { parts.old.id ≡ store.old.machine.id }
    requires engine { engine_parts parts.old.engine ≡ store.old.machine.engine }
    requires limiter { parts.old.flags.limited ≡ store.old.machine.is_limited }
    requires hook { parts.old.flags.hooked ≡ store.old.machine.is_hooked }
    requires behaviour { parts.old.flags.behaving ≡ store.old.machine.is_behaving }
    ensures host_ready { H.ready host.new }
    ensures makes { Makes (asked T.growths H.has K.hooks B.behaves E.readings H.steps) validated.now imports.now turns
        (surrounded (store_in parts.old 0 store.old.host_data) host.old epochs.old) result.instance
        (surrounded (store_in parts.new result.turns store.new.host_data) host.new epochs.new) }
    ensures short { result.instance ≡ Err Refusal.OutOfMemory →
        (surrounded (store_in parts.new result.turns store.new.host_data) host.new epochs.new
        ≡ surrounded (store_in parts.old 0 store.old.host_data) host.old epochs.old)
        ⊎ Starts validated.now imports.now (machine_in parts.old) }
    ensures left { result.instance ≡ Err Refusal.OutOfMemory → 1 ≤ turns }
    ensures formed { IsWellFormed (machine_in parts.new) }
    ensures within { result.turns ≤ turns }
    ensures rest { parts.new ≡ record parts.old { program = parts.new.program; held = parts.new.held } }
    ensures store { store.new ≡ record store.old { host_data = store.new.host_data } }
{
    if turns == 0 {
        return end_after(Err(Refusal::TurnLimit), 0);
    }
    match make_in(
        parts.alloc,
        &mut parts.program,
        &mut parts.held,
        validated,
        imports,
    ) {
        Err(_) => end_after(Err(Refusal::OutOfMemory), 0),
        Ok(made) => {
            let instance = Instance::from_parts(parts.id, made.number);
            match made.ending {
                Ending::Whole => end_after(Ok(instance), 1),
                Ending::Trapped(trap) => end_after(Err(Refusal::Trap(trap)), 1),
                Ending::Starts(function) => {
                    let start = run_start(
                        parts,
                        store,
                        host,
                        epochs,
                        made.number,
                        function,
                        turns - 1,
                    );
                    end_after(told(instance, start.result), start.turns + 1)
                }
                Ending::Sticks => unreachable!(),
            }
        }
    }
}
