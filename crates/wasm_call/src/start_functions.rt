ghost use Rattle.std.specs.Prelude.{◌≡◌, ◌<◌, Err};
ghost use Rattle.spec_machine.specs.WellFormed.{IsWellFormed};
ghost use Rattle.store_state.specs.Engines.{engine_parts};
ghost use Rattle.spec_machine.specs.declared.reply.Reply.{Reply};
ghost use Rattle.wasm_call.specs.Invoking.{machine_in, store_in, IsUnstuck};
ghost use Rattle.wasm_call.specs.Outside.{asked, surrounded};
ghost use Rattle.wasm_call.specs.Starting.{IsSafeStart, Started, TellsStart};

use crate::invocations::{Invocation, run_parts};
use code_hosts::How;
use store_objects::ObjectParts;
use wasm_host::HostBody;
use wasm_meter::{CallHooks, DeadlineBehaviour, EpochSource, HostData};
use wasm_store::Store;
use wasm_values::Refusal;

/// What the run of a start function came to: nothing, or why it did not return; and how many turns it took.
#[derive(Drop)]
pub struct StartEnd {
    pub result: Result<(), Refusal>,
    pub turns: u64,
}

// There was no memory after so many turns.
fn start_unfinished(turns: u64) -> StartEnd
    ensures result { result.result ≡ Err Refusal.OutOfMemory }
    ensures turns { result.turns ≡ turns }
{
    StartEnd {
        result: Err(Refusal::OutOfMemory),
        turns,
    }
}

// What a host is told of a run of a start function.
fn start_told(how: How) -> Result<(), Refusal>
    requires { IsUnstuck how }
    ensures { TellsStart how result }
{
    match how {
        How::Returned(_) => Ok(()),
        How::Trapped(trap) => Err(Refusal::Trap(trap)),
        How::Refused(why) => Err(why),
        How::TurnLimit => Err(Refusal::TurnLimit),
        How::Stuck => unreachable!(),
    }
}

/// Runs a start function on the objects that were taken out of a store, by its number, with at most so many turns,
/// as code of the instance calls it. Where somebody is asked, the store is, and bodies of functions of the host are
/// stepped.
///
/// What it came to: a trap, `TurnLimit`, a refusal of the limiter, of the hook, of the deadline behaviour, of the
/// source of epochs or of the host, or `OutOfMemory`, which may come after any turn.
pub fn run_start<
    T: HostData,
    K: CallHooks<T>,
    B: DeadlineBehaviour<T>,
    H: HostBody<T>,
    E: EpochSource,
>(
    parts: &mut ObjectParts,
    store: &mut Store<T, K, B>,
    host: &mut H,
    epochs: &mut E,
    instance: usize,
    function: usize,
    turns: u64,
) -> StartEnd
    requires ready { H.ready host.old }
    requires formed { IsWellFormed (machine_in parts.old) }
    requires safe { IsSafeStart (machine_in parts.old) function instance }
    requires few { turns < 1000000000 }
    requires id { parts.old.id ≡ store.old.machine.id }
    requires engine { engine_parts parts.old.engine ≡ store.old.machine.engine }
    requires limiter { parts.old.flags.limited ≡ store.old.machine.is_limited }
    requires hook { parts.old.flags.hooked ≡ store.old.machine.is_hooked }
    requires behaviour { parts.old.flags.behaving ≡ store.old.machine.is_behaving }
    ensures ready { H.ready host.new }
    ensures started { (answer : Reply) → Started (asked T.growths H.has K.hooks B.behaves E.readings H.steps) function instance
        answer turns (surrounded (store_in parts.old 0 store.old.host_data) host.old epochs.old) result.result
        (surrounded (store_in parts.new result.turns store.new.host_data) host.new epochs.new) }
    ensures formed { IsWellFormed (machine_in parts.new) }
    ensures rest { parts.new ≡ record parts.old { held = parts.new.held } }
    ensures store { store.new ≡ record store.old { host_data = store.new.host_data } }
{
    let invocation = Invocation {
        number: function,
        arguments: &[],
        caller: Some(instance),
    };
    match run_parts(parts, store, host, epochs, &invocation, turns) {
        Err(unfinished) => start_unfinished(unfinished.turns),
        Ok(reply) => StartEnd {
            result: start_told(reply.how),
            turns: reply.turns,
        },
    }
}
