ghost use Rattle.std.specs.Prelude.{◌≡◌, ℕ, ◌+◌, ◌++◌, ◌∷◌, [], length, slice_get, Some, IfOk, IfErr, OnOk, OnErr};
ghost use Rattle.wasm_values.specs.declared.refusals.Refusal.{Refusal as Why};
ghost use Rattle.spec_machine.specs.declared.reply.Reply.TheVariants.{Refused};
ghost use Rattle.code_hosts.specs.Asked.{outside_by};
ghost use Rattle.law_causes.specs.Tallies.{RefusedByCounts};
ghost use Rattle.wasm_call.specs.Outside.{asked, surrounded, outside};
ghost use Rattle.wasm_call.specs.Runs.{Steps, Breaks};
ghost use Rattle.wasm_session.specs.Causes.{CommandInVain, RunsCaused, StopsCaused};
ghost use Rattle.wasm_session.specs.Confined.{StepsConfined, BreaksConfined, RunsConfined, StopsConfined};
ghost use Rattle.wasm_session.specs.Sessions.{Runs, StopsIn};
ghost use Rattle.wasm_session.specs.Short.{ActsShort, CommandShort, RunShort};

use crate::replies::Replies;
use spec_machine::Command;
use wasm_call::laws::law_failures_are_counted;
use wasm_call::{HostBody, Reply, run_func_new, run_op};
use wasm_instance::run_instantiate;
use wasm_meter::{CallHooks, DeadlineBehaviour, EpochSource, HostData};
use wasm_module::Module;
use wasm_store::Store;
use wasm_types::OutOfMemory;

/// Memory ran out in a command, after it had made so many turns.
#[derive(Clone, Copy, Debug, PartialEq, Eq)]
pub struct Unfinished {
    pub turns: u64,
}

/// Does one outermost command over the modules of the session, and answers its reply.
pub(crate) fn perform<
    T: HostData,
    K: CallHooks<T>,
    B: DeadlineBehaviour<T>,
    H: HostBody<T>,
    E: EpochSource,
>(
    store: &mut Store<T, K, B>,
    modules: &[Module],
    host: &mut H,
    epochs: &mut E,
    replies: &[Reply],
    command: &Command,
) -> Result<Reply, OutOfMemory>
    requires ready { H.ready host.old }
    ensures ready { H.ready host.new }
    ensures answered { IfOk result (λ reply. Steps (asked T.growths H.has K.hooks B.behaves E.readings H.steps) modules.now command.now
        (surrounded store.old host.old epochs.old) replies.now
        (surrounded store.new host.new epochs.new) (replies.now ++ reply ∷ [])) }
    ensures cut { OnErr result (Breaks (asked T.growths H.has K.hooks B.behaves E.readings H.steps) modules.now command.now
        store.new.turns (surrounded store.old host.old epochs.old) replies.now
        (surrounded store.new host.new epochs.new) replies.now) }
    ensures short { OnErr result (ActsShort (asked T.growths H.has K.hooks B.behaves E.readings H.steps) modules.now replies.now command.now
        (surrounded store.old host.old epochs.old) (surrounded store.new host.new epochs.new)) }
    ensures engine { store.new.machine.engine ≡ store.old.machine.engine }
{
    match command {
        Command::FuncNew { ty, body, stored } => {
            run_func_new(store, replies, ty, *body, stored.as_slice())
        }
        Command::Instantiate { module, imports } => {
            run_instantiate(
                store,
                modules,
                host,
                epochs,
                replies,
                *module,
                imports.as_slice(),
            )
        }
        Command::Op(op) => run_op(store, host, epochs, replies, op),
    }
}

/// Does one outermost command over the modules of the session, and adds its reply, whose place is made before the
/// command acts. The rules of a run are this project's own.
///
/// `Store::turns` tells the turns that it took. A refusal, a trap and `TurnLimit` are the reply `Refused`. `Unfinished`
/// is want of memory: then no reply is added, and the command is stopped after `turns` turns, which `Store::turns`
/// tells too. Then it had not begun, or made no function of the host; or an instantiation made no object, or came to its
/// start function; or it is an operation that takes memory and is not refused, and the act of one that is no call was due.
///
/// `epochs` is read where code is entered and the store's engine reads epochs.
///
/// A refusal by what is outside comes only where the count of what gave it rose in this command, or stands at its last
/// value; and `GrowFailed` only where the limiter's count of denials did, or where the growth fails without a limiter, too.
///
/// Finished or not, the command leaves each memory, table, global and segment outside of what it reaches as it was: what
/// leads from the objects that it names, and from the functions that bodies of the host handed out and were not shown.
pub fn run_command<
    T: HostData,
    K: CallHooks<T>,
    B: DeadlineBehaviour<T>,
    H: HostBody<T>,
    E: EpochSource,
>(
    store: &mut Store<T, K, B>,
    modules: &[Module],
    host: &mut H,
    epochs: &mut E,
    command: &Command,
    replies: &mut Replies,
) -> Result<(), Unfinished>
    requires ready { H.ready host.old }
    ensures ready { H.ready host.new }
    ensures done { OnOk result (Steps (asked T.growths H.has K.hooks B.behaves E.readings H.steps) modules.now command.now
        (surrounded store.old host.old epochs.old) replies.old (surrounded store.new host.new epochs.new) replies.new) }
    ensures answered { OnOk result (length replies.new ≡ length replies.old + 1) }
    ensures unfinished { IfErr result (λ unfinished. Breaks (asked T.growths H.has K.hooks B.behaves E.readings H.steps) modules.now
        command.now unfinished.turns
        (surrounded store.old host.old epochs.old) replies.old (surrounded store.new host.new epochs.new) replies.new) }
    ensures short { OnErr result (CommandShort (asked T.growths H.has K.hooks B.behaves E.readings H.steps) modules.now replies.old
        command.now (surrounded store.old host.old epochs.old) (surrounded store.new host.new epochs.new)) }
    ensures confined { OnOk result (StepsConfined (asked T.growths H.has K.hooks B.behaves E.readings H.steps) modules.now
        command.now (surrounded store.old host.old epochs.old) replies.old
        (surrounded store.new host.new epochs.new) replies.new) }
    ensures unfinished_confined { IfErr result (λ unfinished. BreaksConfined
        (asked T.growths H.has K.hooks B.behaves E.readings H.steps) modules.now command.now unfinished.turns
        (surrounded store.old host.old epochs.old) replies.old
        (surrounded store.new host.new epochs.new) replies.new) }
    ensures causes { OnOk result ((why : Why) → slice_get replies.new (length replies.old) ≡ Some (Refused why) →
        RefusedByCounts T.denials T.limiter_faults T.hook_faults T.behaviour_faults
        E.epoch_faults H.host_faults (outside_by store.old.host_data host.old epochs.old)
        (outside_by store.new.host_data host.new epochs.new)
        (CommandInVain modules.now store.old replies.old command.now) why) }
    ensures engine { store.new.machine.engine ≡ store.old.machine.engine }
{
    law_failures_are_counted::<T, K, B, H, E>();
    replies.answer(store, modules, host, epochs, command)
}

/// Does the commands in order over the modules of the session, each as `run_command`, whose conditions it shares.
/// `Store::turns` tells the turns of the last one; where there is none, nothing changes.
///
/// After `Unfinished` the finished commands stand with their replies, and the next one is stopped after `turns` turns. Each
/// of them is confined as `run_command` says, and refused by what is outside only where the count of that rose in it.
pub fn run_commands<
    T: HostData,
    K: CallHooks<T>,
    B: DeadlineBehaviour<T>,
    H: HostBody<T>,
    E: EpochSource,
>(
    store: &mut Store<T, K, B>,
    modules: &[Module],
    host: &mut H,
    epochs: &mut E,
    commands: &[Command],
    replies: &mut Replies,
) -> Result<(), Unfinished>
    requires ready { H.ready host.old }
    ensures ready { H.ready host.new }
    ensures done { OnOk result (Runs (asked T.growths H.has K.hooks B.behaves E.readings H.steps) modules.now commands.now
        (surrounded store.old host.old epochs.old) replies.old (surrounded store.new host.new epochs.new) replies.new) }
    ensures answered { OnOk result (length replies.new ≡ length replies.old + length commands.now) }
    ensures unfinished { IfErr result (λ unfinished. StopsIn (asked T.growths H.has K.hooks B.behaves E.readings H.steps) modules.now
        commands.now unfinished.turns
        (surrounded store.old host.old epochs.old) replies.old (surrounded store.new host.new epochs.new) replies.new) }
    ensures short { OnErr result (RunShort (asked T.growths H.has K.hooks B.behaves E.readings H.steps) modules.now commands.now
        (surrounded store.old host.old epochs.old) replies.old (surrounded store.new host.new epochs.new) replies.new) }
    ensures confined { OnOk result (RunsConfined (asked T.growths H.has K.hooks B.behaves E.readings H.steps) modules.now
        commands.now (surrounded store.old host.old epochs.old) replies.old
        (surrounded store.new host.new epochs.new) replies.new) }
    ensures unfinished_confined { IfErr result (λ unfinished. StopsConfined
        (asked T.growths H.has K.hooks B.behaves E.readings H.steps) modules.now commands.now unfinished.turns
        (surrounded store.old host.old epochs.old) replies.old
        (surrounded store.new host.new epochs.new) replies.new) }
    ensures causes { OnOk result (RunsCaused (asked T.growths H.has K.hooks B.behaves E.readings H.steps)
        (λ a b reason why. RefusedByCounts T.denials T.limiter_faults T.hook_faults T.behaviour_faults
        E.epoch_faults H.host_faults (outside a) (outside b) reason why)
        modules.now commands.now (surrounded store.old host.old epochs.old) replies.old
        (surrounded store.new host.new epochs.new) replies.new) }
    ensures unfinished_causes { IfErr result (λ unfinished. StopsCaused
        (asked T.growths H.has K.hooks B.behaves E.readings H.steps)
        (λ a b reason why. RefusedByCounts T.denials T.limiter_faults T.hook_faults T.behaviour_faults
        E.epoch_faults H.host_faults (outside a) (outside b) reason why)
        modules.now commands.now (surrounded store.old host.old epochs.old) replies.old unfinished.turns
        (surrounded store.new host.new epochs.new) replies.new) }
{
    law_failures_are_counted::<T, K, B, H, E>();
    for command in commands {
        if let Err(unfinished) = replies.answer(store, modules, host, epochs, command) {
            return Err(unfinished);
        }
    }
    Ok(())
}
