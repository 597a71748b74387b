//! Commands in order, with how many notes the host had behind each.
ghost use Rattle.std.specs.Prelude.{◌≡◌, ◌+◌, ◌≤◌, [], length, vec_capacity, vec_len, IfErr, OnOk};
ghost use Rattle.wasm_call.specs.Outside.{surrounded};
ghost use Rattle.wasm_run.specs.NotedRuns.{RunsNoted, StopsNoted};

use crate::store::ScriptStore;
use script_host::ScriptHost;
use spec_machine::Command;
use wasm_meter::EpochSource;
use wasm_module::Module;
use wasm_session::{Replies, Unfinished, run_command};

/// Does the commands in order over the modules of a session, and keeps how many notes the host had when each was finished.
/// There is room for that before the first one acts.
///
/// After `Unfinished` the finished commands stand with their replies, and the next one is stopped after `turns` turns.
pub(crate) fn run_noted<E: EpochSource>(
    store: &mut ScriptStore,
    modules: &[Module],
    host: &mut ScriptHost,
    epochs: &mut E,
    commands: &[Command],
    replies: &mut Replies,
    notes_after: &mut Vec<usize>,
) -> Result<(), Unfinished>
    requires empty { notes_after.old.items ≡ [] }
    requires room { length commands.now ≤ vec_capacity notes_after.old }
    ensures done { OnOk result (RunsNoted E.readings modules.now commands.now
        (surrounded store.old host.old epochs.old) replies.old (surrounded store.new host.new epochs.new) replies.new
        notes_after.new.items) }
    ensures answered { OnOk result (length replies.new ≡ length replies.old + length commands.now) }
    ensures unfinished { IfErr result (λ unfinished. StopsNoted E.readings modules.now commands.now
        (surrounded store.old host.old epochs.old) replies.old unfinished.turns
        (surrounded store.new host.new epochs.new) replies.new notes_after.new.items) }
{
    for command in commands {
        if let Err(unfinished) = run_command(store, modules, host, epochs, command, replies) {
            return Err(unfinished);
        }
        notes_after.push_reserved(host.notes().len());
    }
    Ok(())
}
