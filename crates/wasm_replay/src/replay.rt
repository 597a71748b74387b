ghost use Rattle.std.specs.Prelude.{◌≡◌, ◌+◌, length, IfOk, IfErr, OnOk};
ghost use Rattle.wasm_tape.specs.Parts.{parts_of};
ghost use Rattle.wasm_replay.specs.ReplayCalls.{IsUnasked, RanReplayed, RanByTape, StopsReplayed};
ghost use Rattle.wasm_replay.specs.declared.ends.ReplayEnd.TheVariants.{Same};

use crate::ends::{Lengths, ReplayEnd, end_of};
use crate::played::Played;
use crate::replayed::Replayed;
use crate::replayed_epochs::ReplayedEpochs;
use crate::replaying::Replaying;
use spec_machine::Command;
use std::alloc::Global;
use wasm_module::Module;
use wasm_session::{Replies, Unfinished, run_commands};
use wasm_store::Store;
use wasm_tape::Tape;

/// Does the commands as `run_commands`, with the answers of a tape, and answers how the tape and the run went together.
/// The store's host data were made from this tape and were not asked yet; it has no hook and no deadline behaviour.
///
/// The host has just the bodies below `bodies`. Each answer is the next one of its list; a step is given where it is asked
/// for as it was recorded. The first that is not fails, and so does each step behind it (`Differs`); past the end of its
/// list a step fails, and a reading or a growth is a fault (`Ended`); `Left` tells that a list was not used up. So with
/// `Same` the tape holds all that was asked and answered.
///
/// After `Unfinished` the finished commands stand with their replies, and the next one is stopped after `turns` turns.
pub fn replay_commands(
    _alloc: Global,
    store: &mut Store<Replayed>,
    modules: &[Module],
    tape: &Tape,
    bodies: usize,
    commands: &[Command],
    replies: &mut Replies,
) -> Result<ReplayEnd, Unfinished>
    requires unasked { IsUnasked (parts_of tape.now) store.old }
    ensures replayed { IfOk result (λ end. RanReplayed bodies modules.now commands.now (parts_of tape.now)
        store.old replies.old store.new replies.new end) }
    ensures held { IfOk result (λ end. end ≡ Same → RanByTape bodies modules.now commands.now (parts_of tape.now)
        store.old replies.old store.new replies.new) }
    ensures answered { OnOk result (length replies.new ≡ length replies.old + length commands.now) }
    ensures unfinished { IfErr result (λ unfinished. StopsReplayed bodies modules.now commands.now (parts_of tape.now)
        unfinished.turns store.old replies.old store.new replies.new) }
{
    let mut host = Replaying {
        steps: tape.steps.as_slice(),
        played: Played::new(),
        differs: None,
        bodies,
        faults: 0,
    };
    let mut epochs = ReplayedEpochs {
        readings: tape.readings.as_slice(),
        played: Played::new(),
        faults: 0,
    };
    if let Err(unfinished) = run_commands(
        store,
        modules,
        &mut host,
        &mut epochs,
        commands,
        replies,
    ) {
        return Err(unfinished);
    }
    let lengths = Lengths {
        steps: host.steps.len(),
        readings: epochs.readings.len(),
        growths: store.data().growths.len(),
    };
    let end = end_of(
        host.differs,
        host.played,
        epochs.played,
        store.data().played,
        lengths,
    );
    Ok(end)
}
