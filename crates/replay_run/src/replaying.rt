//! The run of a script by a tape, and its text.
ghost use Rattle.std.specs.Prelude.{◌≡◌, true, string_bytes, IfOk};
ghost use Rattle.spec_machine.specs.Machine.{are_engine_limits};
ghost use Rattle.wasm_tape.specs.Answers.{ReadsTape};
ghost use Rattle.wasm_tape.specs.Parts.{parts_of};
ghost use Rattle.replay_run.specs.Inputs.{tape_of};
ghost use Rattle.replay_run.specs.Prepared.{script_of};
ghost use Rattle.replay_run.specs.Runs.{HasReplayed};
ghost use Rattle.replay_run.specs.Starts.{IsUnhooked};
ghost use Rattle.replay_run.specs.Statuses.{ReplaysAs};

use crate::lines::{append_end, append_lines};
use crate::prepared::Checked;
use crate::stores::replayed_store;
use script_json::{JsonFault, json_of};
use std::alloc::Global;
use wasm_replay::{ReplayEnd, replay_commands};
use wasm_session::Replies;
use wasm_tape::{Tape, TapeFault};
use wasm_types::{FuncType, OutOfMemory};

/// The tape that a line spells over some types.
///
/// `BadTape` exactly where it spells none.
pub(crate) fn read_tape(alloc: Global, types: &[FuncType], line: &[u8]) -> Result<Tape, TapeFault>
    ensures { ReadsTape (tape_of types.now line.now) result }
{
    match json_of(alloc, line) {
        Ok(json) => Tape::from_value(alloc, types, &json),
        Err(JsonFault::NotJson) => Err(TapeFault::BadTape),
        Err(JsonFault::OutOfMemory) => Err(TapeFault::OutOfMemory),
    }
}

/// The replies to the commands that were replayed, and how the replay ended.
#[derive(Drop)]
struct Outcome {
    replies: Replies,
    ended: ReplayEnd,
}

/// Runs a script by a tape.
fn replay(alloc: Global, script: &Checked, tape: &Tape) -> Result<Outcome, OutOfMemory>
    requires limits { are_engine_limits script.now.engine.frames script.now.engine.turns ≡ true }
    requires unhooked { IsUnhooked script.now.answers }
    ensures { IfOk result (λ outcome.
        HasReplayed (script_of script.now) (parts_of tape.now) outcome.replies outcome.ended) }
{
    let mut store = replayed_store(alloc, script.engine, &script.answers, tape)?;
    let mut replies = Replies::new(alloc);
    let ended = replay_commands(
        alloc,
        &mut store,
        script.modules.as_slice(),
        tape,
        script.bodies.as_slice().len(),
        script.commands.as_slice(),
        &mut replies,
    );
    let _data = store.into_data();
    match ended {
        Ok(ended) => Ok(Outcome { replies, ended }),
        Err(_) => Err(OutOfMemory),
    }
}

/// The text of a replay, and how it ended.
#[derive(Drop)]
pub(crate) struct Told {
    pub(crate) text: String,
    pub(crate) ended: ReplayEnd,
}

/// The text of a script's replay by a tape: its lines, and how it ended.
#[tactic(auto, using(crate::proofs::TextLemmas::replays_as))]
pub(crate) fn replay_text(alloc: Global, script: &Checked, tape: &Tape) -> Result<Told, OutOfMemory>
    requires limits { are_engine_limits script.now.engine.frames script.now.engine.turns ≡ true }
    requires unhooked { IsUnhooked script.now.answers }
    ensures { IfOk result (λ told.
        ReplaysAs (script_of script.now) (parts_of tape.now) told.ended (string_bytes told.text)) }
{
    let outcome = replay(alloc, script, tape)?;
    let mut text = String::new(alloc);
    append_lines(alloc, &mut text, outcome.replies.as_slice())?;
    append_end(&mut text, outcome.ended)?;
    Ok(Told {
        text,
        ended: outcome.ended,
    })
}
