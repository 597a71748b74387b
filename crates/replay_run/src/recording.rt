//! The run of a script that is recorded, and its text.
ghost use Rattle.std.specs.Prelude.{◌≡◌, true, string_bytes, IfOk, IfErr};
ghost use Rattle.spec_machine.specs.Machine.{are_engine_limits};
ghost use Rattle.wasm_tape.specs.Parts.{parts_of};
ghost use Rattle.replay_run.specs.Prepared.{script_of, typed_of};
ghost use Rattle.replay_run.specs.Runs.{HasRecorded};
ghost use Rattle.replay_run.specs.Starts.{IsUnhooked};
ghost use Rattle.replay_run.specs.Statuses.{NotRecorded, RecordsAs};
ghost use Rattle.replay_run.specs.Tellings.{IsRecordFault, IsTapeLine, IsLineFault};

use crate::host::SessionHost;
use crate::lines::append_lines;
use crate::prepared::{Checked, Prepared};
use crate::status::Status;
use crate::stores::{ROOM, recorded_store};
use script_host::ScriptHost;
use std::alloc::Global;
use wasm_meter::EpochSource;
use wasm_replay::{RecordFault, record_commands};
use wasm_run::Status as SessionStatus;
use wasm_session::Replies;
use wasm_tape::{Tape, TapeFault};
use wasm_types::FuncType;

/// A tape, and the replies to the commands that were recorded on it.
#[derive(Drop)]
struct Taped {
    tape: Tape,
    replies: Replies,
}

/// Runs a script, recorded.
#[tactic(auto, using(crate::proofs::TextLemmas::is_fresh, crate::proofs::TextLemmas::has_recorded, crate::proofs::TextLemmas::has_spent))]
fn record<E: EpochSource>(alloc: Global, script: Checked, epochs: &mut E) -> Result<Taped, Status>
    requires limits { are_engine_limits script.engine.frames script.engine.turns ≡ true }
    requires unhooked { IsUnhooked script.answers }
    ensures recorded { IfOk result (λ taped.
        HasRecorded E.readings epochs.old epochs.new (script_of script) (parts_of taped.tape) taped.replies) }
    ensures fault { IfErr result (λ status. IsRecordFault E.readings epochs.old epochs.new (script_of script) status) }
{
    let Ok(mut store) = recorded_store(alloc, script.engine, script.answers) else {
        return Err(Status::Session(SessionStatus::OutOfMemory));
    };
    let bodies = script.bodies.as_slice().len();
    let mut host = SessionHost {
        host: ScriptHost::new(alloc, script.bodies),
    };
    let mut replies = Replies::new(alloc);
    let taped = record_commands(
        alloc,
        &mut store,
        script.modules.as_slice(),
        &mut host,
        bodies,
        epochs,
        ROOM,
        script.commands.as_slice(),
        &mut replies,
    );
    let _data = store.into_data();
    match taped {
        Ok(tape) => Ok(Taped { tape, replies }),
        Err(RecordFault::RoomSpent) => Err(Status::RoomSpent),
        Err(RecordFault::Unfinished(_)) => Err(Status::Session(SessionStatus::OutOfMemory)),
        Err(RecordFault::OutOfMemory) => Err(Status::Session(SessionStatus::OutOfMemory)),
    }
}

/// The line of a tape.
#[tactic(auto, using(crate::proofs::TextLemmas::is_tape_line))]
fn tape_line(alloc: Global, types: &[FuncType], tape: &Tape) -> Result<String, Status>
    ensures line { IfOk result (λ line. IsTapeLine types.now (parts_of tape.now) (string_bytes line)) }
    ensures fault { IfErr result (λ status. IsLineFault types.now (parts_of tape.now) status) }
{
    let value = match tape.to_value(alloc, types) {
        Ok(value) => value,
        Err(TapeFault::UnknownType) => return Err(Status::UnknownType),
        Err(TapeFault::BadTape) => unreachable!(),
        Err(TapeFault::OutOfMemory) => return Err(Status::Session(SessionStatus::OutOfMemory)),
    };
    let Ok(mut line) = value.to_string(alloc) else {
        return Err(Status::Session(SessionStatus::OutOfMemory));
    };
    let Ok(()) = line.push_str("\n") else {
        return Err(Status::Session(SessionStatus::OutOfMemory));
    };
    Ok(line)
}

/// The text of a script's record: its tape, and its lines.
#[tactic(auto, using(crate::proofs::TextLemmas::records_as, crate::proofs::TextLemmas::line_fault))]
pub(crate) fn record_text<E: EpochSource>(
    alloc: Global,
    prepared: Prepared,
    epochs: &mut E,
) -> Result<String, Status>
    requires limits { are_engine_limits prepared.script.engine.frames prepared.script.engine.turns ≡ true }
    requires unhooked { IsUnhooked prepared.script.answers }
    ensures text { IfOk result (λ text. RecordsAs E.readings epochs.old epochs.new (typed_of prepared) (string_bytes text)) }
    ensures fault { IfErr result (λ status. NotRecorded E.readings epochs.old epochs.new (typed_of prepared) status) }
{
    let types = prepared.types;
    let taped = record(alloc, prepared.script, epochs)?;
    let mut text = tape_line(alloc, types.as_slice(), &taped.tape)?;
    match append_lines(alloc, &mut text, taped.replies.as_slice()) {
        Ok(()) => Ok(text),
        Err(_) => Err(Status::Session(SessionStatus::OutOfMemory)),
    }
}
