ghost use Rattle.std.specs.Prelude.{◌≡◌, ◌≢◌, ◌↔◌, ℕ, ◌+◌, ◌≤◌, List, length, map, true, None, Some, string_bytes, IfOk, IfErr};
ghost use Rattle.wasm_run.specs.Sessions.{limit};
ghost use Rattle.wasm_run.specs.declared.status.Status.TheVariants as session;
ghost use Rattle.wasm_streams.specs.Streams.{before, HasNothing, Rose};
ghost use Rattle.replay_run.specs.Inputs.{task_by, task_of};
ghost use Rattle.replay_run.specs.Statuses as statuses;
ghost use Rattle.replay_run.specs.Statuses.{Comes, Fails, IsAfterInput, IsOfWhole, IsQuiet, IsRefusal, IsTold, Recorded, ReplaysFor, Says};
ghost use Rattle.replay_run.specs.Words as forms;
ghost use Rattle.replay_run.specs.declared.status.Status.TheVariants.{Session};
ghost use Rattle.replay_run.specs.declared.way.Way.TheVariants as way;

use crate::input::{behind_line, first_line};
use crate::prepared::prepare;
use crate::recording::record_text;
use crate::replaying::{Told, read_tape, replay_text};
use crate::status::Status;
use crate::way::{Way, way_of};
use std::alloc::Global;
use wasm_meter::EpochSource;
use wasm_replay::ReplayEnd;
use wasm_run::{Status as SessionStatus, write_last};
use wasm_streams::{InputFault, Sink, Source, read_input};
use wasm_tape::TapeFault;

/// A text that is to be written, and the status that is due behind it.
#[derive(Drop)]
struct Due {
    text: String,
    status: Status,
}

/// The text of the record of the script that an input spells.
#[tactic(auto, using(crate::proofs::StatusLemmas::unrecorded_if))]
fn record<E: EpochSource>(alloc: Global, input: &[u8], epochs: &mut E) -> Result<String, Status>
    ensures text { IfOk result (λ text. Recorded E.readings epochs.old epochs.new (task_by way.Record input.now)
        (string_bytes text) (Session session.Done)) }
    ensures fault { IfErr result (λ status. Fails E.readings epochs.old epochs.new (task_by way.Record input.now) status) }
    ensures after_input { IfErr result (λ status. IsAfterInput status) }
{
    let prepared = prepare(alloc, input)?;
    record_text(alloc, prepared, epochs)
}

/// The replay of the script by the tape that an input spells.
fn replay(alloc: Global, input: &[u8]) -> Result<Told, Status>
    ensures told { IfOk result (λ told. ReplaysFor (task_by way.Replay input.now) (string_bytes told.text) told.ended) }
    ensures fault { IfErr result (λ status. IsRefusal (task_by way.Replay input.now) status) }
{
    let prepared = prepare(alloc, behind_line(input))?;
    let tape = match read_tape(alloc, prepared.types.as_slice(), first_line(input)) {
        Ok(tape) => tape,
        Err(TapeFault::BadTape) => return Err(Status::BadTape),
        Err(TapeFault::UnknownType) => unreachable!(),
        Err(TapeFault::OutOfMemory) => return Err(Status::Session(SessionStatus::OutOfMemory)),
    };
    match replay_text(alloc, &prepared.script, &tape) {
        Ok(told) => Ok(told),
        Err(_) => Err(Status::Session(SessionStatus::OutOfMemory)),
    }
}

/// The status that is due behind a replay that ended so.
fn status_of(ended: ReplayEnd) -> Status
    ensures { result ≡ statuses.status_of ended }
{
    match ended {
        ReplayEnd::Same => Status::Session(SessionStatus::Done),
        ReplayEnd::Differs { .. } => Status::NotSame,
        ReplayEnd::Ended(_) => Status::NotSame,
        ReplayEnd::Left(_) => Status::NotSame,
    }
}

/// The text that is due for an input.
fn text_for<E: EpochSource>(
    alloc: Global,
    way: Way,
    input: &[u8],
    epochs: &mut E,
) -> Result<Due, Status>
    ensures due { IfOk result (λ due. Comes E.readings epochs.old epochs.new (task_by way input.now)
        (string_bytes due.text) due.status) }
    ensures fault { IfErr result (λ status. Fails E.readings epochs.old epochs.new (task_by way input.now) status) }
    ensures after_input { IfErr result (λ status. IsAfterInput status) }
{
    match way {
        Way::Record => Ok(Due {
            text: record(alloc, input, epochs)?,
            status: Status::Session(SessionStatus::Done),
        }),
        Way::Replay => {
            let told = replay(alloc, input)?;
            Ok(Due {
                text: told.text,
                status: status_of(told.ended),
            })
        }
    }
}

/// Writes the text that is due for an input.
fn run_input<K: Sink, E: EpochSource>(
    alloc: Global,
    way: Way,
    input: &[u8],
    sink: &mut K,
    epochs: &mut E,
) -> Status
    ensures says { Says E.readings epochs.old epochs.new (K.held sink.old) (K.held sink.new) (task_by way input.now) result }
    ensures after_input { IsAfterInput result }
    ensures flushed { IsTold result → K.flushed sink.new ≡ true }
    ensures untouched { IsQuiet result → sink.new ≡ sink.old }
    ensures write_fault { result ≡ Session session.WriteFault → Rose (K.faults sink.old) (K.faults sink.new) }
    ensures uncounted { result ≢ Session session.WriteFault → K.faults sink.new ≡ K.faults sink.old }
    ensures never_falls { K.faults sink.old ≤ K.faults sink.new }
{
    let due = match text_for(alloc, way, input, epochs) {
        Ok(due) => due,
        Err(status) => return status,
    };
    match write_last(sink, due.text.as_str()) {
        Ok(()) => due.status,
        Err(_) => Status::Session(SessionStatus::WriteFault),
    }
}

/// Records a script, or replays one by a tape. The words are those after the program's name.
///
/// For `record` a script is read to its end and run with its host and its limiter, and the tape of what was asked of these and
/// of `epochs` is written as one line of JSON, and a line for each reply behind it. For `replay` a tape is read as the first
/// line, and the script behind it is run by the tape alone: a line is written for each reply, and behind them how the replay
/// ended, as `replay Same`; `epochs` is not read. The lines are those of a session without its notes.
///
/// The status says how it ended: `Done` where all of the text was written, the sink was flushed after it, and a replay ended
/// `Same`, and `NotSame` where it ended otherwise; `BadWords` exactly for other words, and then source and sink are not touched;
/// `ReadFault` and `WriteFault` only where the source or the sink counted a fault; `TooLong`, `BadJson` and `BadScript` exactly
/// where the input has more than 2^24 bytes, has no reading as JSON where the script is, or spells no script; `Hooked` exactly
/// where the script has a hook or a deadline behaviour, `InvalidModule` where a module of it breaks a rule, and `BadTape` where
/// the first line is no tape over the script's types, each where none before it comes, and want of memory aside. `UnknownType`
/// and `RoomSpent` come of a record, and where there is no tape of it. With each status but `Done`, `NotSame` and `WriteFault`
/// the sink is not touched. With `ReadFault` alone the source counts a fault, with `WriteFault` alone the sink does.
pub fn replay_main<S: Source, K: Sink, E: EpochSource>(
    alloc: Global,
    words: &[String],
    source: &mut S,
    sink: &mut K,
    epochs: &mut E,
) -> Status
    // Each status comes only by its cause.
    ensures bad_words { (result ≡ Session session.BadWords) ↔ (forms.way_of (map string_bytes words.now) ≡ None) }
    ensures read_fault { result ≡ Session session.ReadFault → Rose (S.faults source.old) (S.faults source.new) }
    ensures write_fault { result ≡ Session session.WriteFault → Rose (K.faults sink.old) (K.faults sink.new) }

    // The program can't choose to stop before the end of the input.
    ensures ended { IsOfWhole result → (S.ended source.new ≡ true) × HasNothing (S.left source.new) }

    // What was run, and what was written.
    ensures says { (input : List ℕ) → S.left source.old ≡ Some input
        → Says E.readings epochs.old epochs.new (K.held sink.old) (K.held sink.new)
        (task_of (map string_bytes words.now) input) result }
    ensures flushed { IsTold result → K.flushed sink.new ≡ true }
    ensures unread { result ≡ Session session.BadWords → source.new ≡ source.old }
    ensures untouched { IsQuiet result → sink.new ≡ sink.old }

    // The same of the bytes that were taken, where the source does not tell what it has left.
    ensures says_of_taken { (taken : List ℕ) × (S.left source.old ≡ before taken (S.left source.new))
        × (length taken ≤ limit + 1)
        × Says E.readings epochs.old epochs.new (K.held sink.old) (K.held sink.new)
        (task_of (map string_bytes words.now) taken) result }
    ensures source_uncounted { result ≢ Session session.ReadFault → S.faults source.new ≡ S.faults source.old }
    ensures sink_uncounted { result ≢ Session session.WriteFault → K.faults sink.new ≡ K.faults sink.old }
    ensures source_never_falls { S.faults source.old ≤ S.faults source.new }
    ensures sink_never_falls { K.faults sink.old ≤ K.faults sink.new }
{
    let Some(way) = way_of(words) else {
        return Status::Session(SessionStatus::BadWords);
    };
    match read_input(alloc, source) {
        Ok(input) => run_input(alloc, way, input.as_slice(), sink, epochs),
        Err(InputFault::ReadFault) => Status::Session(SessionStatus::ReadFault),
        Err(InputFault::TooLong) => Status::Session(SessionStatus::TooLong),
        Err(InputFault::OutOfMemory) => Status::Session(SessionStatus::OutOfMemory),
    }
}
