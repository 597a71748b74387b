ghost use Rattle.std.specs.Prelude.{◌≡◌, ◌≢◌, ◌↔◌, ℕ, ◌+◌, ◌≤◌, ◌⊎◌, List, length, map, true, None, Some, string_bytes, OnOk, OnErr};
ghost use Rattle.spec_machine.specs.Machine.{are_engine_limits};
ghost use Rattle.script_lines.specs.Lines.{line_of};
ghost use Rattle.wasm_run.specs.Sessions.{limit};
ghost use Rattle.wasm_streams.specs.Streams.{before, after, Fronts, HasNothing, Rose};
ghost use Rattle.binary_run.specs.Calls.{call_within, due, spelled};
ghost use Rattle.binary_run.specs.Statuses.{Says, IsAfterInput, IsDecided, IsLine, IsOfWhole, IsQuiet};
ghost use Rattle.binary_run.specs.Words as forms;
ghost use Rattle.binary_run.specs.Words.{asked_of};

use crate::calls::read_call;
use crate::running::{run_call, verdict};
use crate::status::Status;
use crate::words::{CallWords, asked};
use script_lines::append_line;
use spec_machine::Reply;
use std::alloc::Global;
use wasm_meter::EpochSource;
use wasm_streams::{InputFault, Sink, SinkFailed, Source, read_input, write_all};

/// Writes a text, and flushes.
fn write_whole<K: Sink>(sink: &mut K, text: &str) -> Result<(), SinkFailed>
    ensures wrote { OnOk result (K.held sink.new ≡ after text.now (K.held sink.old)) }
    ensures flushed { OnOk result (K.flushed sink.new ≡ true) }
    ensures front { Fronts text.now (K.held sink.old) (K.held sink.new) }
    ensures cause { OnErr result (Rose (K.faults sink.old) (K.faults sink.new)) }
    ensures uncounted { OnOk result (K.faults sink.new ≡ K.faults sink.old) }
    ensures never_falls { K.faults sink.old ≤ K.faults sink.new }
{
    write_all(sink, text.as_bytes())?;
    sink.flush()
}

/// Writes the line of a reply, and flushes.
fn write_line<K: Sink>(alloc: Global, sink: &mut K, reply: &Reply) -> Status
    ensures line { IsLine (line_of reply.now) (K.held sink.old) (K.held sink.new) result }
    ensures flushed { result ≡ Status.Done → K.flushed sink.new ≡ true }
    ensures untouched { IsQuiet result → sink.new ≡ sink.old }
    ensures write_fault { result ≡ Status.WriteFault → Rose (K.faults sink.old) (K.faults sink.new) }
    ensures uncounted { result ≢ Status.WriteFault → K.faults sink.new ≡ K.faults sink.old }
    ensures never_falls { K.faults sink.old ≤ K.faults sink.new }
{
    let mut line = String::new(alloc);
    let Ok(()) = append_line(alloc, &mut line, reply) else {
        return Status::OutOfMemory;
    };
    match write_whole(sink, line.as_str()) {
        Ok(()) => Status::Done,
        Err(_) => Status::WriteFault,
    }
}

/// Runs the call that an input spells, and writes its line.
fn run_input<K: Sink, E: EpochSource>(
    alloc: Global,
    words: CallWords<'_>,
    input: Vec<u8>,
    sink: &mut K,
    epochs: &mut E,
) -> Status
    requires { are_engine_limits forms.frames words.options.turns ≡ true }
    ensures says { Says E.readings epochs.old epochs.new (K.held sink.old) (K.held sink.new)
        (call_within (asked_of words.entry) input.items) result }
    ensures after_input { IsAfterInput result }
    ensures flushed { result ≡ Status.Done → K.flushed sink.new ≡ true }
    ensures untouched { IsQuiet result → sink.new ≡ sink.old }
    ensures write_fault { result ≡ Status.WriteFault → Rose (K.faults sink.old) (K.faults sink.new) }
    ensures uncounted { result ≢ Status.WriteFault → K.faults sink.new ≡ K.faults sink.old }
    ensures never_falls { K.faults sink.old ≤ K.faults sink.new }
{
    let call = match read_call(alloc, words, input) {
        Ok(call) => call,
        Err(status) => return status,
    };
    let Ok(replies) = run_call(alloc, words.options, words.name, call, epochs) else {
        return Status::OutOfMemory;
    };
    match verdict(replies.as_slice()) {
        Some(reply) => write_line(alloc, sink, reply),
        None => unreachable!(),
    }
}

/// Reads a module in the binary format to its end, makes an instance of it without imports, calls one of its exports,
/// and writes the line of the reply: what a session of these commands writes last, or the first refusal on the way.
///
/// With `--in N` the input has N bytes before the module, which the call is given: the module exports a memory `memory`
/// and a function `alloc` of a length to a pointer; the bytes are written to where that says, and pointer and length stand
/// behind the other arguments. The export answers a length, and the bytes from the pointer on are the answer; or one
/// integer of 64 bits, the pointer in its high half and the length in its low one. The line has the bytes of the answer.
///
/// The words are options, the name of the export, and its arguments. `--fuel N` gives so much fuel, without which code
/// consumes none; `--turns N` bounds the turns of a command, 1,000,000,000 at most and without it; `--pages N` bounds
/// the pages of all memories together, 16,384 without it; `--elements N` the elements of all tables together,
/// 10,000,000 without it. An argument is a decimal number, by the type of the parameter: an integer of 32 or 64 bits,
/// signed or from 0 on.
///
/// The status says how it ended. `Done` where the line was written and the sink was flushed after it, whatever the
/// reply; `BadWords` exactly where the words ask for no call, and then source and sink are not touched; `ReadFault` and
/// `WriteFault` only where the source or the sink counted a fault; `TooLong`, `BadModule`, `InvalidModule`,
/// `NoFunction`, `TakesNoBytes` and `BadArguments` exactly where the input has more than 2^24 bytes, has no module, one
/// that breaks a rule, one without a function under the name, one that takes no bytes where there are some, or one of
/// other parameters, want of memory aside; `OutOfMemory` where memory ran out. With each status but `Done` and `WriteFault` the sink is not touched. With `ReadFault` alone the source
/// counts a fault, with `WriteFault` alone the sink does.
pub fn run_main<S: Source, K: Sink, E: EpochSource>(
    alloc: Global,
    words: &[String],
    source: &mut S,
    sink: &mut K,
    epochs: &mut E,
) -> Status
    // Each status comes only by its cause.
    ensures bad_words { (result ≡ Status.BadWords) ↔ (forms.asked (map string_bytes words.now) ≡ None) }
    ensures read_fault { result ≡ Status.ReadFault → Rose (S.faults source.old) (S.faults source.new) }
    ensures write_fault { result ≡ Status.WriteFault → Rose (K.faults sink.old) (K.faults sink.new) }
    ensures decided { (input : List ℕ) → S.left source.old ≡ Some input → IsDecided result
        → result ≡ due (map string_bytes words.now) input }

    // Where nothing fails, the status is the one that is due for the input.
    ensures complete { (input : List ℕ) → S.left source.old ≡ Some input
        → ¬ Rose (S.faults source.old) (S.faults source.new)
        → ¬ Rose (K.faults sink.old) (K.faults sink.new)
        → (result ≡ due (map string_bytes words.now) input) ⊎ (result ≡ Status.OutOfMemory) }

    // The program can't choose to stop before the end of the input.
    ensures ended { IsOfWhole result → (S.ended source.new ≡ true) × HasNothing (S.left source.new) }

    // What was run, and what was written.
    ensures says { (input : List ℕ) → S.left source.old ≡ Some input
        → Says E.readings epochs.old epochs.new (K.held sink.old) (K.held sink.new)
        (spelled (map string_bytes words.now) input) result }
    ensures flushed { result ≡ Status.Done → K.flushed sink.new ≡ true }
    ensures unread { result ≡ Status.BadWords → source.new ≡ source.old }
    ensures untouched { IsQuiet result → sink.new ≡ sink.old }

    // The same of the bytes that were taken, where the source does not tell what it has left.
    ensures says_of_taken { (taken : List ℕ) × (S.left source.old ≡ before taken (S.left source.new))
        × (length taken ≤ limit + 1)
        × Says E.readings epochs.old epochs.new (K.held sink.old) (K.held sink.new)
        (spelled (map string_bytes words.now) taken) result }
    ensures source_uncounted { result ≢ Status.ReadFault → S.faults source.new ≡ S.faults source.old }
    ensures sink_uncounted { result ≢ Status.WriteFault → K.faults sink.new ≡ K.faults sink.old }
    ensures source_never_falls { S.faults source.old ≤ S.faults source.new }
    ensures sink_never_falls { K.faults sink.old ≤ K.faults sink.new }
{
    let Some(asked) = asked(words) else {
        return Status::BadWords;
    };
    match read_input(alloc, source) {
        Ok(input) => run_input(alloc, asked, input, sink, epochs),
        Err(InputFault::ReadFault) => Status::ReadFault,
        Err(InputFault::TooLong) => Status::TooLong,
        Err(InputFault::OutOfMemory) => Status::OutOfMemory,
    }
}
