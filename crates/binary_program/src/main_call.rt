ghost use Rattle.std.specs.Prelude.{◌≡◌, ◌≢◌, ℕ, ◌≤◌, ◌⊎◌, List, Some, true, false, length, IfOk, OnOk, OnErr, string_bytes};
ghost use Rattle.wasm_streams.specs.Streams.{after, before, Fronts, HasNothing, Rose};
ghost use Rattle.binary_program.specs.Lines.{line_of};
ghost use Rattle.binary_program.specs.Statuses.{Says, IsDecided, IsOfWhole, IsQuiet, IsWritten, due, due_for_module, limit, read_of};

use crate::lines::{fault_line, module_line};
use crate::status::BinaryStatus;
use binary_types::BinaryFault;
use std::alloc::Global;
use wasm_binary::read_module;
use wasm_streams::{InputFault, Sink, SinkFailed, Source, read_input, write_all};
use wasm_types::{EngineId, OutOfMemory};

/// A line, and the status once it is written.
#[derive(Drop)]
struct Answer {
    line: String,
    status: BinaryStatus,
}

/// What is to be answered to bytes.
fn answer_of(alloc: Global, bytes: &[u8]) -> Result<Answer, OutOfMemory>
    ensures line { IfOk result (λ answer. string_bytes answer.line ≡ line_of (read_of bytes.now)) }
    ensures status { IfOk result (λ answer. answer.status ≡ due_for_module (read_of bytes.now)) }
    ensures written { IfOk result (λ answer. IsWritten answer.status) }
{
    match read_module(alloc, EngineId(1), 0, bytes) {
        Ok(module) => {
            let line = module_line(alloc, &module)?;
            let status = BinaryStatus::Done;
            Ok(Answer { line, status })
        }
        Err(BinaryFault::OutOfMemory) => Err(OutOfMemory),
        Err(fault) => {
            let line = fault_line(alloc, fault)?;
            let status = BinaryStatus::Refused;
            Ok(Answer { line, status })
        }
    }
}

/// Writes a line, and flushes.
fn write_line<K: Sink>(sink: &mut K, line: &str) -> Result<(), SinkFailed>
    ensures wrote { OnOk result (K.held sink.new ≡ after line.now (K.held sink.old)) }
    ensures flushed { OnOk result (K.flushed sink.new ≡ true) }
    ensures front { Fronts line.now (K.held sink.old) (K.held sink.new) }
    ensures cause { OnErr result (Rose (K.faults sink.old) (K.faults sink.new)) }
    ensures uncounted { OnOk result (K.faults sink.new ≡ K.faults sink.old) }
    ensures never_falls { K.faults sink.old ≤ K.faults sink.new }
{
    write_all(sink, line.as_bytes())?;
    sink.flush()
}

/// Answers to bytes, which are within the limit.
fn answer_bytes<K: Sink>(alloc: Global, bytes: &[u8], sink: &mut K) -> BinaryStatus
    requires { length bytes.now ≤ limit }
    ensures says { Says bytes.now (K.held sink.old) (K.held sink.new) result }
    ensures flushed { IsWritten result → K.flushed sink.new ≡ true }
    ensures no_read_fault { ¬ (result ≡ BinaryStatus.ReadFault) }
    ensures untouched { IsQuiet result → sink.new ≡ sink.old }
    ensures write_fault { result ≡ BinaryStatus.WriteFault
        → Rose (K.faults sink.old) (K.faults sink.new) }
    ensures uncounted { result ≢ BinaryStatus.WriteFault → K.faults sink.new ≡ K.faults sink.old }
    ensures never_falls { K.faults sink.old ≤ K.faults sink.new }
{
    let Ok(answer) = answer_of(alloc, bytes) else {
        return BinaryStatus::OutOfMemory;
    };
    match write_line(sink, answer.line.as_str()) {
        Ok(()) => answer.status,
        Err(_) => BinaryStatus::WriteFault,
    }
}

/// Reads a source to its end and answers to its bytes, with what holds of the bytes that were taken.
fn answer_source<S: Source, K: Sink>(alloc: Global, source: &mut S, sink: &mut K) -> BinaryStatus
    ensures says { (taken : List ℕ) × (S.left source.old ≡ before taken (S.left source.new))
        × Says taken (K.held sink.old) (K.held sink.new) result }
    ensures whole { HasNothing (S.left source.new) ⊎ (K.held sink.new ≡ K.held sink.old) }
    ensures ended { IsOfWhole result → (S.ended source.new ≡ true) × HasNothing (S.left source.new) }
    ensures quiet { S.ended source.new ≡ false → K.held sink.new ≡ K.held sink.old }
    ensures flushed { IsWritten result → K.flushed sink.new ≡ true }
    ensures read_fault { result ≡ BinaryStatus.ReadFault
        → Rose (S.faults source.old) (S.faults source.new) }
    ensures untouched { IsQuiet result → sink.new ≡ sink.old }
    ensures write_fault { result ≡ BinaryStatus.WriteFault
        → Rose (K.faults sink.old) (K.faults sink.new) }
    ensures source_uncounted { result ≢ BinaryStatus.ReadFault → S.faults source.new ≡ S.faults source.old }
    ensures sink_uncounted { result ≢ BinaryStatus.WriteFault → K.faults sink.new ≡ K.faults sink.old }
    ensures source_never_falls { S.faults source.old ≤ S.faults source.new }
    ensures sink_never_falls { K.faults sink.old ≤ K.faults sink.new }
{
    match read_input(alloc, source) {
        Ok(bytes) => answer_bytes(alloc, bytes.as_slice(), sink),
        Err(InputFault::ReadFault) => BinaryStatus::ReadFault,
        Err(InputFault::TooLong) => BinaryStatus::TooLong,
        Err(InputFault::OutOfMemory) => BinaryStatus::OutOfMemory,
    }
}

/// Reads a source to its end, reads its bytes as a module of engine 1 with number 0, and writes one line: `module types T
/// imports I functions F exports E`, with the lengths of these lists of the declaration, the types of blocks among the types;
/// or the first fault, as `malformed`, `unsupported AT CODE`, `index AT`, `alignment AT` or `refused AT`, in decimal.
///
/// The status says how it ended: `Done` and `Refused` where the line of a module or of a fault was written and the sink was
/// flushed after it; `ReadFault` and `WriteFault` only where the source or the sink counted a fault; `TooLong` exactly where
/// more than 2^24 bytes were taken; `OutOfMemory` where memory ran out. With these two and `ReadFault` the sink is not touched,
/// with `WriteFault` a front of the line was written. With `ReadFault` alone the source counts a fault, with `WriteFault` alone
/// the sink does.
pub fn binary_main<S: Source, K: Sink>(alloc: Global, source: &mut S, sink: &mut K) -> BinaryStatus
    // Each status comes only by its cause.
    ensures read_fault { result ≡ BinaryStatus.ReadFault
        → Rose (S.faults source.old) (S.faults source.new) }
    ensures write_fault { result ≡ BinaryStatus.WriteFault
        → Rose (K.faults sink.old) (K.faults sink.new) }
    ensures decided { (input : List ℕ) → S.left source.old ≡ Some input → IsDecided result → result ≡ due input }

    // Where nothing fails, the status is the one that is due for the input.
    ensures complete { (input : List ℕ) → S.left source.old ≡ Some input
        → ¬ Rose (S.faults source.old) (S.faults source.new)
        → ¬ Rose (K.faults sink.old) (K.faults sink.new)
        → (result ≡ due input) ⊎ (result ≡ BinaryStatus.OutOfMemory) }

    // The program can't choose to stop before the end of the input, and writes nothing before it.
    ensures ended { IsOfWhole result → (S.ended source.new ≡ true) × HasNothing (S.left source.new) }
    ensures quiet { S.ended source.new ≡ false → K.held sink.new ≡ K.held sink.old }

    // What was written.
    ensures written { (input : List ℕ) → S.left source.old ≡ Some input → IsWritten result
        → K.held sink.new ≡ after (line_of (read_of input)) (K.held sink.old) }
    ensures front { (input : List ℕ) → S.left source.old ≡ Some input
        → Fronts (line_of (read_of input)) (K.held sink.old) (K.held sink.new) }
    ensures flushed { IsWritten result → K.flushed sink.new ≡ true }
    ensures untouched { IsQuiet result → sink.new ≡ sink.old }

    // The same of the bytes that were taken, where the source tells what it has left; of one that does not, only
    // that there are bytes, within the limit, of which it holds.
    ensures says { (taken : List ℕ) × (S.left source.old ≡ before taken (S.left source.new))
        × Says taken (K.held sink.old) (K.held sink.new) result }
    ensures source_uncounted { result ≢ BinaryStatus.ReadFault → S.faults source.new ≡ S.faults source.old }
    ensures sink_uncounted { result ≢ BinaryStatus.WriteFault → K.faults sink.new ≡ K.faults sink.old }
    ensures source_never_falls { S.faults source.old ≤ S.faults source.new }
    ensures sink_never_falls { K.faults sink.old ≤ K.faults sink.new }
{
    answer_source(alloc, source, sink)
}
