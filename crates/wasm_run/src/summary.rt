ghost use Rattle.std.specs.Prelude.{◌≡◌, ◌≤◌, true, IsErrOf, OnOk};
ghost use Rattle.script_generated.specs.Summaries.{summary};
ghost use Rattle.wasm_run.specs.Buffers.{IsCutShort};
ghost use Rattle.wasm_streams.specs.Streams.{after, Fronts, Rose};

use crate::lines::{LinesFault, write_last};
use script_generated::summary_of;
use spec_machine::Reply;
use std::alloc::Global;
use wasm_streams::Sink;

/// Writes the summary of the generated session of `n` calls, and flushes. Where it fails, a front of it was written, and for
/// want of memory nothing.
pub(crate) fn write_summary<K: Sink>(
    alloc: Global,
    sink: &mut K,
    n: u32,
    replies: &[Reply],
) -> Result<(), LinesFault>
    ensures wrote { OnOk result (K.held sink.new ≡ after (summary n replies.now) (K.held sink.old)) }
    ensures flushed { OnOk result (K.flushed sink.new ≡ true) }
    ensures front { Fronts (summary n replies.now) (K.held sink.old) (K.held sink.new) }
    ensures short { IsErrOf result LinesFault.OutOfMemory
        → IsCutShort (summary n replies.now) (K.held sink.old) (K.held sink.new) }
    ensures cause { IsErrOf result LinesFault.WriteFault
        → Rose (K.faults sink.old) (K.faults sink.new) }
    ensures uncounted { ¬ IsErrOf result LinesFault.WriteFault
        → K.faults sink.new ≡ K.faults sink.old }
    ensures never_falls { K.faults sink.old ≤ K.faults sink.new }
{
    let Ok(text) = summary_of(alloc, n, replies) else {
        return Err(LinesFault::OutOfMemory);
    };
    match write_last(sink, text.as_str()) {
        Ok(()) => Ok(()),
        Err(_) => Err(LinesFault::WriteFault),
    }
}
