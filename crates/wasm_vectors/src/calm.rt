ghost use Rattle.std.specs.Prelude.{◌≡◌, ◌⊎◌, map, string_bytes, IfOk};
ghost use Rattle.wasm_run.specs.Sessions.{due};

use std::alloc::{AllocError, Global};
use wasm_run::{
    BehaviourCall, BehaviourFailed, CallHook, CountEpochs, HookCall, HookFailed, ScriptData,
    Session, Status, UpdateDeadline, session_main,
};
use wasm_streams::{Sink, SinkFailed, Source, SourceFailed};

/// A source of given bytes, one a read, that never fails, and so counts no fault.
#[derive(Drop)]
pub struct CalmSource<'a> {
    rest: &'a [u8],
    ended: bool,
}

impl<'a> CalmSource<'a> {
    ghost use Rattle.std.specs.Prelude.{Some};

    /// A source that has these bytes left.
    pub fn new(bytes: &'a [u8]) -> CalmSource<'a>
        ensures { ⟦<CalmSource<'a> as Source>⟧.left result ≡ Some bytes.now }
    {
        CalmSource {
            rest: bytes,
            ended: false,
        }
    }
}

impl<'a> Source for CalmSource<'a> {
    ghost use Rattle.std.specs.Prelude.{Some};

    ghost left = { λ s. Some s.rest.now };

    ghost ended = { λ s. s.ended };

    ghost faults = { λ s. 0 };

    fn read(&mut self, buffer: &mut [u8]) -> Result<usize, SourceFailed> {
        if buffer.is_empty() {
            return Ok(0);
        }
        let Some((byte, rest)) = self.rest.split_first() else {
            self.ended = true;
            return Ok(0);
        };
        buffer[0] = *byte;
        self.rest = rest;
        Ok(1)
    }
}

/// A sink that takes all bytes and counts them, and never fails.
#[derive(Drop)]
pub struct CalmSink {
    taken: usize,
    flushed: bool,
}

impl CalmSink {
    /// A sink that has taken nothing.
    pub fn new() -> CalmSink {
        CalmSink {
            taken: 0,
            flushed: false,
        }
    }

    /// How many bytes were written.
    pub fn taken(&self) -> usize {
        self.taken
    }
}

impl Sink for CalmSink {
    ghost use Rattle.std.specs.Prelude.{None};

    ghost held = { λ s. None };

    ghost flushed = { λ s. s.flushed };

    ghost faults = { λ s. 0 };

    fn write(&mut self, piece: &[u8]) -> Result<usize, SinkFailed> {
        self.taken = self.taken.saturating_add(piece.len());
        self.flushed = false;
        Ok(piece.len())
    }

    fn flush(&mut self) -> Result<(), SinkFailed> {
        self.flushed = true;
        Ok(())
    }
}

/// Runs an empty session from a source and into a sink that count no fault: the status is the one that is due for
/// the words and the bytes, or `OutOfMemory`, and never a fault.
pub fn run_calmly(
    alloc: Global,
    words: &[String],
    source: &mut CalmSource<'_>,
    sink: &mut CalmSink,
) -> Result<Status, AllocError>
    ensures due { IfOk result (λ status. (status ≡ due (map string_bytes words.now) source.old.rest.now)
        ⊎ (status ≡ Status.OutOfMemory)) }
    ensures no_read_fault { IfOk result (λ status. ¬ (status ≡ Status.ReadFault)) }
    ensures no_write_fault { IfOk result (λ status. ¬ (status ≡ Status.WriteFault)) }
{
    let mut epochs = CountEpochs::new();
    let hook: HookCall = Box::new(
        alloc,
        |data: &mut ScriptData, event: CallHook| -> Result<(), HookFailed> {
            data.hook_answer(event)
        },
    )?;
    let behaviour: BehaviourCall = Box::new(
        alloc,
        |data: &mut ScriptData| -> Result<UpdateDeadline, BehaviourFailed> {
            data.deadline_answer()
        },
    )?;
    let mut session = Session::new(alloc);
    Ok(session_main(
        alloc,
        words,
        source,
        sink,
        &mut epochs,
        hook,
        behaviour,
        &mut session,
    ))
}
