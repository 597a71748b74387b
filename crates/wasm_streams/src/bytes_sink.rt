ghost use Rattle.std.specs.Prelude.{◌≡◌};

use crate::copies::copy_front;
use crate::sink::{Sink, SinkFailed};
use std::alloc::Global;
use std::marker::Model;
use wasm_types::OutOfMemory;

/// A sink in memory with room for so many bytes, whose calls are numbered from 0 and fail at given numbers.
#[derive(Drop)]
pub struct BytesSink {
    bytes: Vec<u8>,
    len: usize,
    calls: u64,
    fails: Vec<u64>,
    faults: u64,
    flushed: bool,
}

impl Model for BytesSink {
    ghost use Rattle.std.specs.Prelude.{◌≤◌, ◌-◌, take, length};
    ghost use Rattle.wasm_streams.specs.InMemory.{SinkState, sink_state};

    ghost Value = { SinkState };

    ghost view = { λ s.
        sink_state (take s.len s.bytes.items) (length s.bytes.items - s.len)
        s.calls s.fails.items s.faults s.flushed };

    ghost invariant = { λ s. s.len ≤ length s.bytes.items };
}

impl BytesSink {
    ghost use Rattle.std.specs.Prelude.{IfOk, [], false};
    ghost use Rattle.wasm_streams.specs.InMemory.{sink_state};

    /// An empty sink with room for `room` bytes, whose calls fail where their numbers are in `fails`. Writes and
    /// flushes are numbered in one count.
    ///
    /// The number of the next call and the count of faults begin at 0, rise by one, and stop at 2^64 - 1.
    /// `OutOfMemory` where there is no memory for the room; no later call takes any.
    pub fn new(alloc: Global, room: usize, fails: Vec<u64>) -> Result<BytesSink, OutOfMemory>
        ensures { IfOk result (λ sink. sink ≡ sink_state [] room 0 fails.items 0 false) }
    {
        let bytes = vec![in alloc; 0u8; room]?;
        Ok(BytesSink {
            bytes,
            len: 0,
            calls: 0,
            fails,
            faults: 0,
            flushed: false,
        })
    }

    /// The bytes that it holds, in the order in which they were written.
    pub fn bytes(&self) -> &[u8]
        ensures { result.now ≡ self.now.held }
    {
        &self.bytes[..self.len]
    }
}

impl Sink for BytesSink {
    ghost use Rattle.std.specs.Prelude.{◌≡◌, ◌≤◌, ◌<◌, Some, false, take, length, min, IfOk, OnOk, OnErr, is_ok, is_err, if◌then◌else◌};
    ghost use Rattle.wasm_streams.specs.Streams.{after, Rose};
    ghost use Rattle.wasm_streams.specs.InMemory.{is_listed, write_fails, sink_failed, sink_written, sink_flushed};

    ghost held = { λ s. Some s.held };

    ghost flushed = { λ s. s.flushed };

    ghost faults = { λ s. s.faults };

    /// Takes as many bytes of the piece as there is room for.
    ///
    /// `SinkFailed` exactly where the number of the call is in the list, or where there is no room left and the
    /// piece is not empty.
    fn write(&mut self, piece: &[u8]) -> Result<usize, SinkFailed>
        ensures within { IfOk result (λ n. n ≤ length piece.now) }
        ensures some { IfOk result (λ n. 0 < length piece.now → 0 < n) }
        ensures wrote { IfOk result (λ n.
            Some self.new.held ≡ after (take n piece.now) (Some self.old.held)) }
        ensures untouched { OnErr result (Some self.new.held ≡ Some self.old.held) }
        ensures tells { self.new.flushed ≡ false }
        ensures cause { OnErr result (Rose self.old.faults self.new.faults) }
        ensures uncounted { OnOk result (self.new.faults ≡ self.old.faults) }
        ensures never_falls { self.old.faults ≤ self.new.faults }
        ensures fails { is_err result ≡ write_fails (length piece.now) self.old }
        ensures count { IfOk result (λ n. n ≡ min (length piece.now) self.old.room) }
        ensures state { self.new ≡ (if write_fails (length piece.now) self.old then
            sink_failed self.old else sink_written piece.now self.old) }
    {
        let number = self.calls;
        self.calls = number.saturating_add(1);
        self.flushed = false;
        let full = self.len == self.bytes.len() && !piece.is_empty();
        if full || self.fails.contains(&number) {
            self.faults = self.faults.saturating_add(1);
            return Err(SinkFailed);
        }
        let count = copy_front(&mut self.bytes[self.len..], piece);
        self.len += count;
        Ok(count)
    }

    /// Keeps what it holds.
    ///
    /// `SinkFailed` exactly where the number of the call is in the list.
    fn flush(&mut self) -> Result<(), SinkFailed>
        ensures same { Some self.new.held ≡ Some self.old.held }
        ensures tells { self.new.flushed ≡ is_ok result }
        ensures cause { OnErr result (Rose self.old.faults self.new.faults) }
        ensures uncounted { OnOk result (self.new.faults ≡ self.old.faults) }
        ensures never_falls { self.old.faults ≤ self.new.faults }
        ensures fails { is_err result ≡ is_listed self.old.calls self.old.fails }
        ensures state { self.new ≡ (if is_listed self.old.calls self.old.fails then
            sink_failed self.old else sink_flushed self.old) }
    {
        let number = self.calls;
        self.calls = number.saturating_add(1);
        self.flushed = !self.fails.contains(&number);
        if !self.flushed {
            self.faults = self.faults.saturating_add(1);
            return Err(SinkFailed);
        }
        Ok(())
    }
}
