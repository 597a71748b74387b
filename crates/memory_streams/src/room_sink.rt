ghost use Rattle.std.specs.Prelude.{◌≡◌};

use crate::copies::{copy_all, copy_front};
use std::alloc::Global;
use std::marker::Model;
use wasm_streams::{Sink, SinkFailed};
use wasm_types::OutOfMemory;

/// A sink in memory that has room for so many bytes. What does not fit is a fault.
///
/// It tells what it holds behind how many bytes it has room for, so that whatever writes to it keeps the room, too.
#[derive(Drop)]
pub struct RoomSink {
    bytes: Vec<u8>,
    len: usize,
    faults: u64,
    flushed: bool,
}

impl Model for RoomSink {
    ghost use Rattle.std.specs.Prelude.{◌≤◌, take, length};
    ghost use Rattle.memory_streams.specs.InRoom.{RoomState, room_state};

    ghost Value = { RoomState };

    ghost view = { λ s.
        room_state (length s.bytes.items) (take s.len s.bytes.items) s.faults s.flushed };

    ghost invariant = { λ s. s.len ≤ length s.bytes.items };
}

impl RoomSink {
    ghost use Rattle.std.specs.Prelude.{◌≡◌, ◌≤◌, ◌++◌, IfOk, [], false, drop, length};
    ghost use Rattle.memory_streams.specs.InRoom.{room_state};

    /// An empty sink with room for `room` bytes.
    ///
    /// `OutOfMemory` where there is no memory for the room; no later call takes any. The count of faults begins at 0,
    /// rises by one, and stops at 2^64 - 1.
    pub fn new(alloc: Global, room: usize) -> Result<RoomSink, OutOfMemory>
        ensures { IfOk result (λ sink. sink ≡ room_state room [] 0 false) }
    {
        let bytes = vec![in alloc; 0u8; room]?;
        Ok(RoomSink {
            bytes,
            len: 0,
            faults: 0,
            flushed: false,
        })
    }

    /// How many bytes it holds: no more than it has room for.
    pub fn len(&self) -> usize
        ensures count { result ≡ length self.now.held }
        ensures within { result ≤ self.now.room }
    {
        self.len
    }

    /// Copies the bytes that it holds to the front of `out`, which has place for them.
    pub fn copy_to(&self, out: &mut [u8])
        requires { length self.now.held ≤ length out.old }
        ensures { out.new ≡ self.now.held ++ drop (length self.now.held) out.old }
    {
        copy_all(out, &self.bytes[..self.len]);
    }
}

impl Sink for RoomSink {
    ghost use Rattle.std.specs.Prelude.{◌≡◌, ◌≤◌, ◌<◌, ◌-◌, ◌∷◌, Some, true, false, take, length, min, IfOk, OnOk, OnErr, is_ok, is_err, if◌then◌else◌};
    ghost use Rattle.wasm_streams.specs.Streams.{after, Rose};
    ghost use Rattle.memory_streams.specs.InRoom.{is_full, room_failed, room_written, room_flushed};

    ghost held = { λ s. Some (s.room ∷ s.held) };

    ghost flushed = { λ s. s.flushed };

    ghost faults = { λ s. s.faults };

    /// Takes as many bytes of the piece as there is room for.
    ///
    /// `SinkFailed` exactly where there is no room left and the piece is not empty.
    fn write(&mut self, piece: &[u8]) -> Result<usize, SinkFailed>
        ensures within { IfOk result (λ n. n ≤ length piece.now) }
        ensures some { IfOk result (λ n. 0 < length piece.now → 0 < n) }
        ensures wrote { IfOk result (λ n.
            Some (self.new.room ∷ self.new.held)
            ≡ after (take n piece.now) (Some (self.old.room ∷ self.old.held))) }
        ensures untouched { OnErr result
            (Some (self.new.room ∷ self.new.held) ≡ Some (self.old.room ∷ self.old.held)) }
        ensures tells { self.new.flushed ≡ false }
        ensures cause { OnErr result (Rose self.old.faults self.new.faults) }
        ensures uncounted { OnOk result (self.new.faults ≡ self.old.faults) }
        ensures never_falls { self.old.faults ≤ self.new.faults }
        ensures fails { is_err result ≡ is_full (length piece.now) self.old }
        ensures count { IfOk result (λ n.
            n ≡ min (length piece.now) (self.old.room - length self.old.held)) }
        ensures state { self.new ≡ (if is_full (length piece.now) self.old then
            room_failed self.old else room_written piece.now self.old) }
    {
        self.flushed = false;
        if self.len == self.bytes.len() && !piece.is_empty() {
            self.faults = self.faults.saturating_add(1);
            return Err(SinkFailed);
        }
        let count = copy_front(&mut self.bytes[self.len..], piece);
        self.len += count;
        Ok(count)
    }

    /// Keeps what it holds, and does not fail.
    fn flush(&mut self) -> Result<(), SinkFailed>
        ensures same { Some (self.new.room ∷ self.new.held) ≡ Some (self.old.room ∷ self.old.held) }
        ensures tells { self.new.flushed ≡ is_ok result }
        ensures cause { OnErr result (Rose self.old.faults self.new.faults) }
        ensures uncounted { OnOk result (self.new.faults ≡ self.old.faults) }
        ensures never_falls { self.old.faults ≤ self.new.faults }
        ensures state { self.new ≡ room_flushed self.old }
        ensures flushes { is_ok result ≡ true }
    {
        self.flushed = true;
        Ok(())
    }
}
