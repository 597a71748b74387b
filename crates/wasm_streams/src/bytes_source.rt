ghost use Rattle.std.specs.Prelude.{◌≡◌};

use crate::copies::copy_front;
use crate::source::{Source, SourceFailed};
use std::marker::Model;

/// A source of given bytes, whose calls are numbered from 0 and fail at given numbers.
#[derive(Drop)]
pub struct BytesSource {
    bytes: Vec<u8>,
    at: usize,
    calls: u64,
    fails: Vec<u64>,
    faults: u64,
    ended: bool,
}

impl Model for BytesSource {
    ghost use Rattle.std.specs.Prelude.{◌≤◌, drop, length};
    ghost use Rattle.wasm_streams.specs.InMemory.{SourceState, source_state};

    ghost Value = { SourceState };

    ghost view = { λ s.
        source_state (drop s.at s.bytes.items) s.calls s.fails.items s.faults s.ended };

    ghost invariant = { λ s. s.at ≤ length s.bytes.items };
}

impl BytesSource {
    ghost use Rattle.std.specs.Prelude.{false};
    ghost use Rattle.wasm_streams.specs.InMemory.{source_state};

    /// A source that has `bytes` left, and whose reads fail exactly where their numbers are in `fails`.
    ///
    /// The number of the next read and the count of faults begin at 0, rise by one, and stop at 2^64 - 1.
    pub fn new(bytes: Vec<u8>, fails: Vec<u64>) -> BytesSource
        ensures { result ≡ source_state bytes.items 0 fails.items 0 false }
    {
        BytesSource {
            bytes,
            at: 0,
            calls: 0,
            fails,
            faults: 0,
            ended: false,
        }
    }
}

impl Source for BytesSource {
    ghost use Rattle.std.specs.Prelude.{◌≡◌, ◌≤◌, ◌<◌, ◌||◌, ◌++◌, Some, drop, take, length, min, IfOk, OnOk, OnErr, is_err, if◌then◌else◌};
    ghost use Rattle.wasm_streams.specs.Streams.{before, HasNothing, Rose, is_end};
    ghost use Rattle.wasm_streams.specs.InMemory.{source_fails, source_failed, source_read};

    ghost left = { λ s. Some s.left };

    ghost ended = { λ s. s.ended };

    ghost faults = { λ s. s.faults };

    /// Takes as many bytes as are left and as the buffer has places for; the rest of the buffer stays.
    ///
    /// `SourceFailed` exactly where the number of the call is in the list.
    fn read(&mut self, buffer: &mut [u8]) -> Result<usize, SourceFailed>
        ensures within { IfOk result (λ n. n ≤ length buffer.old) }
        ensures taken { IfOk result (λ n.
            Some self.old.left ≡ before (take n buffer.new) (Some self.new.left)) }
        ensures end { IfOk result (λ n.
            n ≡ 0 → 0 < length buffer.old → HasNothing (Some self.new.left)) }
        ensures tells { self.new.ended ≡ (self.old.ended || is_end result buffer.old) }
        ensures untouched { OnErr result (Some self.new.left ≡ Some self.old.left) }
        ensures cause { OnErr result (Rose self.old.faults self.new.faults) }
        ensures uncounted { OnOk result (self.new.faults ≡ self.old.faults) }
        ensures never_falls { self.old.faults ≤ self.new.faults }
        ensures fails { is_err result ≡ source_fails self.old }
        ensures count { IfOk result (λ n. n ≡ min (length buffer.old) (length self.old.left)) }
        ensures copied { IfOk result (λ n.
            buffer.new ≡ take n self.old.left ++ drop n buffer.old) }
        ensures buffer_kept { OnErr result (buffer.new ≡ buffer.old) }
        ensures state { self.new ≡ (if source_fails self.old then source_failed self.old
            else source_read (length buffer.old) self.old) }
    {
        let number = self.calls;
        self.calls = number.saturating_add(1);
        if self.fails.contains(&number) {
            self.faults = self.faults.saturating_add(1);
            return Err(SourceFailed);
        }
        let count = copy_front(buffer, &self.bytes[self.at..]);
        if count == 0 {
            self.ended = self.ended || !buffer.is_empty();
            return Ok(0);
        }
        self.at += count;
        Ok(count)
    }
}
