ghost use Rattle.std.specs.Prelude.{◌≡◌};

use crate::copies::copy_front;
use std::marker::Model;
use wasm_streams::{Source, SourceFailed};

/// A source of given bytes that stay where they are. No read of it fails.
#[derive(Drop)]
pub struct SliceSource<'a> {
    left: &'a [u8],
    ended: bool,
}

impl<'a> Model for SliceSource<'a> {
    ghost use Rattle.memory_streams.specs.InRoom.{SliceState, slice_state};

    ghost Value = { SliceState };

    ghost view = { λ s. slice_state s.left.now s.ended };
}

impl<'a> SliceSource<'a> {
    ghost use Rattle.std.specs.Prelude.{◌≡◌, false};
    ghost use Rattle.memory_streams.specs.InRoom.{slice_state};

    /// A source that has `bytes` left.
    pub fn new(bytes: &'a [u8]) -> SliceSource<'a>
        ensures { result ≡ slice_state bytes.now false }
    {
        SliceSource {
            left: bytes,
            ended: false,
        }
    }
}

impl<'a> Source for SliceSource<'a> {
    ghost use Rattle.std.specs.Prelude.{◌≡◌, ◌≤◌, ◌<◌, ◌||◌, ◌++◌, Some, true, drop, take, length, min, IfOk, OnOk, OnErr, is_ok};
    ghost use Rattle.wasm_streams.specs.Streams.{before, HasNothing, Rose, is_end};
    ghost use Rattle.memory_streams.specs.InRoom.{no_faults, slice_read};

    ghost left = { λ s. Some s.left };

    ghost ended = { λ s. s.ended };

    ghost faults = { λ s. no_faults s };

    /// Takes as many bytes as are left and as the buffer has places for; the rest of the buffer stays.
    fn read(&mut self, buffer: &mut [u8]) -> Result<usize, SourceFailed>
        ensures within { IfOk result (λ n. n ≤ length buffer.old) }
        ensures taken { IfOk result (λ n.
            Some self.old.left ≡ before (take n buffer.new) (Some self.new.left)) }
        ensures end { IfOk result (λ n.
            n ≡ 0 → 0 < length buffer.old → HasNothing (Some self.new.left)) }
        ensures tells { self.new.ended ≡ (self.old.ended || is_end result buffer.old) }
        ensures untouched { OnErr result (Some self.new.left ≡ Some self.old.left) }
        ensures cause { OnErr result (Rose (no_faults self.old) (no_faults self.new)) }
        ensures uncounted { OnOk result (no_faults self.new ≡ no_faults self.old) }
        ensures never_falls { no_faults self.old ≤ no_faults self.new }
        ensures reads { is_ok result ≡ true }
        ensures count { IfOk result (λ n. n ≡ min (length buffer.old) (length self.old.left)) }
        ensures copied { IfOk result (λ n.
            buffer.new ≡ take n self.old.left ++ drop n buffer.old) }
        ensures state { self.new ≡ slice_read (length buffer.old) self.old }
    {
        let count = copy_front(buffer, self.left);
        if count == 0 {
            self.ended = self.ended || !buffer.is_empty();
            return Ok(0);
        }
        self.left = &self.left[count..];
        Ok(count)
    }
}
