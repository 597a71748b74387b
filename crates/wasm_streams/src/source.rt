ghost use Rattle.std.specs.Prelude.{◌≡◌, ℕ, ◌≤◌, ◌<◌, ◌||◌, List, Option, Bool, length, take, OnOk, OnErr, IfOk};
ghost use Rattle.wasm_streams.specs.Streams.{before, HasNothing, Rose, is_end};

use thiserror::Error;

/// A read failed, and took nothing.
#[derive(Debug, Drop, Error)]
#[error("source failed")]
pub struct SourceFailed;

/// Where bytes come from. Its rules are this project's own.
pub trait Source {
    /// The bytes that it has left, where it can tell.
    ghost left: { Self → Option (List ℕ) };

    /// It has given its end.
    ghost ended: { Self → Bool };

    /// How many faults it has had.
    ghost faults: { Self → ℕ };

    /// Takes bytes to the front of `buffer`, and answers how many: at most as many as the buffer has places.
    ///
    /// `Ok(0)` for a buffer that is not empty is the end, and comes only where nothing is left. `SourceFailed`
    /// comes only where the count of faults rose, or stands at its last value, 2^64 - 1; then nothing was taken. A
    /// read that does not fail leaves the count as it was.
    fn read(&mut self, buffer: &mut [u8]) -> Result<usize, SourceFailed>
        ensures within { IfOk result (λ n. n ≤ length buffer.old) }
        ensures taken { IfOk result (λ n.
            left self.old ≡ before (take n buffer.new) (left self.new)) }
        ensures end { IfOk result (λ n.
            n ≡ 0 → 0 < length buffer.old → HasNothing (left self.new)) }
        ensures tells { ended self.new ≡ (ended self.old || is_end result buffer.old) }
        ensures untouched { OnErr result (left self.new ≡ left self.old) }
        ensures cause { OnErr result (Rose (faults self.old) (faults self.new)) }
        ensures uncounted { OnOk result (faults self.new ≡ faults self.old) }
        ensures never_falls { faults self.old ≤ faults self.new };
}
