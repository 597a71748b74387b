ghost use Rattle.std.specs.Prelude.{ℕ, ◌≤◌, Result, Err};
ghost use Rattle.wasm_meter.specs.Counting.{Rose};
ghost use Rattle.wasm_meter.specs.declared.faults.EpochFailed.{EpochFailed as Failure};

use crate::faults::EpochFailed;

/// Where the readings of the epoch come from. Its rules are this project's own.
pub trait EpochSource {
    /// A reading may be this, and take the first state to the second.
    ghost readings: { Self → Result ℕ Failure → Self → Type 0 };

    /// How often it has failed to give a reading.
    ghost epoch_faults: { Self → ℕ };

    /// The present epoch, in ticks.
    ///
    /// `EpochFailed` comes only where the count of faults rose, or stands at its last value, 2^64 - 1.
    fn current(&mut self) -> Result<u64, EpochFailed>
        ensures { readings self.old result self.new };

    /// A reading does not lower the count of faults.
    ghost readings_keep: { (s t : Self) (answer : Result ℕ Failure) →
        readings s answer t → epoch_faults s ≤ epoch_faults t };

    /// The count of faults rises where there is no reading.
    ghost readings_fail: { (s t : Self) (fault : Failure) →
        readings s (Err fault) t → Rose (epoch_faults s) (epoch_faults t) };
}
