ghost use Rattle.std.specs.Prelude.{◌≡◌};

use crate::answers::Answers;
use crate::epochs::EpochSource;
use crate::faults::EpochFailed;
use std::marker::Model;

/// An epoch source that counts its readings: it gives 0, 1, 2 and so on, and stays at 2^64 - 1. It never fails.
#[derive(Drop)]
pub struct CountEpochs {
    next: u64,
}

impl Model for CountEpochs {
    ghost use Rattle.std.specs.Prelude.{ℕ};

    ghost Value = { ℕ };

    ghost view = { λ s. s.next };
}

impl CountEpochs {
    /// A source whose first reading is 0.
    pub fn new() -> CountEpochs
        ensures { result ≡ 0 }
    {
        CountEpochs { next: 0 }
    }
}

impl EpochSource for CountEpochs {
    ghost use Rattle.std.specs.Prelude.{refl};
    ghost use Rattle.std.proofs.Math.Nat.{le_refl};
    ghost use Rattle.wasm_meter.specs.Epochs.{CountsReadings, counts_all};

    ghost readings = { CountsReadings };

    ghost epoch_faults = { λ s. 0 };

    ghost readings_keep = { λ s t answer h. le_refl 0 };

    ghost readings_fail = { λ s t fault h. counts_all s t fault h };

    fn current(&mut self) -> Result<u64, EpochFailed> {
        let reading = self.next;
        self.next = reading.saturating_add(1);
        Ok(reading)
    }
}

/// An epoch source of given readings, whose calls are numbered from 0 and fail at given numbers.
///
/// Past the end of its list it gives the last reading again, and 0 where there was none.
#[derive(Drop)]
pub struct ListEpochs {
    readings: Answers<u64>,
    last: u64,
    calls: u64,
    fails: Vec<u64>,
    faults: u64,
}

impl Model for ListEpochs {
    ghost use Rattle.wasm_meter.specs.Epochs.{ReadingState, reading_state};

    ghost Value = { ReadingState };

    ghost view = { λ s. reading_state s.readings s.last s.calls s.fails.items s.faults };
}

impl ListEpochs {
    ghost use Rattle.wasm_meter.specs.Epochs.{reading_state};

    /// A source that gives these readings, in ticks, one a call, and that fails exactly where the number of a call is
    /// in `fails`. A call that fails takes no reading.
    ///
    /// The number of the next call and the count of faults begin at 0, rise by one, and stop at 2^64 - 1.
    pub fn new(readings: Vec<u64>, fails: Vec<u64>) -> ListEpochs
        ensures { result ≡ reading_state readings.items 0 0 fails.items 0 }
    {
        ListEpochs {
            readings: Answers::new(readings),
            last: 0,
            calls: 0,
            fails,
            faults: 0,
        }
    }
}

impl EpochSource for ListEpochs {
    ghost use Rattle.wasm_meter.specs.Epochs.{ReadsInOrder, call_faulted};

    ghost readings = { ReadsInOrder };

    ghost epoch_faults = { λ s. s.faults };

    ghost readings_keep = { λ s t answer h. h.2 };

    ghost readings_fail = { λ s t fault h. call_faulted s t fault h.0 h.1 };

    fn current(&mut self) -> Result<u64, EpochFailed> {
        let number = self.calls;
        self.calls = number.saturating_add(1);
        if self.fails.contains(&number) {
            self.faults = self.faults.saturating_add(1);
            return Err(EpochFailed);
        }
        if let Some(reading) = self.readings.take() {
            self.last = reading;
        }
        Ok(self.last)
    }
}
