ghost use Rattle.std.specs.Prelude.{◌≡◌};
ghost use Rattle.wasm_meter.specs.Deadlines.{deadline_at, is_reached};

use std::marker::Model;

/// What is done where a guest runs at or past the deadline.
#[derive(Clone, Copy)]
pub enum UpdateDeadline {
    /// The guest is stopped by the trap `Interrupt`.
    Interrupt,
    /// The guest goes on; its new deadline is so many ticks past the epoch's next reading.
    Continue(u64),
}

/// The epoch from which on guests of a store are interrupted, in ticks. It is at most 2^64 - 2, so that the last
/// reading of all is past each deadline.
#[derive(Drop)]
pub struct Deadline {
    ticks: u64,
}

impl Model for Deadline {
    ghost use Rattle.std.specs.Coded.{coded_ℕ};
    ghost use Rattle.std.specs.Prelude.{ℕ, ◌-◌, ◌^◌, ◌≤◌};

    ghost Value = { ℕ };

    ghost coded = { coded_ℕ };

    ghost view = { λ d. d.ticks };

    ghost invariant = { λ d. d.ticks ≤ 2 ^ 64 - 2 };
}

impl Deadline {
    /// The deadline 0, which each reading is at or past.
    pub fn new() -> Deadline
        ensures { result ≡ 0 }
    {
        Deadline { ticks: 0 }
    }

    /// Moves it to so many ticks past a reading.
    pub fn set(&mut self, reading: u64, ticks: u64)
        ensures { self.new ≡ deadline_at reading ticks }
    {
        self.ticks = reading.saturating_add(ticks).min(u64::MAX - 1);
    }

    /// The deadline, in ticks.
    pub fn value(&self) -> u64
        ensures { result ≡ self.now }
    {
        self.ticks
    }

    /// Whether a reading is at or past it.
    #[inline]
    pub fn reached(&self, reading: u64) -> bool
        ensures { result ≡ is_reached self.now reading }
    {
        self.ticks <= reading
    }
}
