ghost use Rattle.std.specs.Bool.{OnTrue, OnFalse};
ghost use Rattle.std.specs.Prelude.{◌≡◌, ◌-ℤ◌, ◌+ℤ◌, ◌≤ℤ◌, ◌<ℤ◌, ◌^◌, pos, neg_ℤ, nat_lt, ◌-◌, None};
ghost use Rattle.wasm_meter.specs.Fuel.{
  fuel_left,
  is_fuelled,
  fuel_of,
  tank_parts,
  interval_of,
  filled,
  refuelled,
  checked,
};

use std::marker::Model;
use std::num::NonZeroU64;

/// The fuel of a store: what was consumed, what is held back for later, and the portion in which it is filled. Its number
/// is what is held back less what was consumed, which is below zero where more was consumed than there was.
///
/// The number is at most 2^64 - 1.
#[derive(Drop)]
pub struct FuelTank {
    // Below zero as long as the portion that was filled in is not used up.
    consumed: i64,
    reserve: u64,
    interval: Option<NonZeroU64>,
}

impl Model for FuelTank {
    ghost use Rattle.std.specs.Prelude.{◌<ℤ◌, ◌^◌, pos};
    ghost use Rattle.wasm_meter.specs.Fuel.{TankParts, tank_parts, tank_code, interval_of, fuel_of};

    ghost Value = { TankParts };

    ghost coded = { tank_code };

    ghost view = { λ t. tank_parts t.consumed t.reserve (interval_of t.interval) };

    ghost invariant = { λ t. fuel_of (tank_parts t.consumed t.reserve (interval_of t.interval)) <ℤ pos (2 ^ 64) };
}

impl FuelTank {
    /// An empty tank without an interval.
    pub fn new() -> FuelTank
        ensures { result ≡ tank_parts (pos 0) 0 None }
    {
        FuelTank {
            consumed: 0,
            reserve: 0,
            interval: None,
        }
    }

    /// A tank of these parts, whose number is below 2^64.
    pub fn from_parts(consumed: i64, reserve: u64, interval: Option<NonZeroU64>) -> FuelTank
        requires { fuel_of (tank_parts consumed reserve (interval_of interval)) <ℤ pos (2 ^ 64) }
        ensures { result ≡ tank_parts consumed reserve (interval_of interval) }
    {
        FuelTank {
            consumed,
            reserve,
            interval,
        }
    }

    /// What was consumed since it was last filled, less what it was filled with.
    pub fn consumed(&self) -> i64
        ensures { result ≡ self.now.consumed }
    {
        self.consumed
    }

    /// What is held back for later.
    pub fn reserve(&self) -> u64
        ensures { result ≡ self.now.reserve }
    {
        self.reserve
    }

    // The number, which is below zero where more was consumed than there was.
    fn number(&self) -> i128
        ensures value { result ≡ fuel_of self.now }
        ensures within { result <ℤ pos (2 ^ 64) }
    {
        self.reserve as i128 - self.consumed as i128
    }

    /// What is left: 0 also where more was consumed than there was.
    pub fn get(&self) -> u64
        ensures { result ≡ fuel_left (fuel_of self.now) }
    {
        let number = self.number();
        if number <= 0 {
            return 0;
        }
        number as u64
    }

    /// Fills the tank with just so much: at most the interval at once, and 2^63 - 1; the rest is held back.
    pub fn set(&mut self, fuel: u64)
        ensures { self.new ≡ filled self.old fuel }
    {
        let portion = match self.interval {
            Some(interval) => interval.get(),
            None => u64::MAX,
        };
        let injected = portion.min(fuel).min(i64::MAX as u64);
        self.reserve = fuel - injected;
        self.consumed = -(injected as i64);
    }

    /// Makes this the interval, and fills the tank again with what `get` tells: what was consumed beyond what there was is
    /// forgotten.
    pub fn set_interval(&mut self, interval: Option<NonZeroU64>)
        ensures { self.new ≡ refuelled (record self.old { interval = interval_of interval }) }
    {
        let left = self.get();
        self.interval = interval;
        self.set(left);
    }

    /// Consumes so much, also where there is less.
    #[inline]
    pub fn charge(&mut self, amount: u64)
        requires { (self.old.consumed +ℤ pos amount) ≤ℤ pos (2 ^ 63 - 1) }
        ensures { self.new ≡ record self.old { consumed = self.old.consumed +ℤ pos amount } }
    {
        self.consumed = (self.consumed as i128 + amount as i128) as i64;
    }

    /// Fills the tank again with what is left, and `false` where nothing is: then nothing changes.
    pub fn refuel(&mut self) -> bool
        ensures answer { result ≡ nat_lt 0 (fuel_left (fuel_of self.old)) }
        ensures refuelled { OnTrue result (self.new ≡ refuelled self.old) }
        ensures refused { OnFalse result (self.new ≡ self.old) }
    {
        let left = self.get();
        if left == 0 {
            return false;
        }
        self.set(left);
        true
    }

    /// Whether there is fuel.
    #[inline]
    pub fn has_fuel(&self) -> bool
        ensures { result ≡ is_fuelled (fuel_of self.now) }
    {
        self.number() > 0
    }

    /// Whether there is fuel, as a guest's check asks it. Where there is and the portion was used up, the tank is filled
    /// again.
    #[inline]
    pub fn check(&mut self) -> bool
        ensures answer { result ≡ is_fuelled (fuel_of self.old) }
        ensures behind { self.new ≡ checked self.old }
        ensures paid { OnTrue result (self.new.consumed <ℤ pos 0) }
    {
        let has_fuel = self.has_fuel();
        if has_fuel && self.consumed >= 0 {
            self.set(self.get());
        }
        has_fuel
    }
}
