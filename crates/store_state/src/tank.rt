ghost use Rattle.std.specs.Prelude.{◌≡◌, ◌≤◌, ◌+◌, ◌^◌, ◌-ℤ◌, pos};
ghost use Rattle.spec_machine.specs.Machine.{debt};
ghost use Rattle.store_state.specs.Tanks.{most_owed};
ghost use Rattle.wasm_meter.specs.Fuel.{fuel_left, is_fuelled};

use std::marker::Model;
use std::num::NonZeroU64;
use wasm_meter::FuelTank;

/// The fuel of a store. Contracts see one number, which is below zero where more was consumed than there was; in which
/// portions it is filled they do not.
#[derive(Drop)]
pub(crate) struct Tank {
    fuel: FuelTank,
}

impl Model for Tank {
    ghost use Rattle.std.specs.Coded.{coded_ℤ};
    ghost use Rattle.std.specs.Prelude.{ℤ};
    ghost use Rattle.wasm_meter.specs.Fuel.{fuel_of};
    ghost use Rattle.store_state.specs.Tanks.{IsSteady};

    ghost Value = { ℤ };

    ghost coded = { coded_ℤ };

    ghost view = { λ t. fuel_of t.fuel };

    ghost invariant = { λ t. IsSteady t.fuel };
}

impl Tank {
    /// An empty tank without an interval.
    pub(crate) fn new() -> Tank
        ensures { result ≡ pos 0 }
    {
        Tank {
            fuel: FuelTank::new(),
        }
    }

    /// What is left: 0 also where more was consumed than there was.
    pub(crate) fn get(&self) -> u64
        ensures { result ≡ fuel_left self.now }
    {
        self.fuel.get()
    }

    /// Fills the tank with just so much.
    pub(crate) fn set(&mut self, fuel: u64)
        ensures { self.new ≡ pos fuel }
    {
        self.fuel.set(fuel);
    }

    /// Makes this the interval, and forgets what was consumed beyond what there was.
    pub(crate) fn set_interval(&mut self, interval: Option<NonZeroU64>)
        ensures { self.new ≡ pos (fuel_left self.old) }
    {
        self.fuel.set_interval(interval);
    }

    /// Whether there is fuel. Where there is and the portion was used up, the tank is filled again.
    #[inline]
    pub(crate) fn check(&mut self) -> bool
        ensures answer { result ≡ is_fuelled self.old }
        ensures same { self.new ≡ self.old }
    {
        self.fuel.check()
    }

    /// Consumes so much, also where there is less. The tank is filled again before, where it has fuel and its portion
    /// was used up, so that what was consumed never passes what its number can hold.
    #[inline]
    pub(crate) fn consume(&mut self, amount: u64)
        requires { debt self.old + amount ≤ most_owed }
        ensures { self.new ≡ self.old -ℤ pos amount }
    {
        let _has_fuel = self.fuel.check();
        self.fuel.charge(amount);
    }
}
