ghost use Rattle.std.specs.Prelude.{◌≡◌, true, false, OnOk, IfErr};
ghost use Rattle.wasm_values.specs.declared.refusals.Refusal.TheVariants.{FuelInterval};
ghost use Rattle.spec_machine.specs.FuelCalls.{get_fuel, fill_fuel, is_interval, yield_interval, move_deadline};
ghost use Rattle.store_state.specs.Calls.{Changes};
ghost use Rattle.store_objects.specs.Machines.{AsksAlike};

use crate::objects::Objects;
use std::num::NonZeroU64;
use wasm_values::Refusal;

/// An interval, where there is one, which has a length: `FuelInterval` where it is 0.
fn interval_length(interval: Option<u64>) -> Result<Option<NonZeroU64>, Refusal>
    ensures some { OnOk result (is_interval interval ≡ true) }
    ensures none { IfErr result (λ why. (why ≡ FuelInterval) × (is_interval interval ≡ false)) }
{
    let Some(number) = interval else {
        return Ok(None);
    };
    match NonZeroU64::new(number) {
        Some(length) => Ok(Some(length)),
        None => Err(Refusal::FuelInterval),
    }
}

impl Objects {
    /// The fuel that is left: 0 also where more was consumed than there was. `FuelNotConfigured` where the engine
    /// consumes none.
    pub fn get_fuel(&self) -> Result<u64, Refusal>
        ensures { result ≡ get_fuel self.now }
    {
        if !self.engine.consume_fuel() {
            return Err(Refusal::FuelNotConfigured);
        }
        Ok(self.held.fuel())
    }

    /// Fills the fuel to just so much. `FuelNotConfigured` where the engine consumes none.
    pub fn set_fuel(&mut self, fuel: u64) -> Result<(), Refusal>
        ensures due { Changes (fill_fuel self.old fuel) self.old result self.new }
        ensures asks { AsksAlike self.old self.new }
    {
        if !self.engine.consume_fuel() {
            return Err(Refusal::FuelNotConfigured);
        }
        self.held.set_fuel(fuel);
        Ok(())
    }

    /// Makes this the interval of the fuel, or takes it away. What was consumed beyond what there was is forgotten.
    /// `FuelNotConfigured` where the engine consumes no fuel, then `FuelInterval` where the interval is 0.
    pub fn yield_interval(&mut self, interval: Option<u64>) -> Result<(), Refusal>
        ensures due { Changes (yield_interval self.old interval) self.old result self.new }
        ensures asks { AsksAlike self.old self.new }
    {
        if !self.engine.consume_fuel() {
            return Err(Refusal::FuelNotConfigured);
        }
        let length = interval_length(interval)?;
        self.held.set_interval(length);
        Ok(())
    }

    /// Moves the deadline to so many ticks past a reading of the epoch.
    pub fn set_deadline(&mut self, reading: u64, ticks: u64)
        ensures { self.new ≡ move_deadline self.old ticks reading }
    {
        self.held.set_deadline(reading, ticks);
    }
}
