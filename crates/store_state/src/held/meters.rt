ghost use Rattle.std.specs.Prelude.{◌≡◌, ◌≤◌, ◌+◌, ◌-ℤ◌, pos, suc, nat_le};
ghost use Rattle.std.specs.Bool.{OnTrue, OnFalse};
ghost use Rattle.wasm_meter.specs.Deadlines.{deadline_at, is_reached};
ghost use Rattle.wasm_meter.specs.Fuel.{fuel_left, is_fuelled};
ghost use Rattle.spec_machine.specs.Machine.{numbers, debt};
ghost use Rattle.store_state.specs.Tanks.{most_owed};

use crate::held::Held;
use std::num::NonZeroU64;

impl Held {
    /// Counts one instance more that instantiation makes. `false` where there would be more than the limit, and then
    /// nothing changes.
    pub fn count_instance(&mut self) -> bool
        ensures within { result ≡ nat_le (suc self.old.counts.instances) self.old.limits.instances }
        ensures counted { OnTrue result (self.new ≡ record self.old {
          counts =
              numbers (suc self.old.counts.instances) self.old.counts.memories self.old.counts.tables;
        }) }
        ensures refused { OnFalse result (self.new ≡ self.old) }
    {
        self.counts.raise_instances()
    }

    /// Counts so many memories more that instantiation makes. `false` where there would be more than the limit, and
    /// then nothing changes.
    pub fn count_memories(&mut self, number: usize) -> bool
        ensures within { result ≡ nat_le (self.old.counts.memories + number) self.old.limits.memories }
        ensures counted { OnTrue result (self.new ≡ record self.old {
          counts =
              numbers self.old.counts.instances (self.old.counts.memories + number) self.old.counts.tables;
        }) }
        ensures refused { OnFalse result (self.new ≡ self.old) }
    {
        self.counts.raise_memories(number)
    }

    /// Counts so many tables more that instantiation makes. `false` where there would be more than the limit, and then
    /// nothing changes.
    pub fn count_tables(&mut self, number: usize) -> bool
        ensures within { result ≡ nat_le (self.old.counts.tables + number) self.old.limits.tables }
        ensures counted { OnTrue result (self.new ≡ record self.old {
          counts =
              numbers self.old.counts.instances self.old.counts.memories (self.old.counts.tables + number);
        }) }
        ensures refused { OnFalse result (self.new ≡ self.old) }
    {
        self.counts.raise_tables(number)
    }

    /// Makes these the most that instantiation may make of each.
    pub fn set_limits(&mut self, instances: usize, memories: usize, tables: usize)
        ensures { self.new ≡ record self.old { limits = numbers instances memories tables } }
    {
        self.counts.set_limits(instances, memories, tables);
    }

    /// The fuel that is left: 0 also where more was consumed than there was.
    pub fn fuel(&self) -> u64
        ensures { result ≡ fuel_left self.now.fuel }
    {
        self.fuel.get()
    }

    /// Fills the fuel to just so much.
    pub fn set_fuel(&mut self, fuel: u64)
        ensures { self.new ≡ record self.old { fuel = pos fuel } }
    {
        self.fuel.set(fuel);
    }

    /// Makes this the interval of the fuel, and forgets what was consumed beyond what there was.
    pub fn set_interval(&mut self, interval: Option<NonZeroU64>)
        ensures { self.new ≡ record self.old { fuel = pos (fuel_left self.old.fuel) } }
    {
        self.fuel.set_interval(interval);
    }

    /// Whether there is fuel, as a guest's check asks it.
    #[inline]
    pub fn check_fuel(&mut self) -> bool
        ensures answer { result ≡ is_fuelled self.old.fuel }
        ensures same { self.new ≡ self.old }
    {
        self.fuel.check()
    }

    /// Consumes so much fuel, also where there is less.
    #[inline]
    pub fn consume(&mut self, amount: u64)
        requires { debt self.old.fuel + amount ≤ most_owed }
        ensures { self.new ≡ record self.old { fuel = self.old.fuel -ℤ pos amount } }
    {
        self.fuel.consume(amount);
    }

    /// The deadline, in ticks.
    #[inline]
    pub fn deadline(&self) -> u64
        ensures { result ≡ self.now.deadline }
    {
        self.deadline.value()
    }

    /// Moves the deadline to so many ticks past a reading of the epoch.
    pub fn set_deadline(&mut self, reading: u64, ticks: u64)
        ensures { self.new ≡ record self.old { deadline = deadline_at reading ticks } }
    {
        self.deadline.set(reading, ticks);
    }

    /// Whether a reading of the epoch is at or past the deadline.
    #[inline]
    pub fn is_reached(&self, reading: u64) -> bool
        ensures { result ≡ is_reached self.now.deadline reading }
    {
        self.deadline.reached(reading)
    }
}
