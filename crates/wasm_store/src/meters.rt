//! What bounds a guest: the limiter, hooks, the deadline with its behaviour, and fuel.
ghost use Rattle.std.specs.Prelude.{◌≡◌, true, false};
ghost use Rattle.spec_machine.specs.FuelCalls.{get_fuel, fill_fuel, yield_interval};
ghost use Rattle.spec_machine.specs.Machine.{numbers};
ghost use Rattle.store_state.specs.Calls.{Changes};
ghost use Rattle.wasm_store.specs.Meters.{MovesDeadline, limited};
ghost use Rattle.wasm_store.specs.Stores.{KeepsRest};

use crate::store::Store;
use wasm_meter::{CallHooks, DeadlineBehaviour, EpochSource, HostData};
use wasm_values::Refusal;

impl<T: HostData, K: CallHooks<T>, B: DeadlineBehaviour<T>> Store<T, K, B> {
    /// The limiter, which is the host's data, is asked from now on before a memory or a table grows. Its three counts
    /// are read once, now: they are the most of what instantiation makes from now on.
    pub fn limiter(&mut self)
        ensures { self.new ≡ record self.old {
          machine = limited self.old.machine
              (numbers (T.instances self.old.host_data) (T.memories self.old.host_data) (T.tables self.old.host_data));
        } }
    {
        let instances = self.host_data.instances();
        let memories = self.host_data.memories();
        let tables = self.host_data.tables();
        self.objects.set_limiter(instances, memories, tables);
    }

    /// Makes this the hook of the store, in place of an earlier one. It is told of each border between host and guest
    /// code that a call passes.
    pub fn call_hook(&mut self, hook: K)
        ensures { self.new ≡ record self.old { machine = record self.old.machine { is_hooked = true } } }
    {
        self.objects.set_hooked();
        self.hook = Some(hook);
    }

    /// Makes this the deadline behaviour of the store, in place of an earlier one. It is asked where a guest runs at or
    /// past the deadline.
    pub fn epoch_deadline_callback(&mut self, behaviour: B)
        ensures { self.new ≡ record self.old { machine = record self.old.machine { is_behaving = true } } }
    {
        self.objects.set_behaving(true);
        self.behaviour = Some(behaviour);
    }

    /// Takes the deadline behaviour away: a guest that runs at or past the deadline ends by a trap.
    pub fn epoch_deadline_trap(&mut self)
        ensures { self.new ≡ record self.old { machine = record self.old.machine { is_behaving = false } } }
    {
        self.objects.set_behaving(false);
        self.behaviour = None;
    }

    /// Moves the deadline to so many ticks past the present epoch, which is read once. It stays below the last
    /// reading of all, 2^64 - 1.
    ///
    /// `EpochFault` where the source fails, and then the deadline stands.
    pub fn set_epoch_deadline<E: EpochSource>(
        &mut self,
        epochs: &mut E,
        ticks: u64,
    ) -> Result<(), Refusal>
        ensures machine { MovesDeadline E.readings ticks epochs.old epochs.new
            self.old.machine result self.new.machine }
        ensures rest { KeepsRest self.old self.new }
    {
        match epochs.current() {
            Ok(reading) => {
                self.objects.set_deadline(reading, ticks);
                Ok(())
            }
            Err(_) => Err(Refusal::EpochFault),
        }
    }

    /// The fuel that is left: 0 also where more was consumed than there was. `FuelNotConfigured` where the engine
    /// consumes none.
    pub fn get_fuel(&self) -> Result<u64, Refusal>
        ensures { result ≡ get_fuel self.now.machine }
    {
        self.objects.get_fuel()
    }

    /// Fills the fuel to just so much, which `get_fuel` tells then. `FuelNotConfigured` where the engine consumes none.
    pub fn set_fuel(&mut self, fuel: u64) -> Result<(), Refusal>
        ensures machine { Changes (fill_fuel self.old.machine fuel) self.old.machine result self.new.machine }
        ensures rest { KeepsRest self.old self.new }
    {
        self.objects.set_fuel(fuel)
    }

    /// Makes this the interval, in fuel, at which a host is to be given the chance to do something else, or takes it
    /// away. Where code runs, nothing is handed to the host at that interval. What `get_fuel` tells stays, and what was
    /// consumed beyond what there was is forgotten.
    ///
    /// `FuelNotConfigured` where the engine consumes no fuel, then `FuelInterval` where the interval is 0.
    pub fn fuel_async_yield_interval(&mut self, interval: Option<u64>) -> Result<(), Refusal>
        ensures machine { Changes (yield_interval self.old.machine interval)
            self.old.machine result self.new.machine }
        ensures rest { KeepsRest self.old self.new }
    {
        self.objects.yield_interval(interval)
    }
}
