ghost use Rattle.std.specs.Prelude.{◌≡◌};
ghost use Rattle.spec_machine.specs.FuelCalls.{get_fuel};
ghost use Rattle.store_state.specs.Engines.{engine_parts};

use crate::store::Store;
use std::marker::Model;
use store_state::Engine;
use wasm_meter::{CallHooks, DeadlineBehaviour, EpochSource, HostData, NoBehaviour, NoHook};
use wasm_values::Refusal;

/// A store that is lent, to be read. Contracts see the store.
#[derive(Drop)]
pub struct StoreContext<'a, T, K = NoHook, B = NoBehaviour> {
    pub(crate) store: &'a Store<T, K, B>,
}

impl<'a, T, K, B> Model for StoreContext<'a, T, K, B> {
    ghost use Rattle.wasm_store.specs.Stores.{StoreParts, store_code};

    ghost Value = { StoreParts T };

    ghost coded = { store_code T.code };

    ghost view = { λ context. context.store.now };
}

impl<'a, T: HostData, K: CallHooks<T>, B: DeadlineBehaviour<T>> StoreContext<'a, T, K, B> {
    /// The engine that the store was made for.
    pub fn engine(&self) -> &Engine
        ensures { engine_parts result.now ≡ self.now.machine.engine }
    {
        self.store.engine()
    }

    /// The host's data, lent for as long as the store is.
    pub fn data(&self) -> &'a T
        ensures { result.now ≡ self.now.host_data }
    {
        self.store.data()
    }

    /// As `Store::get_fuel`.
    pub fn get_fuel(&self) -> Result<u64, Refusal>
        ensures { result ≡ get_fuel self.now.machine }
    {
        self.store.get_fuel()
    }
}

/// A store that is lent, to be changed.
#[derive(Drop)]
pub struct StoreContextMut<'a, T, K = NoHook, B = NoBehaviour> {
    pub(crate) store: &'a mut Store<T, K, B>,
}

impl<'a, T: HostData, K: CallHooks<T>, B: DeadlineBehaviour<T>> StoreContextMut<'a, T, K, B> {
    ghost use Rattle.std.specs.Prelude.{◌≡◌, false};
    ghost use Rattle.std.specs.Borrow.{sem};
    ghost use Rattle.wasm_store.specs.ContextLending.{lends_context_data};
    ghost use Rattle.spec_machine.specs.FuelCalls.{get_fuel, fill_fuel, yield_interval};
    ghost use Rattle.store_state.specs.Calls.{Changes};
    ghost use Rattle.store_state.specs.Engines.{engine_parts};
    ghost use Rattle.wasm_store.specs.Meters.{MovesDeadline};
    ghost use Rattle.wasm_store.specs.Stores.{KeepsRest};

    /// The engine that the store was made for.
    pub fn engine(&self) -> &Engine
        ensures { engine_parts result.now ≡ self.now.store.now.machine.engine }
    {
        self.store.engine()
    }

    /// The host's data, lent.
    pub fn data(&self) -> &T
        ensures { result.now ≡ self.now.store.now.host_data }
    {
        self.store.data()
    }

    /// The host's data, lent to be changed. Once the loan ends, the store holds what was left there.
    pub fn data_mut(&mut self) -> &mut T
        ensures* lends { sem 𝓛 (lends_context_data T.row K.row B.row self.entry result) }
        ensures value { result.now ≡ self.old.store.now.host_data }
    {
        self.store.data_mut()
    }

    /// As `Store::get_fuel`.
    pub fn get_fuel(&self) -> Result<u64, Refusal>
        ensures { result ≡ get_fuel self.now.store.now.machine }
    {
        self.store.get_fuel()
    }

    /// As `Store::set_fuel`.
    pub fn set_fuel(&mut self, fuel: u64) -> Result<(), Refusal>
        ensures same_store { self.new.store.ghost_name ≡ self.old.store.ghost_name }
        ensures machine { Changes (fill_fuel self.old.store.now.machine fuel)
            self.old.store.now.machine result self.new.store.now.machine }
        ensures rest { KeepsRest self.old.store.now self.new.store.now }
    {
        self.store.set_fuel(fuel)
    }

    /// As `Store::fuel_async_yield_interval`.
    pub fn fuel_async_yield_interval(&mut self, interval: Option<u64>) -> Result<(), Refusal>
        ensures same_store { self.new.store.ghost_name ≡ self.old.store.ghost_name }
        ensures machine { Changes (yield_interval self.old.store.now.machine interval)
            self.old.store.now.machine result self.new.store.now.machine }
        ensures rest { KeepsRest self.old.store.now self.new.store.now }
    {
        self.store.fuel_async_yield_interval(interval)
    }

    /// As `Store::set_epoch_deadline`.
    pub fn set_epoch_deadline<E: EpochSource>(
        &mut self,
        epochs: &mut E,
        ticks: u64,
    ) -> Result<(), Refusal>
        ensures same_store { self.new.store.ghost_name ≡ self.old.store.ghost_name }
        ensures machine { MovesDeadline E.readings ticks epochs.old epochs.new
            self.old.store.now.machine result self.new.store.now.machine }
        ensures rest { KeepsRest self.old.store.now self.new.store.now }
    {
        self.store.set_epoch_deadline(epochs, ticks)
    }

    /// As `Store::epoch_deadline_trap`.
    pub fn epoch_deadline_trap(&mut self)
        ensures same_store { self.new.store.ghost_name ≡ self.old.store.ghost_name }
        ensures machine { self.new.store.now ≡ record self.old.store.now {
          machine = record self.old.store.now.machine { is_behaving = false };
        } }
    {
        self.store.epoch_deadline_trap()
    }
}
