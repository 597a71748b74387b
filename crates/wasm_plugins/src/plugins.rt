ghost use Rattle.std.specs.List.{list_all};
ghost use Rattle.std.specs.Prelude.{◌≡◌, ◌↔◌, ◌⊎◌, ℕ, false, true, [], length, slice_get, option_map, Some, None, Ok, Err, OnOk, OnErr, IfOk, IfErr, IsErr};
ghost use Rattle.std.specs.Borrow.{sem};
ghost use Rattle.code_hosts.specs.Asked.{outside_by};
ghost use Rattle.law_causes.specs.Causes.{GrowsInVain};
ghost use Rattle.law_causes.specs.Tallies.{RefusedByCounts};
ghost use Rattle.law_plugins.specs.Meeting.{GuestsAreApart, KeepsGuest};
ghost use Rattle.spec_execution.specs.Instantiation.{imports_fit};
ghost use Rattle.spec_machine.specs.Commands.{Instantiate};
ghost use Rattle.spec_machine.specs.FuelCalls.{fill_fuel};
ghost use Rattle.spec_machine.specs.FunctionCalls.{called};
ghost use Rattle.spec_machine.specs.Values.{owns_extern, owns_val};
ghost use Rattle.store_objects.specs.declared.node.Node.{Node as Common};
ghost use Rattle.store_state.specs.Calls.{Changes};
ghost use Rattle.wasm_call.specs.Calls.{ResultsFit, CallRefuses};
ghost use Rattle.wasm_call.specs.Outside.{surrounded};
ghost use Rattle.wasm_instance.specs.Instances.{IsUntouched, MakingShort};
ghost use Rattle.wasm_plugins.specs.Calling.{guarded, Loads, Calls};
ghost use Rattle.wasm_plugins.specs.Guests.{plugins_parts, may_load, callee, may_call, Refuses, told_fault};
ghost use Rattle.wasm_plugins.specs.Lending.{lends_plugin_data};
ghost use Rattle.wasm_plugins.specs.declared.faults.PluginFault.TheVariants as fault;
ghost use Rattle.wasm_store.specs.Meters.{MovesDeadline};
ghost use Rattle.wasm_store.specs.Stores.{KeepsRest};
ghost use Rattle.wasm_values.specs.Handles.{instance_of};
ghost use Rattle.wasm_values.specs.declared.refusals.Refusal.{Refusal as Cause};

use crate::checks::{may_call, may_load};
use crate::faults::{PluginFault, told};
use guest_calls::{call_guest, make_guest};
use host_shown::Shown;
use std::alloc::Global;
use std::marker::Model;
use wasm_call::{HostBody, begin_turns};
use wasm_meter::{CallHooks, DeadlineBehaviour, EpochSource, HostData, NoBehaviour, NoHook};
use wasm_module::Module;
use wasm_store::Store;
use wasm_values::{Extern, Instance, Refusal, Val};

/// A store, and instances in it that are guests: no two of them reach an instance, a memory, a table or a variable
/// global in common, at any time. They may have functions and constant globals in common.
///
/// What they share all the same: the store's fuel, its deadline and its counts, its memory, the host's data, and what
/// the host's bodies do with it.
#[derive(Drop)]
pub struct Plugins<T, K = NoHook, B = NoBehaviour> {
    alloc: Global,
    store: Store<T, K, B>,
    // The number of each guest's instance.
    guests: Vec<usize>,
}

impl<T, K, B> Model for Plugins<T, K, B> {
    ghost use Rattle.law_plugins.specs.Meeting.{GuestsAreApart};
    ghost use Rattle.wasm_plugins.specs.Guests.{PluginsParts, plugins_parts, plugins_code};

    ghost Value = { PluginsParts T };

    ghost coded = { plugins_code T.code };

    ghost view = { λ p. plugins_parts p.store p.guests.items };

    ghost invariant = { λ p. GuestsAreApart p.store.machine p.guests.items };
}

impl<T: HostData, K: CallHooks<T>, B: DeadlineBehaviour<T>> Plugins<T, K, B> {
    /// A store without guests. It takes no memory.
    pub fn new(alloc: Global, store: Store<T, K, B>) -> Plugins<T, K, B>
        ensures { result ≡ plugins_parts store [] }
    {
        Plugins {
            alloc,
            store,
            guests: Vec::new(alloc),
        }
    }

    /// The store, lent.
    pub fn store(&self) -> &Store<T, K, B>
        ensures { result.now ≡ self.now.store }
    {
        &self.store
    }

    /// The host's data, lent to be changed. Once the loan ends, the store holds what was left there.
    pub fn data_mut(&mut self) -> &mut T
        ensures* lends { sem 𝓛 (lends_plugin_data T.row K.row B.row self.entry result) }
        ensures value { result.now ≡ self.old.store.host_data }
    {
        self.store.data_mut()
    }

    /// Gives the store just so much fuel, which is for whichever guest runs next. `FuelNotConfigured` where the engine
    /// consumes none. It changes nothing that a guest reaches.
    pub fn set_fuel(&mut self, fuel: u64) -> Result<(), Refusal>
        ensures machine { Changes (fill_fuel self.old.store.machine fuel)
            self.old.store.machine result self.new.store.machine }
        ensures rest { KeepsRest self.old.store self.new.store }
        ensures guests { self.new.guests ≡ self.old.guests }
    {
        self.store.keeps_well_formed();
        self.store.set_fuel(fuel)
    }

    /// Moves the store's deadline to so many ticks past the present epoch, which is read once; it is for whichever guest
    /// runs next. `EpochFault` where the source fails, and then the deadline stands. It changes nothing that a guest
    /// reaches.
    pub fn set_epoch_deadline<E: EpochSource>(
        &mut self,
        epochs: &mut E,
        ticks: u64,
    ) -> Result<(), Refusal>
        ensures machine { MovesDeadline E.readings ticks epochs.old epochs.new
            self.old.store.machine result self.new.store.machine }
        ensures rest { KeepsRest self.old.store self.new.store }
        ensures guests { self.new.guests ≡ self.old.guests }
    {
        self.store.keeps_well_formed();
        self.store.set_epoch_deadline(epochs, ticks)
    }

    /// The store, handed back.
    pub fn into_store(self) -> Store<T, K, B>
        ensures { result ≡ self.store }
    {
        let Plugins {
            alloc: _alloc,
            store,
            guests: _guests,
        } = self;
        store
    }

    /// At every moment no two guests reach an instance, a memory, a table or a variable global in common.
    pub fn keeps_apart(&self)
        ensures { GuestsAreApart self.now.store.machine self.now.guests }
    {
        let _alloc = &self.alloc;
    }

    /// How many guests there are.
    pub fn guest_count(&self) -> usize
        ensures { result ≡ length self.now.guests }
    {
        self.guests.len()
    }

    /// The instance of a guest; `None` exactly where there is no guest of the number.
    pub fn instance(&self, guest: usize) -> Option<Instance>
        ensures { result ≡ option_map (instance_of self.now.store.machine.id) (slice_get self.now.guests guest) }
    {
        let number = self.guests.get(guest)?;
        Some(Instance::from_parts(self.store.id(), *number))
    }

    /// Makes an instance of a module over these imports, and a guest of it; its number is answered, from 0 on.
    ///
    /// `Refused` with `WrongStore` where an import is not of the store, which is told whatever memory there is; then
    /// `Meets` exactly where the imports lead to an instance, a memory, a table or a variable global that a guest
    /// reaches: it names the first such guest and the first such object, instances first, then memories, tables and
    /// globals, each by number. These change nothing but `Store::turns`, and so does `OutOfMemory` where there was
    /// none to look so far. Then it is `InstanceCalls::new`, whose refusal is `Refused`.
    ///
    /// A fault adds no guest: an instance whose start function trapped, or which a segment did not fit, is none.
    /// Whatever is answered, every guest that was there reaches what it reached, and all of that is as it was; and no
    /// two guests reach an instance, a memory, a table or a variable global in common.
    pub fn load<H: HostBody<T>, E: EpochSource>(
        &mut self,
        module: &Module,
        imports: &[Extern],
        host: &mut Shown<H>,
        epochs: &mut E,
    ) -> Result<usize, PluginFault>
        requires ready { H.ready host.old.inner }
        ensures ready { H.ready host.new.inner }
        ensures strange { list_all (owns_extern self.old.store.machine) imports.now ≡ false →
            result ≡ Err (fault.Refused Refusal.WrongStore) }
        ensures checked { IfErr (may_load self.old.store.machine self.old.guests imports.now)
            (λ why. Refuses why result) }
        ensures meets { (guest : ℕ) (node : Common) → result ≡ Err (fault.Meets guest node) →
            may_load self.old.store.machine self.old.guests imports.now ≡ Err (fault.Meets guest node) }
        ensures untouched { IsErr (may_load self.old.store.machine self.old.guests imports.now) →
            IsUntouched (surrounded self.old.store host.old epochs.old)
            (surrounded self.new.store host.new epochs.new) }
        ensures loaded { may_load self.old.store.machine self.old.guests imports.now ≡ Ok tt →
            Loads (guarded T.growths H.has K.hooks B.behaves E.readings H.steps) «module».now imports.now
            (surrounded self.old.store host.old epochs.old) self.old.guests result
            (surrounded self.new.store host.new epochs.new) self.new.guests }
        ensures refused { may_load self.old.store.machine self.old.guests imports.now ≡ Ok tt →
            IfErr (imports_fit self.old.store.machine «module».now imports.now)
            (λ why. Refuses (fault.Refused why) result) }
        ensures short { may_load self.old.store.machine self.old.guests imports.now ≡ Ok tt →
            result ≡ Err fault.OutOfMemory →
            IsUntouched (surrounded self.old.store host.old epochs.old) (surrounded self.new.store host.new epochs.new)
            ⊎ MakingShort (guarded T.growths H.has K.hooks B.behaves E.readings H.steps) «module».now imports.now
            (surrounded self.old.store host.old epochs.old) (surrounded self.new.store host.new epochs.new) }
        ensures causes { (why : Cause) → result ≡ Err (fault.Refused why) →
            RefusedByCounts T.denials T.limiter_faults T.hook_faults T.behaviour_faults E.epoch_faults (λ h. h.faults)
            (outside_by self.old.store.host_data host.old epochs.old)
            (outside_by self.new.store.host_data host.new epochs.new)
            (GrowsInVain self.old.store.machine (Instantiate «module».now imports.now)) why }
        ensures unadded { OnErr result (self.new.guests ≡ self.old.guests) }
        ensures others { (i g : ℕ) → slice_get self.old.guests i ≡ Some g →
            KeepsGuest self.old.store.machine self.new.store.machine g }
        ensures apart { GuestsAreApart self.new.store.machine self.new.guests }
        ensures engine { self.new.store.machine.engine ≡ self.old.store.machine.engine }
    {
        if let Err(fault) = may_load(self.alloc, &self.store, self.guests.as_slice(), imports) {
            begin_turns(&mut self.store);
            return Err(fault);
        }
        let Ok(()) = self.guests.reserve(1) else {
            begin_turns(&mut self.store);
            return Err(PluginFault::OutOfMemory);
        };
        match make_guest(&mut self.store, host, epochs, module, imports) {
            Ok(instance) => {
                let guest = self.guests.len();
                self.guests.push_reserved(instance.index());
                Ok(guest)
            }
            Err(why) => Err(told(why)),
        }
    }

    /// Calls a function that a guest exports. What it returns is written to `results`, as by `FuncRun::call`.
    ///
    /// `NoGuest` exactly where there is no guest of the number; `Refused` with `NoExport` exactly where it exports no
    /// function under the name, and with `WrongStore` where an argument is not of the store: these are told whatever
    /// memory there is. Then `Foreign` of the first argument that is a function which the guest does not reach; a
    /// null is none. These change nothing but `Store::turns`, and so does `OutOfMemory` where there was none to look
    /// so far. Then it is `FuncRun::call` of that function, whose refusal is `Refused`.
    ///
    /// Whatever is answered, every other guest reaches what it reached, and all of that is as it was; and no two
    /// guests reach an instance, a memory, a table or a variable global in common. Where there are no results,
    /// `results` stays as it was.
    pub fn call<H: HostBody<T>, E: EpochSource>(
        &mut self,
        guest: usize,
        name: &str,
        host: &mut Shown<H>,
        epochs: &mut E,
        params: &[Val],
        results: &mut [Val],
    ) -> Result<(), PluginFault>
        requires ready { H.ready host.old.inner }
        ensures ready { H.ready host.new.inner }
        ensures absent { (result ≡ Err fault.NoGuest) ↔ (slice_get self.old.guests guest ≡ None) }
        ensures named { IfErr (callee self.old.store.machine self.old.guests guest name.now params.now)
            (λ why. result ≡ Err why) }
        ensures checked { IfErr (may_call self.old.store.machine self.old.guests guest name.now params.now)
            (λ why. Refuses why result) }
        ensures foreign { (place : ℕ) → result ≡ Err (fault.Foreign place) →
            may_call self.old.store.machine self.old.guests guest name.now params.now ≡ Err (fault.Foreign place) }
        ensures untouched { IsErr (may_call self.old.store.machine self.old.guests guest name.now params.now) →
            IsUntouched (surrounded self.old.store host.old epochs.old)
            (surrounded self.new.store host.new epochs.new) }
        ensures called { IfOk (may_call self.old.store.machine self.old.guests guest name.now params.now)
            (λ f. Calls (guarded T.growths H.has K.hooks B.behaves E.readings H.steps) f params.now
            (Some (length results.old)) (surrounded self.old.store host.old epochs.old) result results.new
            (surrounded self.new.store host.new epochs.new)) }
        ensures refused { IfOk (may_call self.old.store.machine self.old.guests guest name.now params.now)
            (λ f. IfErr (called self.old.store.machine f params.now (Some (length results.old)))
            (λ why. Refuses (fault.Refused why) result)) }
        ensures due { IfOk (may_call self.old.store.machine self.old.guests guest name.now params.now)
            (λ f. (why : Cause) → result ≡ Err (fault.Refused why) →
            CallRefuses self.old.store.machine f params.now (Some (length results.old)) why) }
        ensures fit { IfOk (may_call self.old.store.machine self.old.guests guest name.now params.now)
            (λ f. OnOk result (ResultsFit self.old.store.machine f self.new.store.machine results.new)) }
        ensures owned { OnOk result (list_all (owns_val self.new.store.machine) results.new ≡ true) }
        ensures causes { (why : Cause) → result ≡ Err (fault.Refused why) →
            RefusedByCounts T.denials T.limiter_faults T.hook_faults T.behaviour_faults E.epoch_faults (λ h. h.faults)
            (outside_by self.old.store.host_data host.old epochs.old)
            (outside_by self.new.store.host_data host.new epochs.new) ⊥ why }
        ensures unwritten { OnErr result (results.new ≡ results.old) }
        ensures guests { self.new.guests ≡ self.old.guests }
        ensures others { (i g : ℕ) → (i ≡ guest → ⊥) → slice_get self.old.guests i ≡ Some g →
            KeepsGuest self.old.store.machine self.new.store.machine g }
        ensures apart { GuestsAreApart self.new.store.machine self.new.guests }
        ensures engine { self.new.store.machine.engine ≡ self.old.store.machine.engine }
    {
        self.store.keeps_well_formed();
        let func = match may_call(
            self.alloc,
            &self.store,
            self.guests.as_slice(),
            guest,
            name,
            params,
        ) {
            Ok(func) => func,
            Err(fault) => {
                begin_turns(&mut self.store);
                return Err(fault);
            }
        };
        match call_guest(&mut self.store, host, epochs, func, params, results) {
            Ok(()) => Ok(()),
            Err(why) => Err(told(why)),
        }
    }
}
