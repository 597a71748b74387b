ghost use Rattle.std.specs.Prelude.{◌≡◌, Ok, Err, IfErr, MatchResult};
ghost use Rattle.wasm_values.specs.Externals.{extern_func, extern_table, extern_memory, extern_global, extern_tag};
ghost use Rattle.wasm_values.specs.declared.handles.Instance.{Instance as Handle};
ghost use Rattle.spec_execution.specs.Instantiation.{imports_fit};
ghost use Rattle.spec_machine.specs.Commands.{Instantiate};
ghost use Rattle.code_hosts.specs.Asked.{outside_by};
ghost use Rattle.law_causes.specs.Causes.{GrowsInVain};
ghost use Rattle.law_causes.specs.Tallies.{RefusedByCounts};
ghost use Rattle.law_store.specs.Laws.{KeepsObjects};
ghost use Rattle.wasm_call.specs.Confined.{InstantiationConfined};
ghost use Rattle.wasm_call.specs.Outside.{asked, surrounded};
ghost use Rattle.spec_machine.specs.InstanceCalls.{instance_at};
ghost use Rattle.spec_machine.specs.Machine.{InstanceParts};
ghost use Rattle.wasm_instance.specs.Exports.{module_of, entries, module_export_of, export_of, export_as};
ghost use Rattle.wasm_instance.specs.Left.{left};
ghost use Rattle.wasm_instance.specs.Instances.{Instantiated, InstantiationRefuses, MakingShort};

use crate::exports::{exports_of, module_export_of};
use crate::instantiation::instantiate;
use crate::remaining::Exports;
use wasm_call::HostBody;
use wasm_meter::{CallHooks, DeadlineBehaviour, EpochSource, HostData};
use wasm_module::{Module, ModuleExport};
use wasm_store::{Store, parts};
use wasm_values::{Extern, Func, Global, Instance, Memory, Refusal, Table, Tag};

/// What a host does with instances. Contracts see the implementor as the handle of an instance.
///
/// Each call but `new` is refused with `WrongStore` exactly where the instance is of another store or is not there, and
/// changes nothing. The names of exports are looked up as the module declares them.
/// WebAssembly core specification, "Execution, modules, instantiation"; "Execution, runtime structure, export
/// instances".
pub trait InstanceCalls {
    /// The handle.
    ghost handle: { Self → Handle };

    /// Makes an instance of a module over these imports, as an outermost command: `Store::turns` tells the turns that
    /// it made, those of its questions, the one that makes the instance, and those of its start function.
    ///
    /// The imports are looked at first: `WrongStore` where one is not of this store, `WrongEngine` where the module is
    /// of another engine, `ImportCount`, and `ImportType` of the first that does not match at its present size. These are
    /// told whatever memory there is. Then the instance, its memories and its tables are counted: `ResourceLimit` where
    /// instantiation would have made more of them than the store's limits allow. Then the growth of each memory, and then
    /// of each table, from nothing to its minimum is decided, as `MemoryCalls` and `TableCalls` decide one: a limiter is
    /// asked where the store has one, a turn each. `GrowFailed` where a growth is denied, `LimiterFault` where the limiter
    /// failed, and `TurnLimit` where a question is due and no turn is left. Counts that were raised stay so, and no
    /// instance is made.
    ///
    /// Then one turn makes the instance: its objects, and its segments in order, those of elements before those of data.
    /// An active one is written and dropped, a declared one is dropped. `TurnLimit` where the questions took all turns;
    /// `Trap` where a segment is out of range; then the start function is entered, as `FuncRun::call` enters one, and
    /// what it comes to but `Ok` is answered. Behind that turn the instance stays, and all that was written.
    /// `OutOfMemory` comes where that turn was due, and no object was made or changed then; or in the start function.
    ///
    /// However it ends, each memory, table, global and segment is as it was, its length included, that does not lead from
    /// the imports, nor from a function that a body of the host handed out in this call and was not shown. What was out of
    /// reach stays so, each object stays and keeps its type, and no memory or table shrinks.
    ///
    /// Each of the first four comes only where it is due, and a refusal that is not named here never comes. A refusal by
    /// what is outside comes only where the count of what gave it rose in this call, or stands at its last value; and
    /// `GrowFailed` only where the limiter's count of denials did, or where a memory or a table of the module
    /// cannot have its minimum.
    fn new<T: HostData, K: CallHooks<T>, B: DeadlineBehaviour<T>, H: HostBody<T>, E: EpochSource>(
        store: &mut Store<T, K, B>,
        validated: &Module,
        imports: &[Extern],
        host: &mut H,
        epochs: &mut E,
    ) -> Result<Instance, Refusal>
        requires ready { H.ready host.old }
        ensures ready { H.ready host.new }
        ensures instantiated { Instantiated (asked T.growths H.has K.hooks B.behaves E.readings H.steps) validated.now imports.now
            (surrounded store.old host.old epochs.old) result (surrounded store.new host.new epochs.new) }
        ensures refused { IfErr (imports_fit store.old.machine validated.now imports.now) (λ why. result ≡ Err why) }
        ensures due { IfErr result (InstantiationRefuses store.old.machine validated.now imports.now) }
        ensures short { result ≡ Err Refusal.OutOfMemory →
            MakingShort (asked T.growths H.has K.hooks B.behaves E.readings H.steps) validated.now imports.now
            (surrounded store.old host.old epochs.old) (surrounded store.new host.new epochs.new) }
        ensures causes { IfErr result (λ why. RefusedByCounts T.denials T.limiter_faults T.hook_faults T.behaviour_faults
            E.epoch_faults H.host_faults (outside_by store.old.host_data host.old epochs.old)
            (outside_by store.new.host_data host.new epochs.new)
            (GrowsInVain store.old.machine (Instantiate validated.now imports.now)) why) }
        ensures confined { InstantiationConfined (asked T.growths H.has K.hooks B.behaves E.readings H.steps) validated.now
            imports.now (surrounded store.old host.old epochs.old) result
            (surrounded store.new host.new epochs.new) }
        ensures kept { KeepsObjects store.old.machine store.new.machine }
        ensures engine { store.new.machine.engine ≡ store.old.machine.engine };

    /// The module that it is made of, lent.
    fn module<'a, T: HostData, K: CallHooks<T>, B: DeadlineBehaviour<T>>(
        &self,
        store: &'a Store<T, K, B>,
    ) -> Result<&'a Module, Refusal>
        ensures { MatchResult result
            (λ found. module_of store.now.machine (handle self.now) ≡ Ok found.now)
            (λ why. module_of store.now.machine (handle self.now) ≡ Err why) };

    /// What it exports, in the order in which its module declares that.
    fn exports<'a, T: HostData, K: CallHooks<T>, B: DeadlineBehaviour<T>>(
        &self,
        store: &'a Store<T, K, B>,
    ) -> Result<Exports<'a>, Refusal>
        ensures { MatchResult result
            (λ exports. (i : InstanceParts) × (instance_at store.now.machine (handle self.now) ≡ Ok i)
            × (left exports ≡ entries store.now.machine i))
            (λ why. instance_at store.now.machine (handle self.now) ≡ Err why) };

    /// The object of an export of its module; `None` exactly where the module is of another number, or does not export
    /// it.
    fn get_module_export<T: HostData, K: CallHooks<T>, B: DeadlineBehaviour<T>>(
        &self,
        store: &Store<T, K, B>,
        export: &ModuleExport,
    ) -> Result<Option<Extern>, Refusal>
        ensures { result ≡ module_export_of store.now.machine (handle self.now) export.now };

    /// The object that it exports under a name; `None` exactly where no export has the name.
    fn get_export<T: HostData, K: CallHooks<T>, B: DeadlineBehaviour<T>>(
        &self,
        store: &Store<T, K, B>,
        name: &str,
    ) -> Result<Option<Extern>, Refusal>
        ensures { result ≡ export_of store.now.machine (handle self.now) name.now };

    /// The function that it exports under a name; `None` exactly where no export has the name, or what has it is of
    /// another kind.
    fn get_func<T: HostData, K: CallHooks<T>, B: DeadlineBehaviour<T>>(
        &self,
        store: &Store<T, K, B>,
        name: &str,
    ) -> Result<Option<Func>, Refusal>
        ensures { result ≡ export_as extern_func store.now.machine (handle self.now) name.now };

    /// The table that it exports under a name; `None` as for `get_func`.
    fn get_table<T: HostData, K: CallHooks<T>, B: DeadlineBehaviour<T>>(
        &self,
        store: &Store<T, K, B>,
        name: &str,
    ) -> Result<Option<Table>, Refusal>
        ensures { result ≡ export_as extern_table store.now.machine (handle self.now) name.now };

    /// The memory that it exports under a name; `None` as for `get_func`.
    fn get_memory<T: HostData, K: CallHooks<T>, B: DeadlineBehaviour<T>>(
        &self,
        store: &Store<T, K, B>,
        name: &str,
    ) -> Result<Option<Memory>, Refusal>
        ensures { result ≡ export_as extern_memory store.now.machine (handle self.now) name.now };

    /// The global that it exports under a name; `None` as for `get_func`.
    fn get_global<T: HostData, K: CallHooks<T>, B: DeadlineBehaviour<T>>(
        &self,
        store: &Store<T, K, B>,
        name: &str,
    ) -> Result<Option<Global>, Refusal>
        ensures { result ≡ export_as extern_global store.now.machine (handle self.now) name.now };

    /// The tag that it exports under a name; `None` as for `get_func`.
    fn get_tag<T: HostData, K: CallHooks<T>, B: DeadlineBehaviour<T>>(
        &self,
        store: &Store<T, K, B>,
        name: &str,
    ) -> Result<Option<Tag>, Refusal>
        ensures { result ≡ export_as extern_tag store.now.machine (handle self.now) name.now };
}

impl InstanceCalls for Instance {
    ghost handle = { λ instance. instance };

    fn new<T: HostData, K: CallHooks<T>, B: DeadlineBehaviour<T>, H: HostBody<T>, E: EpochSource>(
        store: &mut Store<T, K, B>,
        validated: &Module,
        imports: &[Extern],
        host: &mut H,
        epochs: &mut E,
    ) -> Result<Instance, Refusal> {
        instantiate(store, validated, imports, host, epochs)
    }

    fn module<'a, T: HostData, K: CallHooks<T>, B: DeadlineBehaviour<T>>(
        &self,
        store: &'a Store<T, K, B>,
    ) -> Result<&'a Module, Refusal> {
        let stored = parts::objects(store).instance(*self)?;
        Ok(stored.module())
    }

    fn exports<'a, T: HostData, K: CallHooks<T>, B: DeadlineBehaviour<T>>(
        &self,
        store: &'a Store<T, K, B>,
    ) -> Result<Exports<'a>, Refusal> {
        let found = exports_of(parts::objects(store), *self)?;
        Ok(found)
    }

    fn get_module_export<T: HostData, K: CallHooks<T>, B: DeadlineBehaviour<T>>(
        &self,
        store: &Store<T, K, B>,
        export: &ModuleExport,
    ) -> Result<Option<Extern>, Refusal> {
        module_export_of(parts::objects(store), *self, export)
    }

    fn get_export<T: HostData, K: CallHooks<T>, B: DeadlineBehaviour<T>>(
        &self,
        store: &Store<T, K, B>,
        name: &str,
    ) -> Result<Option<Extern>, Refusal> {
        match parts::get_export(store, *self, name) {
            Ok(object) => Ok(Some(object)),
            Err(Refusal::NoExport) => Ok(None),
            Err(why) => Err(why),
        }
    }

    fn get_func<T: HostData, K: CallHooks<T>, B: DeadlineBehaviour<T>>(
        &self,
        store: &Store<T, K, B>,
        name: &str,
    ) -> Result<Option<Func>, Refusal> {
        match self.get_export(store, name)? {
            Some(object) => Ok(object.into_func()),
            None => Ok(None),
        }
    }

    fn get_table<T: HostData, K: CallHooks<T>, B: DeadlineBehaviour<T>>(
        &self,
        store: &Store<T, K, B>,
        name: &str,
    ) -> Result<Option<Table>, Refusal> {
        match self.get_export(store, name)? {
            Some(object) => Ok(object.into_table()),
            None => Ok(None),
        }
    }

    fn get_memory<T: HostData, K: CallHooks<T>, B: DeadlineBehaviour<T>>(
        &self,
        store: &Store<T, K, B>,
        name: &str,
    ) -> Result<Option<Memory>, Refusal> {
        match self.get_export(store, name)? {
            Some(object) => Ok(object.into_memory()),
            None => Ok(None),
        }
    }

    fn get_global<T: HostData, K: CallHooks<T>, B: DeadlineBehaviour<T>>(
        &self,
        store: &Store<T, K, B>,
        name: &str,
    ) -> Result<Option<Global>, Refusal> {
        match self.get_export(store, name)? {
            Some(object) => Ok(object.into_global()),
            None => Ok(None),
        }
    }

    fn get_tag<T: HostData, K: CallHooks<T>, B: DeadlineBehaviour<T>>(
        &self,
        store: &Store<T, K, B>,
        name: &str,
    ) -> Result<Option<Tag>, Refusal> {
        match self.get_export(store, name)? {
            Some(object) => Ok(object.into_tag()),
            None => Ok(None),
        }
    }
}
