ghost use Rattle.std.specs.Prelude.{◌≡◌, Ok, Err, IfOk, IfErr};
ghost use Rattle.spec_execution.specs.Instantiation.{imports_fit};
ghost use Rattle.spec_machine.specs.Commands.{Instantiate};
ghost use Rattle.code_hosts.specs.Asked.{outside_by};
ghost use Rattle.law_causes.specs.Causes.{GrowsInVain};
ghost use Rattle.law_causes.specs.Tallies.{RefusedByCounts};
ghost use Rattle.law_store.specs.Laws.{KeepsObjects};
ghost use Rattle.wasm_call.specs.Confined.{InstantiationConfined};
ghost use Rattle.wasm_call.specs.Outside.{asked, surrounded};
ghost use Rattle.wasm_instance.specs.Imports.{Refuses};
ghost use Rattle.wasm_instance.specs.Instances.{Instantiated, MakingShort, InstantiationRefuses};

use crate::instantiation::instantiate;
use instance_parts::check_imports;
use std::alloc::Global;
use std::marker::PhantomData;
use wasm_call::HostBody;
use wasm_meter::{CallHooks, DeadlineBehaviour, EpochSource, HostData};
use wasm_module::Module;
use wasm_store::{Store, parts};
use wasm_types::OutOfMemory;
use wasm_values::{Extern, Instance, Refusal};

/// A module with the objects that are given for its imports. They were looked at once; each instantiation looks at them
/// again, since memories and tables grow.
#[derive(Drop)]
pub struct InstancePre<T> {
    module: Module,
    imports: Vec<Extern>,
    host_data: PhantomData<T>,
}

impl<T: HostData> InstancePre<T> {
    /// A module with these objects for its imports. `WrongStore` where one is not of the store, `WrongEngine` where the
    /// module is of another engine, `ImportCount`, and `ImportType` of the first that does not match: these are told
    /// whatever memory there is. Then `OutOfMemory`, for what is kept of the module and the objects.
    pub fn new<K: CallHooks<T>, B: DeadlineBehaviour<T>>(
        alloc: Global,
        store: &Store<T, K, B>,
        validated: &Module,
        items: &[Extern],
    ) -> Result<InstancePre<T>, Refusal>
        ensures decl { IfOk result (λ pre. pre.module ≡ validated.now) }
        ensures imports { IfOk result (λ pre. pre.imports.items ≡ items.now) }
        ensures fits { IfOk result (λ pre. imports_fit store.now.machine validated.now items.now ≡ Ok tt) }
        ensures refused { IfErr result (λ why. Refuses (imports_fit store.now.machine validated.now items.now) why) }
        ensures due { IfErr (imports_fit store.now.machine validated.now items.now) (λ why. result ≡ Err why) }
    {
        check_imports(parts::objects(store), validated.decl(), items)?;
        match with_imports(alloc, validated, items) {
            Ok(pre) => Ok(pre),
            Err(_) => Err(Refusal::OutOfMemory),
        }
    }

    /// The module, lent.
    pub fn module(&self) -> &Module
        ensures { result.now ≡ self.now.module }
    {
        &self.module
    }

    /// The same once more.
    pub fn clone(&self) -> Result<Self, OutOfMemory>
        ensures decl { IfOk result (λ same. same.module ≡ self.now.module) }
        ensures imports { IfOk result (λ same. same.imports.items ≡ self.now.imports.items) }
    {
        Ok(InstancePre {
            module: self.module.clone()?,
            imports: self.imports.clone()?,
            host_data: PhantomData,
        })
    }

    /// Makes an instance of the module over these imports, as `InstanceCalls::new` does.
    pub fn instantiate<K: CallHooks<T>, B: DeadlineBehaviour<T>, H: HostBody<T>, E: EpochSource>(
        &self,
        store: &mut Store<T, K, B>,
        host: &mut H,
        epochs: &mut E,
    ) -> Result<Instance, Refusal>
        requires ready { H.ready host.old }
        ensures ready { H.ready host.new }
        ensures instantiated { Instantiated (asked T.growths H.has K.hooks B.behaves E.readings H.steps) self.now.module
            self.now.imports.items (surrounded store.old host.old epochs.old) result
            (surrounded store.new host.new epochs.new) }
        ensures refused { IfErr (imports_fit store.old.machine self.now.module self.now.imports.items)
            (λ why. result ≡ Err why) }
        ensures due { IfErr result (InstantiationRefuses store.old.machine self.now.module self.now.imports.items) }
        ensures short { result ≡ Err Refusal.OutOfMemory →
            MakingShort (asked T.growths H.has K.hooks B.behaves E.readings H.steps) self.now.module self.now.imports.items
            (surrounded store.old host.old epochs.old) (surrounded store.new host.new epochs.new) }
        ensures causes { IfErr result (λ why. RefusedByCounts T.denials T.limiter_faults T.hook_faults T.behaviour_faults
            E.epoch_faults H.host_faults (outside_by store.old.host_data host.old epochs.old)
            (outside_by store.new.host_data host.new epochs.new)
            (GrowsInVain store.old.machine (Instantiate self.now.module self.now.imports.items)) why) }
        ensures confined { InstantiationConfined (asked T.growths H.has K.hooks B.behaves E.readings H.steps) self.now.module
            self.now.imports.items (surrounded store.old host.old epochs.old) result
            (surrounded store.new host.new epochs.new) }
        ensures kept { KeepsObjects store.old.machine store.new.machine }
        ensures engine { store.new.machine.engine ≡ store.old.machine.engine }
    {
        instantiate(store, &self.module, self.imports.as_slice(), host, epochs)
    }
}

// The module with these objects, both kept.
fn with_imports<T>(
    alloc: Global,
    validated: &Module,
    items: &[Extern],
) -> Result<InstancePre<T>, OutOfMemory>
    ensures decl { IfOk result (λ pre. pre.module ≡ validated.now) }
    ensures imports { IfOk result (λ pre. pre.imports.items ≡ items.now) }
{
    Ok(InstancePre {
        module: validated.clone()?,
        imports: Vec::from_slice(alloc, items)?,
        host_data: PhantomData,
    })
}
