ghost use Rattle.std.specs.Prelude.{◌≡◌, ◌↔◌, ◌⊎◌, ℕ, List, Some, None, Ok, Err, IsTrue, IsSome, OnOk, OnErr, IfOk, IfErr};
ghost use Rattle.wasm_values.specs.declared.externals.Extern.{Extern as Object};
ghost use Rattle.spec_execution.specs.Instantiation.{imports_fit};
ghost use Rattle.code_hosts.specs.Asked.{outside_by};
ghost use Rattle.law_causes.specs.Tallies.{RefusedByCounts};
ghost use Rattle.law_store.specs.Laws.{KeepsObjects};
ghost use Rattle.wasm_call.specs.Outside.{asked, surrounded};
ghost use Rattle.wasm_instance.specs.Instances.{IsUntouched, MakingShort};
ghost use Rattle.linker_map.specs.Faults.{told_fault};
ghost use Rattle.linker_map.specs.Imports.{first_unknown, resolved};
ghost use Rattle.linker_map.specs.Linkers.{nothing, found, alias, Refuses};
ghost use Rattle.wasm_linker.specs.Defining.{define, define_instance};
ghost use Rattle.wasm_linker.specs.Exporting.{DefinesFirstExports};
ghost use Rattle.wasm_linker.specs.InPlace.{fit_in_place, told_unlisted};
ghost use Rattle.wasm_linker.specs.Linking.{Links, LinksConfined, MakesInVain, OfRefusal, RefusesItems};

use crate::exporting::{exports_in, is_any_taken, put_all};
use crate::in_place::unlisted_fault;
use linker_map::{ExternList, LinkFault, LinkerMap};
use std::alloc::Global;
use std::marker::Model;
use wasm_call::{HostBody, begin_turns};
use wasm_instance::{InstanceCalls, InstancePre};
use wasm_meter::{CallHooks, DeadlineBehaviour, EpochSource, HostData};
use wasm_module::Module;
use wasm_store::{Store, parts};
use wasm_values::{Extern, Instance, Refusal};

/// A linker: what each pair of names means, and whether a pair may be defined again. It may hold objects of several
/// stores. Contracts see what each pair means.
#[derive(Drop)]
pub struct Linker {
    map: LinkerMap,
}

impl Model for Linker {
    ghost use Rattle.linker_map.specs.Linkers.{LinkerParts};

    ghost Value = { LinkerParts };

    ghost view = { λ l. l.map };
}

// The refusal of a call on a store, as a linker tells it.
fn told_fault(why: Refusal) -> LinkFault
    ensures { result ≡ told_fault why }
{
    LinkFault::from(why)
}

// Whether it is that there was no memory.
fn is_short(fault: LinkFault) -> bool
    ensures { IsTrue result ↔ (fault ≡ LinkFault.OutOfMemory) }
{
    matches!(fault, LinkFault::OutOfMemory)
}

impl Linker {
    /// A linker without definitions, with shadowing off. It takes no memory.
    pub fn new(alloc: Global) -> Linker
        ensures { result ≡ nothing }
    {
        Linker {
            map: LinkerMap::new(alloc),
        }
    }

    /// From now on a pair that is there may be defined again, or not.
    pub fn allow_shadowing(&mut self, allow: bool)
        ensures { self.new ≡ record self.old { shadowing = allow } }
    {
        self.map.allow_shadowing(allow);
    }

    /// The pair of names means this object from now on. `Refused` with `WrongStore` where the object is not of the
    /// store; then `AlreadyDefined` exactly where the pair is there and shadowing is off. No fault changes anything.
    pub fn define<T: HostData, K: CallHooks<T>, B: DeadlineBehaviour<T>>(
        &mut self,
        store: &Store<T, K, B>,
        module: &str,
        name: &str,
        item: Extern,
    ) -> Result<(), LinkFault>
        ensures defined { OnOk result (define store.now.machine «module».now name.now item self.old ≡ Ok self.new) }
        ensures refused { IfErr result (λ why. Refuses (define store.now.machine «module».now name.now item self.old) why) }
        ensures unchanged { OnErr result (self.new ≡ self.old) }
    {
        if !parts::objects(store).owns_extern(item) {
            return Err(LinkFault::Refused(Refusal::WrongStore));
        }
        self.map.define(module, name, item)
    }

    /// The second pair of names means from now on what the first means. `UnknownName` exactly where the first is not
    /// there; then `AlreadyDefined` exactly where the second is there and shadowing is off. No fault changes anything.
    pub fn alias(
        &mut self,
        module: &str,
        name: &str,
        as_module: &str,
        as_name: &str,
    ) -> Result<(), LinkFault>
        ensures defined { OnOk result (alias «module».now name.now as_module.now as_name.now self.old ≡ Ok self.new) }
        ensures refused { IfErr result (λ why.
            Refuses (alias «module».now name.now as_module.now as_name.now self.old) why) }
        ensures unchanged { OnErr result (self.new ≡ self.old) }
    {
        self.map.alias(module, name, as_module, as_name)
    }

    /// Defines all that an instance exports under a first name, in order. `Refused` with `WrongStore` where the instance
    /// is not of the store; then `AlreadyDefined` exactly where shadowing is off and one of the pairs is there, and
    /// nothing changes. After `OutOfMemory` the exports before one of its places may be defined.
    pub fn instance<T: HostData, K: CallHooks<T>, B: DeadlineBehaviour<T>>(
        &mut self,
        store: &Store<T, K, B>,
        module: &str,
        instance: Instance,
    ) -> Result<(), LinkFault>
        ensures defined { OnOk result (define_instance store.now.machine «module».now instance self.old ≡ Ok self.new) }
        ensures refused { IfErr result (λ why.
            Refuses (define_instance store.now.machine «module».now instance self.old) why) }
        ensures unchanged { IfErr result (λ why. ¬ (why ≡ LinkFault.OutOfMemory) → self.new ≡ self.old) }
        ensures short { result ≡ Err LinkFault.OutOfMemory →
            DefinesFirstExports store.now.machine «module».now instance self.old self.new }
    {
        let tested = exports_in(store, instance)?;
        if is_any_taken(&self.map, module, tested) {
            return Err(LinkFault::AlreadyDefined);
        }
        let exports = exports_in(store, instance)?;
        match put_all(&mut self.map, module, exports) {
            Ok(()) => Ok(()),
            Err(_) => Err(LinkFault::OutOfMemory),
        }
    }

    /// What the pair of names means; `None` exactly where it is not there. It takes no memory.
    pub fn get(&self, module: &str, name: &str) -> Option<Extern>
        ensures { result ≡ found self.now «module».now name.now }
    {
        self.map.get(module, name)
    }

    /// What the pair of each import means, in the order of the imports, of whatever store that is. `UnknownImport` of
    /// the first whose pair is not there, exactly where there is one.
    pub fn resolve(&self, module: &Module) -> Result<ExternList, LinkFault>
        ensures found { IfOk result (λ items. resolved self.now «module».now.imports ≡ Some items) }
        ensures unknown { (i : ℕ) →
            (result ≡ Err (LinkFault.UnknownImport i)) ↔ (first_unknown self.now «module».now.imports ≡ Some i) }
        ensures short { IfErr result (λ why.
            first_unknown self.now «module».now.imports ≡ None → why ≡ LinkFault.OutOfMemory) }
    {
        self.map.resolve(module.decl().imports.as_slice())
    }

    // What is told where there is no memory for a list of the objects: the refusal of them that is due, or that.
    fn unlisted<T: HostData, K: CallHooks<T>, B: DeadlineBehaviour<T>>(
        &self,
        store: &Store<T, K, B>,
        module: &Module,
    ) -> LinkFault
        ensures { result ≡ told_unlisted (fit_in_place store.now.machine «module».now self.now) }
    {
        unlisted_fault(&self.map, parts::objects(store), module.decl())
    }

    /// Makes an instance of a module over what its imports name, as `InstanceCalls::new` does, whose refusal is
    /// `Refused`. `UnknownImport` comes before every other, of the first import whose pair is not there, and changes
    /// nothing. Then `WrongStore`, `WrongEngine` and `ImportType` are told whatever memory there is. `OutOfMemory` comes
    /// behind these, before the counts are raised, for a list of the objects, or as it comes in `InstanceCalls::new`.
    ///
    /// A refusal by what is outside comes only by its cause, as it does there. However it ends, what does not lead from the
    /// objects for the imports, nor from what the host handed out unshown, is as it was.
    pub fn instantiate<
        T: HostData,
        K: CallHooks<T>,
        B: DeadlineBehaviour<T>,
        H: HostBody<T>,
        E: EpochSource,
    >(
        &self,
        store: &mut Store<T, K, B>,
        module: &Module,
        host: &mut H,
        epochs: &mut E,
    ) -> Result<Instance, LinkFault>
        requires ready { H.ready host.old }
        ensures ready { H.ready host.new }
        ensures unknown { (i : ℕ) →
            (result ≡ Err (LinkFault.UnknownImport i)) ↔ (first_unknown self.now «module».now.imports ≡ Some i) }
        ensures untouched { IsSome (first_unknown self.now «module».now.imports) →
            surrounded store.new host.new epochs.new ≡ surrounded store.old host.old epochs.old }
        ensures refused { (items : List Object) → resolved self.now «module».now.imports ≡ Some items →
            IfErr (imports_fit store.old.machine «module».now items) (λ why. result ≡ Err (LinkFault.Refused why)) }
        ensures linked { (items : List Object) → resolved self.now «module».now.imports ≡ Some items →
            Links (asked T.growths H.has K.hooks B.behaves E.readings H.steps) «module».now items
            (surrounded store.old host.old epochs.old) result (surrounded store.new host.new epochs.new) }
        ensures short { (items : List Object) → resolved self.now «module».now.imports ≡ Some items →
            result ≡ Err LinkFault.OutOfMemory →
            IsUntouched (surrounded store.old host.old epochs.old) (surrounded store.new host.new epochs.new)
            ⊎ MakingShort (asked T.growths H.has K.hooks B.behaves E.readings H.steps) «module».now items
            (surrounded store.old host.old epochs.old) (surrounded store.new host.new epochs.new) }
        ensures causes { IfErr result (OfRefusal (RefusedByCounts T.denials T.limiter_faults T.hook_faults
            T.behaviour_faults E.epoch_faults H.host_faults (outside_by store.old.host_data host.old epochs.old)
            (outside_by store.new.host_data host.new epochs.new) (MakesInVain store.old.machine «module».now))) }
        ensures confined { (items : List Object) → resolved self.now «module».now.imports ≡ Some items →
            LinksConfined (asked T.growths H.has K.hooks B.behaves E.readings H.steps) «module».now items
            (surrounded store.old host.old epochs.old) result (surrounded store.new host.new epochs.new) }
        ensures kept { KeepsObjects store.old.machine store.new.machine }
        ensures engine { store.new.machine.engine ≡ store.old.machine.engine }
    {
        match self.resolve(module) {
            Ok(items) => match <Instance as InstanceCalls>::new(
                store,
                module,
                items.as_slice(),
                host,
                epochs,
            ) {
                Ok(instance) => Ok(instance),
                Err(why) => Err(told_fault(why)),
            },
            Err(fault) => {
                if is_short(fault) {
                    begin_turns(store);
                    return Err(self.unlisted(store, module));
                }
                Err(fault)
            }
        }
    }

    /// The module with what its imports name, as `InstancePre::new` makes it, whose refusal is `Refused`.
    /// `UnknownImport` comes before every other, of the first import whose pair is not there. `OutOfMemory` comes behind
    /// all other refusals, which are told whatever memory there is.
    pub fn instantiate_pre<T: HostData, K: CallHooks<T>, B: DeadlineBehaviour<T>>(
        &self,
        store: &Store<T, K, B>,
        module: &Module,
    ) -> Result<InstancePre<T>, LinkFault>
        ensures unknown { (i : ℕ) →
            (result ≡ Err (LinkFault.UnknownImport i)) ↔ (first_unknown self.now «module».now.imports ≡ Some i) }
        ensures decl { IfOk result (λ pre. pre.module ≡ «module».now) }
        ensures imports { IfOk result (λ pre. resolved self.now «module».now.imports ≡ Some pre.imports.items) }
        ensures fits { IfOk result (λ pre. imports_fit store.now.machine «module».now pre.imports.items ≡ Ok tt) }
        ensures refused { IfErr result (λ why. (items : List Object) → resolved self.now «module».now.imports ≡ Some items →
            RefusesItems (imports_fit store.now.machine «module».now items) why) }
        ensures due { (items : List Object) → resolved self.now «module».now.imports ≡ Some items →
            IfErr (imports_fit store.now.machine «module».now items) (λ why. result ≡ Err (LinkFault.Refused why)) }
    {
        match self.resolve(module) {
            Ok(items) => match InstancePre::new(
                self.map.allocator(),
                store,
                module,
                items.as_slice(),
            ) {
                Ok(pre) => Ok(pre),
                Err(why) => Err(told_fault(why)),
            },
            Err(fault) => {
                if is_short(fault) {
                    return Err(self.unlisted(store, module));
                }
                Err(fault)
            }
        }
    }
}
