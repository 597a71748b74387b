ghost use Rattle.std.specs.Prelude.{◌≡◌, length, Ok, Err, MatchResult};
ghost use Rattle.std.specs.List.{list_any};
ghost use Rattle.wasm_syntax.specs.declared.declarations.ExportDecl.{ExportDecl as Declared};
ghost use Rattle.spec_machine.specs.InstanceCalls.{instance_at};
ghost use Rattle.spec_machine.specs.Machine.{InstanceParts};
ghost use Rattle.spec_machine.specs.ValueCalls.{extern_ty};
ghost use Rattle.store_state.specs.Calls.{Copies};
ghost use Rattle.wasm_values.specs.Externals.{extern_func, extern_table, extern_memory, extern_global, extern_tag};
ghost use Rattle.wasm_instance.specs.Exports.{entries, object_named, same_entity, is_exported, module_export_of};
ghost use Rattle.wasm_instance.specs.Left.{left, TakesFirst, TakesLast};

use crate::remaining::Exports;
use store_objects::Objects;
use store_state::Instance as StoredInstance;
use wasm_meter::{CallHooks, DeadlineBehaviour, HostData};
use wasm_module::{EntityIndex, ExportDecl, ModuleDecl, ModuleExport};
use wasm_store::{ExternCalls, Store};
use wasm_types::ExternType;
use wasm_values::{Extern, Func, Global, Instance, Memory, Refusal, StoreId, Table, Tag};

/// One export of an instance: its name, and the object.
#[derive(Clone, Copy)]
pub struct Export<'a> {
    name: &'a str,
    object: Extern,
}

// The object that an instance of a store of this id names.
fn object_named(id: StoreId, instance: &StoredInstance, entity: EntityIndex) -> Option<Extern>
    ensures { result ≡ object_named id instance.now entity }
{
    match entity {
        EntityIndex::Func(index) => {
            let number = instance.function(index as usize)?;
            Some(Extern::Func(Func::from_parts(id, number)))
        }
        EntityIndex::Global(index) => {
            let number = instance.global(index as usize)?;
            Some(Extern::Global(Global::from_parts(id, number)))
        }
        EntityIndex::Table(index) => {
            let number = instance.table(index as usize)?;
            Some(Extern::Table(Table::from_parts(id, number)))
        }
        EntityIndex::Memory(index) => {
            let number = instance.memory(index as usize)?;
            Some(Extern::Memory(Memory::from_parts(id, number)))
        }
        EntityIndex::Tag(index) => {
            let number = instance.tag(index as usize)?;
            Some(Extern::Tag(Tag::from_parts(id, number)))
        }
    }
}

/// What an instance of a store exports.
pub(crate) fn exports_of<'a>(
    objects: &'a Objects,
    instance: Instance,
) -> Result<Exports<'a>, Refusal>
    ensures { MatchResult result
        (λ exports. (i : InstanceParts) × (instance_at objects.now instance ≡ Ok i)
        × (left exports ≡ entries objects.now i))
        (λ why. instance_at objects.now instance ≡ Err why) }
{
    objects.keeps_well_formed();
    let stored = objects.instance(instance)?;
    let declared = stored.decl().exports.as_slice();
    Ok(Exports {
        id: objects.id(),
        instance: stored,
        rest: declared,
    })
}

// Whether two indices name the same.
fn same_entity(a: EntityIndex, b: EntityIndex) -> bool
    ensures { result ≡ same_entity a b }
{
    match (a, b) {
        (EntityIndex::Func(a), EntityIndex::Func(b)) => a == b,
        (EntityIndex::Global(a), EntityIndex::Global(b)) => a == b,
        (EntityIndex::Table(a), EntityIndex::Table(b)) => a == b,
        (EntityIndex::Memory(a), EntityIndex::Memory(b)) => a == b,
        (EntityIndex::Tag(a), EntityIndex::Tag(b)) => a == b,
        _ => false,
    }
}

// Whether one of these exports names this.
fn names_entity(exports: &[ExportDecl], entity: EntityIndex) -> bool
    ensures { result ≡ list_any (λ (e : Declared). same_entity e.entity entity) exports.now }
{
    let mut rest = exports;
    'exports: while let [export, tail @ ..] = rest {
        if same_entity(export.entity, entity) {
            return true;
        }
        rest = tail;
    }
    false
}

// Whether a module of this number exports this.
fn is_exported(decl: &ModuleDecl, export: &ModuleExport) -> bool
    ensures { result ≡ is_exported decl.now export.now }
{
    decl.number == export.module && names_entity(decl.exports.as_slice(), export.entity)
}

/// The object of an export of an instance's module.
pub(crate) fn module_export_of(
    objects: &Objects,
    instance: Instance,
    export: &ModuleExport,
) -> Result<Option<Extern>, Refusal>
    ensures { result ≡ module_export_of objects.now instance export.now }
{
    let stored = objects.instance(instance)?;
    if !is_exported(stored.decl(), export) {
        return Ok(None);
    }
    Ok(object_named(objects.id(), stored, export.entity))
}

impl<'a> Exports<'a> {
    /// The next export from the front; `None` where none is left.
    pub fn next(&mut self) -> Option<Export<'a>>
        ensures { TakesFirst self.old result self.new }
    {
        let Some((first, rest)) = self.rest.split_first() else {
            return None;
        };
        let Some(object) = object_named(self.id, self.instance, first.entity) else {
            unreachable!();
        };
        *self = Exports {
            id: self.id,
            instance: self.instance,
            rest,
        };
        Some(Export {
            name: first.name.as_str(),
            object,
        })
    }

    /// The next export from the back; `None` where none is left.
    pub fn next_back(&mut self) -> Option<Export<'a>>
        ensures { TakesLast self.old result self.new }
    {
        let Some((last, rest)) = self.rest.split_last() else {
            return None;
        };
        let Some(object) = object_named(self.id, self.instance, last.entity) else {
            unreachable!();
        };
        *self = Exports {
            id: self.id,
            instance: self.instance,
            rest,
        };
        Some(Export {
            name: last.name.as_str(),
            object,
        })
    }

    /// How many are left.
    pub fn len(&self) -> usize
        ensures { result ≡ length (left self.now) }
    {
        self.rest.len()
    }
}

impl<'a> Export<'a> {
    /// Its name.
    pub fn name(&self) -> &'a str
        ensures { result.now ≡ self.now.name.now }
    {
        self.name
    }

    /// The type of its object. `WrongStore` where that is of another store; it takes memory where the type holds a
    /// function's.
    pub fn ty<T: HostData, K: CallHooks<T>, B: DeadlineBehaviour<T>>(
        &self,
        store: &Store<T, K, B>,
    ) -> Result<ExternType, Refusal>
        ensures { Copies (extern_ty store.now.machine self.now.object) result }
    {
        self.object.ty(store)
    }

    /// Its object.
    pub fn into_extern(self) -> Extern
        ensures { result ≡ self.entry.object }
    {
        self.object
    }

    /// Its function, where it is one.
    pub fn into_func(self) -> Option<Func>
        ensures { result ≡ extern_func self.entry.object }
    {
        self.object.into_func()
    }

    /// Its table, where it is one.
    pub fn into_table(self) -> Option<Table>
        ensures { result ≡ extern_table self.entry.object }
    {
        self.object.into_table()
    }

    /// Its memory, where it is one.
    pub fn into_memory(self) -> Option<Memory>
        ensures { result ≡ extern_memory self.entry.object }
    {
        self.object.into_memory()
    }

    /// Its global, where it is one.
    pub fn into_global(self) -> Option<Global>
        ensures { result ≡ extern_global self.entry.object }
    {
        self.object.into_global()
    }

    /// Its tag, where it is one.
    pub fn into_tag(self) -> Option<Tag>
        ensures { result ≡ extern_tag self.entry.object }
    {
        self.object.into_tag()
    }
}
