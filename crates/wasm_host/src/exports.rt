ghost use Rattle.std.specs.Prelude.{◌≡◌, Some};
ghost use Rattle.spec_machine.specs.InstanceCalls.{object};
ghost use Rattle.spec_machine.specs.Machine.{InstanceParts};
ghost use Rattle.spec_execution.specs.Activations.{caller_of, seen_caller};
ghost use Rattle.store_state.specs.Machine.{IsNamed};
ghost use Rattle.wasm_host.specs.Callers.{object_named, object_of};
ghost use Rattle.wasm_host.specs.StoreViews.{store_of};

use crate::entities::is_exported;
use crate::store_view::StoreView;
use store_state::Instance;
use wasm_syntax::{EntityIndex, ModuleExport};
use wasm_values::{Extern, Func, Global, Memory, Table, Tag};

// The object that an instance has under an index.
fn object(store: &StoreView<'_>, instance: &Instance, entity: EntityIndex) -> Option<Extern>
    ensures { (i : InstanceParts) → IsNamed i instance.now → result ≡ object (store_of store.now) i entity }
{
    match entity {
        EntityIndex::Func(index) => {
            let number = instance.function(index as usize)?;
            Some(Extern::Func(Func::from_parts(store.id, number)))
        }
        EntityIndex::Global(index) => {
            let number = instance.global(index as usize)?;
            Some(Extern::Global(Global::from_parts(store.id, number)))
        }
        EntityIndex::Table(index) => {
            let number = instance.table(index as usize)?;
            Some(Extern::Table(Table::from_parts(store.id, number)))
        }
        EntityIndex::Memory(index) => {
            let number = instance.memory(index as usize)?;
            Some(Extern::Memory(Memory::from_parts(store.id, number)))
        }
        EntityIndex::Tag(index) => {
            let number = instance.tag(index as usize)?;
            Some(Extern::Tag(Tag::from_parts(store.id, number)))
        }
    }
}

// The object that an instance exports under a name.
fn exported(store: &StoreView<'_>, instance: &Instance, name: &str) -> Option<Extern>
    ensures { (i : InstanceParts) → IsNamed i instance.now →
        result ≡ object_named (Some (seen_caller (store_of store.now) i)) name.now }
{
    match instance.module().get_export_index(name) {
        Some(export) => object(store, instance, export.entity),
        None => None,
    }
}

// The object of an export of the module of an instance.
fn exported_by(store: &StoreView<'_>, instance: &Instance, export: &ModuleExport) -> Option<Extern>
    ensures { (i : InstanceParts) → IsNamed i instance.now →
        result ≡ object_of (Some (seen_caller (store_of store.now) i)) export.now }
{
    if !is_exported(instance.decl(), export) {
        return None;
    }
    object(store, instance, export.entity)
}

/// The object that the instance of a number exports under a name.
pub(crate) fn export_named(store: &StoreView<'_>, number: usize, name: &str) -> Option<Extern>
    ensures { result ≡ object_named (caller_of (store_of store.now) (Some number)) name.now }
{
    match store.program.instance(number) {
        Some(instance) => exported(store, instance, name),
        None => None,
    }
}

/// The object of an export of the module of the instance of a number.
pub(crate) fn export_of(
    store: &StoreView<'_>,
    number: usize,
    export: &ModuleExport,
) -> Option<Extern>
    ensures { result ≡ object_of (caller_of (store_of store.now) (Some number)) export.now }
{
    match store.program.instance(number) {
        Some(instance) => exported_by(store, instance, export),
        None => None,
    }
}
