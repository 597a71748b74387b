//! What is asked of the objects that a linker has for the imports of a module, each where it is: what `check_imports`
//! asks of a list of them, without a list. So none of it takes memory.
ghost use Rattle.std.specs.Prelude.{◌≡◌};
ghost use Rattle.std.specs.List.{list_all};
ghost use Rattle.spec_machine.specs.Growth.{pages};
ghost use Rattle.spec_execution.specs.Instantiation.{is_given};
ghost use Rattle.wasm_values.specs.declared.externals.Extern.TheVariants as x;
ghost use Rattle.wasm_linker.specs.InPlace.{owns_found, owns_for, fits_found, first_unfit, fit_in_place, told_unlisted};

use linker_map::{LinkFault, LinkerMap};
use store_objects::Objects;
use wasm_module::{ImportDecl, ModuleDecl};
use wasm_objects::MemoryObject;
use wasm_types::{ExternType, global_fits, memory_fits, table_fits};
use wasm_values::{Extern, Func, Global, Memory, Refusal, Table, Tag};

// ---- whose store

// Whether what was found is of the store.
fn owns_found(objects: &Objects, found: Option<Extern>) -> bool
    ensures { result ≡ owns_found objects.now found }
{
    match found {
        Some(item) => objects.owns_extern(item),
        None => true,
    }
}

// Whether the object for each of these imports is of the store.
fn owns_each(map: &LinkerMap, objects: &Objects, imports: &[ImportDecl]) -> bool
    ensures { result ≡ list_all (owns_for objects.now map.now) imports.now }
{
    let mut rest = imports;
    'imports: while let [import, tail @ ..] = rest {
        let found = map.get(import.module.as_str(), import.name.as_str());
        if !owns_found(objects, found) {
            return false;
        }
        rest = tail;
    }
    true
}

// ---- of which type

// Whether a function may be given for an import.
fn is_func_given(objects: &Objects, declared: &ExternType, func: Func) -> bool
    ensures { result ≡ is_given objects.now declared.now (x.Func func) }
{
    let ExternType::Func(declared) = declared else {
        return false;
    };
    match objects.func(func) {
        Ok(own) => own.matches(declared),
        Err(_) => false,
    }
}

// Whether a global may be given for an import.
fn is_global_given(objects: &Objects, declared: &ExternType, global: Global) -> bool
    ensures { result ≡ is_given objects.now declared.now (x.Global global) }
{
    let ExternType::Global(declared) = declared else {
        return false;
    };
    match objects.global(global) {
        Ok(object) => global_fits(declared, object.ty()),
        Err(_) => false,
    }
}

// Whether a table of its present size may be given for an import.
fn is_table_given(objects: &Objects, declared: &ExternType, table: Table) -> bool
    ensures { result ≡ is_given objects.now declared.now (x.Table table) }
{
    let ExternType::Table(declared) = declared else {
        return false;
    };
    match objects.table(table) {
        Ok(object) => table_fits(declared, object.ty(), object.size() as u64),
        Err(_) => false,
    }
}

// The present size of a memory in pages.
fn page_count(object: &MemoryObject) -> u64
    ensures { result ≡ pages object.now.memory }
{
    object.bytes().len() as u64 / object.ty().page_size()
}

// Whether a memory of its present size may be given for an import.
fn is_memory_given(objects: &Objects, declared: &ExternType, memory: Memory) -> bool
    ensures { result ≡ is_given objects.now declared.now (x.Memory memory) }
{
    let ExternType::Memory(declared) = declared else {
        return false;
    };
    match objects.memory(memory) {
        Ok(object) => memory_fits(declared, object.ty(), page_count(object)),
        Err(_) => false,
    }
}

// Whether a tag may be given for an import.
fn is_tag_given(objects: &Objects, declared: &ExternType, tag: Tag) -> bool
    ensures { result ≡ is_given objects.now declared.now (x.Tag tag) }
{
    let ExternType::Tag(declared) = declared else {
        return false;
    };
    match objects.tag(tag) {
        Ok(own) => declared.ty() == own,
        Err(_) => false,
    }
}

// Whether an object may be given for an import.
fn is_given(objects: &Objects, declared: &ExternType, given: Extern) -> bool
    ensures { result ≡ is_given objects.now declared.now given }
{
    match given {
        Extern::Func(func) => is_func_given(objects, declared, func),
        Extern::Global(global) => is_global_given(objects, declared, global),
        Extern::Table(table) => is_table_given(objects, declared, table),
        Extern::Memory(memory) => is_memory_given(objects, declared, memory),
        Extern::Tag(tag) => is_tag_given(objects, declared, tag),
    }
}

// Whether what was found may be given for an import.
fn fits_found(objects: &Objects, declared: &ExternType, found: Option<Extern>) -> bool
    ensures { result ≡ fits_found objects.now declared.now found }
{
    match found {
        Some(item) => is_given(objects, declared, item),
        None => true,
    }
}

// The place of the first import whose object does not match.
fn first_unfit(map: &LinkerMap, objects: &Objects, imports: &[ImportDecl]) -> Option<usize>
    ensures { result ≡ first_unfit objects.now map.now 0 imports.now }
{
    let mut place = 0;
    let mut rest = imports;
    'imports: while let [import, tail @ ..] = rest {
        let found = map.get(import.module.as_str(), import.name.as_str());
        if !fits_found(objects, &import.ty, found) {
            return Some(place);
        }
        place += 1;
        rest = tail;
    }
    None
}

// ---- all checks

// `WrongStore` where the object for an import is not of the store, `WrongEngine` where the module is of another engine,
// and `ImportType` of the first whose object does not match at its present size.
fn check_in_place(map: &LinkerMap, objects: &Objects, decl: &ModuleDecl) -> Result<(), Refusal>
    ensures { result ≡ fit_in_place objects.now decl.now map.now }
{
    if !owns_each(map, objects, decl.imports.as_slice()) {
        return Err(Refusal::WrongStore);
    }
    if decl.engine.0 != objects.engine().id().0 {
        return Err(Refusal::WrongEngine);
    }
    match first_unfit(map, objects, decl.imports.as_slice()) {
        Some(place) => Err(Refusal::ImportType(place)),
        None => Ok(()),
    }
}

/// What is told where there is no memory for a list of the objects: the refusal by these checks that is due, or that.
pub(crate) fn unlisted_fault(map: &LinkerMap, objects: &Objects, decl: &ModuleDecl) -> LinkFault
    ensures { result ≡ told_unlisted (fit_in_place objects.now decl.now map.now) }
{
    match check_in_place(map, objects, decl) {
        Ok(()) => LinkFault::OutOfMemory,
        Err(why) => LinkFault::Refused(why),
    }
}
