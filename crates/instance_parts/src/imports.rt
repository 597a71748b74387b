//! What is asked of the objects that are given for the imports of a module. Types are compared where they stand, so none of
//! it takes memory.
ghost use Rattle.std.specs.Prelude.{◌≡◌};
ghost use Rattle.std.specs.List.{list_all};
ghost use Rattle.spec_machine.specs.Growth.{pages};
ghost use Rattle.spec_machine.specs.Values.{owns_extern};
ghost use Rattle.spec_execution.specs.Instantiation.{is_given, first_unmatched_import, imports_fit};
ghost use Rattle.wasm_values.specs.declared.externals.Extern.TheVariants as x;

use store_objects::Objects;
use wasm_module::{ImportDecl, ModuleDecl};
use wasm_objects::MemoryObject;
use wasm_types::{ExternType, global_fits, memory_fits, table_fits};
use wasm_values::{Extern, Func, Global, Memory, Refusal, Table, Tag};

// Whether all of these objects are of the store.
fn owns_all(objects: &Objects, imports: &[Extern]) -> bool
    ensures { result ≡ list_all (owns_extern objects.now) imports.now }
{
    for import in imports {
        if !objects.owns_extern(*import) {
            return false;
        }
    }
    true
}

// Whether a function may be given for an import.
fn is_func_given(objects: &Objects, declared: &ExternType, func: Func) -> bool
    ensures { result ≡ is_given objects.now declared.now (x.Func func) }
{
    let ExternType::Func(declared) = declared else {
        return false;
    };
    match objects.func(func) {
        Ok(own) => own.matches(declared),
        Err(_) => false,
    }
}

// Whether a global may be given for an import.
fn is_global_given(objects: &Objects, declared: &ExternType, global: Global) -> bool
    ensures { result ≡ is_given objects.now declared.now (x.Global global) }
{
    let ExternType::Global(declared) = declared else {
        return false;
    };
    match objects.global(global) {
        Ok(object) => global_fits(declared, object.ty()),
        Err(_) => false,
    }
}

// Whether a table of its present size may be given for an import.
fn is_table_given(objects: &Objects, declared: &ExternType, table: Table) -> bool
    ensures { result ≡ is_given objects.now declared.now (x.Table table) }
{
    let ExternType::Table(declared) = declared else {
        return false;
    };
    match objects.table(table) {
        Ok(object) => table_fits(declared, object.ty(), object.size() as u64),
        Err(_) => false,
    }
}

// The present size of a memory in pages.
fn page_count(object: &MemoryObject) -> u64
    ensures { result ≡ pages object.now.memory }
{
    object.bytes().len() as u64 / object.ty().page_size()
}

// Whether a memory of its present size may be given for an import.
fn is_memory_given(objects: &Objects, declared: &ExternType, memory: Memory) -> bool
    ensures { result ≡ is_given objects.now declared.now (x.Memory memory) }
{
    let ExternType::Memory(declared) = declared else {
        return false;
    };
    match objects.memory(memory) {
        Ok(object) => memory_fits(declared, object.ty(), page_count(object)),
        Err(_) => false,
    }
}

// Whether a tag may be given for an import.
fn is_tag_given(objects: &Objects, declared: &ExternType, tag: Tag) -> bool
    ensures { result ≡ is_given objects.now declared.now (x.Tag tag) }
{
    let ExternType::Tag(declared) = declared else {
        return false;
    };
    match objects.tag(tag) {
        Ok(own) => declared.ty() == own,
        Err(_) => false,
    }
}

// Whether an object may be given for an import.
fn is_given(objects: &Objects, declared: &ExternType, given: Extern) -> bool
    ensures { result ≡ is_given objects.now declared.now given }
{
    match given {
        Extern::Func(func) => is_func_given(objects, declared, func),
        Extern::Global(global) => is_global_given(objects, declared, global),
        Extern::Table(table) => is_table_given(objects, declared, table),
        Extern::Memory(memory) => is_memory_given(objects, declared, memory),
        Extern::Tag(tag) => is_tag_given(objects, declared, tag),
    }
}

// The place of the first import that does not match.
fn first_unmatched(objects: &Objects, declared: &[ImportDecl], imports: &[Extern]) -> Option<usize>
    ensures { result ≡ first_unmatched_import objects.now 0 declared.now imports.now }
{
    let mut place = 0;
    let mut rest = declared;
    let mut left = imports;
    'imports: while let [import, others @ ..] = rest {
        let [given, tail @ ..] = left else {
            return None;
        };
        if !is_given(objects, &import.ty, *given) {
            return Some(place);
        }
        place += 1;
        rest = others;
        left = tail;
    }
    None
}

/// What is asked of the objects that are given for the imports of a module: `WrongStore` where one is not of the store,
/// `WrongEngine` where the module is of another engine, `ImportCount`, and `ImportType` of the first that does not match at
/// its present size. It takes no memory.
pub fn check_imports(
    objects: &Objects,
    decl: &ModuleDecl,
    imports: &[Extern],
) -> Result<(), Refusal>
    ensures { result ≡ imports_fit objects.now decl.now imports.now }
{
    if !owns_all(objects, imports) {
        return Err(Refusal::WrongStore);
    }
    if decl.engine.0 != objects.engine().id().0 {
        return Err(Refusal::WrongEngine);
    }
    if imports.len() != decl.imports.len() {
        return Err(Refusal::ImportCount);
    }
    match first_unmatched(objects, decl.imports.as_slice(), imports) {
        Some(place) => Err(Refusal::ImportType(place)),
        None => Ok(()),
    }
}
