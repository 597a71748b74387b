ghost use Rattle.std.specs.Prelude.{◌≡◌, IfOk};
ghost use Rattle.wasm_syntax.specs.Contexts.{as_function, as_table, as_memory, as_global, as_tag};
ghost use Rattle.module_typing.specs.Imported.{of_kind, seen};

use std::alloc::Global;
use wasm_syntax::ImportDecl;
use wasm_types::{ExternType, FuncType, GlobalType, MemoryType, OutOfMemory, TableType};

// The types of the imported functions, in order.
pub(crate) fn imported_functions<'a>(
    alloc: Global,
    imports: &'a [ImportDecl],
) -> Result<Vec<&'a FuncType>, OutOfMemory>
    ensures { IfOk result (λ v. seen v.items ≡ of_kind as_function imports.now) }
{
    let mut found = Vec::new(alloc);
    let mut rest = imports;
    while let [import, tail @ ..] = rest {
        if let ExternType::Func(ty) = &import.ty {
            found.push(ty)?;
        }
        rest = tail;
    }
    Ok(found)
}

// The types of the imported tables, in order.
pub(crate) fn imported_tables<'a>(
    alloc: Global,
    imports: &'a [ImportDecl],
) -> Result<Vec<&'a TableType>, OutOfMemory>
    ensures { IfOk result (λ v. seen v.items ≡ of_kind as_table imports.now) }
{
    let mut found = Vec::new(alloc);
    let mut rest = imports;
    while let [import, tail @ ..] = rest {
        if let ExternType::Table(ty) = &import.ty {
            found.push(ty)?;
        }
        rest = tail;
    }
    Ok(found)
}

// The types of the imported memories, in order.
pub(crate) fn imported_memories<'a>(
    alloc: Global,
    imports: &'a [ImportDecl],
) -> Result<Vec<&'a MemoryType>, OutOfMemory>
    ensures { IfOk result (λ v. seen v.items ≡ of_kind as_memory imports.now) }
{
    let mut found = Vec::new(alloc);
    let mut rest = imports;
    while let [import, tail @ ..] = rest {
        if let ExternType::Memory(ty) = &import.ty {
            found.push(ty)?;
        }
        rest = tail;
    }
    Ok(found)
}

// The types of the imported globals, in order.
pub(crate) fn imported_globals<'a>(
    alloc: Global,
    imports: &'a [ImportDecl],
) -> Result<Vec<&'a GlobalType>, OutOfMemory>
    ensures { IfOk result (λ v. seen v.items ≡ of_kind as_global imports.now) }
{
    let mut found = Vec::new(alloc);
    let mut rest = imports;
    while let [import, tail @ ..] = rest {
        if let ExternType::Global(ty) = &import.ty {
            found.push(ty)?;
        }
        rest = tail;
    }
    Ok(found)
}

// The function types of the imported tags, in order.
pub(crate) fn imported_tags<'a>(
    alloc: Global,
    imports: &'a [ImportDecl],
) -> Result<Vec<&'a FuncType>, OutOfMemory>
    ensures { IfOk result (λ v. seen v.items ≡ of_kind as_tag imports.now) }
{
    let mut found = Vec::new(alloc);
    let mut rest = imports;
    while let [import, tail @ ..] = rest {
        if let ExternType::Tag(ty) = &import.ty {
            found.push(ty.ty())?;
        }
        rest = tail;
    }
    Ok(found)
}
