ghost use Rattle.std.specs.Prelude.{◌≡◌, [], map, length, slice_get, option_copied, option_map, IfOk};
ghost use Rattle.std.specs.List.{filter_map};
ghost use Rattle.std.specs.Rc.{rc_slice_items};
ghost use Rattle.wasm_module.specs.Images.{table_images};
ghost use Rattle.wasm_objects.specs.Globals.{Global as GlobalParts};
ghost use Rattle.wasm_objects.specs.Objects.{memories_of, tables_of};
ghost use Rattle.spec_execution.specs.Allocation.{from, globals_with, new_tags};
ghost use Rattle.spec_machine.specs.Machine.{guest};
ghost use Rattle.law_images.specs.Leading.{imaged_tables, led_memories};

use crate::constants::reference_of;
use std::alloc::Global;
use std::rc::RcSlice;
use store_state::{Function, Held};
use wasm_module::{GlobalDecl, Module, ModuleDecl};
use wasm_objects::{GlobalObject, MemoryObject, RawVal, TableObject};
use wasm_types::{FuncType, OutOfMemory};

/// The values of the globals of these numbers.
pub(crate) fn values_at(
    alloc: Global,
    held: &Held,
    numbers: &[usize],
) -> Result<Vec<RawVal>, OutOfMemory>
    ensures { IfOk result (λ values. values.items
        ≡ filter_map (λ n. option_map (λ (g : GlobalParts). g.value) (slice_get held.now.globals n)) numbers.now) }
{
    let mut values = Vec::new(alloc);
    let mut rest = numbers;
    'numbers: while let [number, tail @ ..] = rest {
        if let Some(value) = held.global(*number) {
            values.push(value)?;
        }
        rest = tail;
    }
    Ok(values)
}

/// The memories that a module declares, each of its minimum of pages: what the segments that lead leave in it, and zeros
/// behind it.
pub(crate) fn new_memories(
    alloc: Global,
    validated: &Module,
) -> Result<Vec<MemoryObject>, OutOfMemory>
    ensures { IfOk result (λ made. memories_of made.items ≡ led_memories validated.now) }
{
    let images = validated.memory_images(alloc)?;
    let mut made = Vec::new(alloc);
    let mut rest = validated.decl().memories.as_slice();
    let mut number: u32 = 0;
    'memories: while let [ty, tail @ ..] = rest {
        let image = images.image(number);
        let object = MemoryObject::try_new_with(alloc, ty.clone()?, image)?;
        made.push(object)?;
        number += 1;
        rest = tail;
    }
    Ok(made)
}

// The tables that a module declares, over the numbers of the functions, shared, and the values of the imported globals.
fn tables_over(
    alloc: Global,
    functions: &RcSlice<usize>,
    globals: &[RawVal],
    validated: &Module,
) -> Result<Vec<TableObject>, OutOfMemory>
    ensures { IfOk result (λ made. tables_of made.items
        ≡ imaged_tables (rc_slice_items functions.now) globals.now validated.now.tables (table_images validated.now)) }
{
    let images = validated.table_images(alloc)?;
    let mut made = Vec::new(alloc);
    let mut rest = validated.decl().tables.as_slice();
    let mut number: u32 = 0;
    'tables: while let [table, tail @ ..] = rest {
        let init = reference_of(functions.as_slice(), globals, &table.init);
        let image = images.image(number)?;
        let shared = functions.clone()?;
        let object = TableObject::try_new_lazy(alloc, table.ty.clone()?, init, image, shared)?;
        made.push(object)?;
        number += 1;
        rest = tail;
    }
    Ok(made)
}

/// The tables that a module declares, each of its minimum of elements: what the segments that lead leave in it, and else
/// its start value, over the numbers of the functions and the values of the imported globals. The numbers are copied once,
/// where there is a table, and none of its places is filled.
pub(crate) fn new_tables(
    alloc: Global,
    functions: &[usize],
    globals: &[RawVal],
    validated: &Module,
) -> Result<Vec<TableObject>, OutOfMemory>
    ensures { IfOk result (λ made. tables_of made.items
        ≡ imaged_tables functions.now globals.now validated.now.tables (table_images validated.now)) }
{
    if validated.decl().tables.len() == 0 {
        return Ok(Vec::new(alloc));
    }
    let shared = RcSlice::from_slice(alloc, functions)?;
    let made = tables_over(alloc, &shared, globals, validated)?;
    Ok(made)
}

/// The globals that are declared, with these values.
pub(crate) fn globals_with(
    alloc: Global,
    values: &[RawVal],
    globals: &[GlobalDecl],
) -> Result<Vec<GlobalObject>, OutOfMemory>
    ensures { IfOk result (λ made. made.items ≡ globals_with values.now globals.now) }
{
    let mut made = Vec::new(alloc);
    let mut left = values;
    let mut rest = globals;
    'globals: while let Some((value, others)) = left.split_first() {
        let Some((global, tail)) = rest.split_first() else {
            return Ok(made);
        };
        made.push(GlobalObject::new(global.ty.clone()?, *value))?;
        left = others;
        rest = tail;
    }
    Ok(made)
}

// The type of this number, lent.
fn type_at(types: &[FuncType], number: u32) -> Option<&FuncType>
    ensures { option_copied result ≡ slice_get types.now number }
{
    types.get(number as usize)
}

/// The types of the tags that a module declares. In a valid module each is there.
pub(crate) fn new_tags(alloc: Global, decl: &ModuleDecl) -> Result<Vec<FuncType>, OutOfMemory>
    ensures { IfOk result (λ made. made.items ≡ new_tags decl.now) }
{
    let mut made = Vec::new(alloc);
    let mut rest = decl.tags.as_slice();
    'tags: while let Some((tag, tail)) = rest.split_first() {
        if let Some(ty) = type_at(decl.types.as_slice(), *tag) {
            made.push(ty.clone()?)?;
        }
        rest = tail;
    }
    Ok(made)
}

/// The functions that a module defines, of the instance of this number, which numbers them from 0 on.
pub(crate) fn new_functions(
    alloc: Global,
    instance: usize,
    decl: &ModuleDecl,
) -> Result<Vec<Function>, OutOfMemory>
    ensures { IfOk result (λ made.
        made.items ≡ map (guest instance) (from 0 (length decl.now.functions))) }
{
    let count = decl.functions.len();
    let mut made = Vec::with_capacity(alloc, count)?;
    for number in 0..count {
        made.push(Function::guest(instance, number))?;
    }
    Ok(made)
}
