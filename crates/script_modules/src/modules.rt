ghost use Rattle.std.specs.Prelude.{◌≡◌, Some, codes};
ghost use Rattle.serde_json.specs.View.{view};
ghost use Rattle.script_json.specs.Fields.{Reads, field, optional};
ghost use Rattle.script_types.specs.Types as types;
ghost use Rattle.script_modules.specs.Modules as modules;

use crate::entries::{GlobalReader, MemoryReader, TableReader};
use crate::exports::ExportReader;
use crate::functions::FunctionReader;
use crate::imports::ImportReader;
use crate::indices::IndexReader;
use crate::segments::{DataReader, ElementsReader};
use script_json::{ScriptFault, list_or_empty, only};
use script_types::whole_32;
use serde_json::Value;
use std::alloc::Global;
use wasm_syntax::{DataDecl, ElemDecl, FuncDecl, GlobalDecl, ModuleDecl, TableDecl};
use wasm_types::{EngineId, FuncType, Items, MemoryType};

/// What a module defines in its index spaces.
#[derive(Drop)]
struct Definitions {
    functions: Items<FuncDecl>,
    tables: Items<TableDecl>,
    memories: Items<MemoryType>,
    globals: Items<GlobalDecl>,
    tags: Items<u32>,
}

/// The segments of a module.
#[derive(Drop)]
struct Segments {
    elements: Items<ElemDecl>,
    datas: Items<DataDecl>,
}

fn defined_in(alloc: Global, types: &[FuncType], json: &Value) -> Result<Definitions, ScriptFault>
    ensures { Reads (modules.definitions_of types.now (view json.now)) result }
{
    let functions = list_or_empty(alloc, json, "functions", &FunctionReader { types })?;
    let tables = list_or_empty(alloc, json, "tables", &TableReader { types })?;
    let memories = list_or_empty(alloc, json, "memories", &MemoryReader)?;
    let globals = list_or_empty(alloc, json, "globals", &GlobalReader { types })?;
    let tags = list_or_empty(alloc, json, "tags", &IndexReader)?;
    Ok(Definitions {
        functions,
        tables,
        memories,
        globals,
        tags,
    })
}

fn segments_in(alloc: Global, types: &[FuncType], json: &Value) -> Result<Segments, ScriptFault>
    ensures { Reads (modules.segments_of types.now (view json.now)) result }
{
    let elements = list_or_empty(alloc, json, "elements", &ElementsReader { types })?;
    let datas = list_or_empty(alloc, json, "datas", &DataReader)?;
    Ok(Segments { elements, datas })
}

fn start(json: &Value) -> Result<Option<u32>, ScriptFault>
    ensures { Reads (optional types.whole_32 (field (codes "start") (view json.now))) result }
{
    match json.get("start") {
        Some(index) => Ok(Some(whole_32(index)?)),
        None => Ok(None),
    }
}

/// The same types again, which share their parts.
fn shared(alloc: Global, types: &[FuncType]) -> Result<Items<FuncType>, ScriptFault>
    ensures { Reads (Some types.now) result }
{
    let mut copies = Vec::new(alloc);
    for ty in types {
        let Ok(copy) = ty.clone() else {
            return Err(ScriptFault::OutOfMemory);
        };
        if copies.push(copy).is_err() {
            return Err(ScriptFault::OutOfMemory);
        }
    }
    Ok(Items(copies))
}

/// The declaration that JSON data spells, of a module of these types, this engine and this number.
///
/// `NotScript` exactly where it spells none. That the declaration is valid is not asked.
#[tactic(auto, unfolding(crate::specs::Modules::module_of))]
pub fn read_module(
    alloc: Global,
    types: &[FuncType],
    engine: EngineId,
    number: u64,
    json: &Value,
) -> Result<ModuleDecl, ScriptFault>
    ensures { Reads (modules.module_of types.now engine number (view json.now)) result }
{
    only(
        json,
        &[
            "imports",
            "functions",
            "tables",
            "memories",
            "globals",
            "tags",
            "exports",
            "elements",
            "datas",
            "start",
        ],
    )?;
    let imports = list_or_empty(alloc, json, "imports", &ImportReader { types })?;
    let defined = defined_in(alloc, types, json)?;
    let exports = list_or_empty(alloc, json, "exports", &ExportReader)?;
    let segments = segments_in(alloc, types, json)?;
    let start = start(json)?;
    let types = shared(alloc, types)?;
    Ok(ModuleDecl {
        engine,
        number,
        types,
        imports,
        functions: defined.functions,
        tables: defined.tables,
        memories: defined.memories,
        globals: defined.globals,
        tags: defined.tags,
        exports,
        elements: segments.elements,
        datas: segments.datas,
        start,
    })
}

/// The declarations that a JSON array spells, of modules of these types and this engine. Each has its place in the array
/// as its number.
///
/// `NotScript` exactly where the value is no array, or an item spells none.
pub fn read_modules(
    alloc: Global,
    types: &[FuncType],
    engine: EngineId,
    json: &Value,
) -> Result<Items<ModuleDecl>, ScriptFault>
    ensures { Reads (modules.modules_of types.now engine (view json.now)) result }
{
    let Some(list) = json.as_array() else {
        return Err(ScriptFault::NotScript);
    };
    let mut modules = Vec::new(alloc);
    for item in list {
        let number = modules.len() as u64;
        let module = read_module(alloc, types, engine, number, item)?;
        if modules.push(module).is_err() {
            return Err(ScriptFault::OutOfMemory);
        }
    }
    Ok(Items(modules))
}
