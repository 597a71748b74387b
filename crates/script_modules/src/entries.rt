ghost use Rattle.std.specs.Prelude.{◌≡◌};
ghost use Rattle.serde_json.specs.View.{view};
ghost use Rattle.script_json.specs.Fields.{Reads};
ghost use Rattle.script_modules.specs.Entries as entries;

use crate::constants::constant;
use script_json::{JsonReader, ScriptFault, field, only};
use script_types::{global_type, memory_type, table_type};
use serde_json::Value;
use std::alloc::Global;
use wasm_syntax::{ConstExpr, GlobalDecl, TableDecl};
use wasm_types::{FuncType, MemoryType, TableType};

/// The value at the key `init` of an object, or the null of the table's family where there is no such key.
fn table_start(ty: &TableType, json: &Value) -> Result<ConstExpr, ScriptFault>
    ensures { Reads (entries.table_start_of ty.now (view json.now)) result }
{
    match json.get("init") {
        Some(start) => constant(start),
        None => Ok(ConstExpr::RefNull(ty.element().heap_type().top())),
    }
}

fn table(types: &[FuncType], json: &Value) -> Result<TableDecl, ScriptFault>
    ensures { Reads (entries.table_of types.now (view json.now)) result }
{
    only(json, &["ref", "min", "max", "init"])?;
    let ty = table_type(types, json)?;
    let init = table_start(&ty, json)?;
    Ok(TableDecl { ty, init })
}

fn memory(json: &Value) -> Result<MemoryType, ScriptFault>
    ensures { Reads (entries.memory_of (view json.now)) result }
{
    only(json, &["min", "max", "page"])?;
    memory_type(json)
}

fn global(types: &[FuncType], json: &Value) -> Result<GlobalDecl, ScriptFault>
    ensures { Reads (entries.global_of types.now (view json.now)) result }
{
    only(json, &["val", "mut", "init"])?;
    let ty = global_type(types, json)?;
    let init = constant(field(json, "init")?)?;
    Ok(GlobalDecl { ty, init })
}

/// Reads a table, whose type may name one of these types.
#[derive(Clone, Copy)]
pub(crate) struct TableReader<'a> {
    pub(crate) types: &'a [FuncType],
}

impl<'a> JsonReader for TableReader<'a> {
    ghost use Rattle.script_modules.specs.Entries.{table_of};

    type Item = TableDecl;

    ghost meaning = { λ reader json. table_of reader.types.now json };

    fn read(&self, alloc: Global, json: &Value) -> Result<TableDecl, ScriptFault> {
        table(self.types, json)
    }
}

/// Reads a memory.
pub(crate) struct MemoryReader;

impl JsonReader for MemoryReader {
    ghost use Rattle.script_modules.specs.Entries.{memory_of};

    type Item = MemoryType;

    ghost meaning = { λ _ json. memory_of json };

    fn read(&self, alloc: Global, json: &Value) -> Result<MemoryType, ScriptFault> {
        memory(json)
    }
}

/// Reads a global, whose type may name one of these types.
#[derive(Clone, Copy)]
pub(crate) struct GlobalReader<'a> {
    pub(crate) types: &'a [FuncType],
}

impl<'a> JsonReader for GlobalReader<'a> {
    ghost use Rattle.script_modules.specs.Entries.{global_of};

    type Item = GlobalDecl;

    ghost meaning = { λ reader json. global_of reader.types.now json };

    fn read(&self, alloc: Global, json: &Value) -> Result<GlobalDecl, ScriptFault> {
        global(self.types, json)
    }
}
