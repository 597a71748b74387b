ghost use Rattle.serde_json.specs.View.{view};
ghost use Rattle.script_json.specs.Fields.{Reads};
ghost use Rattle.tape_readers.specs.Read as read;

use crate::calls::call;
use crate::globals::{global_get, global_new, global_set, tag_new};
use crate::instances::get_export;
use crate::limits::{get_fuel, set_epoch_deadline, set_fuel, yield_interval};
use crate::memories::{memory_grow, memory_new, memory_read, memory_size, memory_write};
use crate::tables::{
    table_copy, table_fill, table_get, table_grow, table_new, table_set, table_size,
};
use script_json::{ScriptFault, field, text};
use serde_json::Value;
use spec_machine::Op;
use std::alloc::Global;
use wasm_types::FuncType;

fn op_named(alloc: Global, types: &[FuncType], json: &Value, name: &str) -> Result<Op, ScriptFault>
    ensures { Reads (read.op_named types.now (view json.now) name.now) result }
{
    match name {
        "memory_new" => memory_new(json),
        "memory_read" => memory_read(json),
        "memory_write" => memory_write(alloc, json),
        "memory_size" => memory_size(json),
        "memory_grow" => memory_grow(json),
        "table_new" => table_new(types, json),
        "table_get" => table_get(json),
        "table_set" => table_set(json),
        "table_size" => table_size(json),
        "table_grow" => table_grow(json),
        "table_copy" => table_copy(json),
        "table_fill" => table_fill(json),
        "global_new" => global_new(types, json),
        "global_get" => global_get(json),
        "global_set" => global_set(json),
        "tag_new" => tag_new(types, json),
        "get_export" => get_export(alloc, json),
        "get_fuel" => get_fuel(json),
        "set_fuel" => set_fuel(json),
        "yield_interval" => yield_interval(json),
        "set_epoch_deadline" => set_epoch_deadline(json),
        "call" => call(alloc, json),
        _ => Err(ScriptFault::NotScript),
    }
}

/// An operation, as a script has it, but that an operand may be a function by its handle, and that the name of an export is any
/// text. It may name one of these types.
///
/// `NotScript` exactly where the value spells none.
pub fn op(alloc: Global, types: &[FuncType], json: &Value) -> Result<Op, ScriptFault>
    ensures { Reads (read.op_in types.now (view json.now)) result }
{
    let name = text(field(json, "do")?)?;
    op_named(alloc, types, json, name)
}
