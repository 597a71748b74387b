ghost use Rattle.serde_json.specs.View.{view};
ghost use Rattle.script_json.specs.Fields.{Reads};
ghost use Rattle.script_commands.specs.Commands as commands;
ghost use Rattle.tape_readers.specs.Read as read;

use script_json::{ScriptFault, field, only, whole};
use script_types::table_type;
use serde_json::Value;
use spec_machine::Op;
use tape_values::{name, operand};
use wasm_types::FuncType;

pub(crate) fn table_new(types: &[FuncType], json: &Value) -> Result<Op, ScriptFault>
    ensures { Reads (read.table_new_in types.now (view json.now)) result }
{
    only(json, &["do", "ref", "min", "max", "init"])?;
    let ty = table_type(types, json)?;
    let init = operand(field(json, "init")?)?;
    Ok(Op::TableNew { ty, init })
}

pub(crate) fn table_get(json: &Value) -> Result<Op, ScriptFault>
    ensures { Reads (commands.table_get_of (view json.now)) result }
{
    only(json, &["do", "table", "at"])?;
    let table = name(field(json, "table")?)?;
    let at = whole(field(json, "at")?)?;
    Ok(Op::TableGet { table, at })
}

pub(crate) fn table_set(json: &Value) -> Result<Op, ScriptFault>
    ensures { Reads (read.table_set_in (view json.now)) result }
{
    only(json, &["do", "table", "at", "value"])?;
    let table = name(field(json, "table")?)?;
    let at = whole(field(json, "at")?)?;
    let value = operand(field(json, "value")?)?;
    Ok(Op::TableSet { table, at, value })
}

pub(crate) fn table_size(json: &Value) -> Result<Op, ScriptFault>
    ensures { Reads (commands.table_size_of (view json.now)) result }
{
    only(json, &["do", "table"])?;
    let table = name(field(json, "table")?)?;
    Ok(Op::TableSize { table })
}

pub(crate) fn table_grow(json: &Value) -> Result<Op, ScriptFault>
    ensures { Reads (read.table_grow_in (view json.now)) result }
{
    only(json, &["do", "table", "delta", "value"])?;
    let table = name(field(json, "table")?)?;
    let delta = whole(field(json, "delta")?)?;
    let value = operand(field(json, "value")?)?;
    Ok(Op::TableGrow {
        table,
        delta,
        value,
    })
}

pub(crate) fn table_copy(json: &Value) -> Result<Op, ScriptFault>
    ensures { Reads (commands.table_copy_of (view json.now)) result }
{
    only(json, &["do", "dst", "dst_at", "src", "src_at", "len"])?;
    let dst = name(field(json, "dst")?)?;
    let dst_at = whole(field(json, "dst_at")?)?;
    let src = name(field(json, "src")?)?;
    let src_at = whole(field(json, "src_at")?)?;
    let len = whole(field(json, "len")?)?;
    Ok(Op::TableCopy {
        dst,
        dst_at,
        src,
        src_at,
        len,
    })
}

pub(crate) fn table_fill(json: &Value) -> Result<Op, ScriptFault>
    ensures { Reads (read.table_fill_in (view json.now)) result }
{
    only(json, &["do", "table", "at", "value", "len"])?;
    let table = name(field(json, "table")?)?;
    let at = whole(field(json, "at")?)?;
    let value = operand(field(json, "value")?)?;
    let len = whole(field(json, "len")?)?;
    Ok(Op::TableFill {
        table,
        at,
        value,
        len,
    })
}
