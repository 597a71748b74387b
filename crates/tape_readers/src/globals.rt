ghost use Rattle.serde_json.specs.View.{view};
ghost use Rattle.script_json.specs.Fields.{Reads};
ghost use Rattle.script_commands.specs.Commands as commands;
ghost use Rattle.tape_readers.specs.Read as read;

use script_json::{ScriptFault, field, only};
use script_types::{global_type, type_at};
use serde_json::Value;
use spec_machine::Op;
use tape_values::{name, operand};
use wasm_types::{FuncType, TagType};

pub(crate) fn global_new(types: &[FuncType], json: &Value) -> Result<Op, ScriptFault>
    ensures { Reads (read.global_new_in types.now (view json.now)) result }
{
    only(json, &["do", "val", "mut", "init"])?;
    let ty = global_type(types, json)?;
    let init = operand(field(json, "init")?)?;
    Ok(Op::GlobalNew { ty, init })
}

pub(crate) fn global_get(json: &Value) -> Result<Op, ScriptFault>
    ensures { Reads (commands.global_get_of (view json.now)) result }
{
    only(json, &["do", "global"])?;
    let global = name(field(json, "global")?)?;
    Ok(Op::GlobalGet { global })
}

pub(crate) fn global_set(json: &Value) -> Result<Op, ScriptFault>
    ensures { Reads (read.global_set_in (view json.now)) result }
{
    only(json, &["do", "global", "value"])?;
    let global = name(field(json, "global")?)?;
    let value = operand(field(json, "value")?)?;
    Ok(Op::GlobalSet { global, value })
}

pub(crate) fn tag_new(types: &[FuncType], json: &Value) -> Result<Op, ScriptFault>
    ensures { Reads (commands.tag_new_of types.now (view json.now)) result }
{
    only(json, &["do", "type"])?;
    let ty = type_at(types, field(json, "type")?)?;
    Ok(Op::TagNew {
        ty: TagType::new(ty),
    })
}
