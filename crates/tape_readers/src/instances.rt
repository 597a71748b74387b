ghost use Rattle.serde_json.specs.View.{view};
ghost use Rattle.script_json.specs.Fields as fields;
ghost use Rattle.script_json.specs.Fields.{Reads};
ghost use Rattle.tape_readers.specs.Read as read;

use script_json::{ScriptFault, field, only, text};
use serde_json::Value;
use spec_machine::{Op, TextName};
use std::alloc::Global;
use tape_values::name;

fn export_name(alloc: Global, json: &Value) -> Result<TextName, ScriptFault>
    ensures { Reads (fields.text (view json.now)) result }
{
    match String::from_str(alloc, text(json)?) {
        Ok(name) => Ok(TextName(name)),
        Err(_) => Err(ScriptFault::OutOfMemory),
    }
}

pub(crate) fn get_export(alloc: Global, json: &Value) -> Result<Op, ScriptFault>
    ensures { Reads (read.get_export_in (view json.now)) result }
{
    only(json, &["do", "instance", "name"])?;
    let instance = name(field(json, "instance")?)?;
    let name = export_name(alloc, field(json, "name")?)?;
    Ok(Op::GetExport { instance, name })
}
