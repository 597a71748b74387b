ghost use Rattle.serde_json.specs.View.{view};
ghost use Rattle.script_json.specs.Fields.{Reads};
ghost use Rattle.script_modules.specs.Texts.{line_of};
ghost use Rattle.script_commands.specs.Commands as commands;

use crate::names::{NameReader, name};
use script_json::{ScriptFault, field, list_or_empty, only, whole};
use script_modules::line;
use serde_json::Value;
use spec_machine::{Command, NameList, Op, TextName};
use std::alloc::Global;

pub(crate) fn instantiate(alloc: Global, json: &Value) -> Result<Command, ScriptFault>
    ensures { Reads (commands.instantiate_of (view json.now)) result }
{
    only(json, &["do", "module", "imports"])?;
    let module = whole(field(json, "module")?)? as usize;
    let imports = list_or_empty(alloc, json, "imports", &NameReader)?;
    let imports = NameList(imports.into_vec());
    Ok(Command::Instantiate { module, imports })
}

/// The name of an export.
fn export_name(alloc: Global, json: &Value) -> Result<TextName, ScriptFault>
    ensures { Reads (line_of (view json.now)) result }
{
    let name = line(alloc, json)?;
    Ok(TextName(name.0))
}

pub(crate) fn get_export(alloc: Global, json: &Value) -> Result<Op, ScriptFault>
    ensures { Reads (commands.get_export_of (view json.now)) result }
{
    only(json, &["do", "instance", "name"])?;
    let instance = name(field(json, "instance")?)?;
    let name = export_name(alloc, field(json, "name")?)?;
    Ok(Op::GetExport { instance, name })
}
