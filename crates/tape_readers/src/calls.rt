ghost use Rattle.std.specs.Prelude.{codes};
ghost use Rattle.serde_json.specs.View.{view};
ghost use Rattle.script_json.specs.Fields as fields;
ghost use Rattle.script_json.specs.Fields.{Reads};
ghost use Rattle.tape_readers.specs.Read as read;

use script_json::{ScriptFault, field, list_or_empty, only, whole};
use serde_json::Value;
use spec_machine::{Op, OperandList};
use std::alloc::Global;
use tape_values::{OperandReader, name};

/// How many results a caller wants, where it says so.
fn wanted_results(json: &Value) -> Result<Option<u64>, ScriptFault>
    ensures { Reads (fields.optional fields.whole (fields.field (codes "results") (view json.now))) result }
{
    match json.get("results") {
        Some(number) => Ok(Some(whole(number)?)),
        None => Ok(None),
    }
}

pub(crate) fn call(alloc: Global, json: &Value) -> Result<Op, ScriptFault>
    ensures { Reads (read.call_in (view json.now)) result }
{
    only(json, &["do", "func", "args", "results"])?;
    let func = name(field(json, "func")?)?;
    let args = list_or_empty(alloc, json, "args", &OperandReader)?;
    let args = OperandList(args.into_vec());
    let results = wanted_results(json)?;
    Ok(Op::Call {
        func,
        args,
        results,
    })
}
