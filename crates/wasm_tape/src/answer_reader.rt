ghost use Rattle.serde_json.specs.View.{view};
ghost use Rattle.script_json.specs.Fields as fields;
ghost use Rattle.script_json.specs.Fields.{Reads};
ghost use Rattle.tape_values.specs.OperandsRead.{val_in};
ghost use Rattle.wasm_tape.specs.Read as read;

use script_json::{ScriptFault, list_of, one_member, yes};
use serde_json::Value;
use spec_execution::Answer;
use spec_machine::ValList;
use std::alloc::Global;
use tape_readers::op;
use tape_values::ValReader;
use wasm_types::FuncType;

fn returned(alloc: Global, json: &Value) -> Result<ValList, ScriptFault>
    ensures { Reads (fields.list_of val_in (view json.now)) result }
{
    let vals = list_of(alloc, json, &ValReader)?;
    Ok(ValList(vals.into_vec()))
}

fn answer_named(
    alloc: Global,
    types: &[FuncType],
    kind: &str,
    json: &Value,
) -> Result<Answer, ScriptFault>
    ensures { Reads (read.answer_named types.now kind.now (view json.now)) result }
{
    match kind {
        "return" => Ok(Answer::Return(returned(alloc, json)?)),
        "fail" => {
            yes(json)?;
            Ok(Answer::Fail)
        }
        "call" => Ok(Answer::Call(op(alloc, types, json)?)),
        _ => Err(ScriptFault::NotScript),
    }
}

/// What a step of the host came to.
pub(crate) fn answer(alloc: Global, types: &[FuncType], json: &Value) -> Result<Answer, ScriptFault>
    ensures { Reads (read.answer_in types.now (view json.now)) result }
{
    let (kind, member) = one_member(json)?;
    answer_named(alloc, types, kind, member)
}
