ghost use Rattle.std.specs.Prelude.{◌≡◌, codes, true, IfOk};
ghost use Rattle.std.specs.List.{AllByRecursion};
ghost use Rattle.serde_json.specs.Data.{boolean};
ghost use Rattle.serde_json.specs.View.{view};
ghost use Rattle.tape_values.specs.Operands.{ValInRange};
ghost use Rattle.tape_values.specs.Writing.{Writes, one_data, list_data};
ghost use Rattle.wasm_tape.specs.Written as written;

use serde_json::{Value, json};
use spec_execution::Answer;
use spec_machine::ValList;
use std::alloc::{AllocError, Global};
use tape_values::{JsonWriter, WriteFault, list_value, val_value};
use tape_writers::op_value;
use wasm_types::FuncType;
use wasm_values::Val;

/// Writes a value that a function returns, as an item of a list.
struct ReturnedWriter;

impl JsonWriter for ReturnedWriter {
    ghost use Rattle.wasm_tape.specs.Written.{returned_data};
    ghost use Rattle.tape_values.specs.Operands.{ValInRange};

    type Item = Val;

    ghost meaning = { λ _ val. returned_data val };

    ghost range = { λ _ val. ValInRange val };

    fn write(&self, alloc: Global, val: &Val) -> Result<Value, WriteFault> {
        Ok(val_value(alloc, *val)?)
    }
}

fn returned(alloc: Global, vals: &ValList) -> Result<Value, WriteFault>
    ensures written { Writes (list_data written.returned_data vals.now) result }
    ensures within { IfOk result (λ _. AllByRecursion ValInRange vals.now) }
{
    list_value(alloc, vals.as_slice(), &ReturnedWriter)
}

/// What a step of the host came to.
pub(crate) fn answer_value(
    alloc: Global,
    types: &[FuncType],
    answer: &Answer,
) -> Result<Value, WriteFault>
    ensures written { Writes (written.answer_data types.now answer.now) result }
    ensures within { IfOk result (λ _. written.AnswerInRange answer.now) }
{
    match answer {
        Answer::Return(vals) => {
            let values = returned(alloc, vals)?;
            Ok(json!(in alloc; {"return": values})?)
        }
        Answer::Fail => Ok(json!(in alloc; {"fail": true})?),
        Answer::Call(op) => {
            let command = op_value(alloc, types, op)?;
            Ok(json!(in alloc; {"call": command})?)
        }
    }
}
