ghost use Rattle.std.specs.Prelude.{◌≡◌, IfOk};
ghost use Rattle.std.specs.List.{AllByRecursion};
ghost use Rattle.serde_json.specs.View.{view};
ghost use Rattle.tape_writers.specs.Written as written;
ghost use Rattle.tape_values.specs.Operands.{OperandInRange};
ghost use Rattle.tape_values.specs.Writing.{Writes, list_data};

use serde_json::{Value, json};
use spec_machine::{Name, Operand, OperandList};
use std::alloc::{AllocError, Global};
use tape_values::{JsonWriter, WriteFault, list_value, name_value, operand_value};

/// Writes an operand, as an item of a list.
struct OperandWriter;

impl JsonWriter for OperandWriter {
    ghost use Rattle.tape_writers.specs.Written.{argument_data};
    ghost use Rattle.tape_values.specs.Operands.{OperandInRange};

    type Item = Operand;

    ghost meaning = { λ _ argument. argument_data argument };

    ghost range = { λ _ argument. OperandInRange argument };

    fn write(&self, alloc: Global, operand: &Operand) -> Result<Value, WriteFault> {
        Ok(operand_value(alloc, *operand)?)
    }
}

// What is written of a call, where this is written of its arguments.
fn call_by(
    alloc: Global,
    func: Name,
    results: Option<u64>,
    arguments: Value,
) -> Result<Value, AllocError>
    ensures { IfOk result (λ value. view value ≡ written.call_by func results (view arguments)) }
{
    let func = name_value(alloc, func)?;
    match results {
        Some(count) => {
            json!(in alloc; {"args": arguments, "do": "call", "func": func, "results": count})
        }
        None => json!(in alloc; {"args": arguments, "do": "call", "func": func}),
    }
}

pub(crate) fn call_value(
    alloc: Global,
    func: Name,
    args: &OperandList,
    results: Option<u64>,
) -> Result<Value, WriteFault>
    ensures written { Writes (written.call_data func args.now results) result }
    ensures within { IfOk result (λ _. AllByRecursion OperandInRange args.now) }
{
    let arguments = list_value(alloc, args.as_slice(), &OperandWriter)?;
    Ok(call_by(alloc, func, results, arguments)?)
}
