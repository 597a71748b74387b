ghost use Rattle.std.specs.Prelude.{◌≡◌, IfOk};
ghost use Rattle.serde_json.specs.View.{view};
ghost use Rattle.tape_writers.specs.Written as written;
ghost use Rattle.tape_values.specs.Operands.{OperandInRange};
ghost use Rattle.tape_values.specs.Types.{mutability_data};
ghost use Rattle.tape_values.specs.Writing.{Writes};

use serde_json::{Value, json};
use spec_machine::{Name, Operand};
use std::alloc::{AllocError, Global};
use tape_values::{WriteFault, name_value, operand_value, type_value, val_type_value};
use wasm_types::{FuncType, GlobalType, Mutability, TagType};

fn mutability_value(mutability: Mutability) -> Value
    ensures { view result ≡ mutability_data mutability }
{
    match mutability {
        Mutability::Const => Value::Bool(false),
        Mutability::Var => Value::Bool(true),
    }
}

// What is written of a new global, where this is written of the type of its content.
fn global_new_by(
    alloc: Global,
    ty: &GlobalType,
    init: Operand,
    content: Value,
) -> Result<Value, AllocError>
    ensures written { IfOk result (λ value. view value ≡ written.global_new_by ty.now init (view content)) }
    ensures within { IfOk result (λ _. OperandInRange init) }
{
    let init = operand_value(alloc, init)?;
    let mutability = mutability_value(ty.mutability());
    json!(in alloc; {"do": "global_new", "init": init, "mut": mutability, "val": content})
}

pub(crate) fn global_new_value(
    alloc: Global,
    types: &[FuncType],
    ty: &GlobalType,
    init: Operand,
) -> Result<Value, WriteFault>
    ensures written { Writes (written.global_new_data types.now ty.now init) result }
    ensures within { IfOk result (λ _. OperandInRange init) }
{
    let content = val_type_value(alloc, types, ty.content())?;
    Ok(global_new_by(alloc, ty, init, content)?)
}

pub(crate) fn global_get_value(alloc: Global, global: Name) -> Result<Value, AllocError>
    ensures { IfOk result (λ value. view value ≡ written.global_get_data global) }
{
    let global = name_value(alloc, global)?;
    json!(in alloc; {"do": "global_get", "global": global})
}

pub(crate) fn global_set_value(
    alloc: Global,
    global: Name,
    value: Operand,
) -> Result<Value, AllocError>
    ensures written { IfOk result (λ json. view json ≡ written.global_set_data global value) }
    ensures within { IfOk result (λ _. OperandInRange value) }
{
    let global = name_value(alloc, global)?;
    let value = operand_value(alloc, value)?;
    json!(in alloc; {"do": "global_set", "global": global, "value": value})
}

pub(crate) fn tag_new_value(
    alloc: Global,
    types: &[FuncType],
    ty: &TagType,
) -> Result<Value, WriteFault>
    ensures { Writes (written.tag_new_data types.now ty.now) result }
{
    let number = type_value(types, ty.ty())?;
    Ok(json!(in alloc; {"do": "tag_new", "type": number})?)
}
