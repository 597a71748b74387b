ghost use Rattle.std.specs.Prelude.{◌≡◌, IfOk};
ghost use Rattle.serde_json.specs.View.{view};
ghost use Rattle.tape_writers.specs.Written as written;
ghost use Rattle.tape_values.specs.Operands.{OperandInRange};
ghost use Rattle.tape_values.specs.Types.{TableInRange};
ghost use Rattle.tape_values.specs.Writing.{Writes};

use serde_json::{Value, json};
use spec_machine::{Name, Operand};
use std::alloc::{AllocError, Global};
use tape_values::{WriteFault, name_value, operand_value, ref_type_value};
use wasm_types::{FuncType, TableType};

// What is written of a new table, where this is written of the type of its elements.
fn table_new_by(
    alloc: Global,
    ty: &TableType,
    init: Value,
    element: Value,
) -> Result<Value, AllocError>
    ensures { IfOk result (λ value. view value ≡ written.table_new_by ty.now (view init) (view element)) }
{
    let minimum = ty.minimum();
    match ty.maximum() {
        Some(most) => {
            json!(in alloc; {"do": "table_new", "init": init, "max": most, "min": minimum, "ref": element})
        }
        None => json!(in alloc; {"do": "table_new", "init": init, "min": minimum, "ref": element}),
    }
}

fn limits_hold(ty: &TableType)
    ensures { TableInRange ty.now }
{
    ty.keeps_limits();
    let _minimum = ty.minimum();
    let _maximum = ty.maximum();
}

pub(crate) fn table_new_value(
    alloc: Global,
    types: &[FuncType],
    ty: &TableType,
    init: Operand,
) -> Result<Value, WriteFault>
    ensures written { Writes (written.table_new_data types.now ty.now init) result }
    ensures within { IfOk result (λ _. TableInRange ty.now × OperandInRange init) }
{
    limits_hold(ty);
    let element = ref_type_value(alloc, types, ty.element())?;
    let init = operand_value(alloc, init)?;
    Ok(table_new_by(alloc, ty, init, element)?)
}

pub(crate) fn table_get_value(alloc: Global, table: Name, at: u64) -> Result<Value, AllocError>
    ensures { IfOk result (λ value. view value ≡ written.table_get_data table at) }
{
    let table = name_value(alloc, table)?;
    json!(in alloc; {"at": at, "do": "table_get", "table": table})
}

pub(crate) fn table_set_value(
    alloc: Global,
    table: Name,
    at: u64,
    value: Operand,
) -> Result<Value, AllocError>
    ensures written { IfOk result (λ json. view json ≡ written.table_set_data table at value) }
    ensures within { IfOk result (λ _. OperandInRange value) }
{
    let table = name_value(alloc, table)?;
    let value = operand_value(alloc, value)?;
    json!(in alloc; {"at": at, "do": "table_set", "table": table, "value": value})
}

pub(crate) fn table_size_value(alloc: Global, table: Name) -> Result<Value, AllocError>
    ensures { IfOk result (λ value. view value ≡ written.table_size_data table) }
{
    let table = name_value(alloc, table)?;
    json!(in alloc; {"do": "table_size", "table": table})
}

pub(crate) fn table_grow_value(
    alloc: Global,
    table: Name,
    delta: u64,
    value: Operand,
) -> Result<Value, AllocError>
    ensures written { IfOk result (λ json. view json ≡ written.table_grow_data table delta value) }
    ensures within { IfOk result (λ _. OperandInRange value) }
{
    let table = name_value(alloc, table)?;
    let value = operand_value(alloc, value)?;
    json!(in alloc; {"delta": delta, "do": "table_grow", "table": table, "value": value})
}

pub(crate) fn table_copy_value(
    alloc: Global,
    dst: Name,
    dst_at: u64,
    src: Name,
    src_at: u64,
    len: u64,
) -> Result<Value, AllocError>
    ensures { IfOk result (λ value. view value ≡ written.table_copy_data dst dst_at src src_at len) }
{
    let dst = name_value(alloc, dst)?;
    let src = name_value(alloc, src)?;
    json!(in alloc; {
        "do": "table_copy", "dst": dst, "dst_at": dst_at, "len": len, "src": src, "src_at": src_at
    })
}

pub(crate) fn table_fill_value(
    alloc: Global,
    table: Name,
    at: u64,
    value: Operand,
    len: u64,
) -> Result<Value, AllocError>
    ensures written { IfOk result (λ json. view json ≡ written.table_fill_data table at value len) }
    ensures within { IfOk result (λ _. OperandInRange value) }
{
    let table = name_value(alloc, table)?;
    let value = operand_value(alloc, value)?;
    json!(in alloc; {"at": at, "do": "table_fill", "len": len, "table": table, "value": value})
}
