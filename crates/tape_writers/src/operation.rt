ghost use Rattle.std.specs.Prelude.{IfOk};
ghost use Rattle.tape_writers.specs.Written as written;
ghost use Rattle.tape_values.specs.Writing.{Writes};

use crate::calls::call_value;
use crate::globals::{global_get_value, global_new_value, global_set_value, tag_new_value};
use crate::instances::get_export_value;
use crate::limits::{
    get_fuel_value, set_epoch_deadline_value, set_fuel_value, yield_interval_value,
};
use crate::memories::{
    memory_grow_value, memory_new_value, memory_read_value, memory_size_value, memory_write_value,
};
use crate::tables::{
    table_copy_value, table_fill_value, table_get_value, table_grow_value, table_new_value,
    table_set_value, table_size_value,
};
use serde_json::Value;
use spec_machine::Op;
use std::alloc::Global;
use tape_values::WriteFault;
use wasm_types::FuncType;

/// An operation, in the form in which a script has it, each function type as its number among these types, and a function
/// reference by its handle. Each number in the operation is one of its type (`within`).
///
/// `UnknownType` exactly where a function type in it is none of the types.
pub fn op_value(alloc: Global, types: &[FuncType], op: &Op) -> Result<Value, WriteFault>
    ensures written { Writes (written.op_data types.now op.now) result }
    ensures within { IfOk result (λ _. written.OpInRange op.now) }
{
    match op {
        Op::MemoryNew { ty } => Ok(memory_new_value(alloc, ty)?),
        Op::MemoryRead { memory, at, len } => Ok(memory_read_value(alloc, *memory, *at, *len)?),
        Op::MemoryWrite { memory, at, bytes } => {
            Ok(memory_write_value(alloc, *memory, *at, bytes)?)
        }
        Op::MemorySize { memory } => Ok(memory_size_value(alloc, *memory)?),
        Op::MemoryGrow { memory, delta } => Ok(memory_grow_value(alloc, *memory, *delta)?),
        Op::TableNew { ty, init } => table_new_value(alloc, types, ty, *init),
        Op::TableGet { table, at } => Ok(table_get_value(alloc, *table, *at)?),
        Op::TableSet { table, at, value } => Ok(table_set_value(alloc, *table, *at, *value)?),
        Op::TableSize { table } => Ok(table_size_value(alloc, *table)?),
        Op::TableGrow {
            table,
            delta,
            value,
        } => Ok(table_grow_value(alloc, *table, *delta, *value)?),
        Op::TableCopy {
            dst,
            dst_at,
            src,
            src_at,
            len,
        } => Ok(table_copy_value(alloc, *dst, *dst_at, *src, *src_at, *len)?),
        Op::TableFill {
            table,
            at,
            value,
            len,
        } => Ok(table_fill_value(alloc, *table, *at, *value, *len)?),
        Op::GlobalNew { ty, init } => global_new_value(alloc, types, ty, *init),
        Op::GlobalGet { global } => Ok(global_get_value(alloc, *global)?),
        Op::GlobalSet { global, value } => Ok(global_set_value(alloc, *global, *value)?),
        Op::TagNew { ty } => tag_new_value(alloc, types, ty),
        Op::GetExport { instance, name } => Ok(get_export_value(alloc, *instance, name)?),
        Op::GetFuel => Ok(get_fuel_value(alloc)?),
        Op::SetFuel { fuel } => Ok(set_fuel_value(alloc, *fuel)?),
        Op::YieldInterval { interval } => Ok(yield_interval_value(alloc, *interval)?),
        Op::SetEpochDeadline { ticks } => Ok(set_epoch_deadline_value(alloc, *ticks)?),
        Op::Call {
            func,
            args,
            results,
        } => call_value(alloc, *func, args, *results),
    }
}
