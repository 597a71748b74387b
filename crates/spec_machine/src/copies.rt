ghost use Rattle.std.specs.Prelude.{◌≡◌, IfOk};

use crate::lists::{OperandList, TextName, ValList};
use crate::operation::Op;
use std::alloc::Global;
use wasm_types::{ByteList, GlobalType, MemoryType, OutOfMemory, TableType, TagType};

fn memory_type(ty: &MemoryType) -> Result<MemoryType, OutOfMemory>
    ensures { IfOk result (λ copy. copy ≡ ty.now) }
{
    Ok(ty.clone()?)
}

fn table_type(ty: &TableType) -> Result<TableType, OutOfMemory>
    ensures { IfOk result (λ copy. copy ≡ ty.now) }
{
    Ok(ty.clone()?)
}

fn global_type(ty: &GlobalType) -> Result<GlobalType, OutOfMemory>
    ensures { IfOk result (λ copy. copy ≡ ty.now) }
{
    Ok(ty.clone()?)
}

fn tag_type(ty: &TagType) -> Result<TagType, OutOfMemory>
    ensures { IfOk result (λ copy. copy ≡ ty.now) }
{
    Ok(ty.clone()?)
}

fn byte_list(alloc: Global, list: &ByteList) -> Result<ByteList, OutOfMemory>
    ensures { IfOk result (λ copy. copy ≡ list.now) }
{
    Ok(ByteList(Vec::from_slice(alloc, list.as_slice())?))
}

fn operand_list(alloc: Global, list: &OperandList) -> Result<OperandList, OutOfMemory>
    ensures { IfOk result (λ copy. copy ≡ list.now) }
{
    Ok(OperandList(Vec::from_slice(alloc, list.as_slice())?))
}

fn text(alloc: Global, name: &TextName) -> Result<TextName, OutOfMemory>
    ensures { IfOk result (λ copy. copy ≡ name.now) }
{
    Ok(TextName(String::from_str(alloc, name.as_str())?))
}

impl ValList {
    /// A copy of the values.
    pub fn copy(&self, alloc: Global) -> Result<ValList, OutOfMemory>
        ensures { IfOk result (λ copy. copy ≡ self.now) }
    {
        Ok(ValList(Vec::from_slice(alloc, self.as_slice())?))
    }
}

impl Op {
    /// A copy of the operation.
    pub fn copy(&self, alloc: Global) -> Result<Op, OutOfMemory>
        ensures { IfOk result (λ copy. copy ≡ self.now) }
    {
        let copy = match self {
            Op::MemoryNew { ty } => Op::MemoryNew {
                ty: memory_type(ty)?,
            },
            Op::MemoryRead { memory, at, len } => Op::MemoryRead {
                memory: *memory,
                at: *at,
                len: *len,
            },
            Op::MemoryWrite { memory, at, bytes } => Op::MemoryWrite {
                memory: *memory,
                at: *at,
                bytes: byte_list(alloc, bytes)?,
            },
            Op::MemorySize { memory } => Op::MemorySize { memory: *memory },
            Op::MemoryGrow { memory, delta } => Op::MemoryGrow {
                memory: *memory,
                delta: *delta,
            },
            Op::TableNew { ty, init } => Op::TableNew {
                ty: table_type(ty)?,
                init: *init,
            },
            Op::TableGet { table, at } => Op::TableGet {
                table: *table,
                at: *at,
            },
            Op::TableSet { table, at, value } => Op::TableSet {
                table: *table,
                at: *at,
                value: *value,
            },
            Op::TableSize { table } => Op::TableSize { table: *table },
            Op::TableGrow {
                table,
                delta,
                value,
            } => Op::TableGrow {
                table: *table,
                delta: *delta,
                value: *value,
            },
            Op::TableCopy {
                dst,
                dst_at,
                src,
                src_at,
                len,
            } => Op::TableCopy {
                dst: *dst,
                dst_at: *dst_at,
                src: *src,
                src_at: *src_at,
                len: *len,
            },
            Op::TableFill {
                table,
                at,
                value,
                len,
            } => Op::TableFill {
                table: *table,
                at: *at,
                value: *value,
                len: *len,
            },
            Op::GlobalNew { ty, init } => Op::GlobalNew {
                ty: global_type(ty)?,
                init: *init,
            },
            Op::GlobalGet { global } => Op::GlobalGet { global: *global },
            Op::GlobalSet { global, value } => Op::GlobalSet {
                global: *global,
                value: *value,
            },
            Op::TagNew { ty } => Op::TagNew { ty: tag_type(ty)? },
            Op::GetExport { instance, name } => Op::GetExport {
                instance: *instance,
                name: text(alloc, name)?,
            },
            Op::GetFuel => Op::GetFuel,
            Op::SetFuel { fuel } => Op::SetFuel { fuel: *fuel },
            Op::YieldInterval { interval } => Op::YieldInterval {
                interval: *interval,
            },
            Op::SetEpochDeadline { ticks } => Op::SetEpochDeadline { ticks: *ticks },
            Op::Call {
                func,
                args,
                results,
            } => Op::Call {
                func: *func,
                args: operand_list(alloc, args)?,
                results: *results,
            },
        };
        Ok(copy)
    }
}
