ghost use Rattle.std.specs.Prelude.{◌≡◌, IfOk};
ghost use Rattle.hex.specs.Hex.{IsBytes};
ghost use Rattle.serde_json.specs.View.{view};
ghost use Rattle.tape_writers.specs.Written as written;
ghost use Rattle.tape_values.specs.Types.{MemoryInRange};

use serde_json::{Value, json};
use spec_machine::Name;
use std::alloc::{AllocError, Global};
use tape_values::{bytes_value, name_value};
use wasm_types::{ByteList, MemoryType};

pub(crate) fn memory_new_value(alloc: Global, ty: &MemoryType) -> Result<Value, AllocError>
    ensures written { IfOk result (λ value. view value ≡ written.memory_new_data ty.now) }
    ensures within { MemoryInRange ty.now }
{
    ty.keeps_limits();
    let minimum = ty.minimum();
    let page = ty.page_size_log2();
    match ty.maximum() {
        Some(most) => {
            json!(in alloc; {"do": "memory_new", "max": most, "min": minimum, "page": page})
        }
        None => json!(in alloc; {"do": "memory_new", "min": minimum, "page": page}),
    }
}

pub(crate) fn memory_read_value(
    alloc: Global,
    memory: Name,
    at: u64,
    len: u64,
) -> Result<Value, AllocError>
    ensures { IfOk result (λ value. view value ≡ written.memory_read_data memory at len) }
{
    let memory = name_value(alloc, memory)?;
    json!(in alloc; {"at": at, "do": "memory_read", "len": len, "memory": memory})
}

pub(crate) fn memory_write_value(
    alloc: Global,
    memory: Name,
    at: u64,
    bytes: &ByteList,
) -> Result<Value, AllocError>
    ensures written { IfOk result (λ value. view value ≡ written.memory_write_data memory at bytes.now) }
    ensures within { IfOk result (λ _. IsBytes bytes.now) }
{
    let memory = name_value(alloc, memory)?;
    let digits = bytes_value(alloc, bytes.as_slice())?;
    json!(in alloc; {"at": at, "bytes": digits, "do": "memory_write", "memory": memory})
}

pub(crate) fn memory_size_value(alloc: Global, memory: Name) -> Result<Value, AllocError>
    ensures { IfOk result (λ value. view value ≡ written.memory_size_data memory) }
{
    let memory = name_value(alloc, memory)?;
    json!(in alloc; {"do": "memory_size", "memory": memory})
}

pub(crate) fn memory_grow_value(
    alloc: Global,
    memory: Name,
    delta: u64,
) -> Result<Value, AllocError>
    ensures { IfOk result (λ value. view value ≡ written.memory_grow_data memory delta) }
{
    let memory = name_value(alloc, memory)?;
    json!(in alloc; {"delta": delta, "do": "memory_grow", "memory": memory})
}
