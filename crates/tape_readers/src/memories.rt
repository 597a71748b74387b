ghost use Rattle.serde_json.specs.View.{view};
ghost use Rattle.script_json.specs.Fields.{Reads};
ghost use Rattle.script_commands.specs.Commands as commands;

use script_json::{ScriptFault, field, hex_bytes, only, whole};
use script_types::memory_type;
use serde_json::Value;
use spec_machine::Op;
use std::alloc::Global;
use tape_values::name;

pub(crate) fn memory_new(json: &Value) -> Result<Op, ScriptFault>
    ensures { Reads (commands.memory_new_of (view json.now)) result }
{
    only(json, &["do", "min", "max", "page"])?;
    let ty = memory_type(json)?;
    Ok(Op::MemoryNew { ty })
}

pub(crate) fn memory_read(json: &Value) -> Result<Op, ScriptFault>
    ensures { Reads (commands.memory_read_of (view json.now)) result }
{
    only(json, &["do", "memory", "at", "len"])?;
    let memory = name(field(json, "memory")?)?;
    let at = whole(field(json, "at")?)?;
    let len = whole(field(json, "len")?)?;
    Ok(Op::MemoryRead { memory, at, len })
}

pub(crate) fn memory_write(alloc: Global, json: &Value) -> Result<Op, ScriptFault>
    ensures { Reads (commands.memory_write_of (view json.now)) result }
{
    only(json, &["do", "memory", "at", "bytes"])?;
    let memory = name(field(json, "memory")?)?;
    let at = whole(field(json, "at")?)?;
    let bytes = hex_bytes(alloc, field(json, "bytes")?)?;
    Ok(Op::MemoryWrite { memory, at, bytes })
}

pub(crate) fn memory_size(json: &Value) -> Result<Op, ScriptFault>
    ensures { Reads (commands.memory_size_of (view json.now)) result }
{
    only(json, &["do", "memory"])?;
    let memory = name(field(json, "memory")?)?;
    Ok(Op::MemorySize { memory })
}

pub(crate) fn memory_grow(json: &Value) -> Result<Op, ScriptFault>
    ensures { Reads (commands.memory_grow_of (view json.now)) result }
{
    only(json, &["do", "memory", "delta"])?;
    let memory = name(field(json, "memory")?)?;
    let delta = whole(field(json, "delta")?)?;
    Ok(Op::MemoryGrow { memory, delta })
}
