ghost use Rattle.std.specs.Prelude.{◌≡◌};
ghost use Rattle.serde_json.specs.View.{view};
ghost use Rattle.script_json.specs.Fields.{Reads};
ghost use Rattle.script_commands.specs.Commands as commands;

use crate::calls::call;
use crate::globals::{global_get, global_new, global_set};
use crate::instances::{get_export, instantiate};
use crate::limits::{get_fuel, set_epoch_deadline, set_fuel, yield_interval};
use crate::memories::{memory_grow, memory_new, memory_read, memory_size, memory_write};
use crate::names::NameReader;
use crate::tables::{
    table_copy, table_fill, table_get, table_grow, table_new, table_set, table_size,
};
use script_json::{JsonReader, ScriptFault, field, list_or_empty, only, text, whole};
use script_types::type_at;
use serde_json::Value;
use spec_machine::{Command, NameList, Op};
use std::alloc::Global;
use wasm_types::{FuncType, TagType};

/// What a command is called by its key `do`.
#[derive(Clone, Copy)]
enum Verb {
    FuncNew,
    Instantiate,
    MemoryNew,
    MemoryRead,
    MemoryWrite,
    MemorySize,
    MemoryGrow,
    TableNew,
    TableGet,
    TableSet,
    TableSize,
    TableGrow,
    TableCopy,
    TableFill,
    GlobalNew,
    GlobalGet,
    GlobalSet,
    TagNew,
    GetExport,
    GetFuel,
    SetFuel,
    YieldInterval,
    SetEpochDeadline,
    Call,
}

fn verb_named(name: &str) -> Result<Verb, ScriptFault>
    ensures { Reads (commands.verb_of name.now) result }
{
    match name {
        "func_new" => Ok(Verb::FuncNew),
        "instantiate" => Ok(Verb::Instantiate),
        "memory_new" => Ok(Verb::MemoryNew),
        "memory_read" => Ok(Verb::MemoryRead),
        "memory_write" => Ok(Verb::MemoryWrite),
        "memory_size" => Ok(Verb::MemorySize),
        "memory_grow" => Ok(Verb::MemoryGrow),
        "table_new" => Ok(Verb::TableNew),
        "table_get" => Ok(Verb::TableGet),
        "table_set" => Ok(Verb::TableSet),
        "table_size" => Ok(Verb::TableSize),
        "table_grow" => Ok(Verb::TableGrow),
        "table_copy" => Ok(Verb::TableCopy),
        "table_fill" => Ok(Verb::TableFill),
        "global_new" => Ok(Verb::GlobalNew),
        "global_get" => Ok(Verb::GlobalGet),
        "global_set" => Ok(Verb::GlobalSet),
        "tag_new" => Ok(Verb::TagNew),
        "get_export" => Ok(Verb::GetExport),
        "get_fuel" => Ok(Verb::GetFuel),
        "set_fuel" => Ok(Verb::SetFuel),
        "yield_interval" => Ok(Verb::YieldInterval),
        "set_epoch_deadline" => Ok(Verb::SetEpochDeadline),
        "call" => Ok(Verb::Call),
        _ => Err(ScriptFault::NotScript),
    }
}

fn func_new(alloc: Global, types: &[FuncType], json: &Value) -> Result<Command, ScriptFault>
    ensures { Reads (commands.func_new_of types.now (view json.now)) result }
{
    only(json, &["do", "type", "body", "stored"])?;
    let ty = type_at(types, field(json, "type")?)?;
    let body = whole(field(json, "body")?)? as usize;
    let stored = list_or_empty(alloc, json, "stored", &NameReader)?;
    let stored = NameList(stored.into_vec());
    Ok(Command::FuncNew { ty, body, stored })
}

fn tag_new(types: &[FuncType], json: &Value) -> Result<Op, ScriptFault>
    ensures { Reads (commands.tag_new_of types.now (view json.now)) result }
{
    only(json, &["do", "type"])?;
    let ty = type_at(types, field(json, "type")?)?;
    Ok(Op::TagNew {
        ty: TagType::new(ty),
    })
}

fn command_by(
    alloc: Global,
    types: &[FuncType],
    json: &Value,
    verb: Verb,
) -> Result<Command, ScriptFault>
    ensures { Reads (commands.command_by types.now (view json.now) verb) result }
{
    let op = match verb {
        Verb::FuncNew => return func_new(alloc, types, json),
        Verb::Instantiate => return instantiate(alloc, json),
        Verb::MemoryNew => memory_new(json)?,
        Verb::MemoryRead => memory_read(json)?,
        Verb::MemoryWrite => memory_write(alloc, json)?,
        Verb::MemorySize => memory_size(json)?,
        Verb::MemoryGrow => memory_grow(json)?,
        Verb::TableNew => table_new(types, json)?,
        Verb::TableGet => table_get(json)?,
        Verb::TableSet => table_set(json)?,
        Verb::TableSize => table_size(json)?,
        Verb::TableGrow => table_grow(json)?,
        Verb::TableCopy => table_copy(json)?,
        Verb::TableFill => table_fill(json)?,
        Verb::GlobalNew => global_new(types, json)?,
        Verb::GlobalGet => global_get(json)?,
        Verb::GlobalSet => global_set(json)?,
        Verb::TagNew => tag_new(types, json)?,
        Verb::GetExport => get_export(alloc, json)?,
        Verb::GetFuel => get_fuel(json)?,
        Verb::SetFuel => set_fuel(json)?,
        Verb::YieldInterval => yield_interval(json)?,
        Verb::SetEpochDeadline => set_epoch_deadline(json)?,
        Verb::Call => call(alloc, json)?,
    };
    Ok(Command::Op(op))
}

/// Reads a command, which may name one of these types.
#[derive(Clone, Copy)]
pub(crate) struct CommandReader<'a> {
    pub(crate) types: &'a [FuncType],
}

impl<'a> JsonReader for CommandReader<'a> {
    ghost use Rattle.script_commands.specs.Commands.{command_of};

    type Item = Command;

    ghost meaning = { λ reader json. command_of reader.types.now json };

    fn read(&self, alloc: Global, json: &Value) -> Result<Command, ScriptFault> {
        let verb = verb_named(text(field(json, "do")?)?)?;
        command_by(alloc, self.types, json, verb)
    }
}
