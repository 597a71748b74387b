ghost use Rattle.std.specs.Prelude.{◌≡◌, true, IfOk};
ghost use Rattle.serde_json.specs.View.{view};
ghost use Rattle.script_json.specs.Fields as fields;
ghost use Rattle.script_json.specs.Fields.{Reads};
ghost use Rattle.spec_machine.specs.Machine.{are_engine_limits};
ghost use Rattle.script_commands.specs.Commands.{command_of};
ghost use Rattle.script_commands.specs.Scripts.{Answers, script_of};

use crate::commands::CommandReader;
use crate::engine::{ScriptEngine, engine_in};
use crate::host_answers::{HostAnswers, host_answers_in};
use crate::host_bodies::{Action, bodies_in};
use crate::modules::modules_in;
use script_json::{JsonFault, ScriptFault, field, json_of, list_of, only};
use script_types::types_of;
use serde_json::Value;
use spec_machine::Command;
use std::alloc::Global;
use wasm_syntax::ModuleDecl;
use wasm_types::{FuncType, Items};

/// A session to be run: its engine, its modules, whose numbers are their places, its host data, the bodies of its host, whose
/// numbers are their places too, and its commands, in order.
#[derive(Drop)]
pub struct Script {
    pub engine: ScriptEngine,
    pub modules: Items<ModuleDecl>,
    pub answers: HostAnswers,
    pub bodies: Items<Items<Action>>,
    pub commands: Items<Command>,
}

/// Why bytes spell no script.
#[derive(Clone, Copy, Debug, PartialEq, Eq)]
pub enum ScriptTextFault {
    /// They are no JSON, nested at most 127 deep.
    BadJson,
    /// They are JSON, and no script.
    BadScript,
    OutOfMemory,
}

fn command_list(
    alloc: Global,
    types: &[FuncType],
    json: &Value,
) -> Result<Items<Command>, ScriptFault>
    ensures { Reads (fields.list_of (command_of types.now) (view json.now)) result }
{
    list_of(alloc, json, &CommandReader { types })
}

fn script_in(alloc: Global, json: &Value) -> Result<Script, ScriptFault>
    ensures read { Reads (script_of (view json.now)) result }
    ensures within { IfOk result (λ script. are_engine_limits script.engine.frames script.engine.turns ≡ true) }
{
    only(
        json,
        &["engine", "types", "modules", "data", "host", "commands"],
    )?;
    let engine = engine_in(json)?;
    let types = types_of(alloc, json)?;
    let modules = modules_in(alloc, types.as_slice(), json)?;
    let bodies = bodies_in(alloc, types.as_slice(), json)?;
    let answers = host_answers_in(alloc, json)?;
    let commands = command_list(alloc, types.as_slice(), field(json, "commands")?)?;
    Ok(Script {
        engine,
        modules,
        answers,
        bodies,
        commands,
    })
}

/// The script that the bytes spell.
///
/// `BadJson` exactly where they have no reading as JSON, and `BadScript` exactly where the data that they spell is
/// no script. That the modules are valid is not asked.
pub fn read_script(alloc: Global, bytes: &[u8]) -> Result<Script, ScriptTextFault>
    ensures read { Answers bytes.now result }
    ensures within { IfOk result (λ script. are_engine_limits script.engine.frames script.engine.turns ≡ true) }
{
    let json = match json_of(alloc, bytes) {
        Ok(json) => json,
        Err(JsonFault::NotJson) => return Err(ScriptTextFault::BadJson),
        Err(JsonFault::OutOfMemory) => return Err(ScriptTextFault::OutOfMemory),
    };
    match script_in(alloc, &json) {
        Ok(script) => Ok(script),
        Err(ScriptFault::NotScript) => Err(ScriptTextFault::BadScript),
        Err(ScriptFault::OutOfMemory) => Err(ScriptTextFault::OutOfMemory),
    }
}
