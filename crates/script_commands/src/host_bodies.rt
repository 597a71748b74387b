ghost use Rattle.serde_json.specs.View.{view};
ghost use Rattle.script_json.specs.Fields.{Reads};
ghost use Rattle.script_commands.specs.HostBodies as bodies;

use crate::commands::CommandReader;
use crate::notes::{NotePart, note};
use crate::operands::OperandReader;
use script_json::{JsonReader, ScriptFault, list_of, list_or_empty, one_member, yes};
use serde_json::Value;
use spec_machine::{Command, Op, OperandList};
use std::alloc::Global;
use wasm_types::{FuncType, Items};

/// What a body of a script's host does next.
#[derive(Drop)]
pub enum Action {
    /// Takes a note of these parts.
    Note(Items<NotePart>),
    /// Asks for an operation.
    Do(Op),
    /// Returns these values; fails where an operand gives none.
    Return(OperandList),
    /// Fails.
    Fail,
}

/// What an action is called by the key of its only member.
#[derive(Clone, Copy)]
enum ActionKind {
    Note,
    Do,
    Return,
    Fail,
}

fn action_kind(key: &str) -> Result<ActionKind, ScriptFault>
    ensures { Reads (bodies.action_kind_of key.now) result }
{
    match key {
        "note" => Ok(ActionKind::Note),
        "do" => Ok(ActionKind::Do),
        "return" => Ok(ActionKind::Return),
        "fail" => Ok(ActionKind::Fail),
        _ => Err(ScriptFault::NotScript),
    }
}

/// The operation of a command; `NotScript` where it makes a function of the host or an instance.
fn operation_in(command: Command) -> Result<Op, ScriptFault>
    ensures { Reads (bodies.operation_in command) result }
{
    match command {
        Command::Op(op) => Ok(op),
        _ => Err(ScriptFault::NotScript),
    }
}

fn action_by(
    alloc: Global,
    types: &[FuncType],
    json: &Value,
    kind: ActionKind,
) -> Result<Action, ScriptFault>
    ensures { Reads (bodies.action_by types.now (view json.now) kind) result }
{
    match kind {
        ActionKind::Note => Ok(Action::Note(note(alloc, json)?)),
        ActionKind::Do => {
            let command = CommandReader { types }.read(alloc, json)?;
            Ok(Action::Do(operation_in(command)?))
        }
        ActionKind::Return => {
            let values = list_of(alloc, json, &OperandReader)?;
            Ok(Action::Return(OperandList(values.into_vec())))
        }
        ActionKind::Fail => {
            yes(json)?;
            Ok(Action::Fail)
        }
    }
}

/// Reads an action, which may name one of these types.
#[derive(Clone, Copy)]
struct ActionReader<'a> {
    types: &'a [FuncType],
}

impl<'a> JsonReader for ActionReader<'a> {
    ghost use Rattle.script_commands.specs.HostBodies.{action_of};

    type Item = Action;

    ghost meaning = { λ reader json. action_of reader.types.now json };

    fn read(&self, alloc: Global, json: &Value) -> Result<Action, ScriptFault> {
        let (key, member) = one_member(json)?;
        action_by(alloc, self.types, member, action_kind(key)?)
    }
}

/// Reads a body, which may name one of these types.
#[derive(Clone, Copy)]
struct BodyReader<'a> {
    types: &'a [FuncType],
}

impl<'a> JsonReader for BodyReader<'a> {
    ghost use Rattle.script_commands.specs.HostBodies.{body_of};

    type Item = Items<Action>;

    ghost meaning = { λ reader json. body_of reader.types.now json };

    #[tactic(auto, unfolding(crate::specs::HostBodies::body_of))]
    fn read(&self, alloc: Global, json: &Value) -> Result<Items<Action>, ScriptFault> {
        list_of(alloc, json, &ActionReader { types: self.types })
    }
}

/// Reads the bodies of a script's host, which may name these types.
pub(crate) fn bodies_in(
    alloc: Global,
    types: &[FuncType],
    json: &Value,
) -> Result<Items<Items<Action>>, ScriptFault>
    ensures { Reads (bodies.bodies_in types.now (view json.now)) result }
{
    list_or_empty(alloc, json, "host", &BodyReader { types })
}
