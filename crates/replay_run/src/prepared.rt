//! A script that is to be recorded or replayed.
ghost use Rattle.std.specs.Prelude.{◌≡◌, true, Ok, IfOk, IfErr};
ghost use Rattle.script_json.specs.Fields.{Reads};
ghost use Rattle.spec_machine.specs.Machine.{are_engine_limits};
ghost use Rattle.replay_run.specs.Inputs as forms;
ghost use Rattle.script_commands.specs.Scripts.{Spells, spelling};
ghost use Rattle.replay_run.specs.Prepared.{script_of, typed_of, IsFault, IsSpellingFault};
ghost use Rattle.replay_run.specs.Starts.{IsUnhooked};

use crate::status::Status;
use script_commands::{Action, HostAnswers, Script, ScriptEngine, ScriptTextFault, read_script};
use script_json::{JsonFault, ScriptFault, json_of};
use script_types::types_of;
use spec_machine::Command;
use std::alloc::Global;
use wasm_module::Module;
use wasm_run::{Status as SessionStatus, validate_all};
use wasm_types::{FuncType, Items};

/// A script whose modules are valid, and which has no hook and no deadline behaviour.
#[derive(Drop)]
pub(crate) struct Checked {
    pub(crate) engine: ScriptEngine,
    pub(crate) modules: Vec<Module>,
    pub(crate) answers: HostAnswers,
    pub(crate) bodies: Items<Items<Action>>,
    pub(crate) commands: Items<Command>,
}

/// Such a script, with its types.
#[derive(Drop)]
pub(crate) struct Prepared {
    pub(crate) script: Checked,
    pub(crate) types: Items<FuncType>,
}

/// The script that the bytes spell.
fn script_in(alloc: Global, bytes: &[u8]) -> Result<Script, Status>
    ensures found { IfOk result (λ script. spelling bytes.now ≡ Spells script) }
    ensures limits { IfOk result (λ script. are_engine_limits script.engine.frames script.engine.turns ≡ true) }
    ensures fault { IfErr result (λ status. IsSpellingFault (spelling bytes.now) status) }
{
    match read_script(alloc, bytes) {
        Ok(script) => Ok(script),
        Err(ScriptTextFault::BadJson) => Err(Status::Session(SessionStatus::BadJson)),
        Err(ScriptTextFault::BadScript) => Err(Status::Session(SessionStatus::BadScript)),
        Err(ScriptTextFault::OutOfMemory) => Err(Status::Session(SessionStatus::OutOfMemory)),
    }
}

/// The types of the script that bytes spell.
///
/// `NotScript` exactly where they spell none.
fn types_in(alloc: Global, bytes: &[u8]) -> Result<Items<FuncType>, ScriptFault>
    ensures { Reads (forms.types_in bytes.now) result }
{
    match json_of(alloc, bytes) {
        Ok(json) => types_of(alloc, &json),
        Err(JsonFault::NotJson) => Err(ScriptFault::NotScript),
        Err(JsonFault::OutOfMemory) => Err(ScriptFault::OutOfMemory),
    }
}

fn is_hooked(answers: &HostAnswers) -> bool
    ensures { result ≡ forms.is_hooked answers.now }
{
    answers.hook.is_some() || answers.deadline.is_some()
}

/// This script, where it can be recorded and replayed.
fn check_script(alloc: Global, script: Script) -> Result<Checked, Status>
    ensures found { IfOk result (λ made. forms.checked script ≡ Ok (script_of made)) }
    ensures engine { IfOk result (λ made. made.engine ≡ script.engine) }
    ensures unhooked { IfOk result (λ made. IsUnhooked made.answers) }
    ensures fault { IfErr result (λ status. IsFault (forms.checked script) status) }
{
    if is_hooked(&script.answers) {
        return Err(Status::Hooked);
    }
    match validate_all(alloc, script.modules) {
        Ok(modules) => Ok(Checked {
            engine: script.engine,
            modules,
            answers: script.answers,
            bodies: script.bodies,
            commands: script.commands,
        }),
        Err(status) => Err(Status::Session(status)),
    }
}

/// The script that the bytes spell, where it can be recorded and replayed, with its types.
pub(crate) fn prepare(alloc: Global, bytes: &[u8]) -> Result<Prepared, Status>
    ensures found { IfOk result (λ made. forms.typed_in bytes.now ≡ Ok (typed_of made)) }
    ensures limits { IfOk result (λ made. are_engine_limits made.script.engine.frames made.script.engine.turns ≡ true) }
    ensures unhooked { IfOk result (λ made. IsUnhooked made.script.answers) }
    ensures fault { IfErr result (λ status. IsFault (forms.typed_in bytes.now) status) }
{
    let script = script_in(alloc, bytes)?;
    let types = match types_in(alloc, bytes) {
        Ok(types) => types,
        Err(ScriptFault::NotScript) => return Err(Status::Session(SessionStatus::BadScript)),
        Err(ScriptFault::OutOfMemory) => return Err(Status::Session(SessionStatus::OutOfMemory)),
    };
    let script = check_script(alloc, script)?;
    Ok(Prepared { script, types })
}
