ghost use Rattle.serde_json.specs.View.{view};
ghost use Rattle.script_json.specs.Fields.{Reads};
ghost use Rattle.wasm_embedding.specs.Texts as readings;
ghost use Rattle.wasm_embedding.specs.HostFaults.{Answers};

use crate::faults::Fault;
use crate::stores::ENGINE;
use script_json::{ScriptFault, field, json_of};
use script_modules::read_module;
use script_types::types_of;
use serde_json::Value;
use std::alloc::Global;
use wasm_module::{Module, ModuleDecl};

// The declaration in the data.
fn declared_in(alloc: Global, number: u64, json: &Value) -> Result<ModuleDecl, ScriptFault>
    ensures { Reads (readings.declared_in number (view json.now)) result }
{
    let types = types_of(alloc, json)?;
    read_module(
        alloc,
        types.as_slice(),
        ENGINE,
        number,
        field(json, "module")?,
    )
}

/// The module that a text in JSON declares, with this number: the text is an object that has the types at `types`, where
/// there are some, and the module at `module`, each in the language of sessions. Types and module are of the engine `ENGINE`.
///
/// `NotJson`, `NotModule` and `Invalid` exactly where the text spells no JSON, declares no module, or declares one that
/// breaks a rule.
pub fn module_from_json(alloc: Global, number: u64, text: &str) -> Result<Module, Fault>
    ensures { Answers (readings.module_in_text number text.now) result }
{
    let json = json_of(alloc, text.as_bytes())?;
    let decl = declared_in(alloc, number, &json)?;
    Ok(Module::validate(alloc, decl)?)
}
