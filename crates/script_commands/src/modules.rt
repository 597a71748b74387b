ghost use Rattle.serde_json.specs.View.{view};
ghost use Rattle.script_json.specs.Fields.{Reads};
ghost use Rattle.script_commands.specs.ScriptModules as modules;

use script_json::ScriptFault;
use script_modules::read_modules;
use serde_json::Value;
use std::alloc::Global;
use wasm_syntax::ModuleDecl;
use wasm_types::{EngineId, FuncType, Items};

/// The engine of all modules of a script, which is that of its types.
const ENGINE: EngineId = EngineId(1);

/// Reads the modules of a script, each of which has these types.
pub(crate) fn modules_in(
    alloc: Global,
    types: &[FuncType],
    json: &Value,
) -> Result<Items<ModuleDecl>, ScriptFault>
    ensures { Reads (modules.modules_in types.now (view json.now)) result }
{
    match json.get("modules") {
        Some(list) => read_modules(alloc, types, ENGINE, list),
        None => Ok(Items(Vec::new(alloc))),
    }
}
