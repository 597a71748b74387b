ghost use Rattle.std.specs.Prelude.{◌≡◌, ◌≤◌, true, IfOk};
ghost use Rattle.spec_machine.specs.Machine.{are_engine_limits};
ghost use Rattle.script_commands.specs.Engines.{default_engine};
ghost use Rattle.script_commands.specs.HostAnswers.{no_answers};
ghost use Rattle.script_generated.specs.Scripts.{generated};

use crate::commands::generated_commands;
use crate::module::generated_module;
use script_commands::{HostAnswers, Script, ScriptEngine};
use std::alloc::Global;
use wasm_types::{Items, OutOfMemory};

/// The engine of a script that says nothing of it.
fn default_engine() -> ScriptEngine
    ensures { result ≡ default_engine }
{
    ScriptEngine {
        consumes_fuel: false,
        reads_epochs: false,
        frames: 1024,
        turns: 10_000_000,
    }
}

/// The host data of a script that says nothing of it.
fn no_answers() -> HostAnswers
    ensures { result ≡ no_answers }
{
    HostAnswers {
        number: 0,
        limiter: None,
        hook: None,
        deadline: None,
    }
}

/// The script of the generated session of so many calls.
pub fn generated_script(alloc: Global, n: u32) -> Result<Script, OutOfMemory>
    requires { n ≤ 1000 }
    ensures made { IfOk result (λ script. script ≡ generated n) }
    ensures within { IfOk result (λ script. are_engine_limits script.engine.frames script.engine.turns ≡ true) }
{
    Ok(Script {
        engine: default_engine(),
        modules: Items(vec![in alloc; generated_module(alloc)?]?),
        answers: no_answers(),
        bodies: Items(Vec::new(alloc)),
        commands: Items(generated_commands(alloc, n)?),
    })
}
