ghost use Rattle.std.specs.Prelude.{◌≡◌, true, IfOk};
ghost use Rattle.serde_json.specs.View.{view};
ghost use Rattle.script_json.specs.Fields as fields;
ghost use Rattle.script_json.specs.Fields.{Reads};
ghost use Rattle.spec_machine.specs.Machine.{are_engine_limits};
ghost use Rattle.script_commands.specs.Engines as engines;

use script_json::{ScriptFault, only, truth_or, whole};
use serde_json::Value;

/// The most frames of nested calls, and how many there are where a script does not say.
const MOST_FRAMES: u64 = 1024;

/// The most turns of a command.
const MOST_TURNS: u64 = 1_000_000_000;

/// The turns of a command where a script does not say how many.
const DEFAULT_TURNS: u64 = 10_000_000;

/// The engine that a script asks for: whether code consumes fuel, whether the epoch is read, the most frames of nested
/// calls, from 1 to 1,024, and the most turns of a command, from 1 to 1,000,000,000.
#[derive(Clone, Copy, Debug, PartialEq, Eq)]
pub struct ScriptEngine {
    pub consumes_fuel: bool,
    pub reads_epochs: bool,
    pub frames: u32,
    pub turns: u64,
}

fn whole_or(default: u64, json: &Value, key: &str) -> Result<u64, ScriptFault>
    ensures { Reads (fields.field_or default fields.whole (fields.field key.now (view json.now))) result }
{
    match json.get(key) {
        Some(number) => whole(number),
        None => Ok(default),
    }
}

/// Whether a store may have so many frames and turns.
fn are_limits(frames: u64, turns: u64) -> bool
    ensures { result ≡ are_engine_limits frames turns }
{
    1 <= frames && frames <= MOST_FRAMES && 1 <= turns && turns <= MOST_TURNS
}

fn engine(json: &Value) -> Result<ScriptEngine, ScriptFault>
    ensures read { Reads (engines.engine_of (view json.now)) result }
    ensures within { IfOk result (λ engine. are_engine_limits engine.frames engine.turns ≡ true) }
{
    only(json, &["fuel", "epochs", "frames", "turns"])?;
    let consumes_fuel = truth_or(false, json, "fuel")?;
    let reads_epochs = truth_or(false, json, "epochs")?;
    let frames = whole_or(MOST_FRAMES, json, "frames")?;
    let turns = whole_or(DEFAULT_TURNS, json, "turns")?;
    if !are_limits(frames, turns) {
        return Err(ScriptFault::NotScript);
    }
    Ok(ScriptEngine {
        consumes_fuel,
        reads_epochs,
        frames: frames as u32,
        turns,
    })
}

/// Reads the engine of a script.
pub(crate) fn engine_in(json: &Value) -> Result<ScriptEngine, ScriptFault>
    ensures read { Reads (engines.engine_in (view json.now)) result }
    ensures within { IfOk result (λ engine. are_engine_limits engine.frames engine.turns ≡ true) }
{
    match json.get("engine") {
        Some(json) => engine(json),
        None => Ok(ScriptEngine {
            consumes_fuel: false,
            reads_epochs: false,
            frames: MOST_FRAMES as u32,
            turns: DEFAULT_TURNS,
        }),
    }
}
