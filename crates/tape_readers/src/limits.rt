ghost use Rattle.serde_json.specs.View.{view};
ghost use Rattle.script_json.specs.Fields.{Reads};
ghost use Rattle.script_commands.specs.Commands as commands;

use script_json::{ScriptFault, field, null_or_whole, only, whole};
use serde_json::Value;
use spec_machine::Op;

pub(crate) fn get_fuel(json: &Value) -> Result<Op, ScriptFault>
    ensures { Reads (commands.get_fuel_of (view json.now)) result }
{
    only(json, &["do"])?;
    Ok(Op::GetFuel)
}

pub(crate) fn set_fuel(json: &Value) -> Result<Op, ScriptFault>
    ensures { Reads (commands.set_fuel_of (view json.now)) result }
{
    only(json, &["do", "fuel"])?;
    let fuel = whole(field(json, "fuel")?)?;
    Ok(Op::SetFuel { fuel })
}

pub(crate) fn yield_interval(json: &Value) -> Result<Op, ScriptFault>
    ensures { Reads (commands.yield_interval_of (view json.now)) result }
{
    only(json, &["do", "interval"])?;
    let interval = null_or_whole(field(json, "interval")?)?;
    Ok(Op::YieldInterval { interval })
}

pub(crate) fn set_epoch_deadline(json: &Value) -> Result<Op, ScriptFault>
    ensures { Reads (commands.set_epoch_deadline_of (view json.now)) result }
{
    only(json, &["do", "ticks"])?;
    let ticks = whole(field(json, "ticks")?)?;
    Ok(Op::SetEpochDeadline { ticks })
}
