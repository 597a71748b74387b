ghost use Rattle.serde_json.specs.View.{view};
ghost use Rattle.std.specs.Prelude.{option_and_then};
ghost use Rattle.script_json.specs.Fields.{Reads};
ghost use Rattle.script_commands.specs.Names as names;

use script_json::{ScriptFault, one_member, two_items, whole, yes};
use serde_json::Value;
use spec_machine::Name;

fn value_name(json: &Value) -> Result<Name, ScriptFault>
    ensures { Reads (names.value_name (view json.now)) result }
{
    let (reply, index) = two_items(json)?;
    let place = whole(reply)?;
    let index = whole(index)?;
    Ok(Name::Value(place as usize, index as usize))
}

fn name_by(kind: &str, json: &Value) -> Result<Name, ScriptFault>
    ensures { Reads (option_and_then (names.name_by (view json.now)) (names.name_kind_of kind.now)) result }
{
    match kind {
        "value" => value_name(json),
        "arg" => Ok(Name::Arg(whole(json)? as usize)),
        "stored" => Ok(Name::Stored(whole(json)? as usize)),
        "caller" => {
            yes(json)?;
            Ok(Name::Caller)
        }
        _ => Err(ScriptFault::NotScript),
    }
}

/// A name, as a script has it.
///
/// `NotScript` exactly where the value spells none.
pub fn name(json: &Value) -> Result<Name, ScriptFault>
    ensures { Reads (names.name_of (view json.now)) result }
{
    if json.is_number() {
        return Ok(Name::Reply(whole(json)? as usize));
    }
    let (kind, member) = one_member(json)?;
    name_by(kind, member)
}
