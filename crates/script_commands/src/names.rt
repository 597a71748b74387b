ghost use Rattle.std.specs.Prelude.{◌≡◌, IfErr};
ghost use Rattle.serde_json.specs.View.{view};
ghost use Rattle.script_json.specs.Fields.{Reads};
ghost use Rattle.script_commands.specs.Names as names;

use script_json::{JsonReader, ScriptFault, one_member, two_items, whole, yes};
use serde_json::Value;
use spec_machine::Name;
use std::alloc::Global;

/// What a name is called by the key of its only member.
#[derive(Clone, Copy)]
enum NameKind {
    Value,
    Arg,
    Stored,
    Caller,
}

fn name_kind(key: &str) -> Result<NameKind, ScriptFault>
    ensures read { Reads (names.name_kind_of key.now) result }
    ensures takes_no_memory { IfErr result (λ fault. fault ≡ ScriptFault.NotScript) }
{
    match key {
        "value" => Ok(NameKind::Value),
        "arg" => Ok(NameKind::Arg),
        "stored" => Ok(NameKind::Stored),
        "caller" => Ok(NameKind::Caller),
        _ => Err(ScriptFault::NotScript),
    }
}

fn value_name(json: &Value) -> Result<Name, ScriptFault>
    ensures { Reads (names.value_name (view json.now)) result }
{
    let (reply, index) = two_items(json)?;
    let place = whole(reply)?;
    let index = whole(index)?;
    Ok(Name::Value(place as usize, index as usize))
}

fn name_by(json: &Value, kind: NameKind) -> Result<Name, ScriptFault>
    ensures { Reads (names.name_by (view json.now) kind) result }
{
    match kind {
        NameKind::Value => value_name(json),
        NameKind::Arg => Ok(Name::Arg(whole(json)? as usize)),
        NameKind::Stored => Ok(Name::Stored(whole(json)? as usize)),
        NameKind::Caller => {
            yes(json)?;
            Ok(Name::Caller)
        }
    }
}

/// Reads a name.
pub(crate) fn name(json: &Value) -> Result<Name, ScriptFault>
    ensures { Reads (names.name_of (view json.now)) result }
{
    if json.is_number() {
        return Ok(Name::Reply(whole(json)? as usize));
    }
    let (key, member) = one_member(json)?;
    name_by(member, name_kind(key)?)
}

/// Reads a name, as an item of a list.
pub(crate) struct NameReader;

impl JsonReader for NameReader {
    ghost use Rattle.script_commands.specs.Names.{name_of};

    type Item = Name;

    ghost meaning = { λ _ json. name_of json };

    fn read(&self, alloc: Global, json: &Value) -> Result<Name, ScriptFault> {
        name(json)
    }
}
