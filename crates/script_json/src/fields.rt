ghost use Rattle.std.specs.Prelude.{◌≡◌, IfErr, map, option_map, string_bytes};
ghost use Rattle.std.specs.List.{list_any, list_all};
ghost use Rattle.std.specs.BTreeMap.{keys};
ghost use Rattle.std.specs.Str.{bytes_eq};
ghost use Rattle.serde_json.specs.View.{view};
ghost use Rattle.script_json.specs.Fields as fields;
ghost use Rattle.script_json.specs.Fields.{Reads, answered};

use crate::faults::ScriptFault;
use serde_json::{Map, Value};

/// The member of a key.
///
/// `NotScript` where the value is no object, or one without the key.
pub fn field<'a>(value: &'a Value, key: &str) -> Result<&'a Value, ScriptFault>
    ensures member { option_map (λ v. view v.now) (answered result)
        ≡ fields.field key.now (view value.now) }
    ensures takes_no_memory { IfErr result (λ fault. fault ≡ ScriptFault.NotScript) }
{
    value.get(key).ok_or(ScriptFault::NotScript)
}

/// The one member of an object: its key and its value.
///
/// `NotScript` where the value is no object, or one with another number of members.
pub fn one_member(value: &Value) -> Result<(&str, &Value), ScriptFault>
    ensures member { option_map (λ m. (m.0.now, view m.1.now)) (answered result)
        ≡ fields.one_member (view value.now) }
    ensures takes_no_memory { IfErr result (λ fault. fault ≡ ScriptFault.NotScript) }
{
    let Some(members) = value.as_object() else {
        return Err(ScriptFault::NotScript);
    };
    let mut rest = members.iter();
    let Some((key, value)) = rest.next() else {
        return Err(ScriptFault::NotScript);
    };
    if rest.next().is_some() {
        return Err(ScriptFault::NotScript);
    }
    Ok((key.as_str(), value))
}

fn is_among(keys: &[&str], key: &str) -> bool
    ensures { result ≡ list_any (λ k. bytes_eq k.now key.now) keys.now }
{
    keys.iter().any(|k| *k == key)
}

fn keys_are_among(members: &Map<String, Value>, names: &[&str]) -> bool
    ensures { result ≡ list_all (λ key. list_any (λ k. bytes_eq k.now (string_bytes key)) names.now)
        (keys members.now) }
{
    members.keys().all(|key| is_among(names, key.as_str()))
}

/// Refuses what is no object, and an object with another key than these.
///
/// A key need not be there. The refusal is `NotScript`.
pub fn only(value: &Value, keys: &[&str]) -> Result<(), ScriptFault>
    ensures read { Reads (fields.only (map (λ k. k.now) keys.now) (view value.now)) result }
    ensures takes_no_memory { IfErr result (λ fault. fault ≡ ScriptFault.NotScript) }
{
    let Some(members) = value.as_object() else {
        return Err(ScriptFault::NotScript);
    };
    if keys_are_among(members, keys) {
        Ok(())
    } else {
        Err(ScriptFault::NotScript)
    }
}

/// A boolean.
///
/// `NotScript` where the value is none.
pub fn truth(value: &Value) -> Result<bool, ScriptFault>
    ensures read { Reads (fields.truth (view value.now)) result }
    ensures takes_no_memory { IfErr result (λ fault. fault ≡ ScriptFault.NotScript) }
{
    value.as_bool().ok_or(ScriptFault::NotScript)
}

/// The boolean at a key, or `default` where there is no such key.
///
/// `NotScript` where what is there is no boolean.
pub fn truth_or(default: bool, value: &Value, key: &str) -> Result<bool, ScriptFault>
    ensures read { Reads
        (fields.field_or default fields.truth (fields.field key.now (view value.now)))
        result }
    ensures takes_no_memory { IfErr result (λ fault. fault ≡ ScriptFault.NotScript) }
{
    match value.get(key) {
        Some(value) => truth(value),
        None => Ok(default),
    }
}

/// The boolean `true`, and nothing else.
///
/// `NotScript` for every other value.
pub fn yes(value: &Value) -> Result<(), ScriptFault>
    ensures read { Reads (fields.yes (view value.now)) result }
    ensures takes_no_memory { IfErr result (λ fault. fault ≡ ScriptFault.NotScript) }
{
    if truth(value)? {
        Ok(())
    } else {
        Err(ScriptFault::NotScript)
    }
}

/// `null`, and nothing else.
///
/// `NotScript` for every other value.
pub fn null(value: &Value) -> Result<(), ScriptFault>
    ensures read { Reads (fields.null (view value.now)) result }
    ensures takes_no_memory { IfErr result (λ fault. fault ≡ ScriptFault.NotScript) }
{
    value.as_null().ok_or(ScriptFault::NotScript)
}
