ghost use Rattle.std.specs.Prelude.{◌≡◌, option_map};
ghost use Rattle.serde_json.specs.View.{view};
ghost use Rattle.script_json.specs.Fields.{Reads, answered};
ghost use Rattle.script_modules.specs.Immediates as immediates;

use script_json::{ScriptFault, text};
use serde_json::Value;

/// The name at the head of an array.
///
/// `NotScript` where the value is no array, or its first item is no text.
pub(crate) fn head(json: &Value) -> Result<&str, ScriptFault>
    ensures { option_map (λ v. v.now) (answered result) ≡ immediates.head (view json.now) }
{
    text(json.get(0usize).ok_or(ScriptFault::NotScript)?)
}

/// Refuses an array with an item behind its head.
pub(crate) fn no_immediate(json: &Value) -> Result<(), ScriptFault>
    ensures { Reads (immediates.no_immediate (view json.now)) result }
{
    if json.get(1usize).is_some() {
        return Err(ScriptFault::NotScript);
    }
    Ok(())
}

/// The one item behind the head of an array.
///
/// `NotScript` where there is none, or another.
pub(crate) fn one_immediate(json: &Value) -> Result<&Value, ScriptFault>
    ensures { option_map (λ v. view v.now) (answered result)
        ≡ immediates.one_immediate (view json.now) }
{
    let only = json.get(1usize).ok_or(ScriptFault::NotScript)?;
    if json.get(2usize).is_some() {
        return Err(ScriptFault::NotScript);
    }
    Ok(only)
}

/// The two items behind the head of an array.
///
/// `NotScript` where there are fewer or more.
pub(crate) fn two_immediates(json: &Value) -> Result<(&Value, &Value), ScriptFault>
    ensures { option_map (λ p. (view p.0.now, view p.1.now)) (answered result)
        ≡ immediates.two_immediates (view json.now) }
{
    let first = json.get(1usize).ok_or(ScriptFault::NotScript)?;
    let second = json.get(2usize).ok_or(ScriptFault::NotScript)?;
    if json.get(3usize).is_some() {
        return Err(ScriptFault::NotScript);
    }
    Ok((first, second))
}

/// The three items behind the head of an array.
///
/// `NotScript` where there are fewer or more.
pub(crate) fn three_immediates(json: &Value) -> Result<(&Value, &Value, &Value), ScriptFault>
    ensures { option_map (λ p. (view p.0.now, view p.1.now, view p.2.now)) (answered result)
        ≡ immediates.three_immediates (view json.now) }
{
    let first = json.get(1usize).ok_or(ScriptFault::NotScript)?;
    let second = json.get(2usize).ok_or(ScriptFault::NotScript)?;
    let third = json.get(3usize).ok_or(ScriptFault::NotScript)?;
    if json.get(4usize).is_some() {
        return Err(ScriptFault::NotScript);
    }
    Ok((first, second, third))
}
