ghost use Rattle.std.specs.Prelude.{◌≡◌, ◌≤◌, IfOk, IfErr};
ghost use Rattle.serde_json.specs.View.{view};
ghost use Rattle.script_json.specs.Fields as fields;
ghost use Rattle.script_json.specs.Fields.{Reads};

use crate::faults::ScriptFault;
use serde_json::Value;

/// A whole number from 0 to 2^64 - 1, written as an integer.
///
/// `NotScript` for every other value, as `1.0`, `1e3`, `-0` or 2^64.
pub fn whole(value: &Value) -> Result<u64, ScriptFault>
    ensures read { Reads (fields.whole (view value.now)) result }
    ensures takes_no_memory { IfErr result (λ fault. fault ≡ ScriptFault.NotScript) }
{
    value.as_u64().ok_or(ScriptFault::NotScript)
}

/// A whole number from 0 to `most`, written as an integer.
///
/// `NotScript` for every other value.
pub fn whole_to(most: u64, value: &Value) -> Result<u64, ScriptFault>
    ensures read { Reads (fields.whole_to most (view value.now)) result }
    ensures within { IfOk result (λ n. n ≤ most) }
    ensures takes_no_memory { IfErr result (λ fault. fault ≡ ScriptFault.NotScript) }
{
    let n = whole(value)?;
    if n <= most {
        Ok(n)
    } else {
        Err(ScriptFault::NotScript)
    }
}

/// `null`, or a whole number from 0 to 2^64 - 1, written as an integer.
///
/// `NotScript` for every other value.
pub fn null_or_whole(value: &Value) -> Result<Option<u64>, ScriptFault>
    ensures read { Reads (fields.null_or fields.whole (view value.now)) result }
    ensures takes_no_memory { IfErr result (λ fault. fault ≡ ScriptFault.NotScript) }
{
    if value.is_null() {
        return Ok(None);
    }
    Ok(Some(whole(value)?))
}

/// An integer from -2^31 to 2^32 - 1, taken modulo 2^32.
///
/// `NotScript` for every other value.
pub fn signed_32(value: &Value) -> Result<i32, ScriptFault>
    ensures read { Reads (fields.signed_32 (view value.now)) result }
    ensures takes_no_memory { IfErr result (λ fault. fault ≡ ScriptFault.NotScript) }
{
    if let Some(n) = value.as_u64() {
        if n > 4_294_967_295 {
            return Err(ScriptFault::NotScript);
        }
        return Ok((n as u32).cast_signed());
    }
    match value.as_i64() {
        Some(n) if n >= -2_147_483_648 && n < 0 => Ok(n as i32),
        _ => Err(ScriptFault::NotScript),
    }
}

/// An integer from -2^63 to 2^64 - 1, taken modulo 2^64.
///
/// `NotScript` for every other value.
pub fn signed_64(value: &Value) -> Result<i64, ScriptFault>
    ensures read { Reads (fields.signed_64 (view value.now)) result }
    ensures takes_no_memory { IfErr result (λ fault. fault ≡ ScriptFault.NotScript) }
{
    if let Some(n) = value.as_u64() {
        return Ok(n.cast_signed());
    }
    value.as_i64().ok_or(ScriptFault::NotScript)
}
