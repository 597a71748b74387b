ghost use Rattle.std.specs.Prelude.{◌≡◌, IfErr, option_map};
ghost use Rattle.serde_json.specs.View.{view};
ghost use Rattle.script_json.specs.Fields as fields;
ghost use Rattle.script_json.specs.Fields.{Reads, answered};

use crate::faults::ScriptFault;
use hex::FromHexError;
use serde_json::Value;
use std::alloc::Global;
use wasm_types::ByteList;

/// A text.
///
/// `NotScript` where the value is none.
pub fn text(value: &Value) -> Result<&str, ScriptFault>
    ensures read { option_map (λ v. v.now) (answered result) ≡ fields.text (view value.now) }
    ensures takes_no_memory { IfErr result (λ fault. fault ≡ ScriptFault.NotScript) }
{
    value.as_str().ok_or(ScriptFault::NotScript)
}

/// The bytes of a text of hexadecimal digits, two a byte and the high one first, of either case.
///
/// `NotScript` where the value is no text, or has an odd length or another character.
pub fn hex_bytes(alloc: Global, value: &Value) -> Result<ByteList, ScriptFault>
    ensures { Reads (fields.hex_bytes (view value.now)) result }
{
    let Some(digits) = value.as_str() else {
        return Err(ScriptFault::NotScript);
    };
    match hex::decode(alloc, digits) {
        Ok(bytes) => Ok(ByteList(bytes)),
        Err(FromHexError::OutOfMemory) => Err(ScriptFault::OutOfMemory),
        Err(_) => Err(ScriptFault::NotScript),
    }
}

// The 16 bytes of a text of 32 hexadecimal digits, two a byte and the high one first, of either case.
fn hex_16(value: &Value) -> Result<[u8; 16], ScriptFault>
    ensures read { Reads (fields.hex_sized 16 (view value.now)) result }
    ensures takes_no_memory { IfErr result (λ fault. fault ≡ ScriptFault.NotScript) }
{
    let digits = text(value)?;
    let mut bytes = [0; 16];
    match hex::decode_to_slice(digits, &mut bytes) {
        Ok(()) => Ok(bytes),
        Err(_) => Err(ScriptFault::NotScript),
    }
}

/// The 128 bits of a vector: a text of 32 hexadecimal digits, the highest first, of either case.
///
/// `NotScript` for every other value.
pub fn hex_vector(value: &Value) -> Result<u128, ScriptFault>
    ensures read { Reads (fields.hex_vector (view value.now)) result }
    ensures takes_no_memory { IfErr result (λ fault. fault ≡ ScriptFault.NotScript) }
{
    Ok(u128::from_be_bytes(hex_16(value)?))
}
