ghost use Rattle.std.specs.Prelude.{◌≤◌, IfOk};
ghost use Rattle.serde_json.specs.Data.{depth};
ghost use Rattle.serde_json.specs.View.{view};
ghost use Rattle.script_json.specs.Json as readings;
ghost use Rattle.script_json.specs.Json.{Spells};

use crate::faults::JsonFault;
use serde_json::Value;
use std::alloc::Global;

/// The JSON data that the bytes spell.
///
/// `NotJson` exactly where they are no UTF-8, or no JSON of which arrays and objects nest at most 127 deep.
pub fn json_of(alloc: Global, bytes: &[u8]) -> Result<Value, JsonFault>
    ensures read { Spells (readings.json_of bytes.now) result }
    ensures nests { IfOk result (λ value. depth (view value) ≤ 127) }
{
    match Value::from_slice(alloc, bytes) {
        Ok(value) => Ok(value),
        Err(error) if error.is_memory() => Err(JsonFault::OutOfMemory),
        Err(_) => Err(JsonFault::NotJson),
    }
}
