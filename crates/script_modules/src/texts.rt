ghost use Rattle.std.specs.Prelude.{◌≡◌};
ghost use Rattle.serde_json.specs.View.{view};
ghost use Rattle.script_json.specs.Fields.{Reads};
ghost use Rattle.script_modules.specs.Texts.{is_line, line_of};

use script_json::{ScriptFault, text};
use serde_json::Value;
use std::alloc::Global;
use wasm_types::Text;

fn is_one_line(text: &str) -> bool
    ensures { result ≡ is_line text.now }
{
    let bytes = text.as_bytes();
    !bytes.contains(&b'\n') && !bytes.contains(&b'\r')
}

/// A text without a line feed or a carriage return.
///
/// `NotScript` exactly where the value is none.
pub fn line(alloc: Global, json: &Value) -> Result<Text, ScriptFault>
    ensures { Reads (line_of (view json.now)) result }
{
    let line = text(json)?;
    if !is_one_line(line) {
        return Err(ScriptFault::NotScript);
    }
    match String::from_str(alloc, line) {
        Ok(line) => Ok(Text(line)),
        Err(_) => Err(ScriptFault::OutOfMemory),
    }
}
