use script_json::{JsonReader, ScriptFault};
use script_types::whole_32;
use serde_json::Value;
use std::alloc::Global;

/// Reads an index, as an item of a list.
pub(crate) struct IndexReader;

impl JsonReader for IndexReader {
    ghost use Rattle.script_types.specs.Types.{whole_32};

    type Item = u32;

    ghost meaning = { λ _ json. whole_32 json };

    fn read(&self, alloc: Global, json: &Value) -> Result<u32, ScriptFault> {
        whole_32(json)
    }
}
