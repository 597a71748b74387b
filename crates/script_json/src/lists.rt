ghost use Rattle.std.specs.Prelude.{◌≡◌, Option, IfErr, option_map};
ghost use Rattle.serde_json.specs.Data.{Data};
ghost use Rattle.serde_json.specs.View.{view};
ghost use Rattle.script_json.specs.Fields as fields;
ghost use Rattle.script_json.specs.Fields.{Reads, answered};

use crate::faults::ScriptFault;
use serde_json::Value;
use std::alloc::Global;
use wasm_types::Items;

/// A reader of JSON data of one form, which may hold what it reads by, as the types that a number names.
pub trait JsonReader {
    /// What it reads.
    type Item: Drop;

    /// What data spells, or none where it is not of the form.
    ghost meaning: { Self → Data → Option Self.Item };

    /// What the value spells.
    ///
    /// `NotScript` exactly where it is not of the form.
    fn read(&self, alloc: Global, value: &Value) -> Result<Self::Item, ScriptFault>
        ensures { Reads (meaning self.now (view value.now)) result };
}

/// The items of an array of two.
///
/// `NotScript` where the value is no array, or one of another length.
pub fn two_items(value: &Value) -> Result<(&Value, &Value), ScriptFault>
    ensures items { option_map (λ p. (view p.0.now, view p.1.now)) (answered result)
        ≡ fields.two_items (view value.now) }
    ensures takes_no_memory { IfErr result (λ fault. fault ≡ ScriptFault.NotScript) }
{
    let first = value.get(0usize).ok_or(ScriptFault::NotScript)?;
    let second = value.get(1usize).ok_or(ScriptFault::NotScript)?;
    if value.get(2usize).is_some() {
        return Err(ScriptFault::NotScript);
    }
    Ok((first, second))
}

/// What each item of an array spells, in order.
///
/// `NotScript` exactly where the value is no array, or an item is not of the form.
pub fn list_of<R: JsonReader>(
    alloc: Global,
    value: &Value,
    reader: &R,
) -> Result<Items<R::Item>, ScriptFault>
    ensures { Reads (fields.list_of (R.meaning reader.now) (view value.now)) result }
{
    let Some(list) = value.as_array() else {
        return Err(ScriptFault::NotScript);
    };
    let mut items = Vec::new(alloc);
    for value in list {
        let item = reader.read(alloc, value)?;
        if items.push(item).is_err() {
            return Err(ScriptFault::OutOfMemory);
        }
    }
    Ok(Items(items))
}

/// What each item of the array at a key spells, in order; nothing where there is no such key.
///
/// `NotScript` exactly where what is there is no array, or an item is not of the form.
pub fn list_or_empty<R: JsonReader>(
    alloc: Global,
    value: &Value,
    key: &str,
    reader: &R,
) -> Result<Items<R::Item>, ScriptFault>
    ensures { Reads (fields.list_or_empty (R.meaning reader.now) key.now (view value.now)) result }
{
    match value.get(key) {
        Some(list) => list_of(alloc, list, reader),
        None => Ok(Items(Vec::new(alloc))),
    }
}
