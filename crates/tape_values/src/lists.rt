ghost use Rattle.std.specs.Prelude.{Option, IfOk};
ghost use Rattle.std.specs.List.{AllByRecursion};
ghost use Rattle.serde_json.specs.Data.{Data};
ghost use Rattle.tape_values.specs.Writing.{Writes, list_data};

use crate::faults::WriteFault;
use serde_json::Value;
use std::alloc::Global;

/// A writer of items of one kind as JSON data, which may hold what it writes by, as the types that have a number.
pub trait JsonWriter {
    /// What it writes.
    type Item;

    /// What is written of an item, or none where a function type in it has no number.
    ghost meaning: { Self → Self.Item → Option Data };

    /// That each number in an item is one of its type.
    ghost range: { Self → Self.Item → Type 0 };

    /// Writes the item.
    ///
    /// `UnknownType` exactly where a function type in it has no number.
    fn write(&self, alloc: Global, item: &Self::Item) -> Result<Value, WriteFault>
        ensures written { Writes (meaning self.now item.now) result }
        ensures within { IfOk result (λ _. range self.now item.now) };
}

/// An array of what is written of each item, in order.
///
/// `UnknownType` exactly where a function type in an item has no number.
pub fn list_value<W: JsonWriter>(
    alloc: Global,
    items: &[W::Item],
    writer: &W,
) -> Result<Value, WriteFault>
    ensures written { Writes (list_data (W.meaning writer.now) items.now) result }
    ensures within { IfOk result (λ _. AllByRecursion (W.range writer.now) items.now) }
{
    let mut values = Vec::new(alloc);
    for item in items {
        let value = writer.write(alloc, item)?;
        values.push(value)?;
    }
    Ok(Value::Array(values))
}
