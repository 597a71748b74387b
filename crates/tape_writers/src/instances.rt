ghost use Rattle.std.specs.Prelude.{◌≡◌, IfOk};
ghost use Rattle.serde_json.specs.View.{view};
ghost use Rattle.tape_writers.specs.Written as written;

use serde_json::{Value, json};
use spec_machine::{Name, TextName};
use std::alloc::{AllocError, Global};
use tape_values::name_value;

pub(crate) fn get_export_value(
    alloc: Global,
    instance: Name,
    name: &TextName,
) -> Result<Value, AllocError>
    ensures { IfOk result (λ value. view value ≡ written.get_export_data instance name.now) }
{
    let instance = name_value(alloc, instance)?;
    json!(in alloc; {"do": "get_export", "instance": instance, "name": name.as_str()})
}
