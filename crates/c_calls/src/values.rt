ghost use Rattle.std.specs.Prelude.{◌≡◌, map, option_map, IfOk};
ghost use Rattle.c_values.specs.Values.{value_out};
ghost use Rattle.c_calls.specs.Values as forms;

use c_values::{CValue, value_in, value_out};
use std::alloc::Global;
use wasm_types::OutOfMemory;
use wasm_values::Val;

/// The values that C gave; `None` exactly where one of them is none.
pub(crate) fn values_in(alloc: Global, given: &[CValue]) -> Result<Option<Vec<Val>>, OutOfMemory>
    ensures { IfOk result (λ read. option_map (λ values. values.items) read ≡ forms.values_in given.now) }
{
    let mut values = Vec::with_capacity(alloc, given.len())?;
    let mut rest = given;
    'given: while let [first, others @ ..] = rest {
        let Some(value) = value_in(*first) else {
            return Ok(None);
        };
        values.push(value)?;
        rest = others;
    }
    Ok(Some(values))
}

/// Values as C has them.
pub(crate) fn told(alloc: Global, values: &[Val]) -> Result<Vec<CValue>, OutOfMemory>
    ensures { IfOk result (λ made. made.items ≡ map value_out values.now) }
{
    let mut made = Vec::with_capacity(alloc, values.len())?;
    for value in values {
        made.push(value_out(*value))?;
    }
    Ok(made)
}
