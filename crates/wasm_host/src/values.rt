ghost use Rattle.std.specs.Prelude.{◌≡◌, IfOk};
ghost use Rattle.spec_machine.specs.Machine.{Machine};
ghost use Rattle.spec_execution.specs.Entering.{values_at};

use std::alloc::Global;
use store_state::val_at;
use wasm_objects::RawVal;
use wasm_types::{OutOfMemory, ValType};
use wasm_values::{StoreId, Val};

/// The values of these types in a store of this id, as a host handles them.
pub fn values_at(
    alloc: Global,
    id: StoreId,
    types: &[ValType],
    raws: &[RawVal],
) -> Result<Vec<Val>, OutOfMemory>
    ensures { IfOk result (λ vals. (m : Machine) → m.id ≡ id → vals.items ≡ values_at m types.now raws.now) }
{
    let mut vals = Vec::new(alloc);
    let mut wanted = types;
    let mut rest = raws;
    while let [ty, further @ ..] = wanted {
        let [raw, tail @ ..] = rest else {
            return Ok(vals);
        };
        vals.push(val_at(id, ty, *raw))?;
        wanted = further;
        rest = tail;
    }
    Ok(vals)
}
