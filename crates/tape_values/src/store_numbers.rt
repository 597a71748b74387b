ghost use Rattle.script_json.specs.Fields.{Reads};
ghost use Rattle.tape_values.specs.StoreNumbers.{store_id_of};

use script_json::ScriptFault;
use std::num::NonZeroU64;
use wasm_values::{StoreId, StoreIds};

/// The id of a store of this number.
///
/// `NotScript` exactly where the number is not from 1 to 2^63.
pub(crate) fn store_id(number: u64) -> Result<StoreId, ScriptFault>
    ensures { Reads (store_id_of number) result }
{
    let Some(number) = NonZeroU64::new(number) else {
        return Err(ScriptFault::NotScript);
    };
    let mut ids = StoreIds::starting_at(number);
    match ids.allocate() {
        Some(id) => Ok(id),
        None => Err(ScriptFault::NotScript),
    }
}
