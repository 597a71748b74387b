ghost use Rattle.std.specs.Prelude.{◌≡◌, option_map};
ghost use Rattle.store_state.specs.Lists.{table_behind};
ghost use Rattle.code_leaps.specs.Choosing.{table_in};

use store_state::{Held, Program};
use wasm_objects::TableObject;

/// The table that an instance names under an index.
#[inline]
pub fn find_table<'h>(
    program: &Program,
    held: &'h Held,
    instance: usize,
    index: u32,
) -> Option<&'h TableObject>
    ensures { option_map table_behind result ≡ table_in program.now held.now instance index }
{
    let number = program.table_number(instance, index)?;
    held.table(number)
}
