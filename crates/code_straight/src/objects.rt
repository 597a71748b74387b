ghost use Rattle.code_straight.specs.Finding.{FindsMemory, FindsTable};

use store_state::{Held, Program};

/// The number of the memory that an instance names under an index, where there is such a memory.
#[inline]
pub fn memory_at(program: &Program, instance: usize, held: &Held, index: u32) -> Option<usize>
    ensures { FindsMemory program.now held.now instance index result }
{
    let Some(number) = program.memory_number(instance, index) else {
        return None;
    };
    if number >= held.memory_count() {
        return None;
    }
    Some(number)
}

/// The number of the table that an instance names under an index, where there is such a table.
#[inline]
pub fn table_at(program: &Program, instance: usize, held: &Held, index: u32) -> Option<usize>
    ensures { FindsTable program.now held.now instance index result }
{
    let Some(number) = program.table_number(instance, index) else {
        return None;
    };
    if number >= held.table_count() {
        return None;
    }
    Some(number)
}
