ghost use Rattle.std.specs.Prelude.{◌≡◌, ◌<◌, Bool, MatchOption, OnOk, OnErr};
ghost use Rattle.code_run.specs.Growths.{rule_in, before_in, IsGrowth, MayGrow, grown_by, FitsNoGrowth, Due};

use crate::spins::Growing;
use code_stack::Values;
use code_straight::{
    MemoryGrowth, TableGrowth, grow_memory, grow_table, memory_growth, table_growth,
};
use store_state::{GrowthRule, Held, Program};
use wasm_types::OutOfMemory;

// What is due of an instruction of growth.
#[derive(Clone, Copy)]
pub(crate) enum Growth {
    Memory(MemoryGrowth),
    Table(TableGrowth),
}

// What the rule says of it.
pub(crate) fn rule_of(growth: Growth) -> GrowthRule
    ensures { result ≡ rule_in growth }
{
    match growth {
        Growth::Memory(memory) => memory.rule,
        Growth::Table(table) => table.rule,
    }
}

// The size before, in pages or elements.
pub(crate) fn size_before(growth: Growth) -> u32
    ensures { result ≡ before_in growth }
{
    match growth {
        Growth::Memory(memory) => memory.before,
        Growth::Table(table) => table.before,
    }
}

// Takes the operands of an instruction of growth, and says what is due of it. `None` where the operands or the index do not
// fit.
pub(crate) fn due_growth(
    program: &Program,
    instance: usize,
    held: &Held,
    values: &mut Values,
    growing: Growing,
    limited: bool,
) -> Option<Growth>
    ensures due { MatchOption result (FitsNoGrowth growing program.now held.now instance values.old.operands)
        (λ g. Due growing program.now held.now instance limited values.old.operands g values.new.operands
        × (0 < values.new.room)) }
    ensures locals { values.new.locals ≡ values.old.locals }
    ensures below { values.new.below ≡ values.old.below }
{
    match growing {
        Growing::Memory(index) => {
            let Some(growth) = memory_growth(program, instance, held, values, index, limited) else {
                return None;
            };
            Some(Growth::Memory(growth))
        }
        Growing::Table(index) => {
            let Some(growth) = table_growth(program, instance, held, values, index, limited) else {
                return None;
            };
            Some(Growth::Table(growth))
        }
    }
}

// The act of a growth that is granted. `OutOfMemory` changes nothing.
pub(crate) fn grow_object(held: &mut Held, growth: Growth) -> Result<(), OutOfMemory>
    requires { MayGrow held.old growth }
    ensures ok { (limited : Bool) (x : IsGrowth held.old limited growth) →
        OnOk result (held.new ≡ grown_by held.old limited growth x) }
    ensures err { OnErr result (held.new ≡ held.old) }
{
    match growth {
        Growth::Memory(memory) => {
            grow_memory(held, &memory)?;
            Ok(())
        }
        Growth::Table(table) => {
            grow_table(held, &table)?;
            Ok(())
        }
    }
}
