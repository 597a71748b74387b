ghost use Rattle.std.specs.Prelude.{◌≡◌, ◌+◌, ◌-◌, ◌^◌, Bool, MatchOption, OnOk, OnErr};
ghost use Rattle.wasm_types.specs.Memories.{Memory as MemoryParts};
ghost use Rattle.wasm_objects.specs.Tables.{Table as TableParts};
ghost use Rattle.spec_execution.specs.Bodies as bodies;
ghost use Rattle.spec_execution.specs.Operands as on;
ghost use Rattle.code_straight.specs.Growing.{FitsNone, DueMemory, DueTable, MayGrowMemory, MayGrowTable, IsMemoryGrowth, IsTableGrowth, grown_memory, grown_table};

use code_stack::Values;
use store_state::{GrowthRule, Held, Program, rule_of_memory, rule_of_table};
use wasm_objects::{RawRef, RawVal};
use wasm_types::OutOfMemory;

/// A memory that is to grow, by its number in the store: by how many pages, how many it has, and what the rule says.
#[derive(Clone, Copy)]
pub struct MemoryGrowth {
    pub memory: usize,
    pub delta: u32,
    pub before: u32,
    pub rule: GrowthRule,
}

/// A table that is to grow, by its number in the store: by how many elements, each of them `value`, how many it
/// has, and what the rule says.
#[derive(Clone, Copy)]
pub struct TableGrowth {
    pub table: usize,
    pub delta: u32,
    pub value: RawRef,
    pub before: u32,
    pub rule: GrowthRule,
}

/// Takes the operand of `memory.grow`, and says what is due of it, where there is a limiter or none. `None` where the
/// operands or the index do not fit.
pub fn memory_growth(
    program: &Program,
    instance: usize,
    held: &Held,
    values: &mut Values,
    index: u32,
    limited: bool,
) -> Option<MemoryGrowth>
    ensures due { MatchOption result
        (FitsNone bodies.memory_grow program.now held.now instance index values.old.operands)
        (λ g. DueMemory program.now held.now instance index limited values.old.operands g values.new.operands
        × (values.new.room ≡ values.old.room + 1)) }
    ensures locals { values.new.locals ≡ values.old.locals }
    ensures below { values.new.below ≡ values.old.below }
{
    let Some(delta) = values.pop_i32() else {
        return None;
    };
    let Some(number) = program.memory_number(instance, index) else {
        return None;
    };
    let Some(memory) = held.memory(number) else {
        return None;
    };
    let said = rule_of_memory(limited, memory, u64::from(delta));
    Some(MemoryGrowth {
        memory: number,
        delta,
        before: said.before,
        rule: said.rule,
    })
}

/// Takes the operands of `table.grow`, and says what is due of it, where there is a limiter or none. `None` where the
/// operands or the index do not fit.
pub fn table_growth(
    program: &Program,
    instance: usize,
    held: &Held,
    values: &mut Values,
    index: u32,
    limited: bool,
) -> Option<TableGrowth>
    ensures due { MatchOption result
        (FitsNone bodies.table_grow program.now held.now instance index values.old.operands)
        (λ g. DueTable program.now held.now instance index limited values.old.operands g values.new.operands
        × (values.new.room ≡ values.old.room + 2)) }
    ensures locals { values.new.locals ≡ values.old.locals }
    ensures below { values.new.below ≡ values.old.below }
{
    let Some(delta) = values.pop_i32() else {
        return None;
    };
    let Some(value) = values.pop_reference() else {
        return None;
    };
    let Some(number) = program.table_number(instance, index) else {
        return None;
    };
    let Some(table) = held.table(number) else {
        return None;
    };
    let said = rule_of_table(limited, table, u64::from(delta));
    Some(TableGrowth {
        table: number,
        delta,
        value,
        before: said.before,
        rule: said.rule,
    })
}

/// Adds the pages of a growth that is granted. `OutOfMemory` changes nothing.
pub fn grow_memory(held: &mut Held, growth: &MemoryGrowth) -> Result<(), OutOfMemory>
    requires { MayGrowMemory held.old growth.now }
    ensures ok { (limited : Bool) (x : MemoryParts) → IsMemoryGrowth held.old limited growth.now x →
        OnOk result (held.new ≡ grown_memory held.old x growth.now) }
    ensures err { OnErr result (held.new ≡ held.old) }
{
    held.grow_memory(growth.memory, growth.delta as usize)?;
    Ok(())
}

/// Adds the elements of a growth that is granted. `OutOfMemory` changes nothing.
pub fn grow_table(held: &mut Held, growth: &TableGrowth) -> Result<(), OutOfMemory>
    requires { MayGrowTable held.old growth.now }
    ensures ok { (limited : Bool) (x : TableParts) → IsTableGrowth held.old limited growth.now x →
        OnOk result (held.new ≡ grown_table held.old x growth.now) }
    ensures err { OnErr result (held.new ≡ held.old) }
{
    held.grow_table(growth.table, growth.delta as usize, growth.value)?;
    Ok(())
}

/// What an instruction of growth gives where it grew: the size before, as an operand.
pub fn granted_growth(before: u32) -> RawVal
    ensures { result ≡ on.integer 32 before }
{
    RawVal::I32(before.cast_signed())
}

/// What an instruction of growth gives where it failed, as an operand.
pub fn failed_growth() -> RawVal
    ensures { result ≡ on.integer 32 (2 ^ 32 - 1) }
{
    RawVal::I32(-1)
}
