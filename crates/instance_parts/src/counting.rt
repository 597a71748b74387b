ghost use Rattle.spec_execution.specs.Instantiation.{counted, new_memory_plan, new_table_plan};
ghost use Rattle.spec_machine.specs.Machine.{Machine};
ghost use Rattle.store_state.specs.Machine.{run_machine};
ghost use Rattle.store_state.specs.Parts.{ProgramParts};
ghost use Rattle.instance_parts.specs.Preparing.{CountsAs, SaysOf};

use store_state::{GrowthRule, Held, memory_rule, table_rule};
use wasm_module::{ModuleDecl, TableDecl};
use wasm_types::{MemoryType, Resource};
use wasm_values::Refusal;

/// Counts the instance, and then its memories and its tables: `ResourceLimit` of the first that would pass its limit.
/// Those that were counted before it stay so.
pub fn raise_counts(held: &mut Held, decl: &ModuleDecl) -> Result<(), Refusal>
    ensures { (base : Machine) (program : ProgramParts) → CountsAs
        (counted (run_machine base program held.old) decl.now) result (run_machine base program held.new) }
{
    if !held.count_instance() {
        return Err(Refusal::ResourceLimit(Resource::Instance));
    }
    if !held.count_memories(decl.memories.len()) {
        return Err(Refusal::ResourceLimit(Resource::Memory));
    }
    if !held.count_tables(decl.tables.len()) {
        return Err(Refusal::ResourceLimit(Resource::Table));
    }
    Ok(())
}

/// What is said of a memory that is to grow from nothing to its minimum, where a limiter is asked or none is.
pub fn new_memory_rule(limited: bool, ty: &MemoryType) -> GrowthRule
    ensures { SaysOf limited (λ m. new_memory_plan m ty.now) result }
{
    memory_rule(limited, ty, 0, ty.minimum())
}

/// What is said of a table that is to grow from nothing to its minimum, where a limiter is asked or none is.
pub fn new_table_rule(limited: bool, table: &TableDecl) -> GrowthRule
    ensures { SaysOf limited (λ m. new_table_plan m table.now.ty) result }
{
    table_rule(limited, &table.ty, 0, table.ty.minimum())
}
