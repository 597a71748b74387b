//! What a store is made of: what a run of code reads (functions and instances), what it changes (memories, tables,
//! globals, tags, segments, fuel, deadline and counts), the engine, the one rule by which memories and tables grow, and
//! references and values as a place of a store holds them.
#![tactic(auto)]

mod additions;
mod engine;
mod flags;
mod function;
mod growth;
mod held;
mod instance;
mod lists;
mod memories;
mod object_list;
mod places;
mod program;
mod segments;
mod tables;
mod tank;

pub use additions::{NewObjects, add_objects};
pub use engine::Engine;
pub use flags::Flags;
pub use function::{Function, FunctionKind};
pub use growth::{
    Growable, GrowthQuestion, GrowthRule, SizedRule, memory_rule, rule_of_memory, rule_of_table,
    table_rule,
};
pub use held::Held;
pub use instance::Instance;
pub use places::{func_fits, raw_given, raw_val, ref_at, val_at};
pub use program::Program;
pub use segments::Segments;
