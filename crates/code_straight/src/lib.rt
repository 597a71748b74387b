//! Instructions that lead to no other code: what each does to what a run holds and to its values, and the steps of a
//! growth.
#![tactic(auto)]

mod acted;
pub mod frames;
mod growing;
mod instructions;
mod loads;
mod memories;
mod numbers;
mod objects;
mod operands;
mod stores;
mod tables;
mod variables;

pub use acted::{Acted, done_or};
pub use growing::{
    MemoryGrowth, TableGrowth, failed_growth, granted_growth, grow_memory, grow_table,
    memory_growth, table_growth,
};
pub use instructions::act;
pub use objects::{memory_at, table_at};
