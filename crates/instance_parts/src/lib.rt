//! New instances apart from their store's host: what is asked of the objects for their imports, what is counted, and asked
//! by rule, before one is made, its objects, and the turn that makes it with its segments.
#![tactic(auto)]

mod constants;
mod counting;
mod imports;
mod making;
mod objects;
mod segments;
mod spaces;
mod taking;

pub use counting::{new_memory_rule, new_table_rule, raise_counts};
pub use imports::check_imports;
pub use making::{Ending, Made, make_instance};
