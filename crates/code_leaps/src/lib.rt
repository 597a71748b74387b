//! The loop within code of instances: labels, leaps and calls of guest functions, with nothing asked. It knows no thread:
//! labels, callers, operands and locals are lent to it.
#![tactic(auto)]

mod burst;
mod calls;
mod ends;
mod entries;
mod indices;
mod leap_calls;
mod leaps;
mod rounds;
mod triples;

pub use burst::{Burst, is_frequent};
pub use calls::{Callee, begun_value, find_callee};
pub use indices::find_table;
pub use leaps::perform_leaps;
