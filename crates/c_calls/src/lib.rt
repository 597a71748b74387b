//! Calls of modules in the binary format with values as C has them.
#![tactic(auto)]

mod bounds;
mod calls;
mod codes;
mod ends;
mod values;

pub use bounds::{CBounds, bounds_in};
pub use calls::{call, call_bytes};
pub use ends::{Called, End};
