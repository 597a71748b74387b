//! Operations on a tape as JSON data: how each of them is written.
#![tactic(auto)]

mod calls;
mod globals;
mod instances;
mod limits;
mod memories;
mod operation;
mod tables;

pub use operation::op_value;
