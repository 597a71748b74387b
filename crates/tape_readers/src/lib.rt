//! Operations on a tape as JSON data: how each of them is read.
#![tactic(auto)]

mod calls;
mod globals;
mod instances;
mod limits;
mod memories;
mod operation;
mod tables;

pub use operation::op;
