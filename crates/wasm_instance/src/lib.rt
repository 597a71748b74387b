//! Instances: made of modules, and what they export.
#![tactic(auto)]

mod asking;
mod commands;
mod exports;
mod instance_calls;
mod instance_pre;
mod instantiation;
mod making;
mod remaining;

pub use commands::run_instantiate;
pub use exports::Export;
pub use instance_calls::InstanceCalls;
pub use instance_pre::InstancePre;
pub use remaining::Exports;
