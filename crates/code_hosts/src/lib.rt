//! A call from outside of all code, where the host has bodies: functions of the host among those of instances.
#![tactic(auto)]

mod answer_part;
mod body_end;
mod body_entry;
mod body_part;
mod body_replies;
mod borders;
mod bounds;
mod call_part;
mod calls;
mod code_part;
mod context;
mod courses;
mod end_part;
mod entering;
mod function_entry;
mod going;
mod leaving;
mod operation_part;
mod operations;
mod parts;
mod replies;
mod rounds;
mod saying;
mod states;
mod steps;
mod surroundings;

pub use bounds::Bounds;
pub use calls::run_from_outside;
pub use context::RunContext;
pub use courses::{Course, Stage, Staged};
pub use entering::enter;
pub use going::go;
pub use leaving::leave;
pub use operations::{Invoked, Operated, Operation};
pub use replies::{How, Reply, Unfinished};
pub use rounds::{Lack, Lacking};
pub use saying::say;
pub use states::{Open, Waiting};
pub use surroundings::HostSurroundings;
