//! Commands in order on a store and over the modules of a session, with a reply for each.
#![tactic(auto)]

mod commands;
pub mod laws;
mod replies;

pub use commands::{Unfinished, run_command, run_commands};
pub use replies::Replies;
pub use spec_machine::Command;
