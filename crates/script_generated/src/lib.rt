//! Sessions that are not read but made: the words that ask for one, its script, and the summary of its replies.
#![tactic(auto)]

mod commands;
pub mod laws;
mod module;
mod script;
mod summary;
mod words;

pub use script::generated_script;
pub use summary::summary_of;
pub use words::{Origin, origin_of};
