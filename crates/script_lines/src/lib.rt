//! The lines of replies, of notes and of a hook, as the program prints them.
#![tactic(auto)]

mod hooks;
mod line;
mod pieces;
mod refusals;
mod values;

pub use hooks::append_hooks;
pub use line::{append_line, append_note, append_reply};
