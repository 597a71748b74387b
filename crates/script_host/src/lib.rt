//! The host of a script: its bodies are lists of actions, and it keeps the notes that they take.
#![tactic(auto)]

mod host;
mod notes;
mod steps;

pub use host::ScriptHost;
pub use notes::Sight;
