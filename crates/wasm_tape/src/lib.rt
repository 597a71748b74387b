//! A record of what a run asked outside, and how it is written as JSON data and read again.
#![tactic(auto)]

mod answer_reader;
mod answer_writer;
mod entries_reader;
mod entries_writer;
mod faults;
pub mod laws;
mod tape;
mod tape_json;

pub use faults::TapeFault;
pub use law_replay::TapedStep;
pub use tape::Tape;
