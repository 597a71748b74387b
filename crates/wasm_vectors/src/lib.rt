//! The sources, sinks and calls that the tests of sessions share.
#![tactic(auto)]

mod calm;
mod one_byte;
mod runs;
mod slow_writer;

pub use calm::{CalmSink, CalmSource, run_calmly};
pub use one_byte::{OneByteSink, OneByteSource};
pub use runs::{Kept, Run, owned_words, repeated, run_between, run_script, run_with, run_words};
pub use slow_writer::SlowWriter;
