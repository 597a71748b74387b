//! Where the bytes of a session come from and go to, with faults that are counted.
#![tactic(auto)]

mod bytes_sink;
mod bytes_source;
mod copies;
mod input;
mod sink;
mod source;
mod standard;

pub use bytes_sink::BytesSink;
pub use bytes_source::BytesSource;
pub use input::{InputFault, LIMIT, read_input};
pub use sink::{Sink, SinkFailed, write_all};
pub use source::{Source, SourceFailed};
pub use standard::{StdSink, StdSource};
