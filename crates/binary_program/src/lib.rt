//! The program over bytes: a module in WebAssembly's binary format in, one line about it out.
#![tactic(auto)]

mod lines;
mod main_call;
mod status;

pub use main_call::binary_main;
pub use status::BinaryStatus;
pub use wasm_streams::{
    BytesSink, BytesSource, Sink, SinkFailed, Source, SourceFailed, StdSink, StdSource,
};
