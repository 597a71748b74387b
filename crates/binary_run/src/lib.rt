//! Runs of modules in the binary format: words and bytes in, the line of one call out.
#![tactic(auto)]

mod arguments;
mod calls;
mod exports;
mod main_call;
mod numbers;
mod options;
mod parts;
mod running;
mod status;
mod taking;
mod words;

pub use calls::ReadCall;
pub use exports::exported_function;
pub use main_call::run_main;
pub use options::{OptionName, Options};
pub use running::{run_call, verdict};
pub use status::{BytesPart, Status};
pub use taking::taking_bytes;
pub use wasm_meter::{CountEpochs, EpochFailed, EpochSource};
pub use wasm_streams::{
    BytesSink, BytesSource, Sink, SinkFailed, Source, SourceFailed, StdSink, StdSource,
};
