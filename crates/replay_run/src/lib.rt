//! Records and replays of sessions: a script in, its tape and its lines out, and a tape and a script in, its lines out.
#![tactic(auto)]

mod host;
mod input;
pub mod laws;
mod lines;
mod main_call;
mod prepared;
mod recording;
mod replaying;
mod status;
mod stores;
mod way;

pub use host::SessionHost;
pub use main_call::replay_main;
pub use status::Status;
pub use wasm_meter::{CountEpochs, EpochFailed, EpochSource};
pub use wasm_run::Status as SessionStatus;
pub use wasm_streams::{
    BytesSink, BytesSource, Sink, SinkFailed, Source, SourceFailed, StdSink, StdSource,
};
pub use way::Way;
