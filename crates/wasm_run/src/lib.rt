//! Sessions: a script in, its lines out.
#![tactic(auto)]

mod lines;
mod main_call;
mod modules;
mod noting;
mod session;
mod status;
mod store;
mod summary;
mod tasks;

pub use lines::write_last;
pub use main_call::session_main;
pub use modules::validate_all;
pub use script_data::{BehaviourCall, HookCall, ScriptBehaviour, ScriptData, ScriptHook};
pub use script_generated::Origin;
pub use script_host::ScriptHost;
pub use session::Session;
pub use status::Status;
pub use store::{ScriptStore, new_engine};
pub use wasm_meter::{
    BehaviourFailed, CallHook, CountEpochs, EpochFailed, EpochSource, HookFailed, ListEpochs,
    UpdateDeadline,
};
pub use wasm_session::Replies;
pub use wasm_store::Store;
pub use wasm_streams::{
    BytesSink, BytesSource, Sink, SinkFailed, Source, SourceFailed, StdSink, StdSource,
};
