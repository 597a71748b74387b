//! Modules from bytes: WebAssembly's binary format, read from left to right.
#![tactic(auto)]

mod bodies;
mod content;
mod modules;
mod sections;
mod walk;

pub use binary_types::BinaryFault;
pub use modules::read_module;
pub use wasm_syntax::ModuleDecl;
pub use wasm_types::EngineId;
