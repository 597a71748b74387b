//! The code of a module in WebAssembly's binary format, read from left to right.
#![tactic(auto)]

mod access_codes;
mod block_types;
mod bodies;
mod code;
mod code_parts;
mod code_types;
mod context;
mod forms;
mod instr_codes;
mod instructions;
mod locals;
mod nesting;
mod operator_codes;
mod section;
mod targets;

pub use context::CodeContext;
pub use section::{Functions, code_section};
