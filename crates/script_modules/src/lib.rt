//! Modules as JSON data: their declarations as scripts spell them.
#![tactic(auto)]

mod access_names;
mod code;
mod code_parts;
mod constants;
mod entries;
mod exports;
mod functions;
mod immediates;
mod imports;
mod indices;
mod instr_names;
mod instructions;
mod kinds;
pub mod laws;
mod modules;
mod operator_names;
mod segments;
mod texts;

pub use modules::{read_module, read_modules};
pub use texts::line;
