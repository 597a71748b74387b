//! A cursor over bytes, and the numbers and names of WebAssembly's binary format at its front.
#![tactic(auto)]

mod cursor;
pub mod laws;
mod numbers;

pub use cursor::Cursor;
