//! Values of WebAssembly as C has them: a kind, and 128 bits.
#![tactic(auto)]

mod c_value;
mod given;
mod told;

pub use c_value::{CValue, Kind};
pub use given::value_in;
pub use told::value_out;

#[cfg(test)]
mod tests;
