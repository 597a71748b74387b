//! Runs of modules in the binary format over bytes in memory.
#![tactic(auto)]

mod runs;
mod words;

pub use runs::{Ran, run};

#[cfg(test)]
mod tests;
