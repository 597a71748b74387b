//! Sessions over bytes in memory: a script in, its lines out.
#![tactic(auto)]

mod runs;

pub use runs::{Ran, run};

#[cfg(test)]
mod tests;
