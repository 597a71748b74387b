//! The tests of what a host does with a linker.
#![tactic(auto)]

#[cfg(test)]
mod tests;
