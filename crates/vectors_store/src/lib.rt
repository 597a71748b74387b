//! The tests of stores: each call of a host on what it owns, once where there is memory, and what no clause says.
#![tactic(auto)]

#[cfg(test)]
mod tests;
