//! The tests of the types and the objects of a store: what no clause says, as that what takes memory is done where
//! there is memory.
#![tactic(auto)]

#[cfg(test)]
mod tests;
