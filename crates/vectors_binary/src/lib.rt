//! The tests of the binary format: its numbers, its declarations, its code, whole modules, and the program over them. They
//! stand apart from the crates that they try, since a crate with tests of its own is proved twice.
#![tactic(auto)]

#[cfg(test)]
mod tests;
