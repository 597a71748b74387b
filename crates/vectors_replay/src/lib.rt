//! The tests of recording what a run asks outside, and of running it again from the record.
#![tactic(auto)]

#[cfg(test)]
mod tests;
