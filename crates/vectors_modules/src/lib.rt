//! The tests of modules and of what they are made of: the validator, the typing of code, and the operators on integers.
#![tactic(auto)]

#[cfg(test)]
mod tests;
