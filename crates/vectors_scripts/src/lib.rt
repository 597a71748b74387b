//! The tests of modules as JSON data: texts of sessions whose modules are read and validated.
#![tactic(auto)]

#[cfg(test)]
mod tests;
