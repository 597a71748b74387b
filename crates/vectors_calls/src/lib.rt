//! The tests of what a host does with functions and instances: calls, exports, operations and commands.
#![tactic(auto)]

#[cfg(test)]
mod tests;
