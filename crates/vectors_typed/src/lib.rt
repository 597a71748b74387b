//! The tests of calls by static types of the host, and of closures as functions of the host.
#![tactic(auto)]

#[cfg(test)]
mod tests;
