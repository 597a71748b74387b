//! Runs, sessions and calls for C, and so for Rust, Python and Go.
#![tactic(auto)]

mod call;
mod called;
mod ran;
mod run;
mod session;

pub use call::{mullerpink_call, mullerpink_call_bytes};
pub use called::MullerpinkCalled;
pub use ran::MullerpinkRan;
pub use run::mullerpink_run;
pub use session::mullerpink_session;

#[cfg(test)]
mod tests;
