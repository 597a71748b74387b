//! A command changes nothing outside of what it reaches, and reads nothing there, as lemmas over the definitions of how code
//! runs.
#![tactic(auto)]

pub mod laws;
