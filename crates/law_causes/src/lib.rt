//! What a host can rely on of refusals by what is outside of a store: each has its cause in what was heard, as lemmas over
//! the definitions of how code runs.
#![tactic(auto)]

pub mod laws;
