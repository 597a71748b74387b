//! Calls that pause and go on: that a pause is a stop of the call, and confined as one, that a call with more answers
//! comes by where it was asked, and that a call in slices is the call whole. As lemmas over the definitions of how code
//! runs.
#![tactic(auto)]

pub mod laws;
