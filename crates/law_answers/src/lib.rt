//! What the answers of a host decide of a run: a run is a dialogue, in which each question depends on the answers before
//! it alone. As lemmas over the definitions of how code runs.
#![tactic(auto)]

pub mod laws;
