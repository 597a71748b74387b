//! What a host can conclude of its calls and instantiations from their own clauses.
#![tactic(auto)]

pub mod laws;
