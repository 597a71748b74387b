//! What a host can rely on of instances: of their exports, and of their code.
#![tactic(auto)]

pub mod laws;
