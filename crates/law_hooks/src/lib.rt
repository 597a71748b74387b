//! What a host can rely on of its call hook: the events that it hears lie in brackets, and only what is set is asked. As
//! lemmas over the definitions of how code runs.
#![tactic(auto)]

pub mod laws;
