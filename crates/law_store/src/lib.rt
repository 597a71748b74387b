//! What every call keeps of a store, as lemmas over the written machine: a store that is well formed stays so, no memory
//! or table shrinks, every object keeps its type, and what is set is what is read.
#![tactic(auto)]

pub mod laws;
