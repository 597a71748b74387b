//! What a host that runs several guests in one store can rely on, over all that it does with the store, one after another;
//! and the laws of confinement and sight for commands that bodies of the host ask for, as lemmas over the definitions of
//! how code runs.
#![tactic(auto)]

pub mod laws;
