//! What can be reached from objects of a store, and when two stores are the same outside or inside of what is reached, as
//! definitions over the machine alone; and the law that reach is the least set that is closed.
#![tactic(auto)]

pub mod laws;
