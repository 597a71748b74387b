//! What is reached in a store from some of its objects, computed: the objects that a guest can come to, so that a host
//! can keep guests apart.
#![tactic(auto)]

mod links;
mod marks;
mod node_set;
mod reaching;

pub use node_set::NodeSet;
pub use reaching::reach_of;
pub use wasm_store::Node;
