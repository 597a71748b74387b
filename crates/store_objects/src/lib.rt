//! The objects of a store, and all work on them that does not need the host's own types.
#![tactic(auto)]

mod calls;
mod fuel_calls;
mod func_calls;
mod global_calls;
mod links;
mod memory_calls;
mod node;
mod objects;
mod references;
mod sharing;
mod table_calls;
mod tag_calls;
mod value_calls;

pub use node::Node;
pub use objects::{ObjectParts, Objects};
pub use sharing::SharedProgram;
