//! Guests of one store that cannot meet: each is loaded over imports that lead to nothing of another's, and what one
//! of them does changes nothing that another reaches.
#![tactic(auto)]

mod checks;
mod faults;
mod foreign;
mod meeting;
mod plugins;

pub use faults::PluginFault;
pub use host_shown::Shown;
pub use plugins::Plugins;
pub use store_reach::{Node, NodeSet, reach_of};
