//! What a linker holds: objects under pairs of names, with nothing of a store.
#![tactic(auto)]

mod entries;
mod faults;
pub mod laws;
mod linker_map;
mod resolving;

pub use faults::LinkFault;
pub use linker_map::LinkerMap;
pub use resolving::ExternList;
