//! Linking by names: a linker holds objects under pairs of names, and instantiates modules over those that their
//! imports name.
#![tactic(auto)]

mod exporting;
mod in_place;
pub mod laws;
mod linker;

pub use linker::Linker;
pub use linker_map::{ExternList, LinkFault};
