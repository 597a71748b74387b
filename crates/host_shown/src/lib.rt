//! A host that hands out no function but those that its bodies were shown.
#![tactic(auto)]

pub mod laws;
mod showing;
mod shown;

pub use shown::Shown;
