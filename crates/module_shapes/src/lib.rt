//! Whether the blocks of a function are a tree below its body, within the limits.
#![tactic(auto)]

mod counts;
mod heights;
mod shape;
mod sizes;

pub use shape::has_shape;
