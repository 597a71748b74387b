//! The rules of a declaration but the one on the names of exports: for each, the first place where it is broken.
#![tactic(auto)]

mod bodies;
mod consts;
mod elements;
mod engines;
mod expressions;
mod indices;
mod locals;
mod shapes;
mod sizes;
mod starts;
mod walk;

pub use bodies::body;
pub use consts::constants;
pub use elements::element;
pub use engines::engine;
pub use indices::index;
pub use locals::local;
pub use shapes::shape;
pub use sizes::size;
pub use starts::start;
