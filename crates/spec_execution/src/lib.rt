//! How code runs: single instructions, structured code, calls of guest and host functions, and what is asked of the
//! outside on the way, as definitions; and the plain types that they speak of. The definitions stand in `specs/`.
#![tactic(auto)]

mod answer;

pub use answer::{Answer, Event};
