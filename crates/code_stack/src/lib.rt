//! What a run of code works on: the operands of the open labels and the locals of the open frames, each in one row; the
//! labels and the callers around the code that runs; and the words for what a step, a turn and a run come to.
#![tactic(auto)]

mod indices;
mod layers;
mod moves;
mod row;
mod rules;
mod stack;
mod steps;
mod turns;
mod values;

pub use indices::item;
pub use layers::{Activation, Caller, Label, Layer, Opening};
pub use moves::{copy_value, copy_value_from};
pub use row::{Row, Rows};
pub use rules::Rules;
pub use stack::Stack;
pub use steps::{Fault, HostCall, Step};
pub use turns::{Ended, Ending, Turn};
pub use values::Values;
