//! The validator's walk over code: the index spaces of a module, and whether the code of a function is well typed.
#![tactic(auto)]

mod code;
mod control;
mod imported;
mod labels;
mod named;
mod nested;
mod numbers;
mod operand;
mod operands;
mod places;
mod plain;
mod reach;
mod spaces;
mod stack;
mod tables;
mod types_of;
mod variables;
mod walk;

pub use spaces::Spaces;
pub use walk::body_is_typed;
