//! The arithmetic of the operators on integers, as functions from slots to slots.
//!
//! A slot is 64 bits. It holds an `i64` as its bits, and an `i32` as its bits below 32 zeros.
#![tactic(auto)]

mod one_operand;
mod signed32;
mod signed64;
mod trap;
mod two_operands;

pub use one_operand::unary;
pub use trap::ArithTrap;
pub use two_operands::{binary, binary32, binary64, takes_two_wide};
