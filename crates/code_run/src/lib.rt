//! The interpreter: frames and labels that compute what the definitions say of code. A thread runs guest code until it
//! ends or calls a function of the host; bodies of the host, and the hooks at the borders, are its caller's.
#![tactic(auto)]

mod blocks;
mod bulk;
mod calls;
mod checks;
mod context;
mod control;
mod decisions;
mod endings;
mod growth_turns;
mod growths;
mod indirect;
mod instructions;
mod pauses;
mod rounds;
mod spins;
mod starts;
mod steps;
mod straight;
mod surroundings;
mod thread;
mod turns;

pub use code_stack::{Ended, Ending, Fault, HostCall, Rules};
pub use context::CodeContext;
pub use starts::{Started, start};
pub use surroundings::Surroundings;
pub use thread::Thread;
pub use turns::Went;
