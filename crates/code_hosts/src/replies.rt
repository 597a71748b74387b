use wasm_objects::RawVal;
use wasm_values::{Refusal, Trap};

/// How a call ended.
#[derive(Drop)]
pub enum How {
    /// The function returned these values, in order.
    Returned(Vec<RawVal>),
    Trapped(Trap),
    Refused(Refusal),
    /// Another turn was due, and none was left.
    TurnLimit,
    /// The operands fit no rule.
    Stuck,
}

/// How a call ended, and how many turns it took.
#[derive(Drop)]
pub struct Reply {
    pub how: How,
    pub turns: u64,
}

/// There was no memory after so many turns.
#[derive(Clone, Copy)]
pub struct Unfinished {
    pub turns: u64,
}
