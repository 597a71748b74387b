use spec_machine::Reply;
use wasm_objects::RawVal;

/// A function that is to be called: its number in the store, and its arguments.
#[derive(Drop)]
pub struct Invoked {
    pub function: usize,
    pub arguments: Vec<RawVal>,
}

/// What an operation that a step asked for comes to.
#[derive(Drop)]
pub enum Operated {
    Replies(Reply),
    /// Its conditions hold, and a function is to be called.
    Invokes(Invoked),
    /// No turn is left: for the operation, or for the step that its reply would go to.
    Limit,
}

/// What an operation that a step asked for came to, and how many turns it took.
#[derive(Drop)]
pub struct Operation {
    pub what: Operated,
    pub spent: u64,
}
