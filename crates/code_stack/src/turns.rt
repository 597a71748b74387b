use crate::steps::{Fault, HostCall};

/// How a run of code ended, or where it stands.
#[derive(Clone, Copy)]
pub enum Ending<'p> {
    Fails(Fault),
    /// The outermost function is left, with the innermost operands as its results.
    Done,
    /// A function of the host was called, and the code waits for its results.
    Calls(HostCall<'p>),
    /// Another turn is due, and none is left.
    Limit,
    /// There was no memory.
    Exhausted,
}

/// A run that ended or stands, and how many turns it took.
#[derive(Clone, Copy)]
pub struct Ended<'p> {
    pub how: Ending<'p>,
    pub spent: u64,
}

/// What an instruction came to with its turns.
#[derive(Clone, Copy)]
pub enum Turn<'p> {
    Goes,
    /// The check before a function or a round of a loop is due.
    Checks,
    Ends(Ending<'p>),
}
