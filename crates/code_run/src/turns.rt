use code_stack::{Ended, Turn};

/// What a slice of a run came to.
#[derive(Clone, Copy)]
pub enum Went<'p> {
    /// The run ended, or stands where its caller is to do something.
    Ends(Ended<'p>),
    /// It pauses before a check, so many turns on. The next slice begins with that check.
    Pauses(u64),
}

/// How many turns may be taken, and behind how many of them a check is come back for, even if it would pass.
#[derive(Clone, Copy)]
pub(crate) struct Allowance {
    pub(crate) left: u64,
    pub(crate) slice: u64,
}

/// What an instruction came to, how many turns it took, and how much fuel is consumed that was not taken yet.
#[derive(Clone, Copy)]
pub(crate) struct Turned<'p> {
    pub(crate) what: Turn<'p>,
    pub(crate) spent: u64,
    pub(crate) owed: u64,
}
