use crate::replies::How;
use crate::states::{Open, Waiting};

/// The function of a call that began and has not ended: what is at work, and what waits for it, the innermost last.
#[derive(Drop)]
pub struct Course<'p> {
    pub at_work: Open<'p>,
    pub around: Vec<Waiting<'p>>,
}

/// Where a call stands, or how it ended.
#[derive(Drop)]
pub enum Stage<'p> {
    Stands(Course<'p>),
    Ends(How),
}

/// How far a call went, and how many turns that took.
#[derive(Drop)]
pub struct Staged<'p> {
    pub stage: Stage<'p>,
    pub turns: u64,
}
