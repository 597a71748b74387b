ghost use Rattle.std.specs.Prelude.{◌≡◌, IfOk};

use spec_machine::{Op, ValList};
use std::alloc::Global;
use wasm_types::OutOfMemory;

/// Why the body of a host function is stepped.
#[derive(Clone, Copy, PartialEq, Eq, Debug)]
pub enum Event {
    /// The function was entered.
    Start,
    /// The operation that it asked for was replied to.
    Replied,
}

/// What a step of a host function's body comes to.
#[derive(Drop)]
pub enum Answer {
    /// The function returns these values.
    Return(ValList),
    /// The function fails.
    Fail,
    /// An operation is to be done; its reply is seen by the next step.
    Call(Op),
}

impl Answer {
    /// A copy of the answer.
    pub fn copy(&self, alloc: Global) -> Result<Answer, OutOfMemory>
        ensures { IfOk result (λ copy. copy ≡ self.now) }
    {
        match self {
            Answer::Return(values) => Ok(Answer::Return(values.copy(alloc)?)),
            Answer::Fail => Ok(Answer::Fail),
            Answer::Call(op) => Ok(Answer::Call(op.copy(alloc)?)),
        }
    }
}
