use wasm_types::FuncType;
use wasm_values::{Extern, Refusal, Trap};

/// Why a run ends early.
#[derive(Clone, Copy)]
pub enum Fault {
    Trapped(Trap),
    Refused(Refusal),
    /// The operands fit no rule.
    Stuck,
}

/// A function of the host that code called: its type, the number of its body, and the objects that were stored with it.
#[derive(Clone, Copy)]
pub struct HostCall<'p> {
    pub ty: &'p FuncType,
    pub body: usize,
    pub stored: &'p [Extern],
}

/// What a step comes to, whole.
#[derive(Clone, Copy)]
pub enum Step<'p> {
    Goes,
    /// It goes on behind the check before a function or a round of a loop.
    Checks,
    Fails(Fault),
    /// The outermost function is left, with the innermost operands as its results.
    Done,
    /// A function of the host is called on the topmost operands.
    Calls(HostCall<'p>),
}
