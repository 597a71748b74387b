use wasm_values::Val;

/// How a command names an object, a value or an instance.
#[derive(Clone, Copy, PartialEq, Eq)]
pub enum Name {
    /// The reply at this place, counted from 0.
    Reply(usize),
    /// Of the reply at the first place, the value at the second one, both counted from 0.
    Value(usize, usize),
    /// The argument at this place of the call that a host function answers.
    Arg(usize),
    /// The object at this place that was stored with the host function.
    Stored(usize),
    /// The instance whose code called the host function.
    Caller,
}

/// A value that a command is given: itself, or by a name.
#[derive(Clone, Copy)]
pub enum Operand {
    Val(Val),
    Named(Name),
}
