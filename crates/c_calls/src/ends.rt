use binary_call::CallFault;
use wasm_values::Refusal;

/// How a call ended.
#[derive(Clone, Copy, PartialEq, Eq)]
pub enum End {
    /// It came to its end, and its results, or the bytes that it answered, were written.
    Values,
    /// It came to its end with more of them than there is room for. Nothing was written.
    NoRoom,
    /// The number of an argument's kind is none, or a bit of it is set that its kind has not. No call was made.
    BadValue,
    /// It ended in a trap, or was refused.
    Refused(Refusal),
    /// No call was made, or memory ran out.
    Fault(CallFault),
}

/// How a call ended, and how many results, or bytes, it has: 0 but with `Values` and `NoRoom`.
#[derive(Clone, Copy, PartialEq, Eq)]
pub struct Called {
    pub end: End,
    pub count: usize,
}
