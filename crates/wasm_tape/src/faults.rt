/// Why a tape is not written as JSON data, or data not read as a tape.
#[derive(Clone, Copy, Debug, PartialEq, Eq)]
pub enum TapeFault {
    /// A function type on the tape is none of the types that have a number.
    UnknownType,
    /// The data is no tape over the types.
    BadTape,
    /// The allocator had no memory left.
    OutOfMemory,
}
