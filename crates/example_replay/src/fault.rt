use std::alloc::AllocError;
use wasm_embedding::OutOfMemory;
use wasm_tape::TapeFault;

/// Why nothing more is told.
#[derive(Clone, Copy, Debug, PartialEq, Eq)]
pub(crate) enum Fault {
    /// The text spells no session, or a module in it is not valid.
    NoSession,
    /// No tape came of the run.
    NoTape,
    /// The commands did not all finish.
    Unfinished,
    /// The tape is not written, or the text is no tape.
    Tape(TapeFault),
    OutOfMemory,
}

impl From<AllocError> for Fault {
    fn from(_: AllocError) -> Fault {
        Fault::OutOfMemory
    }
}

impl From<OutOfMemory> for Fault {
    fn from(_: OutOfMemory) -> Fault {
        Fault::OutOfMemory
    }
}

impl From<TapeFault> for Fault {
    fn from(fault: TapeFault) -> Fault {
        Fault::Tape(fault)
    }
}
