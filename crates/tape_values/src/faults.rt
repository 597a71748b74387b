ghost use Rattle.std.specs.Prelude.{◌≡◌};
ghost use Rattle.tape_values.specs.declared.faults.WriteFault.{WriteFault};

use std::alloc::{AllocError, AllocFailed};

/// Why something is not written as JSON data.
#[derive(Clone, Copy, Debug, PartialEq, Eq)]
pub enum WriteFault {
    /// A function type in it is none of the types that have a number.
    UnknownType,
    /// The allocator had no memory left.
    OutOfMemory,
}

impl From<AllocError> for WriteFault {
    ghost from_gives = { λ _ y. y ≡ WriteFault.OutOfMemory };

    fn from(_error: AllocError) -> WriteFault {
        WriteFault::OutOfMemory
    }
}

impl<T: Drop> From<AllocFailed<T>> for WriteFault {
    ghost from_gives = { λ _ y. y ≡ WriteFault.OutOfMemory };

    fn from(_error: AllocFailed<T>) -> WriteFault {
        WriteFault::OutOfMemory
    }
}
