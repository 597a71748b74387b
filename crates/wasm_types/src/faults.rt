ghost use Rattle.wasm_types.specs.declared.faults.OutOfMemory.{OutOfMemory};

use std::alloc::{AllocError, AllocFailed};

/// The allocator had no memory left. No other cause is ever answered as this.
#[derive(Clone, Copy, Debug, PartialEq, Eq)]
pub struct OutOfMemory;

impl From<AllocError> for OutOfMemory {
    fn from(_error: AllocError) -> OutOfMemory {
        OutOfMemory
    }
}

impl<T: Drop> From<AllocFailed<T>> for OutOfMemory {
    fn from(_error: AllocFailed<T>) -> OutOfMemory {
        OutOfMemory
    }
}

/// Why there is no type of the given parts.
#[derive(Clone, Copy, Debug, PartialEq, Eq)]
pub enum TypeFault {
    /// A function type within it belongs to another engine.
    WrongEngine,
    /// The supertype is final, or the parameters or results do not fit it.
    BadSupertype,
    /// The type is nested too deep, or is too large.
    TypeDepth,
    /// The limits of a memory or a table are out of range or out of order.
    BadLimits,
    OutOfMemory,
}
