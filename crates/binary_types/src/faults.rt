use wasm_types::{OutOfMemory, TypeFault};

/// Why bytes spell no module. The place is how many bytes lie before what is wrong.
#[derive(Clone, Copy, Debug, PartialEq, Eq)]
pub enum BinaryFault {
    /// The bytes are in the grammar in no way.
    Malformed,
    /// All before `at` is in the grammar, and the code there is none of those that may stand there.
    Unsupported { at: usize, code: u64 },
    /// The number there names no type.
    Index { at: usize },
    /// The alignment there is greater than the width of the access.
    Alignment { at: usize },
    /// There is no type of the parts that begin there.
    Refused { at: usize, fault: TypeFault },
    OutOfMemory,
}

impl From<OutOfMemory> for BinaryFault {
    ghost use Rattle.std.specs.Prelude.{◌≡◌};
    ghost use Rattle.binary_types.specs.declared.faults.BinaryFault.TheVariants as fault;

    ghost from_gives = { λ _ e. e ≡ fault.OutOfMemory };

    fn from(_error: OutOfMemory) -> BinaryFault {
        BinaryFault::OutOfMemory
    }
}
