use binary_run::BytesPart;
use wasm_binary::BinaryFault;
use wasm_syntax::{Place, Rule};

/// Why no call was made.
#[derive(Clone, Copy, PartialEq, Eq)]
pub enum CallFault {
    /// The turns are 0, or more than 1,000,000,000.
    BadBounds,
    /// The module has more than 2^24 bytes, or the call is given 2^32 bytes or more.
    TooLong,
    /// The bytes are no module in the binary format that this project reads: the first fault.
    BadModule(BinaryFault),
    /// The module breaks a rule: the first one, and where it is broken first.
    InvalidModule { rule: Rule, place: Place },
    /// The module exports no function under the name.
    NoFunction,
    /// The call is given bytes, and this of the module takes none.
    TakesNoBytes(BytesPart),
    /// The arguments are not one for each parameter, a number or a vector of its type, or null where that is among its
    /// values; where the call is given bytes, for each but the last two.
    BadArguments,
    /// Memory ran out, maybe in the call.
    OutOfMemory,
}

impl From<BinaryFault> for CallFault {
    ghost use Rattle.std.specs.Prelude.{◌≡◌};
    ghost use Rattle.binary_call.specs.Calls.{fault_of};

    ghost from_gives = { λ fault called. called ≡ fault_of fault };

    fn from(fault: BinaryFault) -> CallFault {
        match fault {
            BinaryFault::OutOfMemory => CallFault::OutOfMemory,
            _ => CallFault::BadModule(fault),
        }
    }
}
