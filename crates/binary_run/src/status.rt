ghost use Rattle.std.specs.Prelude.{◌≡◌};
ghost use Rattle.binary_run.specs.StatusNames as names;

use std::fmt;
use wasm_binary::BinaryFault;
use wasm_syntax::{Place, Rule};

/// What of a module takes no bytes.
#[derive(Clone, Copy, PartialEq, Eq)]
pub enum BytesPart {
    /// It exports no memory `memory`.
    Memory,
    /// It exports no function `alloc` of an integer of 32 bits to one.
    Alloc,
    /// The function has no two such integers behind its other parameters, or answers no integer of 32 or 64 bits alone.
    Function,
}

impl BytesPart {
    fn text(self) -> &'static str
        ensures { result.now ≡ names.part_text self }
    {
        match self {
            BytesPart::Memory => "memory",
            BytesPart::Alloc => "alloc",
            BytesPart::Function => "function",
        }
    }
}

/// How a run ended. It prints as its name; bytes that spell no module as what is wrong with them, and a module that is not
/// valid as in a session of it.
#[derive(Clone, Copy, PartialEq, Eq)]
pub enum Status {
    /// The line of the call was written, and the sink was flushed after it.
    Done,
    /// The words ask for no call.
    BadWords,
    /// The source failed.
    ReadFault,
    /// The input has more than 2^24 bytes.
    TooLong,
    /// The input is no module in the binary format that this project reads: the first fault.
    BadModule(BinaryFault),
    /// The module breaks a rule: the first one, and where it is broken first.
    InvalidModule { rule: Rule, place: Place },
    /// The module exports no function under the name.
    NoFunction,
    /// The call is given bytes, and this of the module takes none.
    TakesNoBytes(BytesPart),
    /// The arguments are not one integer for each parameter, or a parameter is of another type; where the call is given
    /// bytes, for each but the last two.
    BadArguments,
    /// Memory ran out. Nothing was written.
    OutOfMemory,
    /// The sink failed. What was written is a front of the line.
    WriteFault,
}

impl From<BinaryFault> for Status {
    ghost use Rattle.binary_run.specs.Calls.{status_of};

    ghost from_gives = { λ fault status. status ≡ status_of fault };

    fn from(fault: BinaryFault) -> Status {
        match fault {
            BinaryFault::OutOfMemory => Status::OutOfMemory,
            _ => Status::BadModule(fault),
        }
    }
}

impl Status {
    /// The exit status of the program: 0 for `Done`, else 2 to 10 or 13.
    pub fn exit_code(self) -> u8
        ensures { result ≡ names.exit_code self }
    {
        match self {
            Status::Done => 0,
            Status::BadWords => 2,
            Status::ReadFault => 3,
            Status::TooLong => 4,
            Status::BadModule(_) => 5,
            Status::NoFunction => 6,
            Status::InvalidModule { .. } => 7,
            Status::OutOfMemory => 8,
            Status::WriteFault => 9,
            Status::BadArguments => 10,
            Status::TakesNoBytes(_) => 13,
        }
    }
}

/// Its text, as `Display` has it.
impl fmt::Debug for Status {
    ghost use Rattle.std.specs.Prelude.{Some};

    ghost debug_output = { λ status. Some (names.status_text status) };

    fn fmt<W: fmt::Write>(&self, f: &mut fmt::Formatter<W>) -> fmt::Result {
        fmt::Display::fmt(self, f)
    }
}

impl fmt::Display for Status {
    ghost use Rattle.std.specs.Prelude.{Some};

    ghost output = { λ status. Some (names.status_text status) };

    fn fmt<W: fmt::Write>(&self, f: &mut fmt::Formatter<W>) -> fmt::Result {
        match self {
            Status::Done => f.write_str("Done"),
            Status::BadWords => f.write_str("BadWords"),
            Status::ReadFault => f.write_str("ReadFault"),
            Status::TooLong => f.write_str("TooLong"),
            Status::BadModule(BinaryFault::Malformed) => f.write_str("malformed"),
            Status::BadModule(BinaryFault::Unsupported { at, code }) => {
                write!(f, "unsupported {at} {code}")
            }
            Status::BadModule(BinaryFault::Index { at }) => write!(f, "index {at}"),
            Status::BadModule(BinaryFault::Alignment { at }) => write!(f, "alignment {at}"),
            Status::BadModule(BinaryFault::Refused { at, .. }) => write!(f, "refused {at}"),
            Status::BadModule(BinaryFault::OutOfMemory) => f.write_str("OutOfMemory"),
            Status::InvalidModule { rule, place } => {
                let status = wasm_run::Status::InvalidModule {
                    module: 0,
                    rule: *rule,
                    place: *place,
                };
                write!(f, "{status}")
            }
            Status::NoFunction => f.write_str("NoFunction"),
            Status::TakesNoBytes(part) => write!(f, "TakesNoBytes {}", part.text()),
            Status::BadArguments => f.write_str("BadArguments"),
            Status::OutOfMemory => f.write_str("OutOfMemory"),
            Status::WriteFault => f.write_str("WriteFault"),
        }
    }
}
