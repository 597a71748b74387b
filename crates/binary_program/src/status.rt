ghost use Rattle.std.specs.Prelude.{◌≡◌};
ghost use Rattle.binary_program.specs.Statuses as statuses;

/// How reading a module ended.
#[derive(Clone, Copy, Debug, PartialEq, Eq)]
pub enum BinaryStatus {
    /// The bytes spell a module, and its line was written and flushed.
    Done,
    /// The bytes spell none, and the line that says why was written and flushed.
    Refused,
    /// The source failed.
    ReadFault,
    /// The input has more than 2^24 bytes.
    TooLong,
    /// Memory ran out, and nothing was written.
    OutOfMemory,
    /// The sink failed. What was written is a front of the line.
    WriteFault,
}

impl BinaryStatus {
    /// The exit status of the program: 0 for `Done`, else 1, 3, 4, 8 or 9.
    pub fn exit_code(self) -> u8
        ensures { result ≡ statuses.exit_code self }
    {
        match self {
            BinaryStatus::Done => 0,
            BinaryStatus::Refused => 1,
            BinaryStatus::ReadFault => 3,
            BinaryStatus::TooLong => 4,
            BinaryStatus::OutOfMemory => 8,
            BinaryStatus::WriteFault => 9,
        }
    }
}
