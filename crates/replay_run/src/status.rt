ghost use Rattle.std.specs.Prelude.{◌≡◌};
ghost use Rattle.replay_run.specs.StatusNames as names;

use std::fmt;
use wasm_run::Status as SessionStatus;

/// How a record or a replay ended. It prints as its name, and a status of a session as that one.
#[derive(Clone, Copy, PartialEq, Eq)]
pub enum Status {
    /// As a session ends: `Done` where all of the text was written, the sink was flushed after it, and a replay ended as it
    /// was recorded; `BadWords` where the words are neither `record` nor `replay`; and with the other refusals and faults of
    /// the words, the input, the script and the sink, as they are there. With `OutOfMemory` nothing was written.
    Session(SessionStatus),
    /// The script has a hook or a deadline behaviour: what these answer is on no tape.
    Hooked,
    /// The first line of the input is no tape over the types of the script.
    BadTape,
    /// A function type on the tape that was recorded is none of the types of the script. Nothing was written.
    UnknownType,
    /// More than 1,000,000 answers of the limiter, or more than 1,000,000 readings of the epoch, were asked for. Nothing was
    /// written.
    RoomSpent,
    /// The replay ended otherwise than it was recorded. All of the text was written, and the sink was flushed after it.
    NotSame,
}

impl Status {
    /// The exit status of the program: 0 for `Done`, else 2 to 14.
    pub fn exit_code(self) -> u8
        ensures { result ≡ names.exit_code self }
    {
        match self {
            Status::Session(status) => status.exit_code(),
            Status::Hooked => 10,
            Status::BadTape => 11,
            Status::UnknownType => 12,
            Status::RoomSpent => 13,
            Status::NotSame => 14,
        }
    }
}

/// Its text, as `Display` has it.
impl fmt::Debug for Status {
    ghost use Rattle.std.specs.Prelude.{Some};

    ghost debug_output = { λ status. Some (names.status_text status) };

    fn fmt<W: fmt::Write>(&self, f: &mut fmt::Formatter<W>) -> fmt::Result {
        fmt::Display::fmt(self, f)
    }
}

impl fmt::Display for Status {
    ghost use Rattle.std.specs.Prelude.{Some};

    ghost output = { λ status. Some (names.status_text status) };

    fn fmt<W: fmt::Write>(&self, f: &mut fmt::Formatter<W>) -> fmt::Result {
        match self {
            Status::Session(status) => fmt::Display::fmt(status, f),
            Status::Hooked => f.write_str("Hooked"),
            Status::BadTape => f.write_str("BadTape"),
            Status::UnknownType => f.write_str("UnknownType"),
            Status::RoomSpent => f.write_str("RoomSpent"),
            Status::NotSame => f.write_str("NotSame"),
        }
    }
}
