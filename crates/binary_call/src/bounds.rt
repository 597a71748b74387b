ghost use Rattle.std.specs.Prelude.{◌≡◌};
ghost use Rattle.spec_machine.specs.Machine.{are_engine_limits};
ghost use Rattle.binary_run.specs.Words.{frames};
ghost use Rattle.binary_call.specs.Calls as calls;

use binary_run::Options;

/// The most turns of a command.
const MOST_TURNS: u64 = 1_000_000_000;

/// What bounds a call.
#[derive(Clone, Copy, PartialEq, Eq)]
pub struct Bounds {
    /// The fuel that there is; without it code consumes none.
    pub fuel: Option<u64>,
    /// How many turns the start function, and then the call, may take, from 1 to 1,000,000,000 each.
    pub turns: u64,
    /// How many pages of 65,536 bytes all memories may have together.
    pub pages: u32,
    /// How many elements all tables may have together.
    pub elements: u32,
}

impl Bounds {
    /// Whether the turns are in their range.
    pub(crate) fn are_limits(self) -> bool
        ensures { result ≡ are_engine_limits frames self.turns }
    {
        self.turns >= 1 && self.turns <= MOST_TURNS
    }

    /// The options of a call that is given no bytes.
    pub(crate) fn options(self) -> Options
        ensures { result ≡ calls.options_of self }
    {
        Options {
            fuel: self.fuel,
            turns: self.turns,
            pages: self.pages,
            elements: self.elements,
            bytes: None,
        }
    }
}
