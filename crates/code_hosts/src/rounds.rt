ghost use Rattle.std.specs.Prelude.{◌≡◌, ◌≤◌, ◌+◌, ◌-◌, ◌^◌, IfOk, IfErr};
ghost use Rattle.code_hosts.specs.Parting.{later};

use crate::replies::How;
use crate::states::Open;

// What a part of a call comes to.
#[derive(Drop)]
pub(crate) enum Round<'p> {
    // It goes on with this at work.
    Goes(Open<'p>),
    // The function at work ended so.
    Ends(How),
    // Another turn is due, and none is left.
    Limit,
}

// A part of a call, and how many turns it took.
#[derive(Drop)]
pub(crate) struct Rounded<'p> {
    pub(crate) round: Round<'p>,
    pub(crate) spent: u64,
}

/// Where there was no memory.
#[derive(Clone, Copy)]
pub enum Lack {
    Run,
    /// A step of the host had none.
    Step,
}

/// Where there was no memory, and how many turns were taken before.
#[derive(Clone, Copy)]
pub struct Lacking {
    pub lack: Lack,
    pub spent: u64,
}

// The same, with so many turns before.
pub(crate) fn later<'p>(
    before: u64,
    part: Result<Rounded<'p>, Lacking>,
) -> Result<Rounded<'p>, Lacking>
    requires goes { IfOk part (λ x. before + x.spent ≤ 2 ^ 64 - 1) }
    requires lacks { IfErr part (λ x. before + x.spent ≤ 2 ^ 64 - 1) }
    ensures { result ≡ later before part.entry }
{
    match part {
        Ok(rounded) => Ok(Rounded {
            round: rounded.round,
            spent: before + rounded.spent,
        }),
        Err(lacking) => Err(Lacking {
            lack: lacking.lack,
            spent: before + lacking.spent,
        }),
    }
}
