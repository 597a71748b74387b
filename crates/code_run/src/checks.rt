ghost use Rattle.std.specs.Prelude.{◌≡◌, ◌≤◌, ◌+◌, ◌&&◌, not, int_lt, pos, true};
ghost use Rattle.spec_execution.specs.Askings.{Reading};
ghost use Rattle.spec_execution.specs.Checks.{check as checking, on_epoch as on_epoch_due, at_deadline as at_deadline_due, renewed};
ghost use Rattle.spec_execution.specs.Outcomes.{Over, ask};
ghost use Rattle.spec_machine.specs.Machine.{debt};
ghost use Rattle.store_state.specs.Parts.{ProgramParts};
ghost use Rattle.code_run.specs.Asking.{Asks};
ghost use Rattle.code_run.specs.Checking.{Checks};
ghost use Rattle.code_leaps.specs.Rounds.{IsFree};
ghost use Rattle.code_leaps.specs.Running.{ruled, charged};
ghost use Rattle.code_leaps.specs.Spending.{IsPayable};

use crate::surroundings::Surroundings;
use code_stack::{Fault, Rules};
use store_state::Held;
use wasm_meter::UpdateDeadline;
use wasm_values::{Refusal, Trap};

// What the check before a function or a round of a loop came to.
#[derive(Clone, Copy)]
pub(crate) enum Verdict {
    Passes,
    Fails(Fault),
    // A question was due, and no turn was left for it.
    Limit,
}

// What a check came to, and how many turns it took.
#[derive(Clone, Copy)]
pub(crate) struct Checked {
    pub(crate) what: Verdict,
    pub(crate) spent: u64,
}

// Takes the fuel that was consumed, where fuel is.
pub(crate) fn take_fuel(held: &mut Held, rules: Rules, owed: u64)
    requires { IsPayable rules held.old.fuel owed 0 }
    ensures held { held.new ≡ charged rules.consumes_fuel held.old owed }
    ensures debt { debt held.new.fuel ≤ debt held.old.fuel + owed }
{
    if rules.consumes_fuel {
        held.consume(owed);
    }
}

// For how many turns, of these at the most, checks pass and ask nothing, where so much fuel was consumed and is not taken
// yet.
pub(crate) fn free_turns(held: &Held, rules: Rules, owed: u64, most: u64) -> u64
    ensures { IsFree rules held.now.fuel owed result }
{
    if rules.reads_epochs {
        return 0;
    }
    if rules.consumes_fuel {
        return held.fuel().saturating_sub(owed).min(most);
    }
    most
}

// Sets the deadline so many ticks past the next reading.
fn renew<W: Surroundings>(
    held: &mut Held,
    world: &mut W,
    rules: Rules,
    ticks: u64,
    left: u64,
) -> Checked
    requires { rules.reads_epochs ≡ true }
    ensures checks { (program : ProgramParts) → Checks (ruled program rules) (Asks rules W.moves)
        (λ w go. ask Over w Reading (renewed go ticks)) held.old world.old left result held.new world.new }
    ensures within { result.spent ≤ left }
    ensures fuel { held.new.fuel ≡ held.old.fuel }
{
    if left == 0 {
        return Checked {
            what: Verdict::Limit,
            spent: 0,
        };
    }
    match world.read_epoch() {
        Err(_) => Checked {
            what: Verdict::Fails(Fault::Refused(Refusal::EpochFault)),
            spent: 1,
        },
        Ok(reading) => {
            held.set_deadline(reading, ticks);
            Checked {
                what: Verdict::Passes,
                spent: 1,
            }
        }
    }
}

// At or past the deadline.
fn at_deadline<W: Surroundings>(held: &mut Held, world: &mut W, rules: Rules, left: u64) -> Checked
    requires { rules.reads_epochs ≡ true }
    ensures checks { (program : ProgramParts) → Checks (ruled program rules) (Asks rules W.moves) at_deadline_due
        held.old world.old left result held.new world.new }
    ensures within { result.spent ≤ left }
    ensures fuel { held.new.fuel ≡ held.old.fuel }
{
    if !rules.behaving {
        return Checked {
            what: Verdict::Fails(Fault::Trapped(Trap::Interrupt)),
            spent: 0,
        };
    }
    if left == 0 {
        return Checked {
            what: Verdict::Limit,
            spent: 0,
        };
    }
    match world.ask_behaviour() {
        Err(_) => Checked {
            what: Verdict::Fails(Fault::Refused(Refusal::EpochFault)),
            spent: 1,
        },
        Ok(UpdateDeadline::Interrupt) => Checked {
            what: Verdict::Fails(Fault::Trapped(Trap::Interrupt)),
            spent: 1,
        },
        Ok(UpdateDeadline::Continue(ticks)) => {
            let rest = renew(held, world, rules, ticks, left - 1);
            Checked {
                what: rest.what,
                spent: rest.spent + 1,
            }
        }
    }
}

// The epoch, where it is read.
fn on_epoch<W: Surroundings>(held: &mut Held, world: &mut W, rules: Rules, left: u64) -> Checked
    ensures checks { (program : ProgramParts) → Checks (ruled program rules) (Asks rules W.moves) on_epoch_due
        held.old world.old left result held.new world.new }
    ensures within { result.spent ≤ left }
    ensures fuel { held.new.fuel ≡ held.old.fuel }
{
    if !rules.reads_epochs {
        return Checked {
            what: Verdict::Passes,
            spent: 0,
        };
    }
    if left == 0 {
        return Checked {
            what: Verdict::Limit,
            spent: 0,
        };
    }
    match world.read_epoch() {
        Err(_) => Checked {
            what: Verdict::Fails(Fault::Refused(Refusal::EpochFault)),
            spent: 1,
        },
        Ok(reading) => {
            if reading < held.deadline() {
                return Checked {
                    what: Verdict::Passes,
                    spent: 1,
                };
            }
            let rest = at_deadline(held, world, rules, left - 1);
            Checked {
                what: rest.what,
                spent: rest.spent + 1,
            }
        }
    }
}

// Whether fuel is consumed, and there is none.
pub(crate) fn lacks_fuel(held: &mut Held, rules: Rules) -> bool
    ensures answer { result ≡ (rules.consumes_fuel && not (int_lt (pos 0) held.old.fuel)) }
    ensures same { held.new ≡ held.old }
{
    rules.consumes_fuel && !held.check_fuel()
}

// The check before a function or a round of a loop, where all fuel that was consumed is taken.
pub(crate) fn check<W: Surroundings>(
    held: &mut Held,
    world: &mut W,
    rules: Rules,
    left: u64,
) -> Checked
    ensures checks { (program : ProgramParts) → Checks (ruled program rules) (Asks rules W.moves) checking held.old
        world.old left result held.new world.new }
    ensures within { result.spent ≤ left }
    ensures fuel { held.new.fuel ≡ held.old.fuel }
{
    if lacks_fuel(held, rules) {
        return Checked {
            what: Verdict::Fails(Fault::Trapped(Trap::OutOfFuel)),
            spent: 0,
        };
    }
    on_epoch(held, world, rules, left)
}
