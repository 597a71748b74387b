ghost use Rattle.std.specs.Prelude.{◌≡◌, ◌≤◌, ◌+◌, ◌-◌, ◌*◌, ◌^◌, ℕ, true, false};
ghost use Rattle.spec_machine.specs.Machine.{debt};
ghost use Rattle.code_run.specs.Asking.{Asks, ruled_in};
ghost use Rattle.code_stack.specs.Layers.{means};
ghost use Rattle.code_run.specs.Pausing.{due, IfEnds, IfPauses, Pauses, turns_of};
ghost use Rattle.code_leaps.specs.Running.{charged};
ghost use Rattle.code_leaps.specs.Spending.{turn_of, is_checked, IsPayable, most_cost};
ghost use Rattle.code_run.specs.Spinning.{growth_instr, IsTurn, ahead_of, Stepped};
ghost use Rattle.code_run.specs.Steps.{seen};
ghost use Rattle.code_leaps.specs.Turns.{passing, going, Turns, Ends};

use crate::checks::{Verdict, check, free_turns, take_fuel};
use crate::context::CodeContext;
use crate::spins::{Beat, Growing};
use crate::surroundings::Surroundings;
use crate::thread::Thread;
use crate::turns::{Allowance, Turned, Went};
use code_stack::{Ended, Ending, Step, Turn};
use store_state::Held;

// What an instruction comes to whose step is this.
#[inline]
fn turn_of<'p>(step: Step<'p>) -> Turn<'p>
    ensures { result ≡ turn_of step.entry }
{
    match step {
        Step::Goes => Turn::Goes,
        Step::Checks => Turn::Checks,
        Step::Fails(fault) => Turn::Ends(Ending::Fails(fault)),
        Step::Done => Turn::Ends(Ending::Done),
        Step::Calls(call) => Turn::Ends(Ending::Calls(call)),
    }
}

// Whether the check before a function or a round of a loop is due.
#[inline]
fn is_checked(what: Turn<'_>) -> bool
    ensures { result ≡ is_checked what.entry }
{
    match what {
        Turn::Checks => true,
        _ => false,
    }
}

impl<'p> Thread<'p> {
    // What the last instruction came to, but for a growth and a bulk form.
    #[inline]
    pub(crate) fn what(&self, beat: Beat) -> Turn<'p>
        requires { IsTurn beat }
        ensures { ahead_of beat self.now ≡ Stepped result }
    {
        match beat {
            Beat::Goes => Turn::Goes,
            Beat::Checks => Turn::Checks,
            Beat::Ends => turn_of(self.step),
            Beat::Limit => Turn::Ends(Ending::Limit),
            Beat::Exhausted => Turn::Ends(Ending::Exhausted),
            Beat::Meters => unreachable!(),
            Beat::Grows(_) => unreachable!(),
        }
    }

    // A growth that was passed, with its turns. All fuel that was consumed is taken before.
    fn grow<W: Surroundings>(
        &mut self,
        context: &CodeContext<'p>,
        held: &mut Held,
        world: &mut W,
        left: u64,
        owed: u64,
        growing: Growing,
    ) -> Turned<'p>
        requires room { owed + left ≤ 2 ^ 64 - 1 }
        requires fuel { IsPayable context.now.rules held.old.fuel owed 0 }
        ensures turns { Turns (ruled_in context.now) (Asks context.now.rules W.moves)
            (passing (seen self.old) (growth_instr growing)) (charged context.now.rules.consumes_fuel held.old owed)
            world.old left result.what result.spent (seen self.new)
            (charged context.now.rules.consumes_fuel held.new result.owed) world.new }
        ensures debt { debt held.new.fuel + result.owed ≤ debt held.old.fuel + owed + result.spent * most_cost }
        ensures unmetered { context.now.rules.consumes_fuel ≡ false → result.owed ≤ owed + result.spent }
    {
        take_fuel(held, context.rules, owed);
        self.take_growth(context, held, world, left, growing)
    }

    // As many instructions as ask nothing, and a growth or a bulk form behind them, with their turns.
    fn turn<W: Surroundings>(
        &mut self,
        context: &CodeContext<'p>,
        held: &mut Held,
        world: &mut W,
        most: Allowance,
        owed: u64,
    ) -> Turned<'p>
        requires room { owed + most.left ≤ 2 ^ 64 - 1 }
        requires fuel { IsPayable context.now.rules held.old.fuel owed most.left }
        ensures turns { Turns (ruled_in context.now) (Asks context.now.rules W.moves) (means (seen self.old))
            (charged context.now.rules.consumes_fuel held.old owed) world.old most.left result.what result.spent
            (seen self.new) (charged context.now.rules.consumes_fuel held.new result.owed) world.new }
        ensures debt { debt held.new.fuel + result.owed ≤ debt held.old.fuel + owed + result.spent * most_cost }
        ensures unmetered { context.now.rules.consumes_fuel ≡ false → result.owed ≤ owed + result.spent }
    {
        let left = most.left;
        let free = free_turns(held, context.rules, owed, most.slice);
        let spun = self.spin(context.program, held, context.rules, left, free);
        let spent = spun.spent;
        match spun.beat {
            Beat::Grows(growing) => {
                let turned = self.grow(context, held, world, left - spent, owed + spent, growing);
                Turned {
                    what: turned.what,
                    spent: spent + turned.spent,
                    owed: turned.owed,
                }
            }
            Beat::Meters => {
                let turned = self.meter(
                    context.program,
                    held,
                    context.rules,
                    left - spent,
                    owed + spent,
                );
                Turned {
                    what: turned.what,
                    spent: spent + turned.spent,
                    owed: turned.owed,
                }
            }
            beat => Turned {
                what: self.what(beat),
                spent,
                owed: owed + spent,
            },
        }
    }

    // The check before the function, or before the round of a loop, and then the next instruction, with their turns.
    fn turn_checked<W: Surroundings>(
        &mut self,
        context: &CodeContext<'p>,
        held: &mut Held,
        world: &mut W,
        most: Allowance,
        owed: u64,
    ) -> Turned<'p>
        requires room { owed + most.left ≤ 2 ^ 64 - 1 }
        requires fuel { IsPayable context.now.rules held.old.fuel owed most.left }
        ensures turns { Turns (ruled_in context.now) (Asks context.now.rules W.moves) (going true (seen self.old))
            (charged context.now.rules.consumes_fuel held.old owed) world.old most.left result.what result.spent
            (seen self.new) (charged context.now.rules.consumes_fuel held.new result.owed) world.new }
        ensures debt { debt held.new.fuel + result.owed ≤ debt held.old.fuel + owed + result.spent * most_cost }
        ensures unmetered { context.now.rules.consumes_fuel ≡ false → result.owed ≤ owed + result.spent }
    {
        take_fuel(held, context.rules, owed);
        let checked = check(held, world, context.rules, most.left);
        let spent = checked.spent;
        match checked.what {
            Verdict::Fails(fault) => Turned {
                what: Turn::Ends(Ending::Fails(fault)),
                spent,
                owed: 0,
            },
            Verdict::Limit => Turned {
                what: Turn::Ends(Ending::Limit),
                spent,
                owed: 0,
            },
            Verdict::Passes => {
                let rest = Allowance {
                    left: most.left - spent,
                    slice: most.slice.saturating_sub(spent),
                };
                let turned = self.turn(context, held, world, rest, 0);
                Turned {
                    what: turned.what,
                    spent: spent + turned.spent,
                    owed: turned.owed,
                }
            }
        }
    }

    // What is next, behind a check or not, with its turns.
    fn round<W: Surroundings>(
        &mut self,
        context: &CodeContext<'p>,
        held: &mut Held,
        world: &mut W,
        most: Allowance,
        owed: u64,
        checks: bool,
    ) -> Turned<'p>
        requires room { owed + most.left ≤ 2 ^ 64 - 1 }
        requires fuel { IsPayable context.now.rules held.old.fuel owed most.left }
        ensures turns { Turns (ruled_in context.now) (Asks context.now.rules W.moves) (going checks (seen self.old))
            (charged context.now.rules.consumes_fuel held.old owed) world.old most.left result.what result.spent
            (seen self.new) (charged context.now.rules.consumes_fuel held.new result.owed) world.new }
        ensures debt { debt held.new.fuel + result.owed ≤ debt held.old.fuel + owed + result.spent * most_cost }
        ensures unmetered { context.now.rules.consumes_fuel ≡ false → result.owed ≤ owed + result.spent }
    {
        if checks {
            self.turn_checked(context, held, world, most, owed)
        } else {
            self.turn(context, held, world, most, owed)
        }
    }

    /// Runs until the outermost function is left, until it ends early, until its code calls a function of the host, or until
    /// a check is due behind `slice` turns; it tells which, and how many turns it took. `turns` is how many it may take.
    ///
    /// What it comes to, and what is then held, is what the definitions say of it, in each store of these objects and
    /// these rules: for some questions to the surroundings and their answers, none left out and none made up. A function
    /// of the host was entered as far as the test of how many functions may be open: next is whether the host has its
    /// body. All fuel that was consumed is taken from what is held. `Exhausted` is for want of memory alone; what is held
    /// is then what so many turns leave.
    ///
    /// A run that pauses took a turn at least, so one that is run on to its end in slices ends. It comes to what it would
    /// have come to at once, since those turns lead to what is due of it.
    pub fn run<W: Surroundings>(
        &mut self,
        context: &CodeContext<'p>,
        held: &mut Held,
        world: &mut W,
        turns: u64,
        slice: u64,
    ) -> Went<'p>
        requires fuel { IsPayable context.now.rules held.old.fuel 0 turns }
        ensures ends { IfEnds result (λ ended. Ends (ruled_in context.now) (Asks context.now.rules W.moves)
            (due self.old) held.old world.old turns ended (seen self.new) held.new world.new) }
        ensures pauses { IfPauses result (λ spent. Pauses (ruled_in context.now) (Asks context.now.rules W.moves)
            (due self.old) held.old world.old turns slice spent self.new held.new world.new) }
        ensures debt { debt held.new.fuel ≤ debt held.old.fuel + turns_of result * most_cost }
    {
        let mut made: u64 = 0;
        let mut owed: u64 = 0;
        let mut checks = self.unchecked;
        'turns: loop {
            let most = Allowance {
                left: turns - made,
                slice: slice.saturating_sub(made),
            };
            let turned = self.round(context, held, world, most, owed, checks);
            made += turned.spent;
            owed = turned.owed;
            match turned.what {
                Turn::Ends(how) => {
                    take_fuel(held, context.rules, owed);
                    return Went::Ends(Ended { how, spent: made });
                }
                _ => {
                    checks = is_checked(turned.what);
                    if checks && made >= slice {
                        self.unchecked = true;
                        take_fuel(held, context.rules, owed);
                        return Went::Pauses(made);
                    }
                }
            }
        }
    }
}
