ghost use Rattle.std.specs.Prelude.{◌≡◌, ◌≢◌, ◌≤◌, ◌<◌, [], ◌^◌, ◌+◌, ◌-◌, ℕ};
ghost use Rattle.code_stack.specs.Layers.{means};
ghost use Rattle.code_leaps.specs.Rounds.{IsFree};
ghost use Rattle.code_leaps.specs.Running.{IsQuiet, ruled, charged};
ghost use Rattle.code_run.specs.Spinning.{Stretches, Spins, SpinsBehind, Moves, ahead_of, beat_of, goes_on};
ghost use Rattle.code_run.specs.Steps.{seen};
ghost use Rattle.code_leaps.specs.Turns.{passing};
ghost use Rattle.spec_execution.specs.Costs.{is_bulk};

use crate::steps::Signal;
use crate::thread::Thread;
use code_leaps::{is_frequent, perform_leaps};
use code_stack::{Fault, Rules, Step};
use code_straight::Acted;
use code_straight::frames::Framed;
use store_state::{Held, Program};
use wasm_syntax::Instr;

// What frequent instructions came to, and how many turns are left.
#[derive(Clone, Copy)]
pub(crate) struct Stretched {
    pub(crate) what: Acted,
    pub(crate) left: u64,
}

// A growth, by its index in the instance: before it the limiter may be asked.
#[derive(Clone, Copy)]
pub(crate) enum Growing {
    Memory(u32),
    Table(u32),
}

// What comes behind turns that ask nothing: the next instruction, the check before a function or a round of a loop, the
// end or a pause, as the thread says, an end without a turn, or the turn of what was passed: of a bulk form, as the thread
// says, or of a growth.
#[derive(Clone, Copy)]
pub(crate) enum Beat {
    Goes,
    Checks,
    Ends,
    Limit,
    Exhausted,
    Meters,
    Grows(Growing),
}

// Turns that asked nothing, how many they were, and what comes behind them.
#[derive(Clone, Copy)]
pub(crate) struct Spun {
    pub(crate) beat: Beat,
    pub(crate) spent: u64,
}

// What comes behind a step.
#[inline]
pub(crate) fn beat_of(signal: Signal) -> Beat
    ensures { result ≡ beat_of signal }
{
    match signal {
        Signal::Goes => Beat::Goes,
        Signal::Checks => Beat::Checks,
        Signal::Ends => Beat::Ends,
    }
}

// Whether an instruction is a bulk form.
#[inline]
fn is_bulk(instr: Instr) -> bool
    ensures { result ≡ is_bulk instr }
{
    match instr {
        Instr::MemoryFill(_)
        | Instr::MemoryCopy { .. }
        | Instr::MemoryInit { .. }
        | Instr::TableFill(_)
        | Instr::TableCopy { .. }
        | Instr::TableInit { .. } => true,
        _ => false,
    }
}

// Whether the next instruction comes at once, where a check passes or may not.
#[inline]
fn goes_on(beat: Beat, passes: bool) -> bool
    ensures { result ≡ goes_on beat passes }
{
    match beat {
        Beat::Goes => true,
        Beat::Checks => passes,
        _ => false,
    }
}

impl<'p> Thread<'p> {
    // Whether the next instruction is among the frequent ones.
    #[inline]
    fn is_frequent_next(&self) -> bool {
        match self.code.first() {
            Some(instr) => is_frequent(*instr),
            None => false,
        }
    }

    // Instructions as long as they are frequent ones, or lead to other code of instances. Checks pass before `free` turns.
    #[inline]
    fn stretch(
        &mut self,
        program: &'p Program,
        held: &mut Held,
        frames: usize,
        turns: u64,
        free: u64,
    ) -> Stretched
        requires { self.old.code.now ≢ [] }
        ensures stretches { Stretches program.now frames held.old self.old free (turns - result.left) result.what held.new
            self.new }
        ensures left { result.left ≤ turns }
        ensures still { result.left ≡ turns → self.new.code.now ≡ self.old.code.now }
        ensures fuel { held.new.fuel ≡ held.old.fuel }
    {
        if !self.is_frequent_next() {
            return Stretched {
                what: Acted::Goes,
                left: turns,
            };
        }
        let height = self.values.height();
        self.values.fill();
        let rows = self.values.lend();
        let ran = perform_leaps(
            program,
            frames,
            &mut self.activation,
            held,
            &mut self.layers,
            rows,
            height,
            self.code,
            turns,
            turns.saturating_sub(free),
        );
        let what = match ran.framed {
            Framed::Goes(height) => {
                self.values.keep(height);
                self.code = ran.rest;
                Acted::Goes
            }
            Framed::Traps(trap) => Acted::Traps(trap),
            Framed::Sticks => Acted::Sticks,
        };
        Stretched {
            what,
            left: ran.left,
        }
    }

    // An instruction that asks nothing, and is no bulk form, with its turn.
    #[inline]
    fn spend(
        &mut self,
        program: &'p Program,
        held: &mut Held,
        rules: Rules,
        left: u64,
        instr: Instr,
    ) -> Spun
        requires quiet { IsQuiet instr }
        ensures spins { (owed : ℕ) → Spins (ruled program.now rules) (passing (seen self.old) instr)
            (charged rules.consumes_fuel held.old owed) left (ahead_of result.beat self.new) result.spent
            (seen self.new) (charged rules.consumes_fuel held.new (owed + result.spent)) }
        ensures moves { Moves result.beat result.spent }
        ensures within { result.spent ≤ left }
        ensures fuel { held.new.fuel ≡ held.old.fuel }
    {
        if left == 0 {
            return Spun {
                beat: Beat::Limit,
                spent: 0,
            };
        }
        match self.execute(program, rules.frames, held, instr) {
            Err(_) => Spun {
                beat: Beat::Exhausted,
                spent: 0,
            },
            Ok(signal) => Spun {
                beat: beat_of(signal),
                spent: 1,
            },
        }
    }

    // The turn of an instruction that was passed, but for a growth and a bulk form.
    #[inline(always)]
    fn take(
        &mut self,
        program: &'p Program,
        held: &mut Held,
        rules: Rules,
        left: u64,
        instr: Instr,
    ) -> Spun
        ensures spins { (owed : ℕ) → Spins (ruled program.now rules) (passing (seen self.old) instr)
            (charged rules.consumes_fuel held.old owed) left (ahead_of result.beat self.new) result.spent
            (seen self.new) (charged rules.consumes_fuel held.new (owed + result.spent)) }
        ensures moves { Moves result.beat result.spent }
        ensures within { result.spent ≤ left }
        ensures fuel { held.new.fuel ≡ held.old.fuel }
    {
        match instr {
            Instr::MemoryGrow(index) => Spun {
                beat: Beat::Grows(Growing::Memory(index)),
                spent: 0,
            },
            Instr::TableGrow(index) => Spun {
                beat: Beat::Grows(Growing::Table(index)),
                spent: 0,
            },
            _ => {
                if is_bulk(instr) {
                    self.bulk = instr;
                    return Spun {
                        beat: Beat::Meters,
                        spent: 0,
                    };
                }
                self.spend(program, held, rules, left, instr)
            }
        }
    }

    // The turn of the next instruction of the innermost code, where there is one, behind so many turns.
    #[inline(always)]
    fn take_next(
        &mut self,
        program: &'p Program,
        held: &mut Held,
        rules: Rules,
        left: u64,
        spent: u64,
    ) -> Spun
        requires room { spent + left ≤ 2 ^ 64 - 1 }
        requires moves { self.old.code.now ≡ [] → 0 < spent }
        ensures spins { SpinsBehind (ruled program.now rules) rules.consumes_fuel spent left self.old held.old
            (ahead_of result.beat self.new) result.spent (seen self.new) held.new }
        ensures moves { Moves result.beat result.spent }
        ensures within { result.spent ≤ spent + left }
        ensures fuel { held.new.fuel ≡ held.old.fuel }
    {
        match self.pass() {
            Some(instr) => {
                let taken = self.take(program, held, rules, left, instr);
                Spun {
                    beat: taken.beat,
                    spent: spent + taken.spent,
                }
            }
            None => Spun {
                beat: Beat::Goes,
                spent,
            },
        }
    }

    // Frequent instructions from an instruction on, and then the next one of the same code.
    #[inline(always)]
    fn advance(
        &mut self,
        program: &'p Program,
        held: &mut Held,
        rules: Rules,
        left: u64,
        free: u64,
    ) -> Spun
        requires { self.old.code.now ≢ [] }
        ensures spins { (owed : ℕ) → IsFree rules held.old.fuel owed free →
            Spins (ruled program.now rules) (means (seen self.old))
            (charged rules.consumes_fuel held.old owed) left (ahead_of result.beat self.new) result.spent
            (seen self.new) (charged rules.consumes_fuel held.new (owed + result.spent)) }
        ensures moves { Moves result.beat result.spent }
        ensures within { result.spent ≤ left }
        ensures fuel { held.new.fuel ≡ held.old.fuel }
    {
        let stretched = self.stretch(program, held, rules.frames, left, free);
        let spent = left - stretched.left;
        match stretched.what {
            Acted::Goes => self.take_next(program, held, rules, stretched.left, spent),
            Acted::Traps(trap) => {
                self.step = Step::Fails(Fault::Trapped(trap));
                Spun {
                    beat: Beat::Ends,
                    spent,
                }
            }
            Acted::Sticks => {
                self.step = Step::Fails(Fault::Stuck);
                Spun {
                    beat: Beat::Ends,
                    spent,
                }
            }
        }
    }

    // As far as the next instruction of the innermost code, once all that has ended is left.
    #[inline(always)]
    fn spin_once(
        &mut self,
        program: &'p Program,
        held: &mut Held,
        rules: Rules,
        left: u64,
        free: u64,
    ) -> Spun
        ensures spins { (owed : ℕ) → IsFree rules held.old.fuel owed free →
            Spins (ruled program.now rules) (means (seen self.old))
            (charged rules.consumes_fuel held.old owed) left (ahead_of result.beat self.new) result.spent
            (seen self.new) (charged rules.consumes_fuel held.new (owed + result.spent)) }
        ensures moves { Moves result.beat result.spent }
        ensures within { result.spent ≤ left }
        ensures fuel { held.new.fuel ≡ held.old.fuel }
    {
        if !self.settle() {
            return Spun {
                beat: Beat::Ends,
                spent: 0,
            };
        }
        self.advance(program, held, rules, left, free)
    }

    // Runs on as long as nothing is asked and turns are left. Checks pass, and ask nothing, before `free` turns. It stands
    // apart from what asks, since machine code keeps more of it in registers so.
    #[inline(never)]
    pub(crate) fn spin(
        &mut self,
        program: &'p Program,
        held: &mut Held,
        rules: Rules,
        left: u64,
        free: u64,
    ) -> Spun
        ensures spins { (owed : ℕ) → IsFree rules held.old.fuel owed free →
            Spins (ruled program.now rules) (means (seen self.old))
            (charged rules.consumes_fuel held.old owed) left (ahead_of result.beat self.new) result.spent
            (seen self.new) (charged rules.consumes_fuel held.new (owed + result.spent)) }
        ensures within { result.spent ≤ left }
        ensures fuel { held.new.fuel ≡ held.old.fuel }
    {
        let mut made: u64 = 0;
        'spin: loop {
            let spun = self.spin_once(program, held, rules, left - made, free.saturating_sub(made));
            made += spun.spent;
            if !goes_on(spun.beat, made < free) {
                return Spun {
                    beat: spun.beat,
                    spent: made,
                };
            }
        }
    }
}
