ghost use Rattle.std.specs.Prelude.{◌≡◌, ◌≤◌, ◌<◌, ◌^◌, ◌+◌, ◌*◌, suc, if◌then◌else◌, reverse, true, false};
ghost use Rattle.wasm_syntax.specs.Operators.{unsigned};
ghost use Rattle.spec_execution.specs.Costs.{is_bulk, length_of};
ghost use Rattle.spec_machine.specs.Machine.{debt};
ghost use Rattle.code_leaps.specs.Running.{ruled, charged};
ghost use Rattle.code_leaps.specs.Spending.{IsPayable, Spends, most_cost};
ghost use Rattle.code_run.specs.Steps.{seen};
ghost use Rattle.code_leaps.specs.Turns.{passing};

use crate::checks::{lacks_fuel, take_fuel};
use crate::spins::beat_of;
use crate::thread::Thread;
use crate::turns::Turned;
use code_stack::{Ending, Fault, Rules, Turn};
use store_state::{Held, Program};
use wasm_objects::RawVal;
use wasm_values::Trap;

// An integer of 32 bits without its sign.
fn without_sign(integer: i32) -> u32
    ensures value { result ≡ unsigned 32 integer }
    ensures within { result < 2 ^ 32 }
{
    integer.cast_unsigned()
}

// The length on top of the operands of a bulk form, the topmost last. Code without one does not validate.
fn length_on_top(operands: &[RawVal]) -> u32
    ensures { result ≡ length_of (reverse operands.now) }
{
    let Some((top, _)) = operands.split_last() else {
        return 0;
    };
    match *top {
        RawVal::I32(length) => without_sign(length),
        _ => 0,
    }
}

// What such a turn comes to owe: its cost, where fuel is consumed. Elsewhere nothing is owed, since nothing bounds a sum of
// lengths there.
fn owed_by(rules: Rules, length: u32) -> u64
    ensures owed { result ≡ (if rules.consumes_fuel then suc length else 0) }
    ensures most { result ≤ most_cost }
{
    if rules.consumes_fuel {
        length as u64 + 1
    } else {
        0
    }
}

impl<'p> Thread<'p> {
    // The bulk form that was passed, where all fuel that was consumed is taken: the fuel is tested before its turn.
    fn take_bulk(
        &mut self,
        program: &'p Program,
        held: &mut Held,
        rules: Rules,
        left: u64,
    ) -> Turned<'p>
        requires bulk { is_bulk self.old.bulk ≡ true }
        ensures spends { Spends (ruled program.now rules) (passing (seen self.old) self.old.bulk) held.old left
            result.what result.spent (seen self.new) (charged rules.consumes_fuel held.new result.owed) }
        ensures fuel { held.new.fuel ≡ held.old.fuel }
        ensures owed { result.owed ≤ result.spent * most_cost }
        ensures unmetered { rules.consumes_fuel ≡ false → result.owed ≤ result.spent }
    {
        if lacks_fuel(held, rules) {
            return Turned {
                what: Turn::Ends(Ending::Fails(Fault::Trapped(Trap::OutOfFuel))),
                spent: 0,
                owed: 0,
            };
        }
        if left == 0 {
            return Turned {
                what: Turn::Ends(Ending::Limit),
                spent: 0,
                owed: 0,
            };
        }
        let length = length_on_top(self.values.operands());
        match self.execute(program, rules.frames, held, self.bulk) {
            Err(_) => Turned {
                what: Turn::Ends(Ending::Exhausted),
                spent: 0,
                owed: 0,
            },
            Ok(signal) => Turned {
                what: self.what(beat_of(signal)),
                spent: 1,
                owed: owed_by(rules, length),
            },
        }
    }

    // The same, where so much fuel was consumed and is not taken yet.
    pub(crate) fn meter(
        &mut self,
        program: &'p Program,
        held: &mut Held,
        rules: Rules,
        left: u64,
        owed: u64,
    ) -> Turned<'p>
        requires bulk { is_bulk self.old.bulk ≡ true }
        requires fuel { IsPayable rules held.old.fuel owed 0 }
        ensures spends { Spends (ruled program.now rules) (passing (seen self.old) self.old.bulk)
            (charged rules.consumes_fuel held.old owed) left result.what result.spent (seen self.new)
            (charged rules.consumes_fuel held.new result.owed) }
        ensures debt { debt held.new.fuel + result.owed ≤ debt held.old.fuel + owed + result.spent * most_cost }
        ensures unmetered { rules.consumes_fuel ≡ false → result.owed ≤ result.spent }
    {
        take_fuel(held, rules, owed);
        self.take_bulk(program, held, rules, left)
    }
}
