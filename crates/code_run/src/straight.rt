ghost use Rattle.std.specs.Prelude.{◌≡◌, ◌<◌, ℕ, IfOk, OnOk, OnErr};
ghost use Rattle.code_leaps.specs.Running.{Steps, ruled, charged, executing, IsStraight};
ghost use Rattle.code_stack.specs.declared.rules.Rules.{Rules};
ghost use Rattle.code_run.specs.Steps.{came, seen};

use crate::steps::Signal;
use crate::thread::Thread;
use code_stack::{Fault, Step, Values};
use code_straight::{Acted, act};
use store_state::{Held, Program};
use wasm_syntax::Instr;
use wasm_types::OutOfMemory;

// So many operands there is room for, once the room is used up.
const ROOM: usize = 64;

// Makes room for an operand where there is none.
#[inline]
fn make_room(values: &mut Values) -> Result<(), OutOfMemory>
    ensures room { OnOk result (0 < values.new.room) }
    ensures operands { values.new.operands ≡ values.old.operands }
    ensures locals { values.new.locals ≡ values.old.locals }
    ensures below { values.new.below ≡ values.old.below }
{
    if values.is_full() {
        values.reserve(ROOM)?;
    }
    Ok(())
}

impl<'p> Thread<'p> {
    // An instruction that leads to no other code.
    pub(crate) fn act(
        &mut self,
        program: &Program,
        held: &mut Held,
        instr: Instr,
    ) -> Result<Signal, OutOfMemory>
        requires { IsStraight instr }
        ensures acts { IfOk result (λ s. (rules : Rules) (owed : ℕ) →
            Steps (ruled program.now rules) (executing (seen self.old) instr)
            (charged rules.consumes_fuel held.old owed) (came s self.new) (seen self.new)
            (charged rules.consumes_fuel held.new owed)) }
        ensures fuel { held.new.fuel ≡ held.old.fuel }
        ensures err { OnErr result (held.new ≡ held.old) }
    {
        make_room(&mut self.values)?;
        match act(
            program,
            self.activation.instance,
            held,
            &mut self.values,
            instr,
        ) {
            Acted::Goes => Ok(Signal::Goes),
            Acted::Traps(trap) => {
                self.step = Step::Fails(Fault::Trapped(trap));
                Ok(Signal::Ends)
            }
            Acted::Sticks => {
                self.step = Step::Fails(Fault::Stuck);
                Ok(Signal::Ends)
            }
        }
    }
}
