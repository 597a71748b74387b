ghost use Rattle.std.specs.Prelude.{◌≡◌, ℕ, IfOk, OnErr};
ghost use Rattle.code_leaps.specs.Running.{Steps, ruled, charged, executing, AsksNothing};
ghost use Rattle.code_stack.specs.declared.rules.Rules.{Rules};
ghost use Rattle.code_run.specs.Steps.{came, seen};

use crate::steps::Signal;
use crate::thread::Thread;
use code_stack::{Fault, Step};
use store_state::{Held, Program};
use wasm_syntax::Instr;
use wasm_types::OutOfMemory;
use wasm_values::Trap;

impl<'p> Thread<'p> {
    // An instruction that asks nothing, whose turn was taken.
    #[inline]
    pub(crate) fn execute(
        &mut self,
        program: &'p Program,
        frames: usize,
        held: &mut Held,
        instr: Instr,
    ) -> Result<Signal, OutOfMemory>
        requires { AsksNothing instr }
        ensures steps { IfOk result (λ s. (rules : Rules) (owed : ℕ) → rules.frames ≡ frames →
            Steps (ruled program.now rules) (executing (seen self.old) instr)
            (charged rules.consumes_fuel held.old owed) (came s self.new) (seen self.new)
            (charged rules.consumes_fuel held.new owed)) }
        ensures fuel { held.new.fuel ≡ held.old.fuel }
        ensures err { OnErr result (held.new ≡ held.old) }
    {
        match instr {
            Instr::Unreachable => {
                self.step = Step::Fails(Fault::Trapped(Trap::UnreachableCodeReached));
                Ok(Signal::Ends)
            }
            Instr::Return => Ok(self.give_back()),
            Instr::Block(block) => {
                let step = self.block(block)?;
                Ok(step)
            }
            Instr::Loop(block) => {
                let step = self.begin_loop(block)?;
                Ok(step)
            }
            Instr::If(first, second) => {
                let step = self.choose(first, second)?;
                Ok(step)
            }
            Instr::Br(label) => {
                let step = self.branch(label)?;
                Ok(step)
            }
            Instr::BrIf(label) => {
                let step = self.branch_if(label)?;
                Ok(step)
            }
            Instr::BrTable(table) => {
                let step = self.branch_by_table(table)?;
                Ok(step)
            }
            Instr::Call(function) => {
                let step = self.call_index(program, frames, function)?;
                Ok(step)
            }
            Instr::CallIndirect { ty, table } => {
                let step = self.call_indirect(program, frames, held, ty, table)?;
                Ok(step)
            }
            _ => {
                let step = self.act(program, held, instr)?;
                Ok(step)
            }
        }
    }
}
