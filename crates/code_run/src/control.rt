ghost use Rattle.std.specs.Prelude.{IfOk};
ghost use Rattle.code_run.specs.Acting.{Executes, CallsIndex};
ghost use Rattle.wasm_syntax.specs.declared.instr.Instr.TheVariants as i;
ghost use Rattle.code_run.specs.Steps.{came};

use crate::steps::Signal;
use crate::thread::Thread;
use code_stack::{Fault, Step};
use store_state::Program;
use wasm_types::OutOfMemory;

impl<'p> Thread<'p> {
    // `if`
    #[inline]
    pub(crate) fn choose(&mut self, first: u32, second: u32) -> Result<Signal, OutOfMemory>
        ensures { IfOk result (λ s. Executes (i.If first second) self.old (came s self.new) self.new) }
    {
        let Some(condition) = self.values.pop_i32() else {
            self.step = Step::Fails(Fault::Stuck);
            return Ok(Signal::Ends);
        };
        if condition == 0 {
            let step = self.block(second)?;
            return Ok(step);
        }
        let step = self.block(first)?;
        Ok(step)
    }

    // `br_if`
    #[inline]
    pub(crate) fn branch_if(&mut self, label: u32) -> Result<Signal, OutOfMemory>
        ensures { IfOk result (λ s. Executes (i.BrIf label) self.old (came s self.new) self.new) }
    {
        let Some(condition) = self.values.pop_i32() else {
            self.step = Step::Fails(Fault::Stuck);
            return Ok(Signal::Ends);
        };
        if condition == 0 {
            return Ok(Signal::Goes);
        }
        let step = self.branch(label)?;
        Ok(step)
    }

    // `br_table`
    #[inline]
    pub(crate) fn branch_by_table(&mut self, table: u32) -> Result<Signal, OutOfMemory>
        ensures { IfOk result (λ s. Executes (i.BrTable table) self.old (came s self.new) self.new) }
    {
        let Some(place) = self.values.pop_i32() else {
            self.step = Step::Fails(Fault::Stuck);
            return Ok(Signal::Ends);
        };
        let Some(label) = self.activation.table_label(table, place) else {
            self.step = Step::Fails(Fault::Stuck);
            return Ok(Signal::Ends);
        };
        let step = self.branch(label)?;
        Ok(step)
    }

    // `call`
    #[inline]
    pub(crate) fn call_index(
        &mut self,
        program: &'p Program,
        frames: usize,
        index: u32,
    ) -> Result<Signal, OutOfMemory>
        ensures { IfOk result (λ s. CallsIndex program.now frames index self.old (came s self.new) self.new) }
    {
        let Some(number) = program.function_number(self.activation.instance, index) else {
            self.step = Step::Fails(Fault::Stuck);
            return Ok(Signal::Ends);
        };
        let step = self.call(program, frames, number)?;
        Ok(step)
    }
}
