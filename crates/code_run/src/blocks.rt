ghost use Rattle.std.specs.Prelude.{◌≡◌, IfOk, [], ◌∷◌, length};
ghost use Rattle.code_run.specs.Control.{Enters, Repeats, Again, Branches, BranchesTo, Leaves, Ends, Returns};
ghost use Rattle.spec_execution.specs.Outcomes.{World, Over, Stuck};
ghost use Rattle.code_stack.specs.Layers.{IsOutermost, means};
ghost use Rattle.code_run.specs.Steps.{came, EndsOver, seen};
ghost use Rattle.code_run.specs.Settling.{IsShorter};

use crate::steps::Signal;
use crate::thread::Thread;
use code_stack::{Fault, Label, Layer, Step, Values};
use wasm_syntax::Instr;
use wasm_types::OutOfMemory;

impl<'p> Thread<'p> {
    // `block`, and the branches of `if`. As `br`, it is compiled in place: a call of machine code would save six registers
    // at each block that is entered or left.
    #[inline(always)]
    pub(crate) fn block(&mut self, index: u32) -> Result<Signal, OutOfMemory>
        ensures { IfOk result (λ s. Enters index self.old (came s self.new) self.new) }
    {
        let Some(opening) = self.activation.opening(index) else {
            self.step = Step::Fails(Fault::Stuck);
            return Ok(Signal::Ends);
        };
        if self.enter(opening, opening.results, None)? {
            Ok(Signal::Goes)
        } else {
            self.step = Step::Fails(Fault::Stuck);
            Ok(Signal::Ends)
        }
    }

    // `loop`
    #[inline]
    pub(crate) fn begin_loop(&mut self, index: u32) -> Result<Signal, OutOfMemory>
        ensures { IfOk result (λ s. Repeats index self.old (came s self.new) self.new) }
    {
        let Some(opening) = self.activation.opening(index) else {
            self.step = Step::Fails(Fault::Stuck);
            return Ok(Signal::Ends);
        };
        if self.enter(opening, opening.params, Some(index))? {
            Ok(Signal::Checks)
        } else {
            self.step = Step::Fails(Fault::Stuck);
            Ok(Signal::Ends)
        }
    }

    // Leaves nothing that is open, around code that is empty: it fits no rule.
    fn lose(&mut self, code: &'p [Instr])
        requires { code.now ≡ [] }
        ensures { (w : World) → means (seen self.new) w ≡ Over Stuck w }
    {
        self.code = code;
        self.layers.clear();
        self.values = Values::new(self.alloc);
    }

    // A loop once more, by a branch to its label. None is empty, since the branch stands in it.
    #[inline]
    pub(crate) fn repeat(&mut self, index: u32) -> Result<Signal, OutOfMemory>
        ensures { IfOk result (λ s. Again index self.old (came s self.new) self.new) }
    {
        let Some(opening) = self.activation.opening(index) else {
            self.step = Step::Fails(Fault::Stuck);
            return Ok(Signal::Ends);
        };
        if opening.code.is_empty() {
            if self.values.operands().len() < opening.params {
                self.step = Step::Fails(Fault::Stuck);
                return Ok(Signal::Ends);
            }
            self.lose(opening.code);
            return Ok(Signal::Checks);
        }
        if self.enter(opening, opening.params, Some(index))? {
            Ok(Signal::Checks)
        } else {
            self.step = Step::Fails(Fault::Stuck);
            Ok(Signal::Ends)
        }
    }

    // Goes on where a branch to a label leads, past so many blocks within it.
    #[inline]
    pub(crate) fn branch_to(
        &mut self,
        label: Label<'p>,
        passed: usize,
    ) -> Result<Signal, OutOfMemory>
        ensures { IfOk result (λ s. BranchesTo label.entry passed self.old (came s self.new) self.new) }
    {
        if !self.values.close(passed, label.arity) {
            self.step = Step::Fails(Fault::Stuck);
            return Ok(Signal::Ends);
        }
        self.code = label.rest;
        match label.again {
            None => Ok(Signal::Goes),
            Some(index) => {
                let step = self.repeat(index)?;
                Ok(step)
            }
        }
    }

    // The function is left with its results, past so many blocks of it.
    #[inline]
    pub(crate) fn leave(&mut self, passed: usize) -> Signal
        requires { IsOutermost self.old.layers }
        ensures leaves { Leaves passed self.old (came result self.new) self.new }
        ensures shorter { IsShorter (came result self.new) (length self.old.layers) (length self.new.layers) }
        ensures over { EndsOver result self.new }
    {
        if !self.values.leave(passed, self.activation.results) {
            self.step = Step::Fails(Fault::Stuck);
            return Signal::Ends;
        }
        match self.layers.pop() {
            None => {
                self.step = Step::Done;
                Signal::Ends
            }
            Some(Layer::Call(caller)) => {
                self.activation = caller.activation;
                self.code = caller.rest;
                Signal::Goes
            }
            Some(Layer::Block(_)) => unreachable!(),
        }
    }

    // The end of the innermost code.
    #[inline]
    pub(crate) fn end(&mut self) -> Signal
        requires { self.old.code.now ≡ [] }
        ensures ends { Ends self.old (came result self.new) self.new }
        ensures shorter { IsShorter (came result self.new) (length self.old.layers) (length self.new.layers) }
        ensures over { EndsOver result self.new }
    {
        match self.layers.pop_block() {
            Some(label) => {
                if !self.values.finish() {
                    self.step = Step::Fails(Fault::Stuck);
                    return Signal::Ends;
                }
                self.code = label.rest;
                Signal::Goes
            }
            None => {
                if self.values.operands().len() != self.activation.results {
                    self.step = Step::Fails(Fault::Stuck);
                    return Signal::Ends;
                }
                self.leave(0)
            }
        }
    }

    // `br`
    #[inline(always)]
    pub(crate) fn branch(&mut self, label: u32) -> Result<Signal, OutOfMemory>
        ensures { IfOk result (λ s. Branches label self.old (came s self.new) self.new) }
    {
        let passed = self.layers.drop_blocks(label as usize);
        if passed < label as usize {
            self.step = Step::Fails(Fault::Stuck);
            return Ok(Signal::Ends);
        }
        match self.layers.pop_block() {
            None => Ok(self.leave(passed)),
            Some(target) => {
                let step = self.branch_to(target, passed)?;
                Ok(step)
            }
        }
    }

    // `return`
    #[inline]
    pub(crate) fn give_back(&mut self) -> Signal
        ensures { Returns self.old (came result self.new) self.new }
    {
        let most = self.layers.len();
        let passed = self.layers.drop_blocks(most);
        self.leave(passed)
    }
}
