ghost use Rattle.std.specs.Prelude.{◌≡◌, IfOk, reverse};
ghost use Rattle.wasm_types.specs.Matching.{all_match};
ghost use Rattle.wasm_syntax.specs.Typing as typing;
ghost use Rattle.wasm_syntax.specs.Typing.{want_all, ends_in};
ghost use Rattle.wasm_syntax.specs.declared.instr.Instr.TheVariants as Instr;
ghost use Rattle.module_typing.specs.Imported.{seen};
ghost use Rattle.module_typing.specs.Answers.{typed_as, branching, nowhere};
ghost use Rattle.module_typing.specs.Operands.{types_in};

use crate::code::Code;
use crate::operand::Operand;
use crate::reach::Reach;
use crate::stack::Stack;
use wasm_types::{OutOfMemory, ValType};

impl Code<'_, '_> {
    // Leaves where the operands match the types that are wanted there.
    pub(crate) fn leave(&self, operands: &Stack<Operand>, wanted: &[ValType]) -> Reach
        ensures { want_all wanted.now (types_in self.now operands.now) (λ rest. typing.Unreached)
            ≡ typed_as result (types_in self.now operands.now) }
    {
        if self.all_fit(operands, wanted) {
            Reach::Unreached
        } else {
            Reach::IllTyped
        }
    }

    // `br`
    pub(crate) fn br(
        &self,
        labels: &Stack<&[ValType]>,
        operands: &Stack<Operand>,
        index: u32,
    ) -> Reach
        ensures { branching nowhere (seen labels.now) (Instr.Br index) (types_in self.now operands.now)
            ≡ typed_as result (types_in self.now operands.now) }
    {
        match labels.label(index) {
            None => Reach::IllTyped,
            Some(label) => self.leave(operands, label),
        }
    }

    // `br_if`
    pub(crate) fn br_if(
        &self,
        labels: &Stack<&[ValType]>,
        operands: &mut Stack<Operand>,
        index: u32,
    ) -> Result<Reach, OutOfMemory>
        ensures { IfOk result (λ reach.
            branching nowhere (seen labels.now) (Instr.BrIf index) (types_in self.now operands.old)
            ≡ typed_as reach (types_in self.now operands.new)) }
    {
        if !self.want(operands, &ValType::I32) {
            return Ok(Reach::IllTyped);
        }
        let Some(label) = labels.label(index) else {
            return Ok(Reach::IllTyped);
        };
        self.from_to(operands, label, label)
    }

    // Whether these are all the operands, each matching.
    fn are(&self, operands: &Stack<Operand>, results: &[ValType]) -> bool
        ensures { result ≡ all_match (types_in self.now operands.now) (reverse results.now) }
    {
        let mut left = operands.as_slice();
        let mut rest = results;
        while let Some((last, front)) = rest.split_last() {
            let Some((top, below)) = left.split_last() else {
                return false;
            };
            if !self.fits(top, last) {
                return false;
            }
            rest = front;
            left = below;
        }
        left.is_empty()
    }

    // Whether code that goes so far ends with these results.
    pub(crate) fn ends_in(
        &self,
        operands: &Stack<Operand>,
        results: &[ValType],
        reach: Reach,
    ) -> bool
        ensures { result ≡ ends_in results.now (typed_as reach (types_in self.now operands.now)) }
    {
        match reach {
            Reach::Reached => self.are(operands, results),
            Reach::Unreached => true,
            Reach::IllTyped => false,
        }
    }
}
