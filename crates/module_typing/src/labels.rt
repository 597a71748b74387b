ghost use Rattle.std.specs.Prelude.{◌≡◌, option_copied, slice_get};
ghost use Rattle.wasm_syntax.specs.Typing.{Typed, given, want_labels};
ghost use Rattle.wasm_syntax.specs.Typing as typing;
ghost use Rattle.module_typing.specs.Imported.{seen};
ghost use Rattle.module_typing.specs.Answers.{want_label};
ghost use Rattle.module_typing.specs.Operands.{types_in};

use crate::code::Code;
use crate::operand::Operand;
use crate::stack::Stack;
use wasm_types::ValType;

impl<'a> Stack<&'a [ValType]> {
    // The types that a label carries, the innermost label being 0.
    pub(crate) fn label(&self, index: u32) -> Option<&'a [ValType]>
        ensures { option_copied result ≡ slice_get (seen self.now) index }
    {
        self.at(index as usize).copied()
    }

    // Whether the label is there, carries so many types, and has types that the operands match.
    fn takes(
        &self,
        code: &Code<'_, '_>,
        count: usize,
        target: u32,
        operands: &Stack<Operand>,
    ) -> bool
        ensures { (next : Typed) → want_label (seen self.now) count target (types_in code.now operands.now) next
            ≡ given result next }
    {
        let Some(label) = self.label(target) else {
            return false;
        };
        label.len() == count && code.all_fit(operands, label)
    }

    // Whether each label is there, carries so many types, and has types that the operands match.
    pub(crate) fn take(
        &self,
        code: &Code<'_, '_>,
        count: usize,
        targets: &[u32],
        operands: &Stack<Operand>,
    ) -> bool
        ensures { want_labels (seen self.now) count targets.now (types_in code.now operands.now)
            ≡ given result typing.Unreached }
    {
        let mut rest = targets;
        while let Some((target, tail)) = rest.split_first() {
            if !self.takes(code, count, *target, operands) {
                return false;
            }
            rest = tail;
        }
        true
    }
}
