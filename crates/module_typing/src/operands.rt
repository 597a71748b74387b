ghost use Rattle.std.specs.Prelude.{◌≡◌, [], ◌∷◌, List, IfOk, MatchOption};
ghost use Rattle.wasm_types.specs.Matching.{val_matches};
ghost use Rattle.wasm_types.specs.declared.value_types.ValType.{ValType};
ghost use Rattle.wasm_syntax.specs.Typing.{Typed, given, want, want_all, onto, from_to};
ghost use Rattle.module_typing.specs.Answers.{typed_as};
ghost use Rattle.module_typing.specs.Operands.{type_in, types_in};

use crate::code::Code;
use crate::operand::Operand;
use crate::reach::Reach;
use crate::stack::Stack;
use std::alloc::Global;
use wasm_types::{OutOfMemory, ValType};

impl Code<'_, '_> {
    // Whether the type of an operand matches another.
    pub(crate) fn fits(&self, operand: &Operand, wanted: &ValType) -> bool
        ensures { result ≡ val_matches (type_in self.now operand.now) wanted.now }
    {
        match operand {
            Operand::Own(ty) => ty.matches(wanted),
            Operand::Local(index) => match self.local(*index) {
                None => ValType::I32.matches(wanted),
                Some(ty) => ty.matches(wanted),
            },
        }
    }

    // The type of an operand.
    fn type_of(&self, operand: Operand) -> Result<ValType, OutOfMemory>
        ensures { IfOk result (λ ty. ty ≡ type_in self.now operand) }
    {
        match operand {
            Operand::Own(ty) => Ok(ty),
            Operand::Local(index) => match self.local(index) {
                None => Ok(ValType::I32),
                Some(ty) => Ok(ty.clone()?),
            },
        }
    }

    // No operands.
    #[tactic(auto, unfolding(crate::specs::Operands::types_in))]
    pub(crate) fn no_operands(&self, alloc: Global) -> Stack<Operand>
        ensures { types_in self.now result ≡ [] }
    {
        Stack::new(alloc)
    }

    // Takes an operand of any type.
    #[tactic(auto, unfolding(crate::specs::Operands::types_in))]
    pub(crate) fn take_type(
        &self,
        operands: &mut Stack<Operand>,
    ) -> Result<Option<ValType>, OutOfMemory>
        ensures { IfOk result (λ taken. MatchOption taken
            (types_in self.now operands.old ≡ [])
            (λ ty. types_in self.now operands.old ≡ ty ∷ types_in self.now operands.new)) }
    {
        match operands.pop() {
            None => Ok(None),
            Some(operand) => {
                let ty = self.type_of(operand)?;
                Ok(Some(ty))
            }
        }
    }

    // Takes an operand that matches a type.
    #[tactic(auto, unfolding(crate::specs::Operands::types_in))]
    pub(crate) fn want(&self, operands: &mut Stack<Operand>, wanted: &ValType) -> bool
        ensures { (go : List ValType → Typed) → want wanted.now (types_in self.now operands.old) go
            ≡ given result (go (types_in self.now operands.new)) }
    {
        match operands.pop() {
            None => false,
            Some(operand) => self.fits(&operand, wanted),
        }
    }

    // Takes operands that match types, the last on top.
    pub(crate) fn want_all(&self, operands: &mut Stack<Operand>, wanted: &[ValType]) -> bool
        ensures { (go : List ValType → Typed) → want_all wanted.now (types_in self.now operands.old) go
            ≡ given result (go (types_in self.now operands.new)) }
    {
        let mut rest = wanted;
        while let Some((last, front)) = rest.split_last() {
            if !self.want(operands, last) {
                return false;
            }
            rest = front;
        }
        true
    }

    // Whether there are operands that match types, the last on top.
    pub(crate) fn all_fit(&self, operands: &Stack<Operand>, wanted: &[ValType]) -> bool
        ensures { (next : Typed) → want_all wanted.now (types_in self.now operands.now) (λ rest. next)
            ≡ given result next }
    {
        let mut left = operands.as_slice();
        let mut rest = wanted;
        while let Some((last, front)) = rest.split_last() {
            let Some((top, below)) = left.split_last() else {
                return false;
            };
            if !self.fits(top, last) {
                return false;
            }
            rest = front;
            left = below;
        }
        true
    }

    // Puts types on top, the last topmost.
    #[tactic(auto, unfolding(crate::specs::Operands::types_in))]
    pub(crate) fn push_all(
        &self,
        operands: &mut Stack<Operand>,
        types: &[ValType],
    ) -> Result<(), OutOfMemory>
        ensures { IfOk result (λ _. types_in self.now operands.new
            ≡ onto types.now (types_in self.now operands.old)) }
    {
        let mut rest = types;
        while let [ty, tail @ ..] = rest {
            operands.push(Operand::Own(ty.clone()?))?;
            rest = tail;
        }
        operands.count(0);
        Ok(())
    }

    // The results of a block, behind its code, which had so many operands above these.
    pub(crate) fn end_block(
        &self,
        operands: &mut Stack<Operand>,
        height: u32,
        results: &[ValType],
    ) -> Result<(), OutOfMemory>
        ensures { IfOk result (λ _. types_in self.now operands.new
            ≡ onto results.now (types_in self.now operands.old)) }
    {
        operands.count(height);
        self.push_all(operands, results)
    }

    // Operands of the first types, and in their place the second types.
    pub(crate) fn from_to(
        &self,
        operands: &mut Stack<Operand>,
        old: &[ValType],
        new: &[ValType],
    ) -> Result<Reach, OutOfMemory>
        ensures { IfOk result (λ reach.
            from_to old.now new.now (types_in self.now operands.old)
            ≡ typed_as reach (types_in self.now operands.new)) }
    {
        if !self.want_all(operands, old) {
            return Ok(Reach::IllTyped);
        }
        self.push_all(operands, new)?;
        Ok(Reach::Reached)
    }
}
