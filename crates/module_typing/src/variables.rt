ghost use Rattle.std.specs.Prelude.{◌≡◌, ◌∷◌, List, IfOk, ℕ, Some, slice_get};
ghost use Rattle.wasm_types.specs.Matching.{val_matches};
ghost use Rattle.wasm_types.specs.declared.value_types.ValType.{ValType};
ghost use Rattle.wasm_syntax.specs.Typing.{Typed, given, want};
ghost use Rattle.wasm_syntax.specs.declared.instr.Instr.TheVariants as Instr;
ghost use Rattle.module_typing.specs.Answers.{typed_as, alone};
ghost use Rattle.module_typing.specs.Code.{in_code};
ghost use Rattle.module_typing.specs.Operands.{type_in, types_in};
ghost use Rattle.module_typing.specs.declared.operand.Operand.TheVariants as Operand;

use crate::code::Code;
use crate::operand::Operand;
use crate::reach::Reach;
use crate::stack::Stack;
use std::slice::from_ref;
use wasm_types::{HeapType, Mutability, OutOfMemory, RefType, ValType};

impl Code<'_, '_> {
    // Puts the type of a local on top.
    #[tactic(auto, unfolding(crate::specs::Operands::types_in))]
    fn push_local(&self, operands: &mut Stack<Operand>, index: u32) -> Result<(), OutOfMemory>
        ensures { IfOk result (λ _. types_in self.now operands.new
            ≡ type_in self.now (Operand.Local index) ∷ types_in self.now operands.old) }
    {
        operands.push(Operand::Local(index))?;
        operands.count(0);
        Ok(())
    }

    // Whether an operand matches the type of a local: where it was read from there, its type is the same.
    fn fits_local(&self, operand: &Operand, index: u32, ty: &ValType) -> bool
        requires { slice_get (in_code self.now).locals index ≡ Some ty.now }
        ensures { result ≡ val_matches (type_in self.now operand.now) ty.now }
    {
        match operand {
            Operand::Local(own) if *own == index => true,
            _ => self.fits(operand, ty),
        }
    }

    // Takes an operand that matches the type of a local.
    #[tactic(auto, unfolding(crate::specs::Operands::types_in))]
    fn want_local(&self, operands: &mut Stack<Operand>, index: u32, ty: &ValType) -> bool
        requires { slice_get (in_code self.now).locals index ≡ Some ty.now }
        ensures { (go : List ValType → Typed) → want ty.now (types_in self.now operands.old) go
            ≡ given result (go (types_in self.now operands.new)) }
    {
        match operands.pop() {
            None => false,
            Some(operand) => self.fits_local(&operand, index, ty),
        }
    }

    // `local.get`
    pub(crate) fn local_get(
        &self,
        operands: &mut Stack<Operand>,
        index: u32,
    ) -> Result<Reach, OutOfMemory>
        ensures { IfOk result (λ reach.
            alone (in_code self.now) (Instr.LocalGet index) (types_in self.now operands.old)
            ≡ typed_as reach (types_in self.now operands.new)) }
    {
        if self.local(index).is_none() {
            return Ok(Reach::IllTyped);
        }
        self.push_local(operands, index)?;
        Ok(Reach::Reached)
    }

    // `local.set`
    pub(crate) fn local_set(
        &self,
        operands: &mut Stack<Operand>,
        index: u32,
    ) -> Result<Reach, OutOfMemory>
        ensures { IfOk result (λ reach.
            alone (in_code self.now) (Instr.LocalSet index) (types_in self.now operands.old)
            ≡ typed_as reach (types_in self.now operands.new)) }
    {
        let Some(ty) = self.local(index) else {
            return Ok(Reach::IllTyped);
        };
        if self.want_local(operands, index, ty) {
            Ok(Reach::Reached)
        } else {
            Ok(Reach::IllTyped)
        }
    }

    // `local.tee`
    pub(crate) fn local_tee(
        &self,
        operands: &mut Stack<Operand>,
        index: u32,
    ) -> Result<Reach, OutOfMemory>
        ensures { IfOk result (λ reach.
            alone (in_code self.now) (Instr.LocalTee index) (types_in self.now operands.old)
            ≡ typed_as reach (types_in self.now operands.new)) }
    {
        let Some(ty) = self.local(index) else {
            return Ok(Reach::IllTyped);
        };
        if !self.want_local(operands, index, ty) {
            return Ok(Reach::IllTyped);
        }
        self.push_local(operands, index)?;
        Ok(Reach::Reached)
    }

    // `global.get`
    pub(crate) fn global_get(
        &self,
        operands: &mut Stack<Operand>,
        index: u32,
    ) -> Result<Reach, OutOfMemory>
        ensures { IfOk result (λ reach.
            alone (in_code self.now) (Instr.GlobalGet index) (types_in self.now operands.old)
            ≡ typed_as reach (types_in self.now operands.new)) }
    {
        let Some(global) = self.spaces.global(index) else {
            return Ok(Reach::IllTyped);
        };
        self.from_to(operands, &[], from_ref(global.content()))
    }

    // `global.set`
    pub(crate) fn global_set(
        &self,
        operands: &mut Stack<Operand>,
        index: u32,
    ) -> Result<Reach, OutOfMemory>
        ensures { IfOk result (λ reach.
            alone (in_code self.now) (Instr.GlobalSet index) (types_in self.now operands.old)
            ≡ typed_as reach (types_in self.now operands.new)) }
    {
        let Some(global) = self.spaces.global(index) else {
            return Ok(Reach::IllTyped);
        };
        if global.mutability() != Mutability::Var {
            return Ok(Reach::IllTyped);
        }
        self.from_to(operands, from_ref(global.content()), &[])
    }

    // `ref.func`
    pub(crate) fn ref_func(
        &self,
        operands: &mut Stack<Operand>,
        index: u32,
    ) -> Result<Reach, OutOfMemory>
        ensures { IfOk result (λ reach.
            alone (in_code self.now) (Instr.RefFunc index) (types_in self.now operands.old)
            ≡ typed_as reach (types_in self.now operands.new)) }
    {
        let Some(ty) = self.spaces.function_type(index) else {
            return Ok(Reach::IllTyped);
        };
        let reference = RefType::new(false, HeapType::ConcreteFunc(ty.clone()?));
        self.from_to(operands, &[], &[ValType::Ref(reference)])
    }

    // `call`
    pub(crate) fn call(
        &self,
        operands: &mut Stack<Operand>,
        index: u32,
    ) -> Result<Reach, OutOfMemory>
        ensures { IfOk result (λ reach.
            alone (in_code self.now) (Instr.Call index) (types_in self.now operands.old)
            ≡ typed_as reach (types_in self.now operands.new)) }
    {
        let Some(ty) = self.spaces.function_type(index) else {
            return Ok(Reach::IllTyped);
        };
        self.from_to(operands, ty.params(), ty.results())
    }

    // `call_indirect`
    pub(crate) fn call_indirect(
        &self,
        operands: &mut Stack<Operand>,
        index: u32,
        table: u32,
    ) -> Result<Reach, OutOfMemory>
        ensures { IfOk result (λ reach.
            alone (in_code self.now) (Instr.CallIndirect index table) (types_in self.now operands.old)
            ≡ typed_as reach (types_in self.now operands.new)) }
    {
        let Some(ty) = self.ty(index) else {
            return Ok(Reach::IllTyped);
        };
        let Some(table) = self.spaces.table(table) else {
            return Ok(Reach::IllTyped);
        };
        let references = RefType::new(true, HeapType::Func);
        if !table.element().matches(&references) || !self.want(operands, &ValType::I32) {
            return Ok(Reach::IllTyped);
        }
        self.from_to(operands, ty.params(), ty.results())
    }
}
