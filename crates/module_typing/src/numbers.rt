ghost use Rattle.std.specs.Prelude.{◌≡◌, IfOk};
ghost use Rattle.wasm_syntax.specs.declared.instr.Instr.TheVariants as Instr;
ghost use Rattle.module_typing.specs.Answers.{typed_as, alone, nowhere};
ghost use Rattle.module_typing.specs.Operands.{types_in};

use crate::code::Code;
use crate::operand::Operand;
use crate::reach::Reach;
use crate::stack::Stack;
use crate::types_of::{binary_operands, binary_result, null_type, unary_operand, unary_result};
use std::slice::from_ref;
use wasm_syntax::{BinOp, UnOp};
use wasm_types::{HeapTopType, OutOfMemory, ValType};

impl Code<'_, '_> {
    // An operator of one operand.
    pub(crate) fn unary(
        &self,
        operands: &mut Stack<Operand>,
        op: UnOp,
    ) -> Result<Reach, OutOfMemory>
        ensures { IfOk result (λ reach.
            alone nowhere (Instr.Unary op) (types_in self.now operands.old)
            ≡ typed_as reach (types_in self.now operands.new)) }
    {
        self.from_to(operands, &[unary_operand(op)], &[unary_result(op)])
    }

    // An operator of two operands.
    pub(crate) fn binary(
        &self,
        operands: &mut Stack<Operand>,
        op: BinOp,
    ) -> Result<Reach, OutOfMemory>
        ensures { IfOk result (λ reach.
            alone nowhere (Instr.Binary op) (types_in self.now operands.old)
            ≡ typed_as reach (types_in self.now operands.new)) }
    {
        self.from_to(
            operands,
            &[binary_operands(op), binary_operands(op)],
            &[binary_result(op)],
        )
    }

    // `ref.null`
    pub(crate) fn ref_null(
        &self,
        operands: &mut Stack<Operand>,
        family: HeapTopType,
    ) -> Result<Reach, OutOfMemory>
        ensures { IfOk result (λ reach.
            alone nowhere (Instr.RefNull family) (types_in self.now operands.old)
            ≡ typed_as reach (types_in self.now operands.new)) }
    {
        self.from_to(operands, &[], &[null_type(family)])
    }

    // `ref.is_null`
    pub(crate) fn ref_is_null(&self, operands: &mut Stack<Operand>) -> Result<Reach, OutOfMemory>
        ensures { IfOk result (λ reach.
            alone nowhere (Instr.RefIsNull) (types_in self.now operands.old)
            ≡ typed_as reach (types_in self.now operands.new)) }
    {
        let Some(ValType::Ref(_)) = self.take_type(operands)? else {
            return Ok(Reach::IllTyped);
        };
        self.from_to(operands, &[], &[ValType::I32])
    }

    // `drop`
    #[tactic(auto, unfolding(crate::specs::Operands::types_in))]
    pub(crate) fn drop_one(&self, operands: &mut Stack<Operand>) -> Result<Reach, OutOfMemory>
        ensures { IfOk result (λ reach.
            alone nowhere (Instr.Drop) (types_in self.now operands.old)
            ≡ typed_as reach (types_in self.now operands.new)) }
    {
        match operands.pop() {
            None => Ok(Reach::IllTyped),
            Some(_) => Ok(Reach::Reached),
        }
    }

    // `select`
    pub(crate) fn select(&self, operands: &mut Stack<Operand>) -> Result<Reach, OutOfMemory>
        ensures { IfOk result (λ reach.
            alone nowhere (Instr.Select) (types_in self.now operands.old)
            ≡ typed_as reach (types_in self.now operands.new)) }
    {
        if !self.want(operands, &ValType::I32) {
            return Ok(Reach::IllTyped);
        }
        let Some(ty) = self.take_type(operands)? else {
            return Ok(Reach::IllTyped);
        };
        if matches!(ty, ValType::Ref(_)) {
            return Ok(Reach::IllTyped);
        }
        self.from_to(operands, from_ref(&ty), from_ref(&ty))
    }
}
