ghost use Rattle.std.specs.Prelude.{◌≡◌, IfOk, ℕ};
ghost use Rattle.wasm_syntax.specs.declared.instr.Instr.TheVariants as Instr;
ghost use Rattle.module_typing.specs.Answers.{typed_as, alone};
ghost use Rattle.module_typing.specs.Code.{in_code};
ghost use Rattle.module_typing.specs.Operands.{types_in};

use crate::code::Code;
use crate::operand::Operand;
use crate::reach::Reach;
use crate::stack::Stack;
use wasm_types::{OutOfMemory, ValType};

impl Code<'_, '_> {
    // `table.get`
    pub(crate) fn table_get(
        &self,
        operands: &mut Stack<Operand>,
        table: u32,
    ) -> Result<Reach, OutOfMemory>
        ensures { IfOk result (λ reach.
            alone (in_code self.now) (Instr.TableGet table) (types_in self.now operands.old)
            ≡ typed_as reach (types_in self.now operands.new)) }
    {
        let Some(table) = self.spaces.table(table) else {
            return Ok(Reach::IllTyped);
        };
        let element = ValType::Ref(table.element().clone()?);
        self.from_to(operands, &[ValType::I32], &[element])
    }

    // `table.set`
    pub(crate) fn table_set(
        &self,
        operands: &mut Stack<Operand>,
        table: u32,
    ) -> Result<Reach, OutOfMemory>
        ensures { IfOk result (λ reach.
            alone (in_code self.now) (Instr.TableSet table) (types_in self.now operands.old)
            ≡ typed_as reach (types_in self.now operands.new)) }
    {
        let Some(table) = self.spaces.table(table) else {
            return Ok(Reach::IllTyped);
        };
        let element = ValType::Ref(table.element().clone()?);
        self.from_to(operands, &[ValType::I32, element], &[])
    }

    // `table.grow`
    pub(crate) fn table_grow(
        &self,
        operands: &mut Stack<Operand>,
        table: u32,
    ) -> Result<Reach, OutOfMemory>
        ensures { IfOk result (λ reach.
            alone (in_code self.now) (Instr.TableGrow table) (types_in self.now operands.old)
            ≡ typed_as reach (types_in self.now operands.new)) }
    {
        let Some(table) = self.spaces.table(table) else {
            return Ok(Reach::IllTyped);
        };
        let element = ValType::Ref(table.element().clone()?);
        self.from_to(operands, &[element, ValType::I32], &[ValType::I32])
    }

    // `table.fill`
    pub(crate) fn table_fill(
        &self,
        operands: &mut Stack<Operand>,
        table: u32,
    ) -> Result<Reach, OutOfMemory>
        ensures { IfOk result (λ reach.
            alone (in_code self.now) (Instr.TableFill table) (types_in self.now operands.old)
            ≡ typed_as reach (types_in self.now operands.new)) }
    {
        let Some(table) = self.spaces.table(table) else {
            return Ok(Reach::IllTyped);
        };
        let element = ValType::Ref(table.element().clone()?);
        self.from_to(operands, &[ValType::I32, element, ValType::I32], &[])
    }

    // `table.copy`
    pub(crate) fn table_copy(
        &self,
        operands: &mut Stack<Operand>,
        dst: u32,
        src: u32,
    ) -> Result<Reach, OutOfMemory>
        ensures { IfOk result (λ reach.
            alone (in_code self.now) (Instr.TableCopy dst src) (types_in self.now operands.old)
            ≡ typed_as reach (types_in self.now operands.new)) }
    {
        let Some(table) = self.spaces.table(dst) else {
            return Ok(Reach::IllTyped);
        };
        let Some(from) = self.spaces.table(src) else {
            return Ok(Reach::IllTyped);
        };
        if !from.element().matches(table.element()) {
            return Ok(Reach::IllTyped);
        }
        self.from_to(operands, &[ValType::I32, ValType::I32, ValType::I32], &[])
    }

    // `table.init`
    pub(crate) fn table_init(
        &self,
        operands: &mut Stack<Operand>,
        table: u32,
        segment: u32,
    ) -> Result<Reach, OutOfMemory>
        ensures { IfOk result (λ reach.
            alone (in_code self.now) (Instr.TableInit table segment) (types_in self.now operands.old)
            ≡ typed_as reach (types_in self.now operands.new)) }
    {
        let Some(table) = self.spaces.table(table) else {
            return Ok(Reach::IllTyped);
        };
        let Some(element) = self.spaces.element(segment) else {
            return Ok(Reach::IllTyped);
        };
        if !element.matches(table.element()) {
            return Ok(Reach::IllTyped);
        }
        self.from_to(operands, &[ValType::I32, ValType::I32, ValType::I32], &[])
    }
}
