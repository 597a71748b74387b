ghost use Rattle.std.specs.Prelude.{◌≡◌, IfOk, false};
ghost use Rattle.wasm_syntax.specs.Typing.{Inner, type_one};
ghost use Rattle.wasm_syntax.specs.declared.instr.Instr.TheVariants as I;
ghost use Rattle.module_typing.specs.Imported.{seen};
ghost use Rattle.module_typing.specs.Answers.{typed_as, branching, names_block};
ghost use Rattle.module_typing.specs.Code.{in_code};
ghost use Rattle.module_typing.specs.Operands.{types_in};

use crate::code::Code;
use crate::named::Named;
use crate::operand::Operand;
use crate::reach::Reach;
use crate::stack::Stack;
use crate::types_of::{load_type, store_type};
use wasm_syntax::Instr;
use wasm_types::ValType::I32;
use wasm_types::{OutOfMemory, ValType};

impl<'a, 'd> Code<'a, 'd> {
    // `br_table`. Each label of the list is tested, at each branch table that names it.
    fn br_table(
        &self,
        labels: &Stack<&[ValType]>,
        operands: &mut Stack<Operand>,
        index: u32,
    ) -> Reach
        ensures { branching (in_code self.now) (seen labels.now) (I.BrTable index) (types_in self.now operands.old)
            ≡ typed_as result (types_in self.now operands.new) }
    {
        if !self.want(operands, &I32) {
            return Reach::IllTyped;
        }
        let Some(targets) = self.targets(index) else {
            return Reach::IllTyped;
        };
        let Some(first) = targets.first() else {
            return Reach::IllTyped;
        };
        let Some(label) = labels.label(*first) else {
            return Reach::IllTyped;
        };
        if labels.take(self, label.len(), targets, operands) {
            Reach::Unreached
        } else {
            Reach::IllTyped
        }
    }

    // An instruction that names no block.
    pub(crate) fn type_plain(
        &self,
        labels: &Stack<&'d [ValType]>,
        operands: &mut Stack<Operand>,
        instr: Instr,
    ) -> Result<Reach, OutOfMemory>
        requires { names_block instr ≡ false }
        ensures { IfOk result (λ reach. (inner : Inner) →
            type_one (in_code self.now) inner (seen labels.now) instr (types_in self.now operands.old)
            ≡ typed_as reach (types_in self.now operands.new)) }
    {
        match instr {
            Instr::Unreachable => Ok(Reach::Unreached),
            Instr::Nop => Ok(Reach::Reached),
            // These name a block: none of them comes here.
            Instr::Block(_) | Instr::Loop(_) | Instr::If(_, _) => Ok(Reach::IllTyped),
            Instr::Br(label) => Ok(self.br(labels, operands, label)),
            Instr::BrIf(label) => self.br_if(labels, operands, label),
            Instr::BrTable(targets) => Ok(self.br_table(labels, operands, targets)),
            Instr::Return => Ok(self.leave(operands, self.results())),
            Instr::Call(function) => self.call(operands, function),
            Instr::CallIndirect { ty, table } => self.call_indirect(operands, ty, table),
            Instr::Drop => self.drop_one(operands),
            Instr::Select => self.select(operands),
            Instr::LocalGet(local) => self.local_get(operands, local),
            Instr::LocalSet(local) => self.local_set(operands, local),
            Instr::LocalTee(local) => self.local_tee(operands, local),
            Instr::GlobalGet(global) => self.global_get(operands, global),
            Instr::GlobalSet(global) => self.global_set(operands, global),
            Instr::Const32(_) => self.from_to(operands, &[], &[I32]),
            Instr::Const64(_) => self.from_to(operands, &[], &[ValType::I64]),
            Instr::Unary(op) => self.unary(operands, op),
            Instr::Binary(op) => self.binary(operands, op),
            Instr::Load { op, memory, .. } => {
                self.on_named(operands, Named::Memory(memory), &[I32], &[load_type(op)])
            }
            Instr::Store { op, memory, .. } => {
                self.on_named(operands, Named::Memory(memory), &[I32, store_type(op)], &[])
            }
            Instr::MemorySize(memory) => {
                self.on_named(operands, Named::Memory(memory), &[], &[I32])
            }
            Instr::MemoryGrow(memory) => {
                self.on_named(operands, Named::Memory(memory), &[I32], &[I32])
            }
            Instr::MemoryFill(memory) => {
                self.on_named(operands, Named::Memory(memory), &[I32, I32, I32], &[])
            }
            Instr::MemoryCopy { dst, src } => self.bytes_from(operands, dst, Named::Memory(src)),
            Instr::MemoryInit { memory, segment } => {
                self.bytes_from(operands, memory, Named::Data(segment))
            }
            Instr::DataDrop(segment) => self.on_named(operands, Named::Data(segment), &[], &[]),
            Instr::RefNull(family) => self.ref_null(operands, family),
            Instr::RefIsNull => self.ref_is_null(operands),
            Instr::RefFunc(function) => self.ref_func(operands, function),
            Instr::TableGet(table) => self.table_get(operands, table),
            Instr::TableSet(table) => self.table_set(operands, table),
            Instr::TableSize(table) => { self.on_named(operands, Named::Table(table), &[], &[I32]) }
            Instr::TableGrow(table) => self.table_grow(operands, table),
            Instr::TableFill(table) => self.table_fill(operands, table),
            Instr::TableCopy { dst, src } => self.table_copy(operands, dst, src),
            Instr::TableInit { table, segment } => self.table_init(operands, table, segment),
            Instr::ElemDrop(segment) => self.on_named(operands, Named::Elements(segment), &[], &[]),
        }
    }
}
