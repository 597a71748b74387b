ghost use Rattle.std.specs.Prelude.{◌≡◌, ◌≤◌, ◌<◌, ◌+◌};
ghost use Rattle.code_straight.specs.Acting.{Acts, Keeps};

use crate::acted::Acted;
use crate::loads::load;
use crate::memories::{data_drop, memory_copy, memory_fill, memory_init, memory_size};
use crate::numbers::{binary, unary};
use crate::stores::store;
use crate::tables::{
    elem_drop, table_copy, table_fill, table_get, table_init, table_set, table_size,
};
use crate::variables::{
    drop_value, global_get, global_set, local_get, local_set, local_tee, push, ref_func,
    ref_is_null, select,
};
use code_stack::Values;
use store_state::{Held, Program};
use wasm_objects::{RawRef, RawVal};
use wasm_syntax::Instr;

/// Does an instruction of an instance's code that leads to no other code. Any other instruction, and those of
/// growth, are `Sticks` here.
///
/// There must be room for one more operand. What lies below the innermost label and frame is never touched.
pub fn act(
    program: &Program,
    instance: usize,
    held: &mut Held,
    values: &mut Values,
    instr: Instr,
) -> Acted
    requires { 0 < values.old.room }
    ensures acts { Acts instr program.now instance held.old values.old result held.new values.new }
    ensures kept { Keeps result held.old held.new }
    ensures below { values.new.below ≡ values.old.below }
    ensures room { values.old.room ≤ values.new.room + 1 }
{
    match instr {
        Instr::Nop => Acted::Goes,
        Instr::Drop => drop_value(values),
        Instr::Select => select(values),
        Instr::LocalGet(index) => local_get(values, index),
        Instr::LocalSet(index) => local_set(values, index),
        Instr::LocalTee(index) => local_tee(values, index),
        Instr::GlobalGet(index) => global_get(program, instance, held, values, index),
        Instr::GlobalSet(index) => global_set(program, instance, held, values, index),
        Instr::Const32(n) => push(values, RawVal::I32(n)),
        Instr::Const64(n) => push(values, RawVal::I64(n)),
        Instr::Unary(op) => unary(values, op),
        Instr::Binary(op) => binary(values, op),
        Instr::Load { op, memory, offset } => {
            load(program, instance, held, values, op, memory, offset)
        }
        Instr::Store { op, memory, offset } => {
            store(program, instance, held, values, op, memory, offset)
        }
        Instr::RefNull(_) => push(values, RawVal::Reference(RawRef::Null)),
        Instr::RefIsNull => ref_is_null(values),
        Instr::RefFunc(index) => ref_func(program, instance, values, index),
        Instr::MemorySize(index) => memory_size(program, instance, held, values, index),
        Instr::TableGet(index) => table_get(program, instance, held, values, index),
        Instr::TableSize(index) => table_size(program, instance, held, values, index),
        Instr::TableSet(index) => table_set(program, instance, held, values, index),
        Instr::MemoryFill(index) => memory_fill(program, instance, held, values, index),
        Instr::MemoryCopy { dst, src } => memory_copy(program, instance, held, values, dst, src),
        Instr::MemoryInit { memory, segment } => {
            memory_init(program, instance, held, values, memory, segment)
        }
        Instr::DataDrop(segment) => data_drop(program, instance, held, segment),
        Instr::TableFill(index) => table_fill(program, instance, held, values, index),
        Instr::TableCopy { dst, src } => table_copy(program, instance, held, values, dst, src),
        Instr::TableInit { table, segment } => {
            table_init(program, instance, held, values, table, segment)
        }
        Instr::ElemDrop(segment) => elem_drop(program, instance, held, segment),
        Instr::Unreachable
        | Instr::Block(_)
        | Instr::Loop(_)
        | Instr::If(_, _)
        | Instr::Br(_)
        | Instr::BrIf(_)
        | Instr::BrTable(_)
        | Instr::Return
        | Instr::Call(_)
        | Instr::CallIndirect { .. }
        | Instr::MemoryGrow(_)
        | Instr::TableGrow(_) => Acted::Sticks,
    }
}
