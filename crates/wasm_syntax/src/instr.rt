use crate::accesses::{LoadOp, StoreOp};
use crate::operators::{BinOp, UnOp};
use wasm_types::HeapTopType;

/// An instruction. Each number is an index: of a block or a target list of the function, of a label from the innermost
/// outwards, of a local, or of an item of one of the module's index spaces.
#[derive(Clone, Copy)]
pub enum Instr {
    /// Traps.
    Unreachable,
    Nop,
    /// Runs the block; a branch to its label ends it.
    Block(u32),
    /// Runs the block; a branch to its label begins it again.
    Loop(u32),
    /// Runs the first block where the operand is not 0, else the second.
    If(u32, u32),
    /// Leaves to the label.
    Br(u32),
    /// Leaves to the label where the operand is not 0.
    BrIf(u32),
    /// Leaves to the label of the target list at the operand's place, or to the last one past the end.
    BrTable(u32),
    /// Leaves the function.
    Return,
    Call(u32),
    /// Calls the function of the table at the operand's place, if its type matches the type of this number.
    CallIndirect {
        ty: u32,
        table: u32,
    },
    Drop,
    /// The first of two operands where the third is not 0, else the second.
    Select,
    LocalGet(u32),
    LocalSet(u32),
    /// Writes a local and keeps the operand.
    LocalTee(u32),
    GlobalGet(u32),
    GlobalSet(u32),
    Const32(i32),
    Const64(i64),
    Unary(UnOp),
    Binary(BinOp),
    /// Reads a value at the address plus the offset, little-endian.
    Load {
        op: LoadOp,
        memory: u32,
        offset: u32,
    },
    /// Writes a value at the address plus the offset, little-endian.
    Store {
        op: StoreOp,
        memory: u32,
        offset: u32,
    },
    /// The memory's pages.
    MemorySize(u32),
    /// Grows the memory by pages, and gives the pages before, or -1.
    MemoryGrow(u32),
    MemoryFill(u32),
    MemoryCopy {
        dst: u32,
        src: u32,
    },
    /// Writes a part of a data segment.
    MemoryInit {
        memory: u32,
        segment: u32,
    },
    DataDrop(u32),
    /// The null of the family.
    RefNull(HeapTopType),
    RefIsNull,
    RefFunc(u32),
    TableGet(u32),
    TableSet(u32),
    /// The table's elements.
    TableSize(u32),
    /// Grows the table by elements, and gives the elements before, or -1.
    TableGrow(u32),
    TableFill(u32),
    TableCopy {
        dst: u32,
        src: u32,
    },
    /// Writes a part of an element segment.
    TableInit {
        table: u32,
        segment: u32,
    },
    ElemDrop(u32),
}
