use wasm_syntax::{Instr, LoadOp, StoreOp};

/// What opens a list of instructions.
#[derive(Clone, Copy, PartialEq, Eq)]
pub(crate) enum Opener {
    Block,
    Loop,
    If,
}

/// The instructions of one number.
#[derive(Clone, Copy)]
pub(crate) enum IndexedForm {
    Br,
    BrIf,
    Call,
    LocalGet,
    LocalSet,
    LocalTee,
    GlobalGet,
    GlobalSet,
    TableGet,
    TableSet,
    MemorySize,
    MemoryGrow,
    RefFunc,
    DataDrop,
    MemoryFill,
    ElemDrop,
    TableGrow,
    TableSize,
    TableFill,
}

/// The instructions of two numbers.
#[derive(Clone, Copy)]
pub(crate) enum PairedForm {
    MemoryInit,
    MemoryCopy,
    TableInit,
    TableCopy,
}

/// What follows the code of an instruction that holds no list of instructions or labels.
#[derive(Clone, Copy)]
pub(crate) enum StraightForm {
    Plain(Instr),
    Indexed(IndexedForm),
    Load(LoadOp),
    Store(StoreOp),
    Const32,
    Const64,
    RefNull,
    CallIndirect,
    /// A number follows that says which instruction it is.
    Long,
}

/// What a code begins.
#[derive(Clone, Copy)]
pub(crate) enum Form {
    Straight(StraightForm),
    BrTable,
    Opens(Opener),
    Else,
    End,
}

/// What follows the number of an instruction of two codes.
#[derive(Clone, Copy)]
pub(crate) enum LongForm {
    Indexed(IndexedForm),
    Paired(PairedForm),
}
