use crate::lists::{OperandList, TextName};
use crate::name::{Name, Operand};
use wasm_types::{ByteList, GlobalType, MemoryType, TableType, TagType};

/// An operation on the objects of a store.
#[derive(Drop)]
pub enum Op {
    /// Makes a memory of its minimum of pages, all zero.
    MemoryNew {
        ty: MemoryType,
    },
    /// Reads `len` bytes from the byte `at` on.
    MemoryRead {
        memory: Name,
        at: u64,
        len: u64,
    },
    /// Replaces the bytes from the byte `at` on.
    MemoryWrite {
        memory: Name,
        at: u64,
        bytes: ByteList,
    },
    /// The number of pages.
    MemorySize {
        memory: Name,
    },
    /// Adds `delta` pages of zeros.
    MemoryGrow {
        memory: Name,
        delta: u64,
    },
    /// Makes a table of its minimum of elements, each of them `init`.
    TableNew {
        ty: TableType,
        init: Operand,
    },
    /// The element at a place, or that there is none.
    TableGet {
        table: Name,
        at: u64,
    },
    /// Replaces the element at a place.
    TableSet {
        table: Name,
        at: u64,
        value: Operand,
    },
    /// The number of elements.
    TableSize {
        table: Name,
    },
    /// Adds `delta` elements, each of them `value`.
    TableGrow {
        table: Name,
        delta: u64,
        value: Operand,
    },
    /// Replaces `len` elements of one table by those of another, or of the same one.
    TableCopy {
        dst: Name,
        dst_at: u64,
        src: Name,
        src_at: u64,
        len: u64,
    },
    /// Replaces `len` elements from the place `at` on by one value.
    TableFill {
        table: Name,
        at: u64,
        value: Operand,
        len: u64,
    },
    /// Makes a global of this value.
    GlobalNew {
        ty: GlobalType,
        init: Operand,
    },
    /// The value of a global.
    GlobalGet {
        global: Name,
    },
    /// Replaces the value of a global that is not constant.
    GlobalSet {
        global: Name,
        value: Operand,
    },
    /// Makes a tag.
    TagNew {
        ty: TagType,
    },
    /// The object that an instance exports under a name.
    GetExport {
        instance: Name,
        name: TextName,
    },
    /// The fuel that is left.
    GetFuel,
    /// Fills the fuel to just so much.
    SetFuel {
        fuel: u64,
    },
    /// Makes this the interval at which a host is to be given the chance to do something else, or takes it away. What
    /// was consumed beyond what there was is forgotten.
    YieldInterval {
        interval: Option<u64>,
    },
    /// Moves the deadline to so many ticks past the present epoch.
    SetEpochDeadline {
        ticks: u64,
    },
    /// Calls a function. Where it is said how many results there are to be, it must have as many.
    Call {
        func: Name,
        args: OperandList,
        results: Option<u64>,
    },
}
