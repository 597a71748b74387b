use crate::constants::ConstExpr;
use wasm_types::{ByteList, Items, RefType};

/// An element segment: references of one type, and what becomes of them.
pub struct ElemDecl {
    pub ty: RefType,
    pub mode: ElemMode,
    pub items: Items<ConstExpr>,
}

// Written out, so that the crates above do not prove it again of all that is in it.
impl Drop for ElemDecl {
    fn drop(self) {
        let ElemDecl {
            ty: _ty,
            mode: _mode,
            items: _items,
        } = self;
    }
}

/// What becomes of an element segment when its module is instantiated.
#[derive(Drop)]
pub enum ElemMode {
    /// It is kept for `table.init`.
    Passive,
    /// It is dropped.
    Declared,
    /// It is written into the table of this index, from the offset on, and dropped.
    Active { table: u32, offset: ConstExpr },
}

/// A data segment: bytes, and what becomes of them.
pub struct DataDecl {
    pub mode: DataMode,
    pub bytes: ByteList,
}

// Written out, so that the crates above do not prove it again of all that is in it.
impl Drop for DataDecl {
    fn drop(self) {
        let DataDecl {
            mode: _mode,
            bytes: _bytes,
        } = self;
    }
}

/// What becomes of a data segment when its module is instantiated.
#[derive(Drop)]
pub enum DataMode {
    /// It is kept for `memory.init`.
    Passive,
    /// It is written into the memory of this index, from the offset on, and dropped.
    Active { memory: u32, offset: ConstExpr },
}
