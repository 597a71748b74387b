use wasm_types::HeapTopType;

/// A constant expression: a start value, an offset, or an item of an element segment.
#[derive(Drop)]
pub enum ConstExpr {
    I32(i32),
    I64(i64),
    /// The bits of the float.
    F32(u32),
    /// The bits of the float.
    F64(u64),
    V128(u128),
    /// The null of the family.
    RefNull(HeapTopType),
    /// A reference to the function of this index.
    RefFunc(u32),
    /// The value of the global of this index.
    GlobalGet(u32),
}
