/// A reference as an object of a store holds it: a function by its number in the store.
#[derive(Clone, Copy, Debug, PartialEq, Eq)]
pub enum RawRef {
    Null,
    /// The function of this number in the store.
    Func(usize),
    /// The host's number of data of its own.
    Extern(u64),
    /// A number below 2^31.
    I31(u32),
}

/// A value as an object of a store holds it. A float is held by its bits.
#[derive(Clone, Copy, Debug, PartialEq, Eq)]
pub enum RawVal {
    I32(i32),
    I64(i64),
    F32(u32),
    F64(u64),
    V128(u128),
    Reference(RawRef),
}
