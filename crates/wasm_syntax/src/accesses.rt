/// A load: the type of the value, the width in bits that is read where it is narrower, and whether these bits are
/// extended by their sign (`S`) or by zeros (`U`).
#[derive(Clone, Copy)]
pub enum LoadOp {
    I32Load,
    I32Load8S,
    I32Load8U,
    I32Load16S,
    I32Load16U,
    I64Load,
    I64Load8S,
    I64Load8U,
    I64Load16S,
    I64Load16U,
    I64Load32S,
    I64Load32U,
}

/// A store: the type of the value, and the width in bits of the low part that is written where it is narrower.
#[derive(Clone, Copy)]
pub enum StoreOp {
    I32Store,
    I32Store8,
    I32Store16,
    I64Store,
    I64Store8,
    I64Store16,
    I64Store32,
}
