/// The operators of one operand, named as in the text format (`i32.wrap_i64` is `I32WrapI64`). None of them traps.
#[derive(Clone, Copy, Debug, PartialEq, Eq)]
pub enum UnOp {
    /// How many zero bits stand above the highest one bit; of 0, all 32.
    I32Clz,
    /// How many zero bits stand below the lowest one bit; of 0, all 32.
    I32Ctz,
    /// How many bits are one.
    I32Popcnt,
    /// Whether the operand is 0, as an `i32`: 1 or 0.
    I32Eqz,
    /// The low 8 bits, read as a signed number.
    I32Extend8S,
    /// The low 16 bits, read as a signed number.
    I32Extend16S,
    /// How many zero bits stand above the highest one bit; of 0, all 64.
    I64Clz,
    /// How many zero bits stand below the lowest one bit; of 0, all 64.
    I64Ctz,
    /// How many bits are one.
    I64Popcnt,
    /// Whether the operand is 0, as an `i32`: 1 or 0.
    I64Eqz,
    /// The low 8 bits, read as a signed number.
    I64Extend8S,
    /// The low 16 bits, read as a signed number.
    I64Extend16S,
    /// The low 32 bits, read as a signed number.
    I64Extend32S,
    /// An `i64` modulo 2^32, as an `i32`.
    I32WrapI64,
    /// The `i64` of the same signed value as an `i32`.
    I64ExtendI32S,
    /// The `i64` of the same unsigned value as an `i32`.
    I64ExtendI32U,
}

/// The operators of two operands, named as in the text format (`i32.add` is `I32Add`).
///
/// Both operands have the type that begins the name. The result has it too, save that a comparison (`Eq` to `GeU`)
/// gives an `i32`, 1 where it holds and 0 where it does not. N is the width in bits: 32 or 64.
///
/// A division or a remainder by 0 traps, and so does `DivS` of the least number by -1. No other operator traps.
#[derive(Clone, Copy, Debug, PartialEq, Eq)]
pub enum BinOp {
    /// The sum, modulo 2^N.
    I32Add,
    /// The difference, modulo 2^N.
    I32Sub,
    /// The product, modulo 2^N.
    I32Mul,
    /// The signed quotient, rounded toward zero.
    I32DivS,
    /// The unsigned quotient, rounded down.
    I32DivU,
    /// The remainder of `DivS`: its sign is the sign of the dividend.
    I32RemS,
    /// The remainder of `DivU`.
    I32RemU,
    /// Bitwise and.
    I32And,
    /// Bitwise or.
    I32Or,
    /// Bitwise exclusive or.
    I32Xor,
    /// A shift to the left, by the second operand modulo N.
    I32Shl,
    /// A shift to the right that copies the sign bit, by the second operand modulo N.
    I32ShrS,
    /// A shift to the right that brings in zeros, by the second operand modulo N.
    I32ShrU,
    /// A rotation to the left, by the second operand modulo N.
    I32Rotl,
    /// A rotation to the right, by the second operand modulo N.
    I32Rotr,
    /// Whether the operands are equal.
    I32Eq,
    /// Whether the operands differ.
    I32Ne,
    /// Whether the first is less, as signed numbers.
    I32LtS,
    /// Whether the first is less, as unsigned numbers.
    I32LtU,
    /// Whether the first is greater, as signed numbers.
    I32GtS,
    /// Whether the first is greater, as unsigned numbers.
    I32GtU,
    /// Whether the first is at most the second, as signed numbers.
    I32LeS,
    /// Whether the first is at most the second, as unsigned numbers.
    I32LeU,
    /// Whether the first is at least the second, as signed numbers.
    I32GeS,
    /// Whether the first is at least the second, as unsigned numbers.
    I32GeU,
    /// The sum, modulo 2^N.
    I64Add,
    /// The difference, modulo 2^N.
    I64Sub,
    /// The product, modulo 2^N.
    I64Mul,
    /// The signed quotient, rounded toward zero.
    I64DivS,
    /// The unsigned quotient, rounded down.
    I64DivU,
    /// The remainder of `DivS`: its sign is the sign of the dividend.
    I64RemS,
    /// The remainder of `DivU`.
    I64RemU,
    /// Bitwise and.
    I64And,
    /// Bitwise or.
    I64Or,
    /// Bitwise exclusive or.
    I64Xor,
    /// A shift to the left, by the second operand modulo N.
    I64Shl,
    /// A shift to the right that copies the sign bit, by the second operand modulo N.
    I64ShrS,
    /// A shift to the right that brings in zeros, by the second operand modulo N.
    I64ShrU,
    /// A rotation to the left, by the second operand modulo N.
    I64Rotl,
    /// A rotation to the right, by the second operand modulo N.
    I64Rotr,
    /// Whether the operands are equal.
    I64Eq,
    /// Whether the operands differ.
    I64Ne,
    /// Whether the first is less, as signed numbers.
    I64LtS,
    /// Whether the first is less, as unsigned numbers.
    I64LtU,
    /// Whether the first is greater, as signed numbers.
    I64GtS,
    /// Whether the first is greater, as unsigned numbers.
    I64GtU,
    /// Whether the first is at most the second, as signed numbers.
    I64LeS,
    /// Whether the first is at most the second, as unsigned numbers.
    I64LeU,
    /// Whether the first is at least the second, as signed numbers.
    I64GeS,
    /// Whether the first is at least the second, as unsigned numbers.
    I64GeU,
}
