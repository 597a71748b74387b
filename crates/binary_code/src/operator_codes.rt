ghost use Rattle.std.specs.Prelude.{◌≡◌};
ghost use Rattle.binary_code.specs.OperatorCodes as codes;

use wasm_syntax::{BinOp, UnOp};

/// The operator of one operand of this code.
pub(crate) fn unary_of(code: u8) -> Option<UnOp>
    ensures { result ≡ codes.unary_of code }
{
    match code {
        0x67 => Some(UnOp::I32Clz),
        0x68 => Some(UnOp::I32Ctz),
        0x69 => Some(UnOp::I32Popcnt),
        0x45 => Some(UnOp::I32Eqz),
        0xc0 => Some(UnOp::I32Extend8S),
        0xc1 => Some(UnOp::I32Extend16S),
        0x79 => Some(UnOp::I64Clz),
        0x7a => Some(UnOp::I64Ctz),
        0x7b => Some(UnOp::I64Popcnt),
        0x50 => Some(UnOp::I64Eqz),
        0xc2 => Some(UnOp::I64Extend8S),
        0xc3 => Some(UnOp::I64Extend16S),
        0xc4 => Some(UnOp::I64Extend32S),
        0xa7 => Some(UnOp::I32WrapI64),
        0xac => Some(UnOp::I64ExtendI32S),
        0xad => Some(UnOp::I64ExtendI32U),
        _ => None,
    }
}

/// The operator of two operands of type `i32` of this code.
pub(crate) fn binary_32_of(code: u8) -> Option<BinOp>
    ensures { result ≡ codes.binary_32_of code }
{
    match code {
        0x46 => Some(BinOp::I32Eq),
        0x47 => Some(BinOp::I32Ne),
        0x48 => Some(BinOp::I32LtS),
        0x49 => Some(BinOp::I32LtU),
        0x4a => Some(BinOp::I32GtS),
        0x4b => Some(BinOp::I32GtU),
        0x4c => Some(BinOp::I32LeS),
        0x4d => Some(BinOp::I32LeU),
        0x4e => Some(BinOp::I32GeS),
        0x4f => Some(BinOp::I32GeU),
        0x6a => Some(BinOp::I32Add),
        0x6b => Some(BinOp::I32Sub),
        0x6c => Some(BinOp::I32Mul),
        0x6d => Some(BinOp::I32DivS),
        0x6e => Some(BinOp::I32DivU),
        0x6f => Some(BinOp::I32RemS),
        0x70 => Some(BinOp::I32RemU),
        0x71 => Some(BinOp::I32And),
        0x72 => Some(BinOp::I32Or),
        0x73 => Some(BinOp::I32Xor),
        0x74 => Some(BinOp::I32Shl),
        0x75 => Some(BinOp::I32ShrS),
        0x76 => Some(BinOp::I32ShrU),
        0x77 => Some(BinOp::I32Rotl),
        0x78 => Some(BinOp::I32Rotr),
        _ => None,
    }
}

/// The operator of two operands of type `i64` of this code.
pub(crate) fn binary_64_of(code: u8) -> Option<BinOp>
    ensures { result ≡ codes.binary_64_of code }
{
    match code {
        0x51 => Some(BinOp::I64Eq),
        0x52 => Some(BinOp::I64Ne),
        0x53 => Some(BinOp::I64LtS),
        0x54 => Some(BinOp::I64LtU),
        0x55 => Some(BinOp::I64GtS),
        0x56 => Some(BinOp::I64GtU),
        0x57 => Some(BinOp::I64LeS),
        0x58 => Some(BinOp::I64LeU),
        0x59 => Some(BinOp::I64GeS),
        0x5a => Some(BinOp::I64GeU),
        0x7c => Some(BinOp::I64Add),
        0x7d => Some(BinOp::I64Sub),
        0x7e => Some(BinOp::I64Mul),
        0x7f => Some(BinOp::I64DivS),
        0x80 => Some(BinOp::I64DivU),
        0x81 => Some(BinOp::I64RemS),
        0x82 => Some(BinOp::I64RemU),
        0x83 => Some(BinOp::I64And),
        0x84 => Some(BinOp::I64Or),
        0x85 => Some(BinOp::I64Xor),
        0x86 => Some(BinOp::I64Shl),
        0x87 => Some(BinOp::I64ShrS),
        0x88 => Some(BinOp::I64ShrU),
        0x89 => Some(BinOp::I64Rotl),
        0x8a => Some(BinOp::I64Rotr),
        _ => None,
    }
}
