ghost use Rattle.std.specs.Prelude.{◌≡◌};
ghost use Rattle.script_modules.specs.OperatorNames as names;

use wasm_syntax::{BinOp, UnOp};

/// The operator of one operand of this name.
pub(crate) fn unary_named(name: &str) -> Option<UnOp>
    ensures { result ≡ names.unary_of name.now }
{
    match name {
        "i32.clz" => Some(UnOp::I32Clz),
        "i32.ctz" => Some(UnOp::I32Ctz),
        "i32.popcnt" => Some(UnOp::I32Popcnt),
        "i32.eqz" => Some(UnOp::I32Eqz),
        "i32.extend8_s" => Some(UnOp::I32Extend8S),
        "i32.extend16_s" => Some(UnOp::I32Extend16S),
        "i64.clz" => Some(UnOp::I64Clz),
        "i64.ctz" => Some(UnOp::I64Ctz),
        "i64.popcnt" => Some(UnOp::I64Popcnt),
        "i64.eqz" => Some(UnOp::I64Eqz),
        "i64.extend8_s" => Some(UnOp::I64Extend8S),
        "i64.extend16_s" => Some(UnOp::I64Extend16S),
        "i64.extend32_s" => Some(UnOp::I64Extend32S),
        "i32.wrap_i64" => Some(UnOp::I32WrapI64),
        "i64.extend_i32_s" => Some(UnOp::I64ExtendI32S),
        "i64.extend_i32_u" => Some(UnOp::I64ExtendI32U),
        _ => None,
    }
}

/// The operator of two operands of type `i32` of this name.
pub(crate) fn binary_32_named(name: &str) -> Option<BinOp>
    ensures { result ≡ names.binary_32_of name.now }
{
    match name {
        "i32.add" => Some(BinOp::I32Add),
        "i32.sub" => Some(BinOp::I32Sub),
        "i32.mul" => Some(BinOp::I32Mul),
        "i32.div_s" => Some(BinOp::I32DivS),
        "i32.div_u" => Some(BinOp::I32DivU),
        "i32.rem_s" => Some(BinOp::I32RemS),
        "i32.rem_u" => Some(BinOp::I32RemU),
        "i32.and" => Some(BinOp::I32And),
        "i32.or" => Some(BinOp::I32Or),
        "i32.xor" => Some(BinOp::I32Xor),
        "i32.shl" => Some(BinOp::I32Shl),
        "i32.shr_s" => Some(BinOp::I32ShrS),
        "i32.shr_u" => Some(BinOp::I32ShrU),
        "i32.rotl" => Some(BinOp::I32Rotl),
        "i32.rotr" => Some(BinOp::I32Rotr),
        "i32.eq" => Some(BinOp::I32Eq),
        "i32.ne" => Some(BinOp::I32Ne),
        "i32.lt_s" => Some(BinOp::I32LtS),
        "i32.lt_u" => Some(BinOp::I32LtU),
        "i32.gt_s" => Some(BinOp::I32GtS),
        "i32.gt_u" => Some(BinOp::I32GtU),
        "i32.le_s" => Some(BinOp::I32LeS),
        "i32.le_u" => Some(BinOp::I32LeU),
        "i32.ge_s" => Some(BinOp::I32GeS),
        "i32.ge_u" => Some(BinOp::I32GeU),
        _ => None,
    }
}

/// The operator of two operands of type `i64` of this name.
pub(crate) fn binary_64_named(name: &str) -> Option<BinOp>
    ensures { result ≡ names.binary_64_of name.now }
{
    match name {
        "i64.add" => Some(BinOp::I64Add),
        "i64.sub" => Some(BinOp::I64Sub),
        "i64.mul" => Some(BinOp::I64Mul),
        "i64.div_s" => Some(BinOp::I64DivS),
        "i64.div_u" => Some(BinOp::I64DivU),
        "i64.rem_s" => Some(BinOp::I64RemS),
        "i64.rem_u" => Some(BinOp::I64RemU),
        "i64.and" => Some(BinOp::I64And),
        "i64.or" => Some(BinOp::I64Or),
        "i64.xor" => Some(BinOp::I64Xor),
        "i64.shl" => Some(BinOp::I64Shl),
        "i64.shr_s" => Some(BinOp::I64ShrS),
        "i64.shr_u" => Some(BinOp::I64ShrU),
        "i64.rotl" => Some(BinOp::I64Rotl),
        "i64.rotr" => Some(BinOp::I64Rotr),
        "i64.eq" => Some(BinOp::I64Eq),
        "i64.ne" => Some(BinOp::I64Ne),
        "i64.lt_s" => Some(BinOp::I64LtS),
        "i64.lt_u" => Some(BinOp::I64LtU),
        "i64.gt_s" => Some(BinOp::I64GtS),
        "i64.gt_u" => Some(BinOp::I64GtU),
        "i64.le_s" => Some(BinOp::I64LeS),
        "i64.le_u" => Some(BinOp::I64LeU),
        "i64.ge_s" => Some(BinOp::I64GeS),
        "i64.ge_u" => Some(BinOp::I64GeU),
        _ => None,
    }
}
