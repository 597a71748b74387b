ghost use Rattle.std.specs.Prelude.{◌≡◌, ◌≤◌, ◌<◌, ◌+◌, ◌^◌};
ghost use Rattle.wasm_syntax.specs.Operators.{arith, unary_arith, unary_width, unary_result_width, binary_width, binary_result_width};
ghost use Rattle.wasm_syntax.specs.declared.instr.Instr.TheVariants as i;
ghost use Rattle.spec_execution.specs.Operands as on;
ghost use Rattle.code_straight.specs.Acting.{ActsAlone};
ghost use Rattle.code_straight.specs.Numbers.{trap_of, operand_of};
ghost use Rattle.code_straight.specs.Taking.{width};

use crate::acted::Acted;
use crate::operands::{take_integer, take_two};
use code_arith::ArithTrap;
use code_stack::Values;
use wasm_objects::RawVal;
use wasm_syntax::{BinOp, UnOp};
use wasm_values::Trap;

/// An integer of 32 bits as an operand.
#[inline]
pub(crate) fn integer32(x: u32) -> RawVal
    ensures { result ≡ on.integer 32 x }
{
    RawVal::I32(x.cast_signed())
}

/// An integer of 64 bits as an operand.
#[inline]
pub(crate) fn integer64(x: u64) -> RawVal
    ensures { result ≡ on.integer 64 x }
{
    RawVal::I64(x.cast_signed())
}

/// An integer of 64 bits, or of 32, as an operand.
#[inline]
pub(crate) fn integer(wide: bool, x: u64) -> RawVal
    requires { x < 2 ^ width wide }
    ensures { result ≡ on.integer (width wide) x }
{
    if wide {
        return integer64(x);
    }
    integer32(x as u32)
}

/// Whether an operator takes integers of 64 bits.
#[inline]
pub(crate) fn takes_wide(op: UnOp) -> bool
    ensures { unary_width op ≡ width result }
{
    match op {
        UnOp::I32Clz
        | UnOp::I32Ctz
        | UnOp::I32Popcnt
        | UnOp::I32Eqz
        | UnOp::I32Extend8S
        | UnOp::I32Extend16S
        | UnOp::I64ExtendI32S
        | UnOp::I64ExtendI32U => false,
        UnOp::I64Clz
        | UnOp::I64Ctz
        | UnOp::I64Popcnt
        | UnOp::I64Eqz
        | UnOp::I64Extend8S
        | UnOp::I64Extend16S
        | UnOp::I64Extend32S
        | UnOp::I32WrapI64 => true,
    }
}

/// Whether an operator gives an integer of 64 bits.
#[inline]
fn gives_wide(op: UnOp) -> bool
    ensures { unary_result_width op ≡ width result }
{
    match op {
        UnOp::I32Clz
        | UnOp::I32Ctz
        | UnOp::I32Popcnt
        | UnOp::I32Eqz
        | UnOp::I32Extend8S
        | UnOp::I32Extend16S
        | UnOp::I64Eqz
        | UnOp::I32WrapI64 => false,
        UnOp::I64Clz
        | UnOp::I64Ctz
        | UnOp::I64Popcnt
        | UnOp::I64Extend8S
        | UnOp::I64Extend16S
        | UnOp::I64Extend32S
        | UnOp::I64ExtendI32S
        | UnOp::I64ExtendI32U => true,
    }
}

/// Whether an operator takes two integers of 64 bits.
#[inline]
pub(crate) fn takes_two_wide(op: BinOp) -> bool
    ensures { binary_width op ≡ width result }
{
    code_arith::takes_two_wide(op)
}

/// Whether an operator of two integers gives one of 64 bits.
#[inline]
pub(crate) fn gives_one_wide(op: BinOp) -> bool
    ensures { binary_result_width op ≡ width result }
{
    match op {
        BinOp::I64Add
        | BinOp::I64Sub
        | BinOp::I64Mul
        | BinOp::I64DivS
        | BinOp::I64DivU
        | BinOp::I64RemS
        | BinOp::I64RemU
        | BinOp::I64And
        | BinOp::I64Or
        | BinOp::I64Xor
        | BinOp::I64Shl
        | BinOp::I64ShrS
        | BinOp::I64ShrU
        | BinOp::I64Rotl
        | BinOp::I64Rotr => true,
        _ => false,
    }
}

/// What an operator of one operand gives.
#[inline]
pub(crate) fn unary_operand(op: UnOp, x: u64) -> RawVal
    requires { x < 2 ^ unary_width op }
    ensures { result ≡ on.integer (unary_result_width op) (unary_arith op x) }
{
    let wide = gives_wide(op);
    integer(wide, code_arith::unary(op, x))
}

#[inline]
pub(crate) fn trap_of(trap: ArithTrap) -> Trap
    ensures { result ≡ trap_of trap }
{
    match trap {
        ArithTrap::IntegerDivisionByZero => Trap::IntegerDivisionByZero,
        ArithTrap::IntegerOverflow => Trap::IntegerOverflow,
    }
}

/// What an operator of two operands gives.
#[inline]
pub(crate) fn binary_operand(op: BinOp, x: u64, y: u64) -> Result<RawVal, Trap>
    requires first { x < 2 ^ binary_width op }
    requires second { y < 2 ^ binary_width op }
    ensures { result ≡ operand_of (binary_result_width op) (arith op x y) }
{
    let wide = gives_one_wide(op);
    match code_arith::binary(op, x, y) {
        Ok(n) => Ok(integer(wide, n)),
        Err(trap) => Err(trap_of(trap)),
    }
}

/// An operator of one operand.
#[inline]
pub(crate) fn unary(values: &mut Values, op: UnOp) -> Acted
    ensures acts { ActsAlone (i.Unary op) values.old result values.new }
    ensures below { values.new.below ≡ values.old.below }
    ensures room { values.old.room ≤ values.new.room + 1 }
{
    let Some(x) = take_integer(values, takes_wide(op)) else {
        return Acted::Sticks;
    };
    values.push(unary_operand(op, x));
    Acted::Goes
}

/// An operator of two operands.
#[inline]
pub(crate) fn binary(values: &mut Values, op: BinOp) -> Acted
    ensures acts { ActsAlone (i.Binary op) values.old result values.new }
    ensures below { values.new.below ≡ values.old.below }
    ensures room { values.old.room ≤ values.new.room + 1 }
{
    let Some((x, y)) = take_two(values, takes_two_wide(op)) else {
        return Acted::Sticks;
    };
    match binary_operand(op, x, y) {
        Ok(value) => {
            values.push(value);
            Acted::Goes
        }
        Err(trap) => Acted::Traps(trap),
    }
}
