ghost use Rattle.std.specs.Prelude.{◌≡◌, ◌<◌, ◌^◌, if◌then◌else◌};
ghost use Rattle.wasm_syntax.specs.Operators.{binary_width, unary_width};

use crate::tests::operator_rows::{
    I32_ARITHMETIC, I32_BITS, I32_COMPARISONS, I32_OPERANDS, I64_ARITHMETIC, I64_BITS,
    I64_COMPARISONS, I64_OPERANDS, UNARY_ROWS,
};
use code_arith::{ArithTrap, binary, takes_two_wide, unary};
use std::process::Abort;
use std::str::SplitWhitespace;
use wasm_syntax::{BinOp, UnOp};

/// What a word of a row tells: a number in hexadecimal digits, or a trap.
fn told(word: &str) -> Option<Result<u64, ArithTrap>> {
    match word {
        "by-zero" => Some(Err(ArithTrap::IntegerDivisionByZero)),
        "overflow" => Some(Err(ArithTrap::IntegerOverflow)),
        digits => match u64::from_str_radix(digits, 16) {
            Ok(number) => Some(Ok(number)),
            Err(_) => None,
        },
    }
}

/// What an operator gives, of operands that are cut to its width.
fn given(op: BinOp, x: u64, y: u64) -> Result<u64, ArithTrap> {
    if takes_two_wide(op) {
        binary(op, x, y)
    } else {
        binary(op, x % 0x1_0000_0000, y % 0x1_0000_0000)
    }
}

/// An operator gives, of `x` and of each of the operands, what the next words tell.
fn check_first(rt: &impl Abort, op: BinOp, x: u64, operands: &[u64], words: &mut SplitWhitespace) {
    for y in operands {
        let expected = words.next().and_then(told);
        assert_eq!(rt;
            Some(given(op, x, *y)),
            expected,
            "{op:?} of {x:#x} and {y:#x}"
        );
    }
}

/// An operator gives, of each of the first six operands and of each of all, what the row tells.
fn check_row(rt: &impl Abort, op: BinOp, operands: &[u64], row: &str) {
    let mut words = row.split_whitespace();
    for x in operands.iter().take(6) {
        check_first(rt, op, *x, operands, &mut words);
    }
    assert!(rt; words.next().is_none(), "more words for {op:?}");
}

fn check_binary(rt: &impl Abort, table: &[(BinOp, &str)]) {
    for (op, row) in table {
        let operands = if takes_two_wide(*op) {
            &I64_OPERANDS
        } else {
            &I32_OPERANDS
        };
        check_row(rt, *op, operands, row);
    }
}

#[test]
fn i32_arithmetic(rt: HostRuntime) {
    check_binary(&rt, &I32_ARITHMETIC);
}

#[test]
fn i32_bits(rt: HostRuntime) {
    check_binary(&rt, &I32_BITS);
}

#[test]
fn i32_comparisons(rt: HostRuntime) {
    check_binary(&rt, &I32_COMPARISONS);
}

#[test]
fn i64_arithmetic(rt: HostRuntime) {
    check_binary(&rt, &I64_ARITHMETIC);
}

#[test]
fn i64_bits(rt: HostRuntime) {
    check_binary(&rt, &I64_BITS);
}

#[test]
fn i64_comparisons(rt: HostRuntime) {
    check_binary(&rt, &I64_COMPARISONS);
}

/// Whether an operator of one operand takes one of type `i64`.
fn has_i64(op: UnOp) -> bool
    ensures { unary_width op ≡ (if result then 64 else 32) }
{
    match op {
        UnOp::I64Clz
        | UnOp::I64Ctz
        | UnOp::I64Popcnt
        | UnOp::I64Eqz
        | UnOp::I64Extend8S
        | UnOp::I64Extend16S
        | UnOp::I64Extend32S
        | UnOp::I32WrapI64 => true,
        UnOp::I32Clz
        | UnOp::I32Ctz
        | UnOp::I32Popcnt
        | UnOp::I32Eqz
        | UnOp::I32Extend8S
        | UnOp::I32Extend16S
        | UnOp::I64ExtendI32S
        | UnOp::I64ExtendI32U => false,
    }
}

/// What an operator gives, of an operand that is cut to its width.
fn given_one(op: UnOp, x: u64) -> u64 {
    if has_i64(op) {
        unary(op, x)
    } else {
        unary(op, x % 0x1_0000_0000)
    }
}

/// An operator gives, of each of the operands, what the row tells.
fn check_one(rt: &impl Abort, op: UnOp, operands: &[u64], row: &str) {
    let mut words = row.split_whitespace();
    for x in operands {
        let expected = words.next().and_then(told);
        assert_eq!(rt; Some(Ok(given_one(op, *x))), expected, "{op:?} of {x:#x}");
    }
    assert!(rt; words.next().is_none(), "more words for {op:?}");
}

fn check_unary(rt: &impl Abort, table: &[(UnOp, &str)]) {
    for (op, row) in table {
        let operands = if has_i64(*op) {
            &I64_OPERANDS
        } else {
            &I32_OPERANDS
        };
        check_one(rt, *op, operands, row);
    }
}

#[test]
fn operators_of_one_operand(rt: HostRuntime) {
    check_unary(&rt, &UNARY_ROWS);
}
