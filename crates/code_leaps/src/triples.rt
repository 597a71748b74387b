//! Three instructions in one step: a local, a constant or a local, and an operator of both.

ghost use Rattle.std.specs.Prelude.{◌≡◌, ◌<◌, ◌+◌, IfSome, length, true};
ghost use Rattle.wasm_objects.specs.declared.raw.RawVal.TheVariants as w;
ghost use Rattle.wasm_syntax.specs.Operators.{binary_width};
ghost use Rattle.wasm_syntax.specs.declared.instr.Instr.TheVariants as i;
ghost use Rattle.code_leaps.specs.Bursts.{is_frequent};
ghost use Rattle.code_leaps.specs.Triples.{Puts, Operates, Triple};

use wasm_objects::RawVal;
use wasm_syntax::{BinOp, Instr};

// The integer of 32 bits in a local, where it is one.
#[inline(always)]
fn local32(locals: &[RawVal], index: u32) -> Option<i32>
    ensures { IfSome result (λ n. Puts (i.LocalGet index) locals.now (w.I32 n)) }
{
    let place = index as usize;
    if place >= locals.len() {
        return None;
    }
    match locals[place] {
        RawVal::I32(n) => Some(n),
        _ => None,
    }
}

// The integer of 32 bits that an instruction puts on the operands, where it is a constant or a local.
#[inline(always)]
fn put32(locals: &[RawVal], instr: &Instr) -> Option<i32>
    ensures puts { IfSome result (λ n. Puts instr.now locals.now (w.I32 n)) }
    ensures frequent { IfSome result (λ n. is_frequent instr.now ≡ true) }
{
    match *instr {
        Instr::Const32(n) => Some(n),
        Instr::LocalGet(index) => local32(locals, index),
        _ => None,
    }
}

// What an operator of two integers of 32 bits gives of these, where it does not trap.
#[inline(always)]
fn operated32(op: BinOp, x: i32, y: i32) -> Option<i32>
    requires { binary_width op ≡ 32 }
    ensures { IfSome result (λ n. Operates (i.Binary op) (w.I32 x) (w.I32 y) (w.I32 n)) }
{
    match code_arith::binary32(op, x.cast_unsigned(), y.cast_unsigned()) {
        Ok(n) => Some(n.cast_signed()),
        Err(_) => None,
    }
}

/// What the first three instructions of code put on the operands, where they are a local, a constant or a local, and an
/// operator of both that does not trap, all of 32 bits, and more code is left behind them than `stop` less one. What the
/// third is, is asked before the values are, since most often that decides.
#[inline(always)]
pub(crate) fn triple32(locals: &[RawVal], code: &[Instr], stop: usize) -> Option<i32>
    requires { stop < length code.now }
    ensures within { IfSome result (λ n. stop + 2 < length code.now) }
    ensures does { IfSome result (λ n. Triple code.now locals.now (w.I32 n)) }
{
    let Instr::LocalGet(index) = code[0] else {
        return None;
    };
    if code.len() - stop < 3 {
        return None;
    }
    let Instr::Binary(op) = code[2] else {
        return None;
    };
    if code_arith::takes_two_wide(op) {
        return None;
    }
    let y = put32(locals, &code[1])?;
    let x = local32(locals, index)?;
    operated32(op, x, y)
}
