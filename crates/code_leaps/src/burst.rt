ghost use Rattle.std.specs.Prelude.{◌≡◌, ◌≢◌, ◌≤◌, ◌<◌, ◌-◌, [], IfSome, IfNone, drop, length, true};
ghost use Rattle.code_straight.specs.Frames.{ActsIn, IsWithin, KeepsIn};
ghost use Rattle.code_leaps.specs.Bursts.{Bursts, is_frequent};

use crate::triples::triple32;
use code_stack::Activation;
use code_straight::frames;
use code_straight::frames::Framed;
use store_state::{Held, Program};
use wasm_objects::RawVal;
use wasm_syntax::Instr;

/// What instructions that lead to no other code came to, the code that is left, and how many turns are.
#[derive(Clone, Copy)]
pub struct Burst<'c> {
    pub framed: Framed,
    pub rest: &'c [Instr],
    pub left: u64,
}

/// Whether an instruction is among the frequent ones.
#[inline]
pub fn is_frequent(instr: Instr) -> bool
    ensures { result ≡ is_frequent instr }
{
    match instr {
        Instr::LocalGet(_)
        | Instr::LocalSet(_)
        | Instr::LocalTee(_)
        | Instr::GlobalGet(_)
        | Instr::GlobalSet(_)
        | Instr::Const32(_)
        | Instr::Const64(_)
        | Instr::Unary(_)
        | Instr::Binary(_)
        | Instr::Load { .. }
        | Instr::Store { .. }
        | Instr::Drop
        | Instr::Select => true,
        _ => false,
    }
}

// Does an instruction on the innermost label's operands, of which so many count, and the locals of the function at work.
// The number of the instance is read where it is used: read before the loop it would be worked on for each burst.
// There is room for an operand more. `None` of one that is not among the frequent ones: then nothing changes.
#[inline]
fn perform(
    program: &Program,
    activation: &Activation<'_>,
    held: &mut Held,
    operands: &mut [RawVal],
    height: usize,
    locals: &mut [RawVal],
    instr: &Instr,
) -> Option<Framed>
    requires { height < length operands.old }
    ensures frequent { IfSome result (λ f. is_frequent instr.now ≡ true) }
    ensures acts { IfSome result (λ f. ActsIn instr.now program.now activation.now.instance held.old height
        operands.old locals.old f held.new operands.new locals.new) }
    ensures kept { IfSome result (λ f. KeepsIn f held.old held.new) }
    ensures within { IfSome result (λ f. IsWithin f operands.new) }
    ensures long { length operands.new ≡ length operands.old }
    ensures many { length locals.new ≡ length locals.old }
    ensures none { IfNone result ((held.new ≡ held.old) × (operands.new ≡ operands.old) × (locals.new ≡ locals.old)) }
{
    match *instr {
        Instr::LocalGet(index) => { Some(frames::local_get(operands, height, locals, index)) }
        Instr::Const32(n) => {
            let top = frames::constant(operands, height, RawVal::I32(n));
            Some(Framed::Goes(top))
        }
        Instr::Const64(n) => {
            let top = frames::constant(operands, height, RawVal::I64(n));
            Some(Framed::Goes(top))
        }
        Instr::GlobalGet(index) => {
            let instance = activation.instance;
            Some(frames::global_get(program, instance, held, operands, height, index))
        }
        Instr::LocalSet(index) => Some(frames::local_set(operands, height, locals, index)),
        Instr::LocalTee(index) => Some(frames::local_tee(operands, height, locals, index)),
        Instr::Drop => Some(frames::drop_value(operands, height)),
        Instr::Select => Some(frames::select(operands, height)),
        Instr::GlobalSet(index) => {
            let instance = activation.instance;
            Some(frames::global_set(program, instance, held, operands, height, index))
        }
        Instr::Unary(op) => Some(frames::unary(operands, height, op)),
        Instr::Binary(op) => Some(frames::binary(operands, height, op)),
        Instr::Load { op, memory, offset } => {
            let instance = activation.instance;
            Some(frames::load(
                program, instance, held, operands, height, op, memory, offset,
            ))
        }
        Instr::Store { op, memory, offset } => {
            let instance = activation.instance;
            Some(frames::store(
                program, instance, held, operands, height, op, memory, offset,
            ))
        }
        _ => None,
    }
}

// How long the code is that so many turns leave, where each takes an instruction.
#[inline]
fn length_behind(code: &[Instr], turns: u64) -> usize
    ensures { result ≡ length code.now - turns }
{
    (code.len() as u64).saturating_sub(turns) as usize
}

// How many turns are left where each instruction that is no longer there took one.
#[inline]
fn turns_left(code: &[Instr], rest: &[Instr], turns: u64) -> u64
    requires shorter { length rest.now ≤ length code.now }
    requires enough { length code.now - length rest.now ≤ turns }
    ensures { result ≡ turns - (length code.now - length rest.now) }
{
    turns - (code.len() - rest.len()) as u64
}

// The same, apart: so the loop counts no turns for the few bursts that do not go on.
#[inline(never)]
fn turns_at_end(code: &[Instr], rest: &[Instr], turns: u64) -> u64
    requires shorter { length rest.now ≤ length code.now }
    requires enough { length code.now - length rest.now ≤ turns }
    ensures { result ≡ turns - (length code.now - length rest.now) }
{
    turns_left(code, rest, turns)
}

// The code behind its first instruction.
#[inline]
fn past_first(code: &[Instr]) -> &[Instr]
    requires { code.now ≢ [] }
    ensures { result.now ≡ drop 1 code.now }
{
    &code[1..]
}

// The code behind its first three instructions.
#[inline]
fn past_three(code: &[Instr]) -> &[Instr]
    requires { 2 < length code.now }
    ensures { result.now ≡ drop 3 code.now }
{
    &code[3..]
}

// Runs on as long as instructions are frequent ones, there is room, and turns are left. What is counted in the loop is the
// code alone, and no turn beside it. An instruction is passed once it went on, where that is known, and not before: so each
// arm of machine code leads to the next instruction, and asks nothing. A local, a constant or a local, and an operator of
// both are done at once, where they are all there: three turns, and two operands that are never written.
#[inline]
pub(crate) fn perform_all<'c>(
    program: &Program,
    activation: &Activation<'_>,
    held: &mut Held,
    operands: &mut [RawVal],
    height: usize,
    locals: &mut [RawVal],
    code: &'c [Instr],
    turns: u64,
) -> Burst<'c>
    requires { height ≤ length operands.old }
    ensures leads { Bursts program.now activation.now.instance held.old code.now height operands.old locals.old turns
        result held.new operands.new locals.new }
    ensures left { result.left ≤ turns }
    ensures still { result.left ≡ turns → result.rest.now ≡ code.now }
    ensures within { IsWithin result.framed operands.new }
    ensures long { length operands.new ≡ length operands.old }
    ensures many { length locals.new ≡ length locals.old }
    ensures fuel { held.new.fuel ≡ held.old.fuel }
{
    let stop = length_behind(code, turns);
    let mut rest = code;
    let mut height = height;
    'burst: while rest.len() > stop {
        if height >= operands.len() {
            break;
        }
        if let Some(n) = triple32(locals, rest, stop) {
            height = frames::constant(operands, height, RawVal::I32(n));
            rest = past_three(rest);
            continue;
        }
        let Some((instr, _)) = rest.split_first() else {
            break;
        };
        let Some(framed) = perform(program, activation, held, operands, height, locals, instr)
        else {
            break;
        };
        let Framed::Goes(next) = framed else {
            let tail = past_first(rest);
            let left = turns_at_end(code, tail, turns);
            return Burst {
                framed,
                rest: tail,
                left,
            };
        };
        rest = past_first(rest);
        height = next;
    }
    let left = turns_left(code, rest, turns);
    Burst {
        framed: Framed::Goes(height),
        rest,
        left,
    }
}
