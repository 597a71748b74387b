ghost use Rattle.std.specs.Prelude.{◌≡◌, ◌≤◌, ◌<◌, ◌-◌, IfSome, true, length};
ghost use Rattle.code_stack.specs.Reading.{TakesI32};
ghost use Rattle.code_straight.specs.Frames.{topmost, IsWithin};
ghost use Rattle.code_leaps.specs.Rounds.{Hops, HopsBehind, IsRound, Rounds};

use crate::burst::{Burst, perform_all};
use code_stack::Activation;
use code_straight::frames::Framed;
use store_state::{Held, Program};
use wasm_objects::RawVal;
use wasm_syntax::Instr;

// Where a branch leads that stays in the innermost block: the code, and how many operands count there.
#[derive(Clone, Copy)]
pub(crate) struct Hop<'c> {
    pub(crate) code: &'c [Instr],
    pub(crate) height: usize,
}

// The topmost operand, where it is an integer of 32 bits.
#[inline]
pub(crate) fn condition(operands: &[RawVal], height: usize) -> Option<u32>
    requires { height ≤ length operands.now }
    ensures takes { IfSome result (λ x. TakesI32 (topmost height operands.now) x (topmost (height - 1) operands.now)) }
    ensures some { IfSome result (λ x. 0 < height) }
{
    if height == 0 {
        return None;
    }
    match operands[height - 1] {
        RawVal::I32(n) => Some(n.cast_unsigned()),
        _ => None,
    }
}

// A branch back to the loop of the innermost code, where there is one and the check before its next round passes.
#[inline]
fn next_round<'c>(label: u32, again: &'c [Instr], passes: bool) -> Option<Hop<'c>>
    ensures innermost { IfSome result (λ h. label ≡ 0) }
    ensures passing { IfSome result (λ h. passes ≡ true) }
    ensures round { IfSome result (λ h. IsRound again.now h) }
{
    if label != 0 || !passes || again.is_empty() {
        return None;
    }
    Some(Hop {
        code: again,
        height: 0,
    })
}

// Where the next instruction leads, if it is a branch that is not taken, or one back to the loop of the innermost code.
#[inline]
fn follow<'c>(
    code: &'c [Instr],
    again: &'c [Instr],
    passes: bool,
    operands: &[RawVal],
    height: usize,
) -> Option<Hop<'c>>
    requires { height ≤ length operands.now }
    ensures hops { IfSome result (λ h. Hops again.now passes code.now (topmost height operands.now) h.code.now
        (topmost h.height operands.now)) }
    ensures within { IfSome result (λ h. h.height ≤ length operands.now) }
{
    let (instr, rest) = code.split_first()?;
    match *instr {
        Instr::Br(label) => next_round(label, again, passes),
        Instr::BrIf(label) => {
            if condition(operands, height)? == 0 {
                return Some(Hop {
                    code: rest,
                    height: height - 1,
                });
            }
            next_round(label, again, passes)
        }
        _ => None,
    }
}

// Where the run goes on behind a burst, in the same block, if a turn is left for that: checks before rounds of a loop pass
// where more than `floor` turns are left behind it.
#[inline]
fn hop_behind<'c>(
    ran: Burst<'c>,
    again: &'c [Instr],
    floor: u64,
    operands: &[RawVal],
) -> Option<Hop<'c>>
    requires { IsWithin ran.framed operands.now }
    ensures hops { IfSome result (λ h. HopsBehind ran.entry again.now floor operands.now h) }
    ensures within { IfSome result (λ h. h.height ≤ length operands.now) }
{
    let Framed::Goes(top) = ran.framed else {
        return None;
    };
    let left = ran.left.checked_sub(1)?;
    follow(ran.rest, again, left > floor, operands, top)
}

// Runs on as long as instructions are frequent ones or branches that stay in the innermost block, there is room, and turns
// are left. The checks before rounds of a loop pass as long as more than `floor` turns are left.
pub(crate) fn perform_rounds<'c>(
    program: &Program,
    activation: &Activation<'_>,
    held: &mut Held,
    operands: &mut [RawVal],
    height: usize,
    locals: &mut [RawVal],
    code: &'c [Instr],
    again: &'c [Instr],
    turns: u64,
    floor: u64,
) -> Burst<'c>
    requires { height ≤ length operands.old }
    ensures leads { Rounds program.now activation.now.instance again.now floor held.old code.now height operands.old
        locals.old turns result held.new operands.new locals.new }
    ensures left { result.left ≤ turns }
    ensures still { result.left ≡ turns → result.rest.now ≡ code.now }
    ensures within { IsWithin result.framed operands.new }
    ensures long { length operands.new ≡ length operands.old }
    ensures many { length locals.new ≡ length locals.old }
    ensures fuel { held.new.fuel ≡ held.old.fuel }
{
    let mut code = code;
    let mut height = height;
    let mut left = turns;
    'rounds: loop {
        let ran = perform_all(
            program, activation, held, operands, height, locals, code, left,
        );
        let Some(hop) = hop_behind(ran, again, floor, operands) else {
            return ran;
        };
        code = hop.code;
        height = hop.height;
        left = ran.left - 1;
    }
}
