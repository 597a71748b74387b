ghost use Rattle.std.specs.Prelude.{◌≡◌, ◌≤◌, ◌<◌, ◌+◌, ◌-◌, ◌*◌, ◌≢◌, [], List, IfSome, IfNone, length, ℕ};
ghost use Rattle.wasm_objects.specs.Tables.{Table};
ghost use Rattle.wasm_objects.specs.declared.raw.RawVal.{RawVal};
ghost use Rattle.store_state.specs.Parts.{ProgramParts};
ghost use Rattle.code_straight.specs.Frames.{topmost, IsWithin};
ghost use Rattle.code_stack.specs.Layers.{frame_of};
ghost use Rattle.code_leaps.specs.Leaps.{amid, placed, Aims, AreSame, Reaches, LeapsTo, LeadsBehind, Leaps};
ghost use Rattle.code_leaps.specs.Rounds.{Loops};
ghost use Rattle.code_leaps.specs.declared.leaps.Aim.TheVariants as aims;

use crate::burst::Burst;
use crate::ends::end_code;
use crate::entries::{Ahead, Led, enter_ahead, enter_block, enter_loop};
use crate::leap_calls::{call_element, call_function};
use crate::rounds::{Hop, condition, perform_rounds};
use code_stack::{Activation, Layer, Opening, Row, Rows, Stack};
use code_straight::frames::Framed;
use store_state::{Held, Program};
use wasm_objects::RawVal;
use wasm_syntax::Instr;

// Where an instruction leads to other code of the function at work: into a block or a loop, or out of blocks.
#[derive(Clone, Copy)]
pub(crate) enum Aim {
    Block(u32),
    Loop(u32),
    Branch(u32),
}

// The same, and how many operands count there.
#[derive(Clone, Copy)]
pub(crate) struct Aimed {
    pub(crate) aim: Aim,
    pub(crate) height: usize,
}

// The loop of the innermost code, where a branch to its label takes no operands along.
#[inline]
fn loop_around<'c>(
    activation: &Activation<'c>,
    layers: &Stack<Layer<'c>>,
    operands: &Row,
) -> Option<Opening<'c>>
    ensures { IfSome result (λ o. (further : List (List RawVal)) →
        Loops (amid activation.now layers.now operands.now further) o.code.now) }
{
    let label = layers.block()?;
    let index = label.again?;
    if label.arity != 0 || !operands.is_cut() {
        return None;
    }
    let opening = activation.opening(index)?;
    if opening.params != 0 {
        return None;
    }
    Some(opening)
}

// The code of that loop, and none where there is no such loop: it goes to `perform_rounds` in registers.
#[inline]
fn innermost_loop<'c>(
    activation: &Activation<'c>,
    layers: &Stack<Layer<'c>>,
    operands: &Row,
) -> &'c [Instr]
    ensures { (further : List (List RawVal)) → Loops (amid activation.now layers.now operands.now further) result.now }
{
    match loop_around(activation, layers, operands) {
        Some(opening) => opening.code,
        None => &[],
    }
}

// Where an instruction leads that leads to other code of the function at work.
#[inline(always)]
fn aim_at(
    activation: &Activation<'_>,
    operands: &[RawVal],
    height: usize,
    instr: Instr,
) -> Option<Aimed>
    requires { height ≤ length operands.now }
    ensures aims { IfSome result (λ a. Aims (frame_of activation.now) instr (topmost height operands.now) a.aim
        (topmost a.height operands.now)) }
    ensures lower { IfSome result (λ a. a.height ≤ height) }
{
    match instr {
        Instr::Block(index) => Some(Aimed {
            aim: Aim::Block(index),
            height,
        }),
        Instr::Loop(index) => Some(Aimed {
            aim: Aim::Loop(index),
            height,
        }),
        Instr::If(first, second) => {
            let wanted = condition(operands, height)?;
            if wanted == 0 {
                return Some(Aimed {
                    aim: Aim::Block(second),
                    height: height - 1,
                });
            }
            Some(Aimed {
                aim: Aim::Block(first),
                height: height - 1,
            })
        }
        Instr::Br(label) => Some(Aimed {
            aim: Aim::Branch(label),
            height,
        }),
        Instr::BrIf(label) => {
            let taken = condition(operands, height)?;
            if taken == 0 {
                return None;
            }
            Some(Aimed {
                aim: Aim::Branch(label),
                height: height - 1,
            })
        }
        Instr::BrTable(table) => {
            let place = condition(operands, height)?;
            let label = activation.table_label(table, place)?;
            Some(Aimed {
                aim: Aim::Branch(label),
                height: height - 1,
            })
        }
        _ => None,
    }
}

// Goes on behind a block of the function at work; `None` where the branch leads elsewhere, and then nothing changes.
#[inline]
fn branch_out<'c>(
    activation: &Activation<'c>,
    layers: &mut Stack<Layer<'c>>,
    operands: &mut Row,
    height: usize,
    rest: &'c [Instr],
    label: u32,
) -> Option<Hop<'c>>
    requires { height ≤ length operands.old.last }
    ensures reaches { IfSome result (λ h. Reaches (aims.Branch label) activation.now rest.now layers.old operands.old
        height layers.new operands.new h) }
    ensures within { IfSome result (λ h. h.height ≤ length operands.new.last) }
    ensures few { IfSome result (λ h. length layers.new ≤ length layers.old + 1) }
    ensures none { IfNone result ((layers.new ≡ layers.old) × (operands.new ≡ operands.old)) }
{
    let skipped = label as usize;
    let target = layers.label(skipped)?;
    let None = target.again else {
        return None;
    };
    if height < target.arity || !operands.is_deeper(skipped) {
        return None;
    }
    layers.shorten(skipped + 1);
    operands.keep(height);
    if !operands.join(skipped, target.arity) {
        unreachable!();
    }
    let height = operands.len();
    operands.fill();
    Some(Hop {
        code: target.rest,
        height,
    })
}

// Does the next instruction, where it leads to other code of the function at work; `None` where it is left to the
// general way, and then nothing changes.
#[inline]
fn leap<'c>(
    activation: &Activation<'c>,
    layers: &mut Stack<Layer<'c>>,
    operands: &mut Row,
    height: usize,
    code: &'c [Instr],
    passes: bool,
) -> Option<Hop<'c>>
    requires { height ≤ length operands.old.last }
    ensures leaps { (program : ProgramParts) → (tables : List Table) → (frames : ℕ) → (further : List (List RawVal)) →
        (locals : List RawVal) → IfSome result (λ h. LeapsTo program tables frames passes
        (placed activation.now layers.old operands.old further code.now height locals)
        (placed activation.now layers.new operands.new further h.code.now h.height locals)) }
    ensures within { IfSome result (λ h. h.height ≤ length operands.new.last) }
    ensures few { IfSome result (λ h. length layers.new ≤ length layers.old + 1) }
    ensures none { IfNone result ((layers.new ≡ layers.old) × (operands.new ≡ operands.old)) }
{
    let (instr, rest) = code.split_first()?;
    let aimed = aim_at(activation, operands.last(), height, *instr)?;
    let top = aimed.height;
    match aimed.aim {
        Aim::Block(index) => enter_block(activation, layers, operands, top, rest, index),
        Aim::Loop(index) => enter_loop(activation, layers, operands, top, rest, index, passes),
        Aim::Branch(label) => branch_out(activation, layers, operands, top, rest, label),
    }
}

// Does the next instruction, where it leads to other code of an instance; `None` where it is left to the general way, and
// then nothing that counts changes.
#[inline]
fn lead_out<'c>(
    program: &'c Program,
    frames: usize,
    held: &Held,
    activation: &mut Activation<'c>,
    layers: &mut Stack<Layer<'c>>,
    rows: &mut Rows,
    height: usize,
    code: &'c [Instr],
    passes: bool,
) -> Option<Hop<'c>>
    requires { height ≤ length rows.old.operands.last }
    ensures leaps { IfSome result (λ h. LeapsTo program.now held.now.tables frames passes
        (placed activation.old layers.old rows.old.operands rows.old.locals.before code.now height rows.old.locals.last)
        (placed activation.new layers.new rows.new.operands rows.new.locals.before h.code.now h.height
        rows.new.locals.last)) }
    ensures within { IfSome result (λ h. h.height ≤ length rows.new.operands.last) }
    ensures few { IfSome result (λ h. length layers.new ≤ length layers.old + 1) }
    ensures none { IfNone result (AreSame activation.old layers.old rows.old activation.new layers.new rows.new) }
{
    let (instr, rest) = code.split_first()?;
    match *instr {
        Instr::Call(index) => call_function(
            program, frames, activation, layers, rows, height, rest, index, passes,
        ),
        Instr::CallIndirect { ty, table } => call_element(
            program, frames, held, activation, layers, rows, height, rest, ty, table, passes,
        ),
        _ => leap(activation, layers, &mut rows.operands, height, code, passes),
    }
}

// Where the run goes on behind instructions of a block: at its end, or by a turn where one is left. Checks before loops and
// functions pass where more than `floor` turns are left behind it. `None` where nothing changes.
#[inline]
fn lead_on<'c>(
    program: &'c Program,
    frames: usize,
    held: &Held,
    activation: &mut Activation<'c>,
    layers: &mut Stack<Layer<'c>>,
    rows: &mut Rows,
    ran: Burst<'c>,
    floor: u64,
) -> Option<Led<'c>>
    requires { IsWithin ran.framed rows.old.operands.last }
    ensures leads { IfSome result (λ l. LeadsBehind program.now held.now.tables frames ran.entry floor activation.old
        layers.old rows.old.operands rows.old.locals activation.new layers.new rows.new.operands rows.new.locals l) }
    ensures within { IfSome result (λ l. l.hop.height ≤ length rows.new.operands.last) }
    ensures none { IfNone result (AreSame activation.old layers.old rows.old activation.new layers.new rows.new) }
{
    let Framed::Goes(top) = ran.framed else {
        return None;
    };
    if ran.rest.is_empty() {
        let ended = end_code(activation, layers, rows, top)?;
        return Some(Led {
            hop: ended,
            left: ran.left,
        });
    }
    let left = ran.left.checked_sub(1)?;
    let hop = lead_out(
        program,
        frames,
        held,
        activation,
        layers,
        rows,
        top,
        ran.rest,
        left > floor,
    )?;
    Some(Led { hop, left })
}

// Frequent instructions and branches that stay in the innermost block, and nothing at once where the code leads elsewhere:
// then the rows are not lent, nor the loop looked for.
#[inline]
fn perform_part<'c>(
    program: &Program,
    activation: &Activation<'c>,
    held: &mut Held,
    layers: &Stack<Layer<'c>>,
    rows: &mut Rows,
    ahead: Ahead<'c>,
    floor: u64,
) -> Burst<'c>
    requires { ahead.led.hop.height ≤ length rows.old.operands.last }
    ensures leads { (frames : ℕ) → Leaps program.now frames floor held.old activation.now layers.now
        ahead.entry.led.hop.code.now ahead.entry.led.hop.height rows.old.operands rows.old.locals ahead.entry.led.left
        result held.new activation.now layers.now rows.new.operands rows.new.locals }
    ensures left { result.left ≤ ahead.entry.led.left }
    ensures still { result.left ≡ ahead.entry.led.left → result.rest.now ≡ ahead.entry.led.hop.code.now }
    ensures within { IsWithin result.framed rows.new.operands.last }
    ensures fuel { held.new.fuel ≡ held.old.fuel }
{
    let hop = ahead.led.hop;
    if ahead.leads_elsewhere {
        return Burst {
            framed: Framed::Goes(hop.height),
            rest: hop.code,
            left: ahead.led.left,
        };
    }
    let again = innermost_loop(activation, layers, &rows.operands);
    perform_rounds(
        program,
        activation,
        held,
        rows.operands.last_mut(),
        hop.height,
        rows.locals.last_mut(),
        hop.code,
        again,
        ahead.led.left,
        floor,
    )
}

/// Runs on as long as instructions are frequent ones, lead to other code of the function at work, call a function of an
/// instance or end one that was called, there is room, and turns are left. Checks before functions, loops and their
/// rounds pass as long as more than `floor` turns are left.
pub fn perform_leaps<'c>(
    program: &'c Program,
    frames: usize,
    activation: &mut Activation<'c>,
    held: &mut Held,
    layers: &mut Stack<Layer<'c>>,
    rows: &mut Rows,
    height: usize,
    code: &'c [Instr],
    turns: u64,
    floor: u64,
) -> Burst<'c>
    requires counted { height ≤ length rows.old.operands.last }
    requires some { code.now ≢ [] }
    ensures leads { Leaps program.now frames floor held.old activation.old layers.old code.now height rows.old.operands
        rows.old.locals turns result held.new activation.new layers.new rows.new.operands rows.new.locals }
    ensures left { result.left ≤ turns }
    ensures still { result.left ≡ turns → result.rest.now ≡ code.now }
    ensures within { IsWithin result.framed rows.new.operands.last }
    ensures fuel { held.new.fuel ≡ held.old.fuel }
{
    let mut code = code;
    let mut height = height;
    let mut left = turns;
    'leaps: loop {
        let ahead = enter_ahead(activation, layers, &mut rows.operands, height, code, left);
        let ran = perform_part(program, activation, held, layers, rows, ahead, floor);
        let Some(led) = lead_on(program, frames, held, activation, layers, rows, ran, floor) else {
            return ran;
        };
        code = led.hop.code;
        height = led.hop.height;
        left = led.left;
    }
}
