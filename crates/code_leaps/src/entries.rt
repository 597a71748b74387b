ghost use Rattle.std.specs.Prelude.{◌≡◌, ◌≤◌, ◌+◌, List, IfSome, IfNone, true, false, length, ℕ, ◌∷◌};
ghost use Rattle.std.specs.Bool.{OnTrue, OnFalse};
ghost use Rattle.wasm_objects.specs.Tables.{Table};
ghost use Rattle.wasm_objects.specs.declared.raw.RawVal.{RawVal};
ghost use Rattle.store_state.specs.Parts.{ProgramParts};
ghost use Rattle.code_stack.specs.Values.{HasOpened};
ghost use Rattle.code_leaps.specs.Leaps.{placed, placed_values, Reaches, Begins, LeapsTo, Enters};
ghost use Rattle.code_stack.specs.declared.layers.Layer.TheVariants as layer;
ghost use Rattle.code_leaps.specs.declared.leaps.Aim.TheVariants as aims;

use crate::rounds::Hop;
use code_stack::{Activation, Label, Layer, Row, Stack};
use wasm_syntax::Instr;

// Where the run goes on, and how many turns are left.
#[derive(Clone, Copy)]
pub(crate) struct Led<'c> {
    pub(crate) hop: Hop<'c>,
    pub(crate) left: u64,
}

// The same, and whether that is at the end of code or at an instruction that always leads elsewhere.
#[derive(Clone, Copy)]
pub(crate) struct Ahead<'c> {
    pub(crate) led: Led<'c>,
    pub(crate) leads_elsewhere: bool,
}

// Begins a label with the topmost `count` operands; `false` without memory, and then nothing changes.
#[inline(always)]
fn open_label<'c>(
    layers: &mut Stack<Layer<'c>>,
    operands: &mut Row,
    height: usize,
    label: Label<'c>,
    count: usize,
) -> bool
    requires counted { height ≤ length operands.old.last }
    requires enough { count ≤ height }
    ensures layers { OnTrue result (layers.new ≡ layer.Block label.entry ∷ layers.old) }
    ensures opened { OnTrue result ((further : List (List RawVal)) → (locals : List RawVal) →
        HasOpened count (placed_values operands.old further height locals)
        (placed_values operands.new further count locals)) }
    ensures within { OnTrue result (count ≤ length operands.new.last) }
    ensures same { OnFalse result ((layers.new ≡ layers.old) × (operands.new ≡ operands.old)) }
{
    let Ok(()) = layers.push(Layer::Block(label)) else {
        return false;
    };
    let Ok(()) = operands.split_behind(height - count) else {
        let _layer = layers.pop();
        return false;
    };
    true
}

// Enters a block; `None` where it is left to the general way, and then nothing changes.
#[inline(always)]
pub(crate) fn enter_block<'c>(
    activation: &Activation<'c>,
    layers: &mut Stack<Layer<'c>>,
    operands: &mut Row,
    height: usize,
    rest: &'c [Instr],
    index: u32,
) -> Option<Hop<'c>>
    requires { height ≤ length operands.old.last }
    ensures reaches { IfSome result (λ h. Reaches (aims.Block index) activation.now rest.now layers.old operands.old height
        layers.new operands.new h) }
    ensures within { IfSome result (λ h. h.height ≤ length operands.new.last) }
    ensures few { IfSome result (λ h. length layers.new ≤ length layers.old + 1) }
    ensures none { IfNone result ((layers.new ≡ layers.old) × (operands.new ≡ operands.old)) }
{
    let opening = activation.opening(index)?;
    if height < opening.params {
        return None;
    }
    let label = Label {
        rest,
        arity: opening.results,
        again: None,
    };
    if !open_label(layers, operands, height, label, opening.params) {
        return None;
    }
    Some(Hop {
        code: opening.code,
        height: opening.params,
    })
}

// Enters a loop, where the check before it passes; `None` where that is left to the general way, and then nothing changes.
#[inline]
pub(crate) fn enter_loop<'c>(
    activation: &Activation<'c>,
    layers: &mut Stack<Layer<'c>>,
    operands: &mut Row,
    height: usize,
    rest: &'c [Instr],
    index: u32,
    passes: bool,
) -> Option<Hop<'c>>
    requires { height ≤ length operands.old.last }
    ensures begins { IfSome result (λ h. Begins index activation.now rest.now layers.old operands.old height
        layers.new operands.new h) }
    ensures passing { IfSome result (λ h. passes ≡ true) }
    ensures within { IfSome result (λ h. h.height ≤ length operands.new.last) }
    ensures few { IfSome result (λ h. length layers.new ≤ length layers.old + 1) }
    ensures none { IfNone result ((layers.new ≡ layers.old) × (operands.new ≡ operands.old)) }
{
    if !passes {
        return None;
    }
    let opening = activation.opening(index)?;
    if height < opening.params {
        return None;
    }
    let label = Label {
        rest,
        arity: opening.params,
        again: Some(index),
    };
    if !open_label(layers, operands, height, label, opening.params) {
        return None;
    }
    Some(Hop {
        code: opening.code,
        height: opening.params,
    })
}

// Enters the block with which code begins; `None` where it begins with no block, or that is left to the general way, and
// then nothing changes.
#[inline(always)]
fn enter_first<'c>(
    activation: &Activation<'c>,
    layers: &mut Stack<Layer<'c>>,
    operands: &mut Row,
    height: usize,
    code: &'c [Instr],
) -> Option<Hop<'c>>
    requires { height ≤ length operands.old.last }
    ensures leaps { (program : ProgramParts) → (tables : List Table) → (frames : ℕ) → (further : List (List RawVal)) →
        (locals : List RawVal) → IfSome result (λ h. LeapsTo program tables frames false
        (placed activation.now layers.old operands.old further code.now height locals)
        (placed activation.now layers.new operands.new further h.code.now h.height locals)) }
    ensures within { IfSome result (λ h. h.height ≤ length operands.new.last) }
    ensures few { IfSome result (λ h. length layers.new ≤ length layers.old + 1) }
    ensures none { IfNone result ((layers.new ≡ layers.old) × (operands.new ≡ operands.old)) }
{
    let (instr, rest) = code.split_first()?;
    match *instr {
        Instr::Block(index) => enter_block(activation, layers, operands, height, rest, index),
        _ => None,
    }
}

// Enters blocks, each of which begins with the next one, as long as turns are left: one for each.
#[inline(never)]
fn enter_blocks<'c>(
    activation: &Activation<'c>,
    layers: &mut Stack<Layer<'c>>,
    operands: &mut Row,
    height: usize,
    code: &'c [Instr],
    turns: u64,
) -> Led<'c>
    requires { height ≤ length operands.old.last }
    ensures enters { Enters activation.now layers.old code.now height operands.old turns result layers.new operands.new }
    ensures left { result.left ≤ turns }
    ensures still { result.left ≡ turns → result.hop.code.now ≡ code.now }
    ensures within { result.hop.height ≤ length operands.new.last }
    ensures few { length layers.new + result.left ≤ length layers.old + turns }
{
    let mut code = code;
    let mut height = height;
    let mut left = turns;
    'nested: while left > 0 {
        let Some(hop) = enter_first(activation, layers, operands, height, code) else {
            break;
        };
        code = hop.code;
        height = hop.height;
        left -= 1;
    }
    Led {
        hop: Hop { code, height },
        left,
    }
}

// Whether code begins with a block.
#[inline]
fn begins_block(code: &[Instr]) -> bool {
    match code.first() {
        None => false,
        Some(instr) => matches!(*instr, Instr::Block(_)),
    }
}

// Whether code is at its end or begins with an instruction that always leads elsewhere, so that nothing is to be run first.
#[inline]
fn leads_elsewhere(code: &[Instr]) -> bool {
    match code.first() {
        None => true,
        Some(instr) => matches!(
            *instr,
            Instr::Block(_) | Instr::Loop(_) | Instr::If(_, _) | Instr::BrTable(_)
        ),
    }
}

// Enters the blocks with which code begins, and says whether the code behind them leads elsewhere. What the call answers
// stands in memory, which is made ready where this begins: so this is a function of its own, and code that begins with no
// block pays nothing for it.
#[inline(always)]
fn enter_nested<'c>(
    activation: &Activation<'c>,
    layers: &mut Stack<Layer<'c>>,
    operands: &mut Row,
    from: Led<'c>,
) -> Ahead<'c>
    requires { from.hop.height ≤ length operands.old.last }
    ensures enters { Enters activation.now layers.old from.entry.hop.code.now from.entry.hop.height operands.old
        from.entry.left result.led layers.new operands.new }
    ensures left { result.led.left ≤ from.entry.left }
    ensures still { result.led.left ≡ from.entry.left → result.led.hop.code.now ≡ from.entry.hop.code.now }
    ensures within { result.led.hop.height ≤ length operands.new.last }
    ensures few { length layers.new + result.led.left ≤ length layers.old + from.entry.left }
{
    let hop = from.hop;
    let led = enter_blocks(
        activation, layers, operands, hop.height, hop.code, from.left,
    );
    Ahead {
        led,
        leads_elsewhere: leads_elsewhere(led.hop.code),
    }
}

// Enters the blocks with which code begins, as far as turns are left; where it begins with none, two tests are made in
// place, and nothing is called.
#[inline(always)]
pub(crate) fn enter_ahead<'c>(
    activation: &Activation<'c>,
    layers: &mut Stack<Layer<'c>>,
    operands: &mut Row,
    height: usize,
    code: &'c [Instr],
    turns: u64,
) -> Ahead<'c>
    requires { height ≤ length operands.old.last }
    ensures enters { Enters activation.now layers.old code.now height operands.old turns result.led layers.new
        operands.new }
    ensures left { result.led.left ≤ turns }
    ensures still { result.led.left ≡ turns → result.led.hop.code.now ≡ code.now }
    ensures within { result.led.hop.height ≤ length operands.new.last }
    ensures few { length layers.new + result.led.left ≤ length layers.old + turns }
{
    let here = Led {
        hop: Hop { code, height },
        left: turns,
    };
    if begins_block(code) {
        return enter_nested(activation, layers, operands, here);
    }
    Ahead {
        led: here,
        leads_elsewhere: leads_elsewhere(code),
    }
}
