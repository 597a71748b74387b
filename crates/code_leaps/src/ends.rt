ghost use Rattle.std.specs.Prelude.{◌≡◌, ◌≤◌, ◌<◌, IfSome, IfNone, length};
ghost use Rattle.code_leaps.specs.Leaps.{Ends, EndsBlock, AreSame};

use crate::rounds::Hop;
use code_stack::{Activation, Layer, Row, Rows, Stack};

// Leaves a block at its end; `None` where the code is that of the function, and then nothing changes.
#[inline]
fn end_block<'c>(
    layers: &mut Stack<Layer<'c>>,
    operands: &mut Row,
    height: usize,
) -> Option<Hop<'c>>
    requires { height ≤ length operands.old.last }
    ensures ends { IfSome result (λ h. EndsBlock layers.old operands.old height layers.new operands.new h) }
    ensures within { IfSome result (λ h. h.height ≤ length operands.new.last) }
    ensures fewer { IfSome result (λ h. length layers.new < length layers.old) }
    ensures none { IfNone result ((layers.new ≡ layers.old) × (operands.new ≡ operands.old)) }
{
    if !operands.is_cut() {
        return None;
    }
    let label = layers.pop_block()?;
    let inner = operands.len();
    if !operands.merge() {
        unreachable!();
    }
    let outer = operands.len() - inner;
    Some(Hop {
        code: label.rest,
        height: outer + height,
    })
}

// Leaves a function at its end, for the one that called it; `None` where there is none, or what it leaves fits no rule, and
// then nothing changes.
#[inline]
fn end_function<'c>(
    activation: &mut Activation<'c>,
    layers: &mut Stack<Layer<'c>>,
    rows: &mut Rows,
    height: usize,
) -> Option<Hop<'c>>
    requires { height ≤ length rows.old.operands.last }
    ensures ends { IfSome result (λ h. Ends activation.old layers.old rows.old.operands rows.old.locals height
        activation.new layers.new rows.new.operands rows.new.locals h) }
    ensures within { IfSome result (λ h. h.height ≤ length rows.new.operands.last) }
    ensures fewer { IfSome result (λ h. length layers.new < length layers.old) }
    ensures none { IfNone result (AreSame activation.old layers.old rows.old activation.new layers.new rows.new) }
{
    if height != activation.results {
        return None;
    }
    if !rows.operands.is_cut() || !rows.locals.is_cut() {
        return None;
    }
    let caller = layers.pop_call()?;
    let inner = rows.operands.len();
    if !rows.operands.merge() {
        unreachable!();
    }
    rows.locals.keep(0);
    if !rows.locals.merge() {
        unreachable!();
    }
    *activation = caller.activation;
    let outer = rows.operands.len() - inner;
    Some(Hop {
        code: caller.rest,
        height: outer + height,
    })
}

// Goes on behind a block or a call, at the end of its code; `None` where that is left to the general way, and then nothing
// changes.
#[inline]
pub(crate) fn end_code<'c>(
    activation: &mut Activation<'c>,
    layers: &mut Stack<Layer<'c>>,
    rows: &mut Rows,
    height: usize,
) -> Option<Hop<'c>>
    requires { height ≤ length rows.old.operands.last }
    ensures ends { IfSome result (λ h. Ends activation.old layers.old rows.old.operands rows.old.locals height
        activation.new layers.new rows.new.operands rows.new.locals h) }
    ensures within { IfSome result (λ h. h.height ≤ length rows.new.operands.last) }
    ensures fewer { IfSome result (λ h. length layers.new < length layers.old) }
    ensures none { IfNone result (AreSame activation.old layers.old rows.old activation.new layers.new rows.new) }
{
    match end_block(layers, &mut rows.operands, height) {
        Some(hop) => Some(hop),
        None => end_function(activation, layers, rows, height),
    }
}
