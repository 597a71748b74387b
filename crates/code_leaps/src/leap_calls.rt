ghost use Rattle.std.specs.Prelude.{◌≡◌, ◌≤◌, ◌+◌, List, ◌∷◌, ◌++◌, IfSome, IfNone, take, length};
ghost use Rattle.std.specs.Bool.{OnTrue, OnFalse};
ghost use Rattle.wasm_objects.specs.Tables.{Table};
ghost use Rattle.wasm_syntax.specs.declared.instr.Instr.TheVariants as i;
ghost use Rattle.code_leaps.specs.Calling.{begun_values};
ghost use Rattle.code_stack.specs.Steps.{HasCalled};
ghost use Rattle.code_leaps.specs.Choosing.{IsElement};
ghost use Rattle.code_leaps.specs.Leaps.{placed, placed_values, AreSame, IsCalledAs, HasEnteredAs, LeapsTo};
ghost use Rattle.code_stack.specs.declared.layers.Layer.TheVariants as layer;

use crate::calls::{begun_value, find_callee};
use crate::indices::find_table;
use crate::rounds::{Hop, condition};
use code_stack::{Activation, Caller, Layer, Row, Rows, Stack, copy_value_from, item};
use store_state::{FunctionKind, Held, Program};
use wasm_objects::RawVal;
use wasm_syntax::Instr;
use wasm_types::ValType;

// Makes the first values of a slice these.
#[inline]
fn copy_front(to: &mut [RawVal], from: &[RawVal])
    requires { length from.now ≤ length to.old }
    ensures front { take (length from.now) to.new ≡ from.now }
    ensures long { length to.new ≡ length to.old }
{
    let mut at = 0;
    'values: while at < from.len() {
        copy_value_from(to, at, from, at);
        at += 1;
    }
}

// Makes the values of a slice from a place on what locals of these types begin with.
#[inline]
fn begin_behind(to: &mut [RawVal], from: usize, types: &[ValType])
    requires { from + length types.now ≤ length to.old }
    ensures front { take (from + length types.now) to.new ≡ take from to.old ++ begun_values types.now }
    ensures long { length to.new ≡ length to.old }
{
    let mut at = 0;
    'types: while at < types.len() {
        to[from + at] = begun_value(&types[at]);
        at += 1;
    }
}

// A segment more, of these values and of what locals of these types begin with; `false` without room for them, and then
// what counts is as it was.
#[inline(always)]
fn begin_segment(row: &mut Row, values: &[RawVal], types: &[ValType]) -> bool
    ensures last { OnTrue result (row.new.last ≡ values.now ++ begun_values types.now) }
    ensures before { OnTrue result (row.new.before ≡ row.old.last ∷ row.old.before) }
    ensures same_last { OnFalse result (row.new.last ≡ row.old.last) }
    ensures same_before { OnFalse result (row.new.before ≡ row.old.before) }
{
    let own = row.len();
    row.fill();
    let spare = row.len() - own;
    if values.len() > spare || types.len() > spare - values.len() {
        row.keep(own);
        return false;
    }
    let Ok(()) = row.split_behind(own) else {
        row.keep(own);
        return false;
    };
    let lent = row.last_mut();
    copy_front(lent, values);
    begin_behind(lent, values.len(), types);
    row.keep(values.len() + types.len());
    true
}

// A function that is to be entered: as it will be at work, its code, how many parameters it has, and the types of its other
// locals.
#[derive(Clone, Copy)]
pub(crate) struct Called<'c> {
    pub(crate) activation: Activation<'c>,
    pub(crate) code: &'c [Instr],
    pub(crate) params: usize,
    pub(crate) locals: &'c [ValType],
}

// The function of a number in the store, where it is one of an instance, its parameters are there, and one more function
// may be open. All others are left to the general way.
#[inline(always)]
fn called_as<'c>(
    program: &'c Program,
    frames: usize,
    activation: &Activation<'_>,
    height: usize,
    number: usize,
) -> Option<Called<'c>>
    ensures calls { IfSome result (λ c. IsCalledAs program.now frames activation.now number c) }
    ensures enough { IfSome result (λ c. c.params ≤ height) }
{
    let Some(
        FunctionKind::Guest {
            instance,
            number: own,
        },
    ) = program.function(number)
    else {
        return None;
    };
    let callee = find_callee(program, instance, own)?;
    let params = callee.ty.params().len();
    if height < params || activation.depth == frames {
        return None;
    }
    let depth = activation.depth.checked_add(1)?;
    let body = item(callee.function.blocks.as_slice(), 0)?;
    let called = Activation {
        instance,
        module: callee.module,
        function: callee.function,
        results: callee.ty.results().len(),
        depth,
    };
    Some(Called {
        activation: called,
        code: body.instrs.as_slice(),
        params,
        locals: callee.function.locals.as_slice(),
    })
}

// The number of the function in an element of a table that is filled, where its type matches this one. All else is left to
// the general way, which fills the place, and knows how each of these fails.
#[inline(never)]
fn element_function(
    program: &Program,
    held: &Held,
    activation: &Activation<'_>,
    ty: u32,
    index: u32,
    place: u32,
) -> Option<usize>
    ensures { IfSome result (λ n. IsElement program.now held.now activation.now ty index place n) }
{
    let wanted = item(activation.module.decl().types.as_slice(), ty as usize)?;
    let table = find_table(program, held, activation.instance, index)?;
    let number = table.filled_function(place as usize)?;
    let own = program.function_type(number)?;
    if !own.matches(wanted) {
        return None;
    }
    Some(number)
}

// Makes the topmost `count` operands the first locals of an inner frame, with others of these types behind them and an empty
// label; `false` without room or memory for that, and then what counts is as it was.
#[inline(always)]
fn open_frame<'c>(
    layers: &mut Stack<Layer<'c>>,
    rows: &mut Rows,
    height: usize,
    caller: Caller<'c>,
    count: usize,
    types: &[ValType],
) -> bool
    requires counted { height ≤ length rows.old.operands.last }
    requires enough { count ≤ height }
    ensures layers { OnTrue result (layers.new ≡ layer.Call caller.entry ∷ layers.old) }
    ensures entered { OnTrue result (HasCalled count (begun_values types.now)
        (placed_values rows.old.operands rows.old.locals.before height rows.old.locals.last)
        (placed_values rows.new.operands rows.new.locals.before 0 rows.new.locals.last)) }
    ensures same_layers { OnFalse result (layers.new ≡ layers.old) }
    ensures same_last { OnFalse result (rows.new.operands.last ≡ rows.old.operands.last) }
    ensures same_before { OnFalse result (rows.new.operands.before ≡ rows.old.operands.before) }
    ensures same_locals { OnFalse result (rows.new.locals.last ≡ rows.old.locals.last) }
    ensures same_callers { OnFalse result (rows.new.locals.before ≡ rows.old.locals.before) }
{
    let Ok(()) = layers.push(Layer::Call(caller)) else {
        return false;
    };
    let Ok(()) = rows.operands.split_behind(height - count) else {
        let _layer = layers.pop();
        return false;
    };
    if begin_segment(&mut rows.locals, &rows.operands.last()[..count], types) {
        return true;
    }
    if !rows.operands.merge() {
        unreachable!();
    }
    let _layer = layers.pop();
    false
}

// Enters a function, behind its check; `None` without room or memory for it, and then nothing that counts changes.
#[inline(always)]
fn enter_called<'c>(
    activation: &mut Activation<'c>,
    layers: &mut Stack<Layer<'c>>,
    rows: &mut Rows,
    height: usize,
    rest: &'c [Instr],
    called: Called<'c>,
) -> Option<Hop<'c>>
    requires counted { height ≤ length rows.old.operands.last }
    requires enough { called.params ≤ height }
    ensures entered { IfSome result (λ h. HasEnteredAs called.entry
        (placed activation.old layers.old rows.old.operands rows.old.locals.before rest.now height rows.old.locals.last)
        (placed activation.new layers.new rows.new.operands rows.new.locals.before h.code.now h.height
        rows.new.locals.last)) }
    ensures within { IfSome result (λ h. h.height ≤ length rows.new.operands.last) }
    ensures few { IfSome result (λ h. length layers.new ≤ length layers.old + 1) }
    ensures none { IfNone result (AreSame activation.old layers.old rows.old activation.new layers.new rows.new) }
{
    let caller = Caller {
        activation: *activation,
        rest,
    };
    if !open_frame(layers, rows, height, caller, called.params, called.locals) {
        return None;
    }
    *activation = called.activation;
    Some(Hop {
        code: called.code,
        height: 0,
    })
}

// Enters a function that is called by an index, where the check before it passes; `None` where that is left to the general
// way, and then nothing that counts changes.
#[inline]
pub(crate) fn call_function<'c>(
    program: &'c Program,
    frames: usize,
    activation: &mut Activation<'c>,
    layers: &mut Stack<Layer<'c>>,
    rows: &mut Rows,
    height: usize,
    rest: &'c [Instr],
    index: u32,
    passes: bool,
) -> Option<Hop<'c>>
    requires { height ≤ length rows.old.operands.last }
    ensures leaps { (tables : List Table) → IfSome result (λ h. LeapsTo program.now tables frames passes
        (placed activation.old layers.old rows.old.operands rows.old.locals.before (i.Call index ∷ rest.now) height
        rows.old.locals.last)
        (placed activation.new layers.new rows.new.operands rows.new.locals.before h.code.now h.height
        rows.new.locals.last)) }
    ensures within { IfSome result (λ h. h.height ≤ length rows.new.operands.last) }
    ensures few { IfSome result (λ h. length layers.new ≤ length layers.old + 1) }
    ensures none { IfNone result (AreSame activation.old layers.old rows.old activation.new layers.new rows.new) }
{
    if !passes {
        return None;
    }
    let number = program.function_number(activation.instance, index)?;
    let called = called_as(program, frames, activation, height, number)?;
    enter_called(activation, layers, rows, height, rest, called)
}

// Enters a function that is called by the element of a table, likewise.
#[inline]
pub(crate) fn call_element<'c>(
    program: &'c Program,
    frames: usize,
    held: &Held,
    activation: &mut Activation<'c>,
    layers: &mut Stack<Layer<'c>>,
    rows: &mut Rows,
    height: usize,
    rest: &'c [Instr],
    ty: u32,
    index: u32,
    passes: bool,
) -> Option<Hop<'c>>
    requires { height ≤ length rows.old.operands.last }
    ensures leaps { IfSome result (λ h. LeapsTo program.now held.now.tables frames passes
        (placed activation.old layers.old rows.old.operands rows.old.locals.before (i.CallIndirect ty index ∷ rest.now)
        height rows.old.locals.last)
        (placed activation.new layers.new rows.new.operands rows.new.locals.before h.code.now h.height
        rows.new.locals.last)) }
    ensures within { IfSome result (λ h. h.height ≤ length rows.new.operands.last) }
    ensures few { IfSome result (λ h. length layers.new ≤ length layers.old + 1) }
    ensures none { IfNone result (AreSame activation.old layers.old rows.old activation.new layers.new rows.new) }
{
    if !passes {
        return None;
    }
    let place = condition(rows.operands.last(), height)?;
    let number = element_function(program, held, activation, ty, index, place)?;
    let called = called_as(program, frames, activation, height - 1, number)?;
    enter_called(activation, layers, rows, height - 1, rest, called)
}
