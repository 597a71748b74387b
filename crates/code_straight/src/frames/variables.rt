ghost use Rattle.std.specs.Prelude.{◌≡◌, ◌≤◌, ◌<◌, List, length};
ghost use Rattle.wasm_objects.specs.declared.raw.RawVal.{RawVal};
ghost use Rattle.wasm_syntax.specs.declared.instr.Instr.TheVariants as i;
ghost use Rattle.code_straight.specs.Frames.{ActsIn, ActsInAny, IsWithin, KeepsIn};

use crate::frames::Framed;
use crate::frames::operands::{put_value, top_value};
use crate::variables::has_kind;
use code_stack::copy_value_from;
use store_state::{Held, Program};
use wasm_objects::RawVal;

/// `local.get`.
#[inline]
pub fn local_get(operands: &mut [RawVal], height: usize, locals: &[RawVal], index: u32) -> Framed
    requires room { height < length operands.old }
    ensures acts { ActsInAny (i.LocalGet index) height operands.old locals.now result operands.new locals.now }
    ensures long { length operands.new ≡ length operands.old }
    ensures height { IsWithin result operands.new }
{
    let place = index as usize;
    if place >= locals.len() {
        return Framed::Sticks;
    }
    copy_value_from(operands, height, locals, place);
    Framed::Goes(height + 1)
}

/// `local.set`.
#[inline]
pub fn local_set(operands: &[RawVal], height: usize, locals: &mut [RawVal], index: u32) -> Framed
    requires within { height ≤ length operands.now }
    ensures acts { ActsInAny (i.LocalSet index) height operands.now locals.old result operands.now locals.new }
    ensures many { length locals.new ≡ length locals.old }
    ensures height { IsWithin result operands.now }
{
    let place = index as usize;
    if height == 0 || place >= locals.len() {
        return Framed::Sticks;
    }
    copy_value_from(locals, place, operands, height - 1);
    Framed::Goes(height - 1)
}

/// `local.tee`.
#[inline]
pub fn local_tee(operands: &[RawVal], height: usize, locals: &mut [RawVal], index: u32) -> Framed
    requires within { height ≤ length operands.now }
    ensures acts { ActsInAny (i.LocalTee index) height operands.now locals.old result operands.now locals.new }
    ensures many { length locals.new ≡ length locals.old }
    ensures height { IsWithin result operands.now }
{
    let place = index as usize;
    if height == 0 || place >= locals.len() {
        return Framed::Sticks;
    }
    copy_value_from(locals, place, operands, height - 1);
    Framed::Goes(height)
}

/// `global.get`.
#[inline]
pub fn global_get(
    program: &Program,
    instance: usize,
    held: &Held,
    operands: &mut [RawVal],
    height: usize,
    index: u32,
) -> Framed
    requires room { height < length operands.old }
    ensures acts { (locals : List RawVal) → ActsIn (i.GlobalGet index) program.now instance held.now height
        operands.old locals result held.now operands.new locals }
    ensures long { length operands.new ≡ length operands.old }
    ensures height { IsWithin result operands.new }
{
    let Some(number) = program.global_number(instance, index) else {
        return Framed::Sticks;
    };
    let Some(value) = held.global(number) else {
        return Framed::Sticks;
    };
    put_value(&mut operands[height], value);
    Framed::Goes(height + 1)
}

/// `global.set`.
#[inline]
pub fn global_set(
    program: &Program,
    instance: usize,
    held: &mut Held,
    operands: &[RawVal],
    height: usize,
    index: u32,
) -> Framed
    requires within { height ≤ length operands.now }
    ensures acts { (locals : List RawVal) → ActsIn (i.GlobalSet index) program.now instance held.old height
        operands.now locals result held.new operands.now locals }
    ensures kept { KeepsIn result held.old held.new }
    ensures height { IsWithin result operands.now }
{
    let Some(value) = top_value(operands, height) else {
        return Framed::Sticks;
    };
    let Some(number) = program.global_number(instance, index) else {
        return Framed::Sticks;
    };
    let Some(global) = held.global_object(number) else {
        return Framed::Sticks;
    };
    if !has_kind(global.ty().content(), value) {
        return Framed::Sticks;
    }
    if held.set_global(number, value) {
        return Framed::Goes(height - 1);
    }
    Framed::Sticks
}
