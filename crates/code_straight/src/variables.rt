ghost use Rattle.std.specs.Prelude.{◌≡◌, ◌≤◌, ◌<◌, ◌+◌, ◌-◌, ◌∷◌, ◌==◌, if◌then◌else◌};
ghost use Rattle.store_state.specs.Parts.{HeldParts};
ghost use Rattle.code_stack.specs.Values.{values_parts};
ghost use Rattle.code_straight.specs.declared.acted.Acted.TheVariants as acted;
ghost use Rattle.wasm_syntax.specs.declared.instr.Instr.TheVariants as i;
ghost use Rattle.spec_execution.specs.Operands as on;
ghost use Rattle.spec_execution.specs.Straight as straight;
ghost use Rattle.code_straight.specs.Acting.{Acts, ActsAlone, Keeps};

use crate::acted::Acted;
use crate::numbers::integer32;
use crate::operands::{take_choice, take_reference, take_value};
use code_stack::Values;
use store_state::{Held, Program};
use wasm_objects::{RawRef, RawVal};
use wasm_types::ValType;

/// An instruction that pushes a value.
#[inline]
pub(crate) fn push(values: &mut Values, value: RawVal) -> Acted
    requires { 0 < values.old.room }
    ensures goes { result ≡ acted.Goes }
    ensures pushed { values.new ≡ values_parts (value ∷ values.old.operands) values.old.locals values.old.below
        (values.old.room - 1) }
{
    values.push(value);
    Acted::Goes
}

/// `drop`.
#[inline]
pub(crate) fn drop_value(values: &mut Values) -> Acted
    ensures acts { ActsAlone i.Drop values.old result values.new }
    ensures below { values.new.below ≡ values.old.below }
    ensures room { values.old.room ≤ values.new.room + 1 }
{
    match take_value(values) {
        Some(_) => Acted::Goes,
        None => Acted::Sticks,
    }
}

/// `select`.
#[inline]
pub(crate) fn select(values: &mut Values) -> Acted
    ensures acts { ActsAlone i.Select values.old result values.new }
    ensures below { values.new.below ≡ values.old.below }
    ensures room { values.old.room ≤ values.new.room + 1 }
{
    let Some((x, y, condition)) = take_choice(values) else {
        return Acted::Sticks;
    };
    values.push(chosen(x, y, condition));
    Acted::Goes
}

// The second of two values where the condition is 0, else the first.
#[inline]
fn chosen(x: RawVal, y: RawVal, condition: u32) -> RawVal
    ensures { result ≡ (if condition == 0 then y else x) }
{
    if condition == 0 {
        return y;
    }
    x
}

/// `local.get`.
#[inline]
pub(crate) fn local_get(values: &mut Values, index: u32) -> Acted
    requires { 0 < values.old.room }
    ensures acts { ActsAlone (i.LocalGet index) values.old result values.new }
    ensures below { values.new.below ≡ values.old.below }
    ensures room { values.old.room ≤ values.new.room + 1 }
{
    let Some(value) = values.local(index as usize) else {
        return Acted::Sticks;
    };
    values.push(value);
    Acted::Goes
}

/// `local.set`.
#[inline]
pub(crate) fn local_set(values: &mut Values, index: u32) -> Acted
    ensures acts { ActsAlone (i.LocalSet index) values.old result values.new }
    ensures below { values.new.below ≡ values.old.below }
    ensures room { values.old.room ≤ values.new.room + 1 }
{
    let Some(value) = take_value(values) else {
        return Acted::Sticks;
    };
    if values.set_local(index as usize, value) {
        return Acted::Goes;
    }
    Acted::Sticks
}

/// `local.tee`.
#[inline]
pub(crate) fn local_tee(values: &mut Values, index: u32) -> Acted
    ensures acts { ActsAlone (i.LocalTee index) values.old result values.new }
    ensures below { values.new.below ≡ values.old.below }
    ensures room { values.old.room ≤ values.new.room + 1 }
{
    let Some(value) = values.pop() else {
        return Acted::Sticks;
    };
    values.push(value);
    if values.set_local(index as usize, value) {
        return Acted::Goes;
    }
    Acted::Sticks
}

/// `global.get`.
#[inline]
pub(crate) fn global_get(
    program: &Program,
    instance: usize,
    held: &Held,
    values: &mut Values,
    index: u32,
) -> Acted
    requires { 0 < values.old.room }
    ensures acts { Acts (i.GlobalGet index) program.now instance held.now values.old result held.now values.new }
    ensures below { values.new.below ≡ values.old.below }
    ensures room { values.old.room ≤ values.new.room + 1 }
{
    let Some(number) = program.global_number(instance, index) else {
        return Acted::Sticks;
    };
    let Some(value) = held.global(number) else {
        return Acted::Sticks;
    };
    values.push(value);
    Acted::Goes
}

/// `global.set`.
#[inline]
pub(crate) fn global_set(
    program: &Program,
    instance: usize,
    held: &mut Held,
    values: &mut Values,
    index: u32,
) -> Acted
    ensures acts { Acts (i.GlobalSet index) program.now instance held.old values.old result held.new values.new }
    ensures kept { Keeps result held.old held.new }
    ensures below { values.new.below ≡ values.old.below }
    ensures room { values.old.room ≤ values.new.room + 1 }
{
    let Some(value) = take_value(values) else {
        return Acted::Sticks;
    };
    let Some(number) = program.global_number(instance, index) else {
        return Acted::Sticks;
    };
    let Some(global) = held.global_object(number) else {
        return Acted::Sticks;
    };
    if !has_kind(global.ty().content(), value) {
        return Acted::Sticks;
    }
    if held.set_global(number, value) {
        return Acted::Goes;
    }
    Acted::Sticks
}

// Whether a value is of a type's kind.
#[inline]
pub(crate) fn has_kind(ty: &ValType, value: RawVal) -> bool
    ensures { result ≡ on.has_kind ty.now value }
{
    match (ty, value) {
        (ValType::I32, RawVal::I32(_))
        | (ValType::I64, RawVal::I64(_))
        | (ValType::F32, RawVal::F32(_))
        | (ValType::F64, RawVal::F64(_))
        | (ValType::V128, RawVal::V128(_))
        | (ValType::Ref(_), RawVal::Reference(_)) => true,
        _ => false,
    }
}

/// `ref.is_null`.
#[inline]
pub(crate) fn ref_is_null(values: &mut Values) -> Acted
    ensures acts { ActsAlone i.RefIsNull values.old result values.new }
    ensures below { values.new.below ≡ values.old.below }
    ensures room { values.old.room ≤ values.new.room + 1 }
{
    let Some(reference) = take_reference(values) else {
        return Acted::Sticks;
    };
    values.push(integer32(null_bit(reference)));
    Acted::Goes
}

// 1 for null, else 0.
#[inline]
fn null_bit(reference: RawRef) -> u32
    ensures { result ≡ straight.null_bit reference }
{
    match reference {
        RawRef::Null => 1,
        _ => 0,
    }
}

/// `ref.func`.
#[inline]
pub(crate) fn ref_func(program: &Program, instance: usize, values: &mut Values, index: u32) -> Acted
    requires { 0 < values.old.room }
    ensures acts { (held : HeldParts) →
        Acts (i.RefFunc index) program.now instance held values.old result held values.new }
    ensures below { values.new.below ≡ values.old.below }
    ensures room { values.old.room ≤ values.new.room + 1 }
{
    let Some(number) = program.function_number(instance, index) else {
        return Acted::Sticks;
    };
    values.push(RawVal::Reference(RawRef::Func(number)));
    Acted::Goes
}
