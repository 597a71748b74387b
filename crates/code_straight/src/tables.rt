ghost use Rattle.std.specs.Prelude.{◌≡◌, ◌≤◌, ◌<◌, ◌+◌};
ghost use Rattle.wasm_syntax.specs.declared.instr.Instr.TheVariants as i;
ghost use Rattle.code_stack.specs.Values.{ValuesParts};
ghost use Rattle.code_straight.specs.Acting.{Acts, Keeps};

use crate::acted::{Acted, done_or};
use crate::numbers::integer32;
use crate::objects::table_at;
use crate::operands::{take_element, take_filling, take_i32, take_three};
use code_stack::Values;
use store_state::{Held, Program};
use wasm_objects::RawVal;
use wasm_values::Trap;

/// `table.get`.
#[inline]
pub(crate) fn table_get(
    program: &Program,
    instance: usize,
    held: &mut Held,
    values: &mut Values,
    index: u32,
) -> Acted
    ensures acts { Acts (i.TableGet index) program.now instance held.old values.old result held.new values.new }
    ensures kept { held.new ≡ held.old }
    ensures below { values.new.below ≡ values.old.below }
    ensures room { values.old.room ≤ values.new.room + 1 }
{
    let Some(at) = take_i32(values) else {
        return Acted::Sticks;
    };
    let Some(number) = table_at(program, instance, held, index) else {
        return Acted::Sticks;
    };
    match held.look_up(number, at as usize) {
        Some(Some(element)) => {
            values.push(RawVal::Reference(element));
            Acted::Goes
        }
        Some(None) => Acted::Traps(Trap::TableOutOfBounds),
        None => Acted::Sticks,
    }
}

/// `table.size`.
#[inline]
pub(crate) fn table_size(
    program: &Program,
    instance: usize,
    held: &Held,
    values: &mut Values,
    index: u32,
) -> Acted
    requires { 0 < values.old.room }
    ensures acts { Acts (i.TableSize index) program.now instance held.now values.old result held.now values.new }
    ensures below { values.new.below ≡ values.old.below }
    ensures room { values.old.room ≤ values.new.room + 1 }
{
    let Some(number) = table_at(program, instance, held, index) else {
        return Acted::Sticks;
    };
    let Some(table) = held.table(number) else {
        return Acted::Sticks;
    };
    values.push(integer32((table.size() as u64 % 0x1_0000_0000) as u32));
    Acted::Goes
}

/// `table.set`.
pub(crate) fn table_set(
    program: &Program,
    instance: usize,
    held: &mut Held,
    values: &mut Values,
    index: u32,
) -> Acted
    ensures acts { Acts (i.TableSet index) program.now instance held.old values.old result held.new values.new }
    ensures kept { Keeps result held.old held.new }
    ensures below { values.new.below ≡ values.old.below }
    ensures room { values.old.room ≤ values.new.room + 1 }
{
    let Some((at, reference)) = take_element(values) else {
        return Acted::Sticks;
    };
    let Some(table) = table_at(program, instance, held, index) else {
        return Acted::Sticks;
    };
    let done = held.set_element(table, at as usize, reference);
    done_or(Trap::TableOutOfBounds, done)
}

/// `table.fill`.
pub(crate) fn table_fill(
    program: &Program,
    instance: usize,
    held: &mut Held,
    values: &mut Values,
    index: u32,
) -> Acted
    ensures acts { Acts (i.TableFill index) program.now instance held.old values.old result held.new values.new }
    ensures kept { Keeps result held.old held.new }
    ensures below { values.new.below ≡ values.old.below }
    ensures room { values.old.room ≤ values.new.room + 1 }
{
    let Some((at, reference, len)) = take_filling(values) else {
        return Acted::Sticks;
    };
    let Some(table) = table_at(program, instance, held, index) else {
        return Acted::Sticks;
    };
    let done = held.fill_elements(table, at as usize, reference, len as usize);
    done_or(Trap::TableOutOfBounds, done)
}

/// `table.copy`.
pub(crate) fn table_copy(
    program: &Program,
    instance: usize,
    held: &mut Held,
    values: &mut Values,
    dst: u32,
    src: u32,
) -> Acted
    ensures acts { Acts (i.TableCopy dst src) program.now instance held.old values.old result held.new values.new }
    ensures kept { Keeps result held.old held.new }
    ensures below { values.new.below ≡ values.old.below }
    ensures room { values.old.room ≤ values.new.room + 1 }
{
    let Some((at, from, len)) = take_three(values) else {
        return Acted::Sticks;
    };
    let Some(to) = table_at(program, instance, held, dst) else {
        return Acted::Sticks;
    };
    let Some(source) = table_at(program, instance, held, src) else {
        return Acted::Sticks;
    };
    let done = held.copy_elements(to, at as usize, source, from as usize, len as usize);
    done_or(Trap::TableOutOfBounds, done)
}

/// `table.init`.
pub(crate) fn table_init(
    program: &Program,
    instance: usize,
    held: &mut Held,
    values: &mut Values,
    index: u32,
    segment: u32,
) -> Acted
    ensures acts { Acts (i.TableInit index segment) program.now instance held.old values.old result held.new
        values.new }
    ensures kept { Keeps result held.old held.new }
    ensures below { values.new.below ≡ values.old.below }
    ensures room { values.old.room ≤ values.new.room + 1 }
{
    let Some((at, from, len)) = take_three(values) else {
        return Acted::Sticks;
    };
    let Some(table) = table_at(program, instance, held, index) else {
        return Acted::Sticks;
    };
    let (at, from, len) = (at as usize, from as usize, len as usize);
    match held.init_elements(table, at, instance, segment as usize, from, len) {
        Some(done) => done_or(Trap::TableOutOfBounds, done),
        None => Acted::Sticks,
    }
}

/// `elem.drop`.
pub(crate) fn elem_drop(program: &Program, instance: usize, held: &mut Held, segment: u32) -> Acted
    ensures acts { (values : ValuesParts) →
        Acts (i.ElemDrop segment) program.now instance held.old values result held.new values }
    ensures kept { Keeps result held.old held.new }
{
    let Some(_names) = program.instance(instance) else {
        return Acted::Sticks;
    };
    if held.drop_elements(instance, segment as usize) {
        return Acted::Goes;
    }
    Acted::Sticks
}
