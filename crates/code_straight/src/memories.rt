ghost use Rattle.std.specs.Prelude.{◌≡◌, ◌≤◌, ◌<◌, ◌+◌};
ghost use Rattle.wasm_syntax.specs.Operators.{wrap};
ghost use Rattle.wasm_syntax.specs.declared.instr.Instr.TheVariants as i;
ghost use Rattle.spec_machine.specs.Growth.{pages};
ghost use Rattle.wasm_objects.specs.Growth.{MemoryObjectParts};
ghost use Rattle.code_stack.specs.Values.{ValuesParts};
ghost use Rattle.code_straight.specs.Acting.{Acts, Keeps};

use crate::acted::{Acted, done_or};
use crate::numbers::integer32;
use crate::objects::memory_at;
use crate::operands::take_three;
use code_stack::Values;
use store_state::{Held, Program};
use wasm_objects::MemoryObject;
use wasm_values::Trap;

/// The pages of a memory, modulo 2^32.
#[inline]
fn size_of(memory: &MemoryObject) -> u32
    ensures { result ≡ wrap 32 (pages memory.now.memory) }
{
    let length = memory.bytes().len() as u64;
    (length / memory.ty().page_size() % 0x1_0000_0000) as u32
}

/// `memory.size`.
#[inline]
pub(crate) fn memory_size(
    program: &Program,
    instance: usize,
    held: &Held,
    values: &mut Values,
    index: u32,
) -> Acted
    requires { 0 < values.old.room }
    ensures acts { Acts (i.MemorySize index) program.now instance held.now values.old result held.now values.new }
    ensures below { values.new.below ≡ values.old.below }
    ensures room { values.old.room ≤ values.new.room + 1 }
{
    let Some(number) = memory_at(program, instance, held, index) else {
        return Acted::Sticks;
    };
    let Some(memory) = held.memory(number) else {
        return Acted::Sticks;
    };
    values.push(integer32(size_of(memory)));
    Acted::Goes
}

/// `memory.fill`.
pub(crate) fn memory_fill(
    program: &Program,
    instance: usize,
    held: &mut Held,
    values: &mut Values,
    index: u32,
) -> Acted
    ensures acts { Acts (i.MemoryFill index) program.now instance held.old values.old result held.new values.new }
    ensures kept { Keeps result held.old held.new }
    ensures below { values.new.below ≡ values.old.below }
    ensures room { values.old.room ≤ values.new.room + 1 }
{
    let Some((at, value, len)) = take_three(values) else {
        return Acted::Sticks;
    };
    let Some(memory) = memory_at(program, instance, held, index) else {
        return Acted::Sticks;
    };
    let byte = (value % 0x100) as u8;
    let done = held.fill_bytes(memory, at as usize, byte, len as usize);
    done_or(Trap::MemoryOutOfBounds, done)
}

/// `memory.copy`.
pub(crate) fn memory_copy(
    program: &Program,
    instance: usize,
    held: &mut Held,
    values: &mut Values,
    dst: u32,
    src: u32,
) -> Acted
    ensures acts { Acts (i.MemoryCopy dst src) program.now instance held.old values.old result held.new values.new }
    ensures kept { Keeps result held.old held.new }
    ensures below { values.new.below ≡ values.old.below }
    ensures room { values.old.room ≤ values.new.room + 1 }
{
    let Some((at, from, len)) = take_three(values) else {
        return Acted::Sticks;
    };
    let Some(to) = memory_at(program, instance, held, dst) else {
        return Acted::Sticks;
    };
    let Some(source) = memory_at(program, instance, held, src) else {
        return Acted::Sticks;
    };
    let done = held.copy_bytes(to, at as usize, source, from as usize, len as usize);
    done_or(Trap::MemoryOutOfBounds, done)
}

/// `memory.init`.
pub(crate) fn memory_init(
    program: &Program,
    instance: usize,
    held: &mut Held,
    values: &mut Values,
    index: u32,
    segment: u32,
) -> Acted
    ensures acts { Acts (i.MemoryInit index segment) program.now instance held.old values.old result held.new
        values.new }
    ensures kept { Keeps result held.old held.new }
    ensures below { values.new.below ≡ values.old.below }
    ensures room { values.old.room ≤ values.new.room + 1 }
{
    let Some((at, from, len)) = take_three(values) else {
        return Acted::Sticks;
    };
    let Some(memory) = memory_at(program, instance, held, index) else {
        return Acted::Sticks;
    };
    let (at, from, len) = (at as usize, from as usize, len as usize);
    match held.init_bytes(memory, at, instance, segment as usize, from, len) {
        Some(done) => done_or(Trap::MemoryOutOfBounds, done),
        None => Acted::Sticks,
    }
}

/// `data.drop`.
pub(crate) fn data_drop(program: &Program, instance: usize, held: &mut Held, segment: u32) -> Acted
    ensures acts { (values : ValuesParts) →
        Acts (i.DataDrop segment) program.now instance held.old values result held.new values }
    ensures kept { Keeps result held.old held.new }
{
    let Some(_names) = program.instance(instance) else {
        return Acted::Sticks;
    };
    if held.drop_data(instance, segment as usize) {
        return Acted::Goes;
    }
    Acted::Sticks
}
