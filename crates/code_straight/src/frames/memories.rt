ghost use Rattle.std.specs.Prelude.{◌≡◌, ◌≤◌, List, length};
ghost use Rattle.wasm_objects.specs.declared.raw.RawVal.{RawVal};
ghost use Rattle.wasm_syntax.specs.declared.instr.Instr.TheVariants as i;
ghost use Rattle.code_straight.specs.Frames.{ActsIn, IsWithin, KeepsIn};

use crate::frames::Framed;
use crate::frames::operands::{put_value, top_integer32, top_stored};
use crate::loads::loaded;
use crate::objects::memory_at;
use crate::stores::{stores_wide, write_stored};
use store_state::{Held, Program};
use wasm_objects::RawVal;
use wasm_syntax::{LoadOp, StoreOp};
use wasm_values::Trap;

/// A load from the memory that the instance names under the index `memory`.
#[inline]
pub fn load(
    program: &Program,
    instance: usize,
    held: &Held,
    operands: &mut [RawVal],
    height: usize,
    op: LoadOp,
    memory: u32,
    offset: u32,
) -> Framed
    requires within { height ≤ length operands.old }
    ensures acts { (locals : List RawVal) → ActsIn (i.Load op memory offset) program.now instance held.now height
        operands.old locals result held.now operands.new locals }
    ensures long { length operands.new ≡ length operands.old }
    ensures height { IsWithin result operands.new }
{
    let Some(address) = top_integer32(operands, height) else {
        return Framed::Sticks;
    };
    let Some(number) = memory_at(program, instance, held, memory) else {
        return Framed::Sticks;
    };
    let Some(object) = held.memory(number) else {
        return Framed::Sticks;
    };
    let at = address as usize + offset as usize;
    match loaded(op, object.bytes(), at) {
        Some(value) => {
            put_value(&mut operands[height - 1], value);
            Framed::Goes(height)
        }
        None => Framed::Traps(Trap::MemoryOutOfBounds),
    }
}

/// A store to the memory that the instance names under the index `memory`.
#[inline]
pub fn store(
    program: &Program,
    instance: usize,
    held: &mut Held,
    operands: &[RawVal],
    height: usize,
    op: StoreOp,
    memory: u32,
    offset: u32,
) -> Framed
    requires within { height ≤ length operands.now }
    ensures acts { (locals : List RawVal) → ActsIn (i.Store op memory offset) program.now instance held.old height
        operands.now locals result held.new operands.now locals }
    ensures kept { KeepsIn result held.old held.new }
    ensures height { IsWithin result operands.now }
{
    let Some((address, x)) = top_stored(operands, height, stores_wide(op)) else {
        return Framed::Sticks;
    };
    let Some(number) = memory_at(program, instance, held, memory) else {
        return Framed::Sticks;
    };
    let at = address as usize + offset as usize;
    if write_stored(held, number, at, op, x) {
        return Framed::Goes(height - 2);
    }
    Framed::Traps(Trap::MemoryOutOfBounds)
}
