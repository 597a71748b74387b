ghost use Rattle.std.specs.Prelude.{◌≡◌, ◌≤◌, ◌<◌, ◌+◌, ◌^◌, length};
ghost use Rattle.wasm_syntax.specs.declared.instr.Instr.TheVariants as i;
ghost use Rattle.spec_execution.specs.Straight.{store_shape, stored};
ghost use Rattle.store_state.specs.Changes.{Changes};
ghost use Rattle.store_state.specs.Objects.{takes_bytes, with_bytes};
ghost use Rattle.code_straight.specs.Acting.{Acts, Keeps};
ghost use Rattle.code_straight.specs.Taking.{width};

use crate::acted::{Acted, done_or};
use crate::objects::memory_at;
use crate::operands::take_stored;
use code_stack::Values;
use store_state::{Held, Program};
use wasm_syntax::StoreOp;
use wasm_values::Trap;

/// Whether a store takes an integer of 64 bits.
#[inline]
pub(crate) fn stores_wide(op: StoreOp) -> bool
    ensures { (store_shape op).takes ≡ width result }
{
    match op {
        StoreOp::I32Store | StoreOp::I32Store8 | StoreOp::I32Store16 => false,
        StoreOp::I64Store | StoreOp::I64Store8 | StoreOp::I64Store16 | StoreOp::I64Store32 => true,
    }
}

/// Writes what a store writes of an integer into a memory; `false` exactly where it passes the end, and then nothing
/// changes.
#[inline]
pub(crate) fn write_stored(held: &mut Held, memory: usize, at: usize, op: StoreOp, x: u64) -> bool
    requires there { memory < length held.old.memories }
    requires in_range { x < 2 ^ (store_shape op).takes }
    ensures memories { Changes memory (takes_bytes at (stored op x)) (with_bytes at (stored op x))
        held.old.memories result held.new.memories }
    ensures rest { held.new ≡ record held.old { memories = held.new.memories } }
{
    match op {
        StoreOp::I32Store8 | StoreOp::I64Store8 => {
            let bytes = ((x % 0x100) as u8).to_le_bytes();
            held.write_bytes(memory, at, &bytes)
        }
        StoreOp::I32Store16 | StoreOp::I64Store16 => {
            let bytes = ((x % 0x1_0000) as u16).to_le_bytes();
            held.write_bytes(memory, at, &bytes)
        }
        StoreOp::I32Store | StoreOp::I64Store32 => {
            let bytes = ((x % 0x1_0000_0000) as u32).to_le_bytes();
            held.write_bytes(memory, at, &bytes)
        }
        StoreOp::I64Store => {
            let bytes = x.to_le_bytes();
            held.write_bytes(memory, at, &bytes)
        }
    }
}

/// A store.
#[inline]
pub(crate) fn store(
    program: &Program,
    instance: usize,
    held: &mut Held,
    values: &mut Values,
    op: StoreOp,
    index: u32,
    offset: u32,
) -> Acted
    ensures acts { Acts (i.Store op index offset) program.now instance held.old values.old result held.new values.new }
    ensures kept { Keeps result held.old held.new }
    ensures below { values.new.below ≡ values.old.below }
    ensures room { values.old.room ≤ values.new.room + 1 }
{
    let Some((address, x)) = take_stored(values, stores_wide(op)) else {
        return Acted::Sticks;
    };
    let Some(memory) = memory_at(program, instance, held, index) else {
        return Acted::Sticks;
    };
    let at = address as usize + offset as usize;
    let done = write_stored(held, memory, at, op, x);
    done_or(Trap::MemoryOutOfBounds, done)
}
