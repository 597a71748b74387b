ghost use Rattle.std.specs.Prelude.{◌≡◌, ◌≤◌, ◌<◌, ◌+◌};
ghost use Rattle.std.specs.Int.{w8, w16, w32, w64};
ghost use Rattle.wasm_syntax.specs.Operators.{extend_s};
ghost use Rattle.wasm_syntax.specs.declared.instr.Instr.TheVariants as i;
ghost use Rattle.code_straight.specs.Acting.{Acts};
ghost use Rattle.code_straight.specs.Reading.{read_at, loaded_at};

use crate::acted::Acted;
use crate::numbers::{integer32, integer64};
use crate::objects::memory_at;
use crate::operands::take_i32;
use code_stack::Values;
use store_state::{Held, Program};
use wasm_objects::RawVal;
use wasm_syntax::LoadOp;
use wasm_values::Trap;

#[inline]
fn read8(bytes: &[u8], at: usize) -> Option<u8>
    ensures { result ≡ read_at w8 bytes.now at }
{
    if at >= bytes.len() {
        return None;
    }
    Some(bytes[at])
}

#[inline]
fn read16(bytes: &[u8], at: usize) -> Option<u16>
    ensures { result ≡ read_at w16 bytes.now at }
{
    if at > bytes.len() || bytes.len() - at < 2 {
        return None;
    }
    Some(u16::from_le_bytes([bytes[at], bytes[at + 1]]))
}

#[inline]
fn read32(bytes: &[u8], at: usize) -> Option<u32>
    ensures { result ≡ read_at w32 bytes.now at }
{
    if at > bytes.len() || bytes.len() - at < 4 {
        return None;
    }
    Some(u32::from_le_bytes([bytes[at], bytes[at + 1], bytes[at + 2], bytes[at + 3]]))
}

#[inline]
fn read64(bytes: &[u8], at: usize) -> Option<u64>
    ensures { result ≡ read_at w64 bytes.now at }
{
    if at > bytes.len() || bytes.len() - at < 8 {
        return None;
    }
    Some(u64::from_le_bytes([
        bytes[at],
        bytes[at + 1],
        bytes[at + 2],
        bytes[at + 3],
        bytes[at + 4],
        bytes[at + 5],
        bytes[at + 6],
        bytes[at + 7],
    ]))
}

#[inline]
fn extend8_to_32(x: u8) -> u32
    ensures { result ≡ extend_s 8 32 x }
{
    (x.cast_signed() as i32).cast_unsigned()
}

#[inline]
fn extend16_to_32(x: u16) -> u32
    ensures { result ≡ extend_s 16 32 x }
{
    (x.cast_signed() as i32).cast_unsigned()
}

#[inline]
fn extend8_to_64(x: u8) -> u64
    ensures { result ≡ extend_s 8 64 x }
{
    (x.cast_signed() as i64).cast_unsigned()
}

#[inline]
fn extend16_to_64(x: u16) -> u64
    ensures { result ≡ extend_s 16 64 x }
{
    (x.cast_signed() as i64).cast_unsigned()
}

#[inline]
fn extend32_to_64(x: u32) -> u64
    ensures { result ≡ extend_s 32 64 x }
{
    (x.cast_signed() as i64).cast_unsigned()
}

/// What a load gives of the bytes from the place `at` on; `None` exactly where they pass the end.
#[inline]
pub(crate) fn loaded(op: LoadOp, bytes: &[u8], at: usize) -> Option<RawVal>
    ensures { result ≡ loaded_at op bytes.now at }
{
    match op {
        LoadOp::I32Load => Some(integer32(read32(bytes, at)?)),
        LoadOp::I32Load8S => Some(integer32(extend8_to_32(read8(bytes, at)?))),
        LoadOp::I32Load8U => Some(integer32(u32::from(read8(bytes, at)?))),
        LoadOp::I32Load16S => Some(integer32(extend16_to_32(read16(bytes, at)?))),
        LoadOp::I32Load16U => Some(integer32(u32::from(read16(bytes, at)?))),
        LoadOp::I64Load => Some(integer64(read64(bytes, at)?)),
        LoadOp::I64Load8S => Some(integer64(extend8_to_64(read8(bytes, at)?))),
        LoadOp::I64Load8U => Some(integer64(u64::from(read8(bytes, at)?))),
        LoadOp::I64Load16S => Some(integer64(extend16_to_64(read16(bytes, at)?))),
        LoadOp::I64Load16U => Some(integer64(u64::from(read16(bytes, at)?))),
        LoadOp::I64Load32S => Some(integer64(extend32_to_64(read32(bytes, at)?))),
        LoadOp::I64Load32U => Some(integer64(u64::from(read32(bytes, at)?))),
    }
}

/// A load.
#[inline]
pub(crate) fn load(
    program: &Program,
    instance: usize,
    held: &Held,
    values: &mut Values,
    op: LoadOp,
    index: u32,
    offset: u32,
) -> Acted
    ensures acts { Acts (i.Load op index offset) program.now instance held.now values.old result held.now values.new }
    ensures below { values.new.below ≡ values.old.below }
    ensures room { values.old.room ≤ values.new.room + 1 }
{
    let Some(address) = take_i32(values) else {
        return Acted::Sticks;
    };
    let Some(number) = memory_at(program, instance, held, index) else {
        return Acted::Sticks;
    };
    let Some(memory) = held.memory(number) else {
        return Acted::Sticks;
    };
    let at = address as usize + offset as usize;
    match loaded(op, memory.bytes(), at) {
        Some(value) => {
            values.push(value);
            Acted::Goes
        }
        None => Acted::Traps(Trap::MemoryOutOfBounds),
    }
}
