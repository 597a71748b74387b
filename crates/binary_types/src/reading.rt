ghost use Rattle.std.specs.Prelude.{◌≡◌, ◌^◌, ◌<ℤ◌, pos, IfOk, Result};
ghost use Rattle.wasm_leb.specs.Places.{Place};
ghost use Rattle.binary_types.specs.Reading as reading;
ghost use Rattle.binary_types.specs.Reading.{Reads, ReadsBytes};
ghost use Rattle.binary_types.specs.declared.faults.BinaryFault.{BinaryFault};

use crate::faults::BinaryFault;
use std::alloc::Global;
use wasm_leb::Cursor;
use wasm_types::{ByteList, Items, Text};

/// A reader of one form, which may hold what it reads by, as the types that a number names.
pub trait BinaryReader {
    /// What it reads.
    type Item: Drop;

    /// What the bytes at a place spell, and where it ends; or the first fault.
    ghost meaning: { Self → Place → Result (Self.Item × Place) BinaryFault };

    /// What the bytes spell.
    fn read(&self, alloc: Global, input: &mut Cursor<'_>) -> Result<Self::Item, BinaryFault>
        ensures { Reads (meaning self.now input.old) result input.new };
}

/// One byte.
pub fn byte(input: &mut Cursor<'_>) -> Result<u8, BinaryFault>
    ensures { Reads (reading.byte input.old) result input.new }
{
    match input.byte() {
        Some(b) => Ok(b),
        None => Err(BinaryFault::Malformed),
    }
}

/// A number without sign.
pub fn whole_32(input: &mut Cursor<'_>) -> Result<u32, BinaryFault>
    ensures { Reads (reading.u32 input.old) result input.new }
{
    match input.u32() {
        Some(n) => Ok(n),
        None => Err(BinaryFault::Malformed),
    }
}

/// A number of 33 bits with sign.
pub fn signed_33(input: &mut Cursor<'_>) -> Result<i64, BinaryFault>
    ensures read { Reads (reading.s33 input.old) result input.new }
    ensures below { IfOk result (λ z. z <ℤ pos (2 ^ 32)) }
{
    match input.s33() {
        Some(z) => Ok(z),
        None => Err(BinaryFault::Malformed),
    }
}

/// A number of 32 bits with sign.
pub fn signed_32(input: &mut Cursor<'_>) -> Result<i32, BinaryFault>
    ensures { Reads (reading.i32 input.old) result input.new }
{
    match input.i32() {
        Some(z) => Ok(z),
        None => Err(BinaryFault::Malformed),
    }
}

/// A number of 64 bits with sign.
pub fn signed_64(input: &mut Cursor<'_>) -> Result<i64, BinaryFault>
    ensures { Reads (reading.i64 input.old) result input.new }
{
    match input.i64() {
        Some(z) => Ok(z),
        None => Err(BinaryFault::Malformed),
    }
}

/// The next byte, which is left where it is.
pub fn next_byte(input: &mut Cursor<'_>) -> Result<u8, BinaryFault>
    ensures { Reads (reading.peek input.old) result input.new }
{
    match input.left() {
        [b, ..] => Ok(*b),
        [] => Err(BinaryFault::Malformed),
    }
}

/// A name.
pub fn name(alloc: Global, input: &mut Cursor<'_>) -> Result<Text, BinaryFault>
    ensures { Reads (reading.name input.old) result input.new }
{
    let Some(text) = input.name() else {
        return Err(BinaryFault::Malformed);
    };
    match String::from_str(alloc, text) {
        Ok(text) => Ok(Text(text)),
        Err(_) => Err(BinaryFault::OutOfMemory),
    }
}

/// A number of bytes, and so many.
pub fn byte_list(alloc: Global, input: &mut Cursor<'_>) -> Result<ByteList, BinaryFault>
    ensures { Reads (reading.byte_list input.old) result input.new }
{
    let count = whole_32(input)?;
    let bytes = raw(count as usize, input)?;
    match Vec::from_slice(alloc, bytes) {
        Ok(bytes) => Ok(ByteList(bytes)),
        Err(_) => Err(BinaryFault::OutOfMemory),
    }
}

/// So many bytes.
pub fn raw<'a>(count: usize, input: &mut Cursor<'a>) -> Result<&'a [u8], BinaryFault>
    ensures { ReadsBytes (reading.raw count input.old) result input.new }
{
    match input.take(count) {
        Some(bytes) => Ok(bytes),
        None => Err(BinaryFault::Malformed),
    }
}

/// A byte that has this one possibility.
pub fn fixed(wanted: u8, input: &mut Cursor<'_>) -> Result<(), BinaryFault>
    ensures { Reads (reading.fixed wanted input.old) result input.new }
{
    if byte(input)? == wanted {
        Ok(())
    } else {
        Err(BinaryFault::Malformed)
    }
}

/// So many items, one after another. The count makes no room by itself.
#[tactic(auto, using(crate::proofs::Repeats::times_begun, crate::proofs::Repeats::times_ended, crate::proofs::Repeats::times_more, crate::proofs::Repeats::times_failed))]
pub fn times<R: BinaryReader>(
    alloc: Global,
    count: u32,
    reader: &R,
    input: &mut Cursor<'_>,
) -> Result<Items<R::Item>, BinaryFault>
    ensures { Reads (reading.times count (R.meaning reader.now) input.old) result input.new }
{
    let mut items = Vec::new(alloc);
    for _ in 0..count {
        match reader.read(alloc, input) {
            Ok(item) => {
                if items.push(item).is_err() {
                    return Err(BinaryFault::OutOfMemory);
                }
            }
            Err(fault) => return Err(fault),
        }
    }
    Ok(Items(items))
}

/// A number of items, and so many.
pub fn listed<R: BinaryReader>(
    alloc: Global,
    reader: &R,
    input: &mut Cursor<'_>,
) -> Result<Items<R::Item>, BinaryFault>
    ensures { Reads (reading.listed (R.meaning reader.now) input.old) result input.new }
{
    let count = whole_32(input)?;
    times(alloc, count, reader, input)
}
