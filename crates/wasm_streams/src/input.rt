ghost use Rattle.std.specs.Prelude.{◌≡◌, ℕ, ◌≤◌, ◌||◌, List, true, is_ok, OnOk, IfOk, IsErrOf, vec_len};
ghost use Rattle.wasm_streams.specs.Streams.{before, HasNothing, Rose, Takes};

use crate::source::Source;
use std::alloc::{AllocError, Global};

/// The most bytes that an input may have: 2^24.
pub const LIMIT: usize = 16777216;

/// So many bytes are asked of a source at a time, at most.
const PIECE: usize = 65536;

/// Why there is no input.
#[derive(Clone, Copy, Debug, PartialEq, Eq)]
pub enum InputFault {
    /// A read failed.
    ReadFault,
    /// The source gave more than `LIMIT` bytes.
    TooLong,
    /// There was no memory for the bytes.
    OutOfMemory,
}

// Apart, so that no proof of the loop meets a list of 65,536 zeros.
fn places(alloc: Global, count: usize) -> Result<Vec<u8>, AllocError>
    ensures { IfOk result (λ v. vec_len v ≡ count) }
{
    vec![in alloc; 0u8; count]
}

/// Reads a source to its end, and gives all the bytes that it gave.
///
/// `ReadFault` comes only where a read failed, so where the source's count of faults rose, or stands at its last
/// value; with every other answer no read failed, and the count is as it was. `TooLong` exactly where `LIMIT + 1` bytes were taken; every other answer comes after at most `LIMIT`.
/// `OutOfMemory` may come at any time.
pub fn read_input<S: Source>(alloc: Global, source: &mut S) -> Result<Vec<u8>, InputFault>
    ensures taken { (bytes : List ℕ) × Takes LIMIT result bytes
        × (S.left source.old ≡ before bytes (S.left source.new)) }
    ensures end { OnOk result ((S.ended source.new ≡ true) × HasNothing (S.left source.new)) }
    ensures tells { S.ended source.new ≡ (S.ended source.old || is_ok result) }
    ensures read_fault { IsErrOf result InputFault.ReadFault →
        Rose (S.faults source.old) (S.faults source.new) }
    ensures uncounted { ¬ IsErrOf result InputFault.ReadFault → S.faults source.new ≡ S.faults source.old }
    ensures never_falls { S.faults source.old ≤ S.faults source.new }
{
    let mut bytes = Vec::new(alloc);
    let Ok(mut piece) = places(alloc, PIECE) else {
        return Err(InputFault::OutOfMemory);
    };
    let buffer = piece.as_mut_slice();
    loop {
        let rest = LIMIT - bytes.len();
        let asked = buffer.len().min(rest + 1);
        let Ok(count) = source.read(&mut buffer[..asked]) else {
            return Err(InputFault::ReadFault);
        };
        if count == 0 {
            return Ok(bytes);
        }
        if count > rest {
            return Err(InputFault::TooLong);
        }
        if bytes.extend_from_slice(&buffer[..count]).is_err() {
            return Err(InputFault::OutOfMemory);
        }
    }
}
