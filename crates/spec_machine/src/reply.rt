use crate::lists::ValList;
use wasm_types::ByteList;
use wasm_values::{Extern, Instance, Refusal};

/// What a command answers.
#[derive(Drop)]
pub enum Reply {
    /// It was done.
    Done,
    Number(u64),
    /// Bytes that were read.
    Bytes(ByteList),
    Values(ValList),
    /// An object that was made or found.
    Object(Extern),
    /// An instance that was made.
    Instance(Instance),
    /// There is nothing at that place.
    Absent,
    /// It was refused, or ended in a trap.
    Refused(Refusal),
}
