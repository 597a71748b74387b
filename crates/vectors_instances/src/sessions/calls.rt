//! The calls that the tests make: each passes on one call, and says nothing of it. So a test is about what it compares,
//! and its proof carries no clause of the calls that it makes. Where there is no memory left, the test fails.
use crate::sessions::FIRST;
use std::alloc::Global;
use std::process::Abort;
use wasm_run::Status;
use wasm_vectors::{
    Kept, OneByteSink, OneByteSource, Run, owned_words, repeated, run_between, run_script,
    run_words,
};

/// What a test lacks where it can't be done.
const MEMORY: &str = "memory for the test";

/// A session over streams of one byte a call.
#[derive(Drop)]
pub struct ByteRun {
    pub status: Status,
    pub kept: Kept,
    pub source: OneByteSource,
    pub sink: OneByteSink,
}

pub fn bytes_of(rt: &impl Abort, alloc: Global, bytes: &[u8]) -> Vec<u8> {
    Vec::from_slice(alloc, bytes).expect(rt, MEMORY)
}

pub fn times(rt: &impl Abort, alloc: Global, byte: u8, count: usize) -> Vec<u8> {
    repeated(alloc, byte, count).expect(rt, MEMORY)
}

pub fn append(rt: &impl Abort, list: &mut Vec<u8>, bytes: &[u8]) {
    list.extend_from_slice(bytes).expect(rt, MEMORY)
}

/// Runs a script from memory.
pub fn run_text(rt: &impl Abort, alloc: Global, text: &[u8]) -> Run {
    run_script(alloc, text).expect(rt, MEMORY)
}

/// The same of a text that is handed over.
pub fn run_list(rt: &impl Abort, alloc: Global, text: Vec<u8>) -> Run {
    run_words(alloc, &["run"], text).expect(rt, MEMORY)
}

/// Runs the first script over streams of one byte a call, with these words, and with the numbers of the read and of
/// the call of the sink that fail, if any.
pub fn run_bytewise(
    rt: &impl Abort,
    alloc: Global,
    words: &[&str],
    failing_read: Option<u64>,
    failing_call: Option<u64>,
) -> ByteRun {
    let mut source = OneByteSource::new(bytes_of(rt, alloc, FIRST.as_bytes()), failing_read);
    let mut sink = OneByteSink::new(Vec::new(alloc), failing_call);
    let words = owned_words(alloc, words).expect(rt, MEMORY);
    let ran = run_between(alloc, words.as_slice(), &mut source, &mut sink);
    let (status, kept) = ran.expect(rt, MEMORY);
    ByteRun {
        status,
        kept,
        source,
        sink,
    }
}

/// What came of a run: how many bytes were written, whether there is a store, and how many replies and turns.
pub fn came_of(run: &Run) -> (usize, bool, usize, u64) {
    let kept = run.kept;
    (
        run.written().len(),
        kept.has_store,
        kept.replies,
        kept.turns,
    )
}
