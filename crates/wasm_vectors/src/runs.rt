use std::alloc::{AllocError, Global};
use wasm_run::{
    BehaviourCall, BehaviourFailed, CallHook, CountEpochs, HookCall, HookFailed, ScriptData,
    Session, Status, UpdateDeadline, session_main,
};
use wasm_streams::{BytesSink, BytesSource, Sink, Source};
use wasm_types::OutOfMemory;

/// The room of a sink that takes all lines of a test.
const ROOM: usize = 4096;

/// What a session holds at its end: whether it has a store, how many replies, the turns of its unfinished command, and
/// what its host counted.
///
/// It stands in place of the session, which keeps the closures that were made for it: what a session with just these
/// closures keeps cannot be told of a session that is handed on.
#[derive(Clone, Copy)]
pub struct Kept {
    pub has_store: bool,
    pub replies: usize,
    pub turns: u64,
    /// The turns that the store tells of its last command; 0 where there is no store.
    pub store_turns: u64,
    /// How many notes the host took.
    pub notes: usize,
    /// How many notes it had when each of the first commands was finished.
    pub notes_after: [Option<usize>; 5],
    /// How often a body of the host failed.
    pub host_faults: u64,
}

impl Kept {
    /// What this session holds.
    pub fn by(session: &Session) -> Kept {
        let store_turns = match session.store() {
            Some(store) => store.turns(),
            None => 0,
        };
        Kept {
            has_store: session.store().is_some(),
            replies: session.replies().len(),
            turns: session.turns(),
            store_turns,
            notes: session.host().notes().len(),
            notes_after: notes_after(session),
            host_faults: session.host().faults(),
        }
    }
}

/// How many notes the host of this session had when each of the first commands was finished.
fn notes_after(session: &Session) -> [Option<usize>; 5] {
    [
        session.notes_after(0),
        session.notes_after(1),
        session.notes_after(2),
        session.notes_after(3),
        session.notes_after(4),
    ]
}

/// How a session ended, what it holds, and what was written.
#[derive(Drop)]
pub struct Run {
    pub status: Status,
    pub kept: Kept,
    pub sink: BytesSink,
}

impl Run {
    /// The bytes that were written.
    pub fn written(&self) -> &[u8] {
        self.sink.bytes()
    }
}

/// So many bytes of one value.
pub fn repeated(alloc: Global, byte: u8, count: usize) -> Result<Vec<u8>, AllocError> {
    vec![in alloc; byte; count]
}

/// The words as texts of their own.
pub fn owned_words(alloc: Global, words: &[&str]) -> Result<Vec<String>, AllocError> {
    let mut list = Vec::new(alloc);
    for word in words {
        list.push(String::from_str(alloc, word)?)?;
    }
    Ok(list)
}

/// A source of this text, in which the reads of these numbers fail.
fn source_of(alloc: Global, text: &[u8], fails: &[u64]) -> Result<BytesSource, AllocError> {
    let fails = Vec::from_slice(alloc, fails)?;
    Ok(BytesSource::new(Vec::from_slice(alloc, text)?, fails))
}

/// A sink of this room, in which the calls of these numbers fail.
fn sink_of(alloc: Global, room: usize, fails: &[u64]) -> Result<BytesSink, OutOfMemory> {
    BytesSink::new(alloc, room, Vec::from_slice(alloc, fails)?)
}

/// Runs an empty session of these words between a source and a sink, over an epoch that goes on by one with each reading.
pub fn run_between<S: Source, K: Sink>(
    alloc: Global,
    words: &[String],
    source: &mut S,
    sink: &mut K,
) -> Result<(Status, Kept), AllocError> {
    let mut epochs = CountEpochs::new();
    let hook: HookCall = Box::new(
        alloc,
        |data: &mut ScriptData, event: CallHook| -> Result<(), HookFailed> {
            data.hook_answer(event)
        },
    )?;
    let behaviour: BehaviourCall = Box::new(
        alloc,
        |data: &mut ScriptData| -> Result<UpdateDeadline, BehaviourFailed> {
            data.deadline_answer()
        },
    )?;
    let mut session = Session::new(alloc);
    let status = session_main(
        alloc,
        words,
        source,
        sink,
        &mut epochs,
        hook,
        behaviour,
        &mut session,
    );
    Ok((status, Kept::by(&session)))
}

/// Runs an empty session with these words from memory.
fn run_from(
    alloc: Global,
    words: &[&str],
    mut source: BytesSource,
    mut sink: BytesSink,
) -> Result<Run, OutOfMemory> {
    let words = owned_words(alloc, words)?;
    let (status, kept) = run_between(alloc, words.as_slice(), &mut source, &mut sink)?;
    Ok(Run { status, kept, sink })
}

/// Runs a script from memory with these words, with ample room and no failing call.
pub fn run_words(alloc: Global, words: &[&str], text: Vec<u8>) -> Result<Run, OutOfMemory> {
    let sink = sink_of(alloc, ROOM, &[])?;
    run_from(alloc, words, BytesSource::new(text, Vec::new(alloc)), sink)
}

/// Runs a script from memory, with ample room and no failing call.
pub fn run_script(alloc: Global, text: &[u8]) -> Result<Run, OutOfMemory> {
    run_words(alloc, &["run"], Vec::from_slice(alloc, text)?)
}

/// Runs a script from memory, with the numbers of the calls that fail, of the source and of the sink, and the room
/// of the sink.
pub fn run_with(
    alloc: Global,
    text: &[u8],
    source_fails: &[u64],
    sink_fails: &[u64],
    room: usize,
) -> Result<Run, OutOfMemory> {
    let source = source_of(alloc, text, source_fails)?;
    let sink = sink_of(alloc, room, sink_fails)?;
    run_from(alloc, &["run"], source, sink)
}
