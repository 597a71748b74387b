use crate::sessions::{FIRST, FIRST_LINES, check_ended, check_row, check_same};
use std::alloc::{AllocError, Global};
use std::fmt::Display;
use std::process::Abort;
use wasm_run::Status;
use wasm_streams::{Sink, SinkFailed, SourceFailed, StdSink, StdSource};
use wasm_vectors::{SlowWriter, owned_words, run_between};

fn new_writer(alloc: Global, most: usize, failing: Option<u64>) -> SlowWriter {
    SlowWriter::new(Vec::new(alloc), Vec::new(alloc), most, failing)
}

fn write(writer: &mut SlowWriter, piece: &[u8]) -> Option<usize> {
    StdSink::new(writer).write(piece).ok()
}

fn flush(writer: &mut SlowWriter) -> bool {
    StdSink::new(writer).flush().is_ok()
}

/// What waits in the writer, and what it passed on.
fn bytes_in(writer: &SlowWriter) -> (&[u8], &[u8]) {
    (writer.waiting(), writer.passed())
}

/// A write of this piece gives this count, and then these bytes wait and these were passed on.
fn check_write(
    rt: &impl Abort,
    writer: &mut SlowWriter,
    piece: &[u8],
    count: Option<usize>,
    bytes: (&[u8], &[u8]),
) {
    let got = write(writer, piece);
    check_row(rt, (got, bytes_in(writer)), (count, bytes), &piece);
}

/// A flush is Ok or not, and then these bytes wait and these were passed on.
fn check_flush(rt: &impl Abort, writer: &mut SlowWriter, is_ok: bool, bytes: (&[u8], &[u8])) {
    let got = flush(writer);
    check_same(rt, (got, bytes_in(writer)), (is_ok, bytes));
}

#[test]
fn a_standard_sink_passes_on_short_writes_and_flushes(rt: HostRuntime) {
    let mut writer = new_writer(rt.alloc(), 2, Some(3));
    check_write(&rt, &mut writer, b"abc", Some(2), (b"ab", b""));
    check_write(&rt, &mut writer, b"c", Some(1), (b"abc", b""));
    check_write(&rt, &mut writer, b"", Some(0), (b"abc", b""));
    check_flush(&rt, &mut writer, false, (b"abc", b""));
    check_flush(&rt, &mut writer, true, (b"", b"abc"));
}

#[test]
fn a_standard_sink_fails_where_nothing_is_taken(rt: HostRuntime) {
    let mut writer = new_writer(rt.alloc(), 0, Some(2));
    check_write(&rt, &mut writer, b"a", None, (b"", b""));
    check_write(&rt, &mut writer, b"", Some(0), (b"", b""));
    check_write(&rt, &mut writer, b"", None, (b"", b""));
}

/// An empty session over the first script as a reader of std, and over this writer.
fn run_into(
    alloc: Global,
    words: &[String],
    writer: &mut SlowWriter,
) -> Result<Status, AllocError> {
    let mut source = StdSource::new(FIRST.as_bytes());
    let mut sink = StdSink::new(writer);
    let (status, _) = run_between(alloc, words, &mut source, &mut sink)?;
    Ok(status)
}

/// A session over a standard source and a standard sink of this writer.
fn run_slowly(rt: &impl Abort, alloc: Global, writer: &mut SlowWriter) -> Status {
    let words = owned_words(alloc, &["run"]).expect(rt, "memory for a word");
    match run_into(alloc, words.as_slice(), writer) {
        Ok(status) => status,
        Err(_) => panic!(rt; "memory for a session"),
    }
}

/// A session over a writer in which this call fails ends so, and then these lines wait and these were passed on.
fn check_slowly(
    rt: &impl Abort,
    alloc: Global,
    failing: Option<u64>,
    status: Status,
    bytes: (&[u8], &[u8]),
) {
    let mut writer = new_writer(alloc, 30, failing);
    let got = run_slowly(rt, alloc, &mut writer);
    check_ended(rt, got, status, &failing);
    check_row(rt, bytes_in(&writer), bytes, &failing);
}

#[test]
fn a_session_passes_on_its_lines_before_it_is_done(rt: HostRuntime) {
    // Two writes, since one takes 30 of the 31 bytes, and the flush.
    let lines = FIRST_LINES.as_bytes();
    check_slowly(&rt, rt.alloc(), None, Status::Done, (b"", lines));
    check_slowly(
        &rt,
        rt.alloc(),
        Some(1),
        Status::WriteFault,
        (&lines[..30], b""),
    );
    check_slowly(&rt, rt.alloc(), Some(2), Status::WriteFault, (lines, b""));
}

fn text_of<A: Display>(rt: &impl Abort, alloc: Global, fault: &A) -> String {
    fault.to_string(alloc).expect(rt, "memory for a text")
}

#[test]
fn a_fault_of_a_stream_has_its_text(rt: HostRuntime) {
    check_same(
        &rt,
        text_of(&rt, rt.alloc(), &SourceFailed).as_str(),
        "source failed",
    );
    check_same(
        &rt,
        text_of(&rt, rt.alloc(), &SinkFailed).as_str(),
        "sink failed",
    );
}
