mod bulk;
mod confined;
mod epochs;
mod fuel;
mod hooks;
mod hosts;
mod imports;
mod limiters;
mod limits;
mod links;
mod operations;
mod results;
mod segments;
mod starts;
mod turns;
mod worked;

use std::alloc::Global;
use std::process::Abort;
use wasm_run::Status;
use wasm_vectors::{Run, run_with};

/// The room for the lines of a session.
const ROOM: usize = 262_144;

/// Runs a session from memory. It says nothing of the call, so that no test carries a clause of it.
fn run_text(rt: &impl Abort, alloc: Global, text: &str) -> Run {
    run_with(alloc, text.as_bytes(), &[], &[], ROOM).expect(rt, "memory for a session")
}

fn append(rt: &impl Abort, text: &mut String, more: &str) {
    text.push_str(more).expect(rt, "memory for a text")
}

/// What was written, as a text.
fn lines_in(rt: &impl Abort, alloc: Global, run: &Run) -> String {
    let bytes = Vec::from_slice(alloc, run.written()).expect(rt, "memory for the lines");
    match String::from_utf8(bytes) {
        Ok(lines) => lines,
        Err(_) => panic!(rt; "the lines are no text"),
    }
}

/// The session ends as `Done` and writes these lines.
fn check_written(rt: &impl Abort, alloc: Global, text: &str, lines: &str) {
    let run = run_text(rt, alloc, text);
    assert!(rt; run.status == Status::Done, "{text}");
    let got = lines_in(rt, alloc, &run);
    assert_eq!(rt; got.as_str(), lines, "{text}");
}

/// Takes a row apart: appends its command to a session, and its line to what is expected. A note is a line alone, before
/// that of the command that it is taken in, and a command may stand in several lines, of which the last has its own.
fn append_row(rt: &impl Abort, text: &mut String, lines: &mut String, row: &str) {
    if row.starts_with("note ") {
        append(rt, lines, row);
        append(rt, lines, "\n");
        return;
    }
    let Some((command, line)) = row.split_once(" => ") else {
        append(rt, text, row);
        return;
    };
    append(rt, text, command);
    append(rt, text, ",");
    append(rt, lines, line);
    append(rt, lines, "\n");
}

/// A session of these members, and then of these rows, in each of which a command stands beside the line that it gives.
/// A command that stands behind all of them gives what it should, too.
fn check_session(rt: &impl Abort, alloc: Global, members: &str, rows: &str) {
    check_rows(rt, alloc, members, rows, "");
}

/// The same of a session with a hook: the last line tells the events that the hook was told of. Here it may stand in
/// several lines.
fn check_hooked(rt: &impl Abort, alloc: Global, members: &str, rows: &str, events: &str) {
    let mut last = String::new(alloc);
    for line in events.lines() {
        if !last.is_empty() {
            append(rt, &mut last, " ");
        }
        append(rt, &mut last, line);
    }
    append(rt, &mut last, "\n");
    check_rows(rt, alloc, members, rows, last.as_str());
}

/// What a session shows, its members, and its commands with their lines.
type Session = (&'static str, &'static str, &'static str);

/// The same with the events that a hook is told of.
type Hooked = (&'static str, &'static str, &'static str, &'static str);

/// Each session gives its lines.
fn check_sessions(rt: &impl Abort, alloc: Global, table: &[Session]) {
    for (_, members, rows) in table {
        check_session(rt, alloc, members, rows);
    }
}

/// Each session with a hook gives its lines.
fn check_all_hooked(rt: &impl Abort, alloc: Global, table: &[Hooked]) {
    for (_, members, rows, events) in table {
        check_hooked(rt, alloc, members, rows, events);
    }
}

/// The rows of a session, behind whose lines this stands.
fn check_rows(rt: &impl Abort, alloc: Global, members: &str, rows: &str, last: &str) {
    let mut text = String::new(alloc);
    let mut lines = String::new(alloc);
    append(rt, &mut text, "{");
    append(rt, &mut text, members);
    append(rt, &mut text, ",\"commands\":[");
    for row in rows.lines() {
        append_row(rt, &mut text, &mut lines, row);
    }
    append(
        rt,
        &mut text,
        r#"{"do":"memory_size","memory":{"arg":0}}]}"#,
    );
    append(rt, &mut lines, "refused NoReply\n");
    append(rt, &mut lines, last);
    check_written(rt, alloc, text.as_str(), lines.as_str());
}
