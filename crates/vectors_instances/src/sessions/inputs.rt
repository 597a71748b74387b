use crate::sessions::calls::{append, bytes_of, came_of, run_bytewise, run_list, run_text, times};
use crate::sessions::{FIRST, FIRST_LINES, check_ended, check_row, check_same, nothing_came};
use std::alloc::Global;
use std::process::Abort;
use wasm_run::Status;
use wasm_vectors::{CalmSink, CalmSource, owned_words, run_calmly};

#[test]
fn written_bytes_are_read_and_kept(rt: HostRuntime) {
    let run = run_text(&rt, rt.alloc(), FIRST.as_bytes());
    check_ended(&rt, run.status, Status::Done, &FIRST);
    check_same(&rt, run.written(), FIRST_LINES.as_bytes());
    let kept = run.kept;
    check_same(&rt, (kept.replies, kept.turns, kept.store_turns), (3, 0, 1));
}

#[test]
fn one_byte_a_call_gives_the_same_lines(rt: HostRuntime) {
    let run = run_bytewise(&rt, rt.alloc(), &["run"], None, None);
    check_ended(&rt, run.status, Status::Done, &FIRST);
    let got = (run.sink.bytes(), run.kept.replies);
    check_same(&rt, got, (FIRST_LINES.as_bytes(), 3));
}

/// The front of a script is no JSON, and nothing comes of it.
fn check_cut(rt: &impl Abort, alloc: Global, front: &[u8]) {
    let run = run_text(rt, alloc, front);
    check_ended(rt, run.status, Status::BadJson, &front.len());
    check_row(rt, came_of(&run), (0, false, 0, 0), &front.len());
}

#[test]
fn a_script_that_is_cut_short_is_refused(rt: HostRuntime) {
    let text = FIRST.as_bytes();
    for length in 0..text.len() {
        check_cut(&rt, rt.alloc(), &text[..length]);
    }
}

/// The status of a calm run of a script, and how many bytes it wrote.
fn calm_run(rt: &impl Abort, alloc: Global, text: &[u8]) -> (Status, usize) {
    let words = owned_words(alloc, &["run"]).expect(rt, "memory for a word");
    let mut source = CalmSource::new(text);
    let mut sink = CalmSink::new();
    let status = run_calmly(alloc, words.as_slice(), &mut source, &mut sink).expect(
        rt,
        "memory for a run",
    );
    (status, sink.taken())
}

#[test]
fn nothing_fails_where_no_fault_is_counted(rt: HostRuntime) {
    let (status, taken) = calm_run(&rt, rt.alloc(), FIRST.as_bytes());
    check_ended(&rt, status, Status::Done, &FIRST);
    check_same(&rt, taken, FIRST_LINES.len());
}

/// How many bytes a text of 2^24 bytes, and so many past them, has after this front.
fn spaces_after(front: &str, past: usize) -> usize {
    16777216usize
        .saturating_sub(front.len())
        .saturating_add(past)
}

/// A text of 2^24 bytes, and so many past them: this front, and spaces.
fn long_text(rt: &impl Abort, alloc: Global, front: &str, past: usize) -> Vec<u8> {
    let spaces = times(rt, alloc, b' ', spaces_after(front, past));
    let mut text = bytes_of(rt, alloc, front.as_bytes());
    append(rt, &mut text, spaces.as_slice());
    text
}

fn check_longest(rt: &impl Abort, alloc: Global, front: &str, past: usize, status: Status) {
    let run = run_list(rt, alloc, long_text(rt, alloc, front, past));
    check_ended(rt, run.status, status, &(front, past));
    if status == Status::Done {
        check_same(rt, run.written(), FIRST_LINES.as_bytes());
    } else {
        nothing_came(rt, &run, front);
    }
}

#[test]
fn the_longest_input_has_two_to_the_24_bytes(rt: HostRuntime) {
    check_longest(&rt, rt.alloc(), "", 0, Status::BadJson);
    check_longest(&rt, rt.alloc(), "", 1, Status::TooLong);
    check_longest(&rt, rt.alloc(), FIRST, 0, Status::Done);
    check_longest(&rt, rt.alloc(), FIRST, 1, Status::TooLong);
}
