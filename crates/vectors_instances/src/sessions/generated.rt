use crate::sessions::calls::{ByteRun, run_bytewise, run_text};
use crate::sessions::{check_ended, check_row, check_same};
use std::alloc::Global;
use std::process::Abort;
use wasm_run::Status;

/// The numbers of calls, with how many replies there are, and the summary: the sum of the numbers up to the greatest one
/// stands in its last four bytes, the lowest first.
const SUMMARIES: [(&str, usize, &str); 4] = [
    ("1", 5, "gen 1\ncommands 5 refused 0\nok bytes 01000000\n"),
    ("9", 13, "gen 9\ncommands 13 refused 0\nok bytes 2d000000\n"),
    (
        "200",
        204,
        "gen 200\ncommands 204 refused 0\nok bytes 844e0000\n",
    ),
    (
        "1000",
        1004,
        "gen 1000\ncommands 1004 refused 0\nok bytes 14a30700\n",
    ),
];

/// Words that ask for no session.
const OTHER_WORDS: [&[&str]; 12] = [
    &[],
    &["gen"],
    &["gen", ""],
    &["gen", "0"],
    &["gen", "01"],
    &["gen", "1001"],
    &["gen", "10000"],
    &["gen", "+1"],
    &["gen", "1", "2"],
    &["run", "run"],
    &["run", "1"],
    &["1"],
];

/// The session of three calls as a text, and its lines.
const THREE_CALLS: &str =
    r#"{"types":[{"params":["i32"],"results":["i32"]}],"modules":[{"memories":[{"min":1}],"globals":[{"val":"i32","mut":true,"init":["i32.const",0]}],"functions":[{"type":0,"code":[["global.get",0],["local.get",0],["i32.add"],["global.set",0],["local.get",0],["i32.const",4],["i32.mul"],["global.get",0],["i32.store",0,0],["global.get",0]]}],"exports":[{"name":"f","func":0},{"name":"m","memory":0}]}],"commands":[{"do":"instantiate","module":0},{"do":"get_export","instance":0,"name":"f"},{"do":"call","func":1,"args":[{"i32":1}]},{"do":"call","func":1,"args":[{"i32":2}]},{"do":"call","func":1,"args":[{"i32":3}]},{"do":"get_export","instance":0,"name":"m"},{"do":"memory_read","memory":5,"at":12,"len":4}]}"#;

const LINES_OF_THREE: &str =
    "ok instance 0\nok func 0\nok values i32:1\nok values i32:3\nok values i32:6\nok memory 0\nok bytes 06000000\n";

/// How often the source was read, and what was written.
fn came(run: &ByteRun) -> (u64, &[u8]) {
    (run.source.calls(), run.sink.bytes())
}

fn check_summary(rt: &impl Abort, alloc: Global, number: &str, replies: usize, summary: &str) {
    let run = run_bytewise(rt, alloc, &["gen", number], None, None);
    check_ended(rt, run.status, Status::Done, &number);
    check_row(rt, came(&run), (0, summary.as_bytes()), &number);
    check_row(rt, run.kept.replies, replies, &number);
}

#[test]
fn generated_sessions_read_nothing_and_write_their_summary(rt: HostRuntime) {
    for (number, replies, summary) in &SUMMARIES {
        check_summary(&rt, rt.alloc(), number, *replies, summary);
    }
}

fn check_refused(rt: &impl Abort, alloc: Global, words: &[&str]) {
    let run = run_bytewise(rt, alloc, words, None, None);
    check_ended(rt, run.status, Status::BadWords, &words);
    check_row(rt, came(&run), (0, &[]), &words);
    check_row(
        rt,
        (run.sink.calls(), run.kept.has_store),
        (0, false),
        &words,
    );
}

#[test]
fn other_words_are_refused_and_touch_nothing(rt: HostRuntime) {
    for words in &OTHER_WORDS {
        check_refused(&rt, rt.alloc(), words);
    }
}

/// Where the call of the sink of this number fails, this is written.
fn check_failing_write(rt: &impl Abort, alloc: Global, number: u64, front: &[u8]) {
    let run = run_bytewise(rt, alloc, &["gen", "1"], None, Some(number));
    check_ended(rt, run.status, Status::WriteFault, &number);
    check_row(rt, (came(&run), run.kept.replies), ((0, front), 5), &number);
}

#[test]
fn each_write_that_fails_leaves_a_front_of_the_summary(rt: HostRuntime) {
    let summary = SUMMARIES[0].2.as_bytes();
    // A write a byte, and the flush.
    for number in 0..summary.len() + 1 {
        check_failing_write(&rt, rt.alloc(), number as u64, &summary[..number]);
    }
}

#[test]
fn the_text_of_a_generated_session_gives_its_lines(rt: HostRuntime) {
    let run = run_text(&rt, rt.alloc(), THREE_CALLS.as_bytes());
    check_ended(&rt, run.status, Status::Done, &THREE_CALLS);
    check_same(&rt, run.written(), LINES_OF_THREE.as_bytes());
}
