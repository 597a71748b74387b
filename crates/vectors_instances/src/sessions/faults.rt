use crate::sessions::calls::run_bytewise;
use crate::sessions::{FIRST, FIRST_LINES, check_ended, check_row};
use std::alloc::Global;
use std::process::Abort;
use wasm_run::Status;

/// The session ends where the read of this number fails.
fn check_failing_read(rt: &impl Abort, alloc: Global, number: u64) {
    let run = run_bytewise(rt, alloc, &["run"], Some(number), None);
    let came = (run.kept.has_store, run.kept.replies);
    check_ended(rt, run.status, Status::ReadFault, &number);
    check_row(rt, (run.sink.calls(), came), (0, (false, 0)), &number);
}

#[test]
fn each_read_that_fails_ends_the_session(rt: HostRuntime) {
    // A read a byte, and the read of the end.
    let reads = FIRST.len() as u64 + 1;
    for number in 0..reads {
        check_failing_read(&rt, rt.alloc(), number);
    }
    let run = run_bytewise(&rt, rt.alloc(), &["run"], Some(reads), None);
    check_ended(&rt, run.status, Status::Done, &reads);
}

/// Where the call of this number fails, these lines are written.
fn check_failing_write(rt: &impl Abort, alloc: Global, number: u64, lines: &[u8]) {
    let run = run_bytewise(rt, alloc, &["run"], None, Some(number));
    check_ended(rt, run.status, Status::WriteFault, &number);
    let got = (run.sink.bytes(), run.kept.replies);
    check_row(rt, got, (lines, 3), &number);
}

#[test]
fn each_write_that_fails_leaves_a_front_of_the_lines(rt: HostRuntime) {
    let lines = FIRST_LINES.as_bytes();
    // A write a byte, and the flush.
    for number in 0..lines.len() + 1 {
        check_failing_write(&rt, rt.alloc(), number as u64, &lines[..number]);
    }
}
