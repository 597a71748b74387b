mod calls;
mod code;
mod commands;
mod faults;
mod generated;
mod hosts;
mod inputs;
mod instructions;
mod instructions_on_objects;
mod modules;
mod modules_of_code;
mod modules_of_objects;
mod operators;
mod scripts;
mod standard;

use crate::sessions::calls::{came_of, run_text};
use std::alloc::Global;
use std::fmt::Debug;
use std::process::Abort;
use wasm_module::{Part, Place, Rule};
use wasm_run::Status;
use wasm_vectors::Run;

/// Makes a memory of one page, writes three bytes to its front and reads them.
const FIRST: &str =
    r#"{"commands":[{"do":"memory_new","min":1},{"do":"memory_write","memory":0,"at":0,"bytes":"0a0b0c"},{"do":"memory_read","memory":0,"at":0,"len":3}]}"#;

/// The lines of the first script.
const FIRST_LINES: &str = "ok memory 0\nok\nok bytes 0a0b0c\n";

/// What was got is what was expected.
fn check_same<A: PartialEq + Debug + Drop>(rt: &impl Abort, got: A, expected: A) {
    assert_eq!(rt; got, expected);
}

/// What was got in this row is what was expected.
fn check_row<A: PartialEq + Debug + Drop, B: Debug>(rt: &impl Abort, got: A, expected: A, row: &B) {
    assert_eq!(rt; got, expected, "{row:?}");
}

/// A session ended as this row says.
fn check_ended<B: Debug>(rt: &impl Abort, got: Status, expected: Status, row: &B) {
    assert!(rt; got == expected, "{row:?}");
}

/// Nothing came of the run: nothing was written, and the session is empty.
fn nothing_came(rt: &impl Abort, run: &Run, row: &str) {
    check_row(rt, came_of(run), (0, false, 0, 0), &row);
}

/// The script ends as it says, and nothing comes of it where it does not end as `Done`.
fn check_status(rt: &impl Abort, alloc: Global, text: &str, status: Status) {
    let run = run_text(rt, alloc, text.as_bytes());
    check_ended(rt, run.status, status, &text);
    if status != Status::Done {
        nothing_came(rt, &run, text);
    }
}

/// Each script ends as it says, and nothing comes of those that do not end as `Done`.
fn check_statuses(rt: &impl Abort, alloc: Global, table: &[(&str, Status)]) {
    for (text, status) in table {
        check_status(rt, alloc, text, *status);
    }
}

/// The module of this number is the first of the script that breaks a rule, and this item of a part breaks it.
fn check_invalid(
    rt: &impl Abort,
    alloc: Global,
    text: &str,
    module: usize,
    (rule, part, item): (Rule, Part, u32),
) {
    let place = Place { part, item };
    let status = Status::InvalidModule {
        module,
        rule,
        place,
    };
    check_status(rt, alloc, text, status);
}

/// The script ends as `Done` and writes these lines.
fn check_written(rt: &impl Abort, alloc: Global, text: &str, lines: &str) {
    let run = run_text(rt, alloc, text.as_bytes());
    check_ended(rt, run.status, Status::Done, &text);
    check_row(rt, run.written(), lines.as_bytes(), &text);
}

/// Each script ends as `Done` and writes these lines.
fn check_lines(rt: &impl Abort, alloc: Global, table: &[(&str, &str)]) {
    for (text, lines) in table {
        check_written(rt, alloc, text, lines);
    }
}
