use crate::sessions::calls::run_text;
use crate::sessions::{check_ended, check_same};
use std::alloc::Global;
use wasm_run::{ScriptData, Status};
use wasm_types::OutOfMemory;

/// A body that takes two notes, and one that takes a note and fails.
const NOTES: &str = r#"{"types":[{}],
"host":[[{"note":["one"]},{"note":["two"]}],[{"note":["three"]},{"fail":true}]],
"commands":[
{"do":"func_new","type":0,"body":0},
{"do":"func_new","type":0,"body":1},
{"do":"call","func":0},
{"do":"call","func":1}
]}"#;

const NOTED_LINES: &str =
    "ok func 0\nok func 1\nnote one\nnote two\nok values\nnote three\nrefused HostFault\n";

#[test]
fn a_session_keeps_what_its_host_noted(rt: HostRuntime) {
    let run = run_text(&rt, rt.alloc(), NOTES.as_bytes());
    check_ended(&rt, run.status, Status::Done, &NOTES);
    check_same(&rt, run.written(), NOTED_LINES.as_bytes());
    let kept = run.kept;
    check_same(
        &rt,
        kept.notes_after,
        [Some(0), Some(0), Some(2), Some(3), None],
    );
    check_same(&rt, (kept.notes, kept.host_faults), (3, 1));
}

fn new_data(alloc: Global, number: i64) -> Result<ScriptData, OutOfMemory> {
    ScriptData::try_new(alloc, number)
}

#[test]
fn data_without_answers_is_made(rt: HostRuntime) {
    check_same(&rt, new_data(rt.alloc(), 7).is_ok(), true);
}
