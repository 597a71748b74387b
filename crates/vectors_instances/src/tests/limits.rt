//! How many instances, memories and tables instantiations may make.

use crate::tests::{append, check_written};
use std::alloc::Global;
use std::process::Abort;

/// How many of each there may be.
const MOST: usize = 10_000;

fn append_times(rt: &impl Abort, text: &mut String, piece: &str, times: usize) {
    for _ in 0..times {
        append(rt, text, piece);
    }
}

fn append_instance(rt: &impl Abort, lines: &mut String, number: usize) {
    write!(lines, "ok instance {number}\n").expect(rt, "memory for a line")
}

/// A line for each of the first instances.
fn append_instances(rt: &impl Abort, lines: &mut String, count: usize) {
    for number in 0..count {
        append_instance(rt, lines, number);
    }
}

#[test]
fn ten_thousand_instances_may_be_made(rt: HostRuntime) {
    let mut text = String::new(rt.alloc());
    append(&rt, &mut text, r#"{"modules":[{}],"commands":["#);
    append_times(&rt, &mut text, r#"{"do":"instantiate","module":0},"#, MOST);
    append(&rt, &mut text, r#"{"do":"instantiate","module":0}]}"#);
    let mut lines = String::new(rt.alloc());
    append_instances(&rt, &mut lines, MOST);
    append(&rt, &mut lines, "refused ResourceLimit instance\n");
    check_written(&rt, rt.alloc(), text.as_str(), lines.as_str());
}

/// Appends a module that defines one of a kind, and so many more of it.
fn append_module(rt: &impl Abort, text: &mut String, key: &str, item: &str, more: usize) {
    append(rt, text, "{\"");
    append(rt, text, key);
    append(rt, text, "\":[");
    for _ in 0..more {
        append(rt, text, item);
        append(rt, text, ",");
    }
    append(rt, text, item);
    append(rt, text, "]}");
}

/// Of two modules one defines as many of this kind as there may be, the other one more. The other one, and then the
/// first one twice, make an instance or are refused by this line.
fn check_most(rt: &impl Abort, alloc: Global, key: &str, item: &str, refused: &str) {
    let mut text = String::new(alloc);
    append(rt, &mut text, r#"{"modules":["#);
    append_module(rt, &mut text, key, item, MOST);
    append(rt, &mut text, ",");
    append_module(rt, &mut text, key, item, MOST.saturating_sub(1));
    append(
        rt,
        &mut text,
        r#",{}],"commands":[{"do":"instantiate","module":0},"#,
    );
    append(
        rt,
        &mut text,
        r#"{"do":"instantiate","module":1},{"do":"instantiate","module":1},"#,
    );
    append(rt, &mut text, r#"{"do":"instantiate","module":2}]}"#);
    let mut lines = String::new(alloc);
    append(rt, &mut lines, refused);
    append(rt, &mut lines, "ok instance 0\n");
    append(rt, &mut lines, refused);
    append(rt, &mut lines, "ok instance 1\n");
    check_written(rt, alloc, text.as_str(), lines.as_str());
}

#[test]
fn ten_thousand_memories_and_tables_may_be_made(rt: HostRuntime) {
    check_most(
        &rt,
        rt.alloc(),
        "memories",
        r#"{"min":0}"#,
        "refused ResourceLimit memory\n",
    );
    check_most(
        &rt,
        rt.alloc(),
        "tables",
        r#"{"ref":"funcref","min":0}"#,
        "refused ResourceLimit table\n",
    );
}

#[test]
fn a_count_that_was_raised_for_a_refused_instance_stays(rt: HostRuntime) {
    let mut text = String::new(rt.alloc());
    append(&rt, &mut text, r#"{"modules":[{},"#);
    append_module(&rt, &mut text, "memories", r#"{"min":0}"#, MOST);
    append(
        &rt,
        &mut text,
        r#"],"commands":[{"do":"instantiate","module":1},"#,
    );
    append_times(
        &rt,
        &mut text,
        r#"{"do":"instantiate","module":0},"#,
        MOST.saturating_sub(1),
    );
    append(&rt, &mut text, r#"{"do":"instantiate","module":0}]}"#);
    let mut lines = String::new(rt.alloc());
    append(&rt, &mut lines, "refused ResourceLimit memory\n");
    append_instances(&rt, &mut lines, MOST.saturating_sub(1));
    append(&rt, &mut lines, "refused ResourceLimit instance\n");
    check_written(&rt, rt.alloc(), text.as_str(), lines.as_str());
}
