//! Bodies of functions of the host: what a guest and a session see of them, and their notes. The lines are those of an
//! executor of its own, and of hooks that fail at each border those that the definitions give.

use crate::tests::{append, check_hooked, check_session};
use std::alloc::Global;
use std::process::Abort;

/// The members of a session: its types, a module that imports a function of the host of the first type and has these
/// members besides, and these others.
pub fn guest(rt: &impl Abort, alloc: Global, types: &str, module: &str, others: &[&str]) -> String {
    let mut text = String::new(alloc);
    append(rt, &mut text, "\"types\":[");
    append(rt, &mut text, types);
    append(
        rt,
        &mut text,
        r#"],"modules":[{"imports":[{"module":"h","name":"h","func":0}],"#,
    );
    append(rt, &mut text, module);
    append(rt, &mut text, "}]");
    for member in others {
        append(rt, &mut text, ",");
        append(rt, &mut text, member);
    }
    text
}

/// A guest that hands a number to a body of the host, and host data with a number.
const A_GUEST_CALLS_THE_HOST: &str = r#""types":[{"params":["i32"]},{}],
"modules":[{"imports":[{"module":"host","name":"host_func","func":0}],"functions":[{"type":1,
"code":[["i32.const",3],["call",0]]}],"exports":[{"name":"hello","func":1}]}],
"data":{"number":4},
"host":[[{"note":["Got ",{"arg":0}," from WebAssembly"]},{"note":["my host state is: ",{"data":true}]}]]"#;

#[test]
fn a_guest_calls_the_host(rt: HostRuntime) {
    check_session(
        &rt,
        rt.alloc(),
        A_GUEST_CALLS_THE_HOST,
        r#"{"do":"func_new","type":0,"body":0} => ok func 0
{"do":"instantiate","module":0,"imports":[0]} => ok instance 0
{"do":"get_export","instance":1,"name":"hello"} => ok func 1
note Got 3 from WebAssembly
note my host state is: 4
{"do":"call","func":2} => ok values"#,
    );
}

/// A guest that calls the host, and a function of it that traps.
const TRAPPING: &str =
    r#""functions":[{"type":0,"code":[["call",0]]},{"type":0,"code":[["unreachable"]]}],
"exports":[{"name":"go","func":1},{"name":"bad","func":2}]"#;

/// A body that calls back into the guest, which traps.
const CALLS_BACK: &str =
    r#""host":[[{"do":{"do":"get_export","instance":{"caller":true},"name":"bad"}},{"do":{"do":"call","func":0}},
{"note":["got ",{"last":true}]}]]"#;

/// The events of a call whose body calls back.
const BORDERS: &str =
    "hooks CallingWasm CallingHost CallingWasm ReturningFromWasm ReturningFromHost ReturningFromWasm";

/// The members of a session of the two, with what its host answers.
pub fn nested(rt: &impl Abort, alloc: Global, data: &str) -> String {
    guest(rt, alloc, "{}", TRAPPING, &[CALLS_BACK, data])
}

#[test]
fn a_trap_of_a_nested_call_is_a_reply(rt: HostRuntime) {
    let members = nested(&rt, rt.alloc(), r#""data":{}"#);
    check_session(
        &rt,
        rt.alloc(),
        members.as_str(),
        r#"{"do":"func_new","type":0,"body":0} => ok func 0
{"do":"instantiate","module":0,"imports":[0]} => ok instance 0
{"do":"get_export","instance":1,"name":"go"} => ok func 1
note got trap UnreachableCodeReached
{"do":"call","func":2} => ok values"#,
    );
}

/// The rows that make the function of the host and the guest, and look up the function by which the guest calls it.
pub const MADE: &str = r#"{"do":"func_new","type":0,"body":0} => ok func 0
{"do":"instantiate","module":0,"imports":[0]} => ok instance 0
{"do":"get_export","instance":1,"name":"go"} => ok func 1"#;

/// A session of the two whose host has a hook: the rows above, then these, and the events that the hook is told of.
fn check_nested(rt: &impl Abort, alloc: Global, data: &str, rows: &str, events: &str) {
    let members = nested(rt, alloc, data);
    let mut all_rows = String::new(alloc);
    append(rt, &mut all_rows, MADE);
    append(rt, &mut all_rows, "\n");
    append(rt, &mut all_rows, rows);
    check_hooked(rt, alloc, members.as_str(), all_rows.as_str(), events);
}

#[test]
fn each_border_is_told(rt: HostRuntime) {
    check_nested(
        &rt,
        rt.alloc(),
        r#""data":{"hook":[]}"#,
        r#"note got trap UnreachableCodeReached
{"do":"call","func":2} => ok values"#,
        BORDERS,
    );
}

#[test]
fn a_hook_that_fails_behind_a_nested_call_refuses_it(rt: HostRuntime) {
    check_nested(
        &rt,
        rt.alloc(),
        r#""data":{"hook":["ok","ok","ok","fault"]}"#,
        r#"note got refused HookFault
{"do":"call","func":2} => ok values"#,
        BORDERS,
    );
}

#[test]
fn a_hook_that_fails_last_refuses_the_call(rt: HostRuntime) {
    check_nested(
        &rt,
        rt.alloc(),
        r#""data":{"hook":["ok","ok","ok","ok","ok","fault"]}"#,
        r#"note got trap UnreachableCodeReached
{"do":"call","func":2} => refused HookFault"#,
        BORDERS,
    );
}

#[test]
fn a_hook_that_fails_first_lets_no_code_run(rt: HostRuntime) {
    check_nested(
        &rt,
        rt.alloc(),
        r#""data":{"hook":["fault"]}"#,
        r#"{"do":"call","func":2} => refused HookFault"#,
        "hooks CallingWasm",
    );
}

#[test]
fn a_hook_that_fails_before_a_body_refuses_the_call(rt: HostRuntime) {
    check_nested(
        &rt,
        rt.alloc(),
        r#""data":{"hook":["ok","fault"]}"#,
        r#"{"do":"call","func":2} => refused HookFault"#,
        "hooks CallingWasm CallingHost ReturningFromWasm",
    );
}

#[test]
fn a_hook_that_fails_before_a_nested_call_refuses_it(rt: HostRuntime) {
    check_nested(
        &rt,
        rt.alloc(),
        r#""data":{"hook":["ok","ok","fault"]}"#,
        r#"note got refused HookFault
{"do":"call","func":2} => ok values"#,
        "hooks CallingWasm CallingHost CallingWasm ReturningFromHost ReturningFromWasm",
    );
}

#[test]
fn a_hook_that_fails_behind_a_body_refuses_the_call(rt: HostRuntime) {
    check_nested(
        &rt,
        rt.alloc(),
        r#""data":{"hook":["ok","ok","ok","ok","fault"]}"#,
        r#"note got trap UnreachableCodeReached
{"do":"call","func":2} => refused HookFault"#,
        BORDERS,
    );
}

/// A body that fails.
const A_BODY_FAILS: &str = r#""types":[{}],
"host":[[{"fail":true}]]"#;

#[test]
fn a_body_fails(rt: HostRuntime) {
    check_session(
        &rt,
        rt.alloc(),
        A_BODY_FAILS,
        r#"{"do":"func_new","type":0,"body":0} => ok func 0
{"do":"call","func":0} => refused HostFault"#,
    );
}

/// A body that returns a value where its function has no results.
const A_RESULT_OF_ANOTHER_TYPE_IS_REFUSED: &str = r#""types":[{}],
"host":[[{"return":[{"i64":1}]}]]"#;

#[test]
fn a_result_of_another_type_is_refused(rt: HostRuntime) {
    check_session(
        &rt,
        rt.alloc(),
        A_RESULT_OF_ANOTHER_TYPE_IS_REFUSED,
        r#"{"do":"func_new","type":0,"body":0} => ok func 0
{"do":"call","func":0} => refused HostResultType"#,
    );
}

/// A guest that calls a function of the host, and one that does nothing.
const IDLE: &str =
    r#""functions":[{"type":0,"code":[["nop"],["call",0],["nop"]]},{"type":0,"code":[["nop"],["nop"]]}],
"exports":[{"name":"go","func":1},{"name":"in","func":2}]"#;

#[test]
fn a_body_that_is_not_there(rt: HostRuntime) {
    let others = [r#""data":{"hook":[]}"#];
    let members = guest(&rt, rt.alloc(), "{}", IDLE, &others);
    check_hooked(
        &rt,
        rt.alloc(),
        members.as_str(),
        r#"{"do":"func_new","type":0,"body":0} => ok func 0
{"do":"instantiate","module":0,"imports":[0]} => ok instance 0
{"do":"get_export","instance":1,"name":"go"} => ok func 1
{"do":"call","func":2} => refused NoHostBody
{"do":"call","func":0} => refused NoHostBody
{"do":"func_new","type":0,"body":18446744073709551615} => ok func 3
{"do":"call","func":5} => refused NoHostBody"#,
        "hooks CallingWasm ReturningFromWasm CallingWasm ReturningFromWasm CallingWasm ReturningFromWasm",
    );
}

/// A guest that hands the host a function and a null, and exports one that counts in its memory.
const EXPORTING: &str = r#""memories":[{"min":1}],
"functions":[{"type":1,"code":[["ref.func",2],["ref.null","extern"],["call",0]]},{"type":2,
"code":[["i32.const",0],["i32.const",0],["i32.load8_u",0,0],["i32.const",1],["i32.add"],["i32.store8",0,0]]}],
"exports":[{"name":"go","func":1},{"name":"inc","func":2},{"name":"m","memory":0}]"#;

/// A body that looks up what the instance exports whose code called, in two instances.
const ASKS_CALLER: &str =
    r#""host":[[{"do":{"do":"get_export","instance":{"caller":true},"name":"inc"}},{"do":{"do":"call","func":0}},
{"do":{"do":"call","func":0}},{"do":{"do":"get_export","instance":{"caller":true},"name":"m"}},
{"do":{"do":"memory_read","memory":3,"at":0,"len":1}},{"note":[{"last":true}]},{"do":{"do":"get_export",
"instance":{"caller":true},"name":"gone"}},{"note":[{"last":true}]},{"return":[{"i32":77}]}]]"#;

#[test]
fn a_body_asks_by_its_caller(rt: HostRuntime) {
    let types = r#"{"params":["funcref","externref"],"results":["i32"]},{"results":["i32"]},{}"#;
    let members = guest(&rt, rt.alloc(), types, EXPORTING, &[ASKS_CALLER]);
    check_session(
        &rt,
        rt.alloc(),
        members.as_str(),
        r#"{"do":"memory_new","min":1} => ok memory 0
{"do":"func_new","type":0,"body":0,"stored":[0]} => ok func 0
{"do":"instantiate","module":0,"imports":[1]} => ok instance 0
{"do":"instantiate","module":0,"imports":[1]} => ok instance 1
{"do":"get_export","instance":3,"name":"go"} => ok func 3
note ok bytes 02
note refused NoExport
{"do":"call","func":4} => ok values i32:77
note ok bytes 04
note refused NoExport
{"do":"call","func":4} => ok values i32:77
{"do":"get_export","instance":2,"name":"go"} => ok func 1
note ok bytes 02
note refused NoExport
{"do":"call","func":7} => ok values i32:77
{"do":"get_export","instance":2,"name":"m"} => ok memory 1
{"do":"memory_read","memory":9,"at":0,"len":1} => ok bytes 02
note refused NoReply
note refused NoReply
{"do":"call","func":1,"args":[{"func":null},{"extern":null}]} => ok values i32:77"#,
    );
}

/// A guest that calls the host and writes then, and exports a function that writes and divides.
const DIVIDING: &str = r#""memories":[{"min":1}],
"functions":[{"type":0,"code":[["call",0],["i32.const",4],["i32.const",5],["i32.store8",0,0]]},{"type":1,
"code":[["i32.const",0],["i32.const",9],["i32.store8",0,0],["i32.const",10],["local.get",0],["i32.div_u"]]}],
"exports":[{"name":"go","func":1},{"name":"div","func":2},{"name":"m","memory":0}]"#;

/// A body that calls a function which writes and traps, and then goes on.
const GOES_ON: &str =
    r#""host":[[{"do":{"do":"get_export","instance":{"caller":true},"name":"div"}},{"do":{"do":"call","func":0,
"args":[{"i32":0}]}},{"note":[{"last":true}]},{"do":{"do":"call","func":0,"args":[{"i32":3}]}},
{"note":[{"last":true}]},{"do":{"do":"call","func":{"value":[1,0]}}},{"note":[{"last":true}]}]]"#;

#[test]
fn a_body_goes_on_behind_a_trap(rt: HostRuntime) {
    let types = r#"{},{"params":["i32"],"results":["i32"]}"#;
    let members = guest(&rt, rt.alloc(), types, DIVIDING, &[GOES_ON]);
    check_session(
        &rt,
        rt.alloc(),
        members.as_str(),
        r#"{"do":"func_new","type":0,"body":0} => ok func 0
{"do":"instantiate","module":0,"imports":[0]} => ok instance 0
{"do":"get_export","instance":1,"name":"go"} => ok func 1
{"do":"get_export","instance":1,"name":"m"} => ok memory 0
note trap IntegerDivisionByZero
note ok values i32:3
note refused NoReply
{"do":"call","func":2} => ok values
{"do":"memory_read","memory":3,"at":0,"len":6} => ok bytes 090000000500"#,
    );
}

/// A body that calls itself, with other arguments.
const EACH_ACTIVATION_HAS_ITS_OWN_REPLIES: &str =
    r#""types":[{"params":["i32","funcref"],"results":["i32"]}],
"host":[[{"note":["in ",{"arg":0}," last ",{"last":true}]},{"do":{"do":"global_new","val":"i32",
"init":{"name":{"arg":0}}}},{"note":["mine ",{"last":true}]},{"do":{"do":"call","func":{"arg":1},
"args":[{"i32":2},{"func":null}]}},{"note":["then ",{"arg":0}," ",{"last":true}]},
{"do":{"do":"global_get","global":0}},{"note":["still ",{"last":true}]},{"do":{"do":"call","func":{"arg":1},
"args":[{"i32":3},{"name":{"arg":1}}]}},{"note":["deep ",{"arg":0}," ",{"last":true}]},
{"do":{"do":"global_get","global":0}},{"note":["end ",{"last":true}]},{"return":[{"name":{"value":[4,0]}}]}]],
"engine":{"frames":4}"#;

#[test]
fn each_activation_has_its_own_replies(rt: HostRuntime) {
    check_session(
        &rt,
        rt.alloc(),
        EACH_ACTIVATION_HAS_ITS_OWN_REPLIES,
        r#"{"do":"func_new","type":0,"body":0} => ok func 0
note in 1 last 
note mine ok global 0
note in 2 last 
note mine ok global 1
note then 2 refused NoReply
note still ok values i32:2
note deep 2 refused NoReply
note end ok values i32:2
note then 1 ok values i32:2
note still ok values i32:1
note in 3 last 
note mine ok global 2
note in 2 last 
note mine ok global 3
note then 2 refused NoReply
note still ok values i32:2
note deep 2 refused NoReply
note end ok values i32:2
note then 3 ok values i32:2
note still ok values i32:3
note in 3 last 
note mine ok global 4
note in 2 last 
note mine ok global 5
note then 2 refused NoReply
note still ok values i32:2
note deep 2 refused NoReply
note end ok values i32:2
note then 3 ok values i32:2
note still ok values i32:3
note in 3 last 
note mine ok global 6
note then 3 trap StackOverflow
note still ok values i32:3
note deep 3 trap StackOverflow
note end ok values i32:3
note deep 3 ok values i32:3
note end ok values i32:3
note deep 3 ok values i32:3
note end ok values i32:3
note deep 1 ok values i32:3
note end ok values i32:1
{"do":"call","func":0,"args":[{"i32":1},{"name":0}]} => ok values i32:1
note in 5 last 
note mine ok global 7
note then 5 refused NoReply
note still ok values i32:5
note deep 5 refused NoReply
note end ok values i32:5
{"do":"call","func":0,"args":[{"i32":5},{"func":null}]} => ok values i32:5"#,
    );
}

/// A guest that calls the host, and a function of it that counts without an end.
const ENDLESS: &str = r#""globals":[{"val":"i32","mut":true,"init":["i32.const",0]}],
"functions":[{"type":0,"code":[["call",0],["i32.const",1],["global.set",0]]},{"type":0,"code":[["loop",0,
[["global.get",0],["i32.const",1],["i32.add"],["global.set",0],["br",0]]]]}],
"exports":[{"name":"go","func":1},{"name":"spin","func":2},{"name":"g","global":0}]"#;

/// A body whose nested call has no end.
const SPINS: &str =
    r#""host":[[{"note":["before"]},{"do":{"do":"get_export","instance":{"caller":true},"name":"spin"}},
{"note":["found"]},{"do":{"do":"call","func":0}},{"note":["after ",{"last":true}]}]]"#;

#[test]
fn the_limit_of_turns_ends_all(rt: HostRuntime) {
    let members = guest(
        &rt,
        rt.alloc(),
        "{}",
        ENDLESS,
        &[SPINS, r#""engine":{"turns":1000}"#],
    );
    check_session(
        &rt,
        rt.alloc(),
        members.as_str(),
        r#"{"do":"func_new","type":0,"body":0} => ok func 0
{"do":"instantiate","module":0,"imports":[0]} => ok instance 0
{"do":"get_export","instance":1,"name":"go"} => ok func 1
{"do":"get_export","instance":1,"name":"g"} => ok global 0
note before
note found
{"do":"call","func":2} => refused TurnLimit
{"do":"global_get","global":3} => ok values i32:199
note before
note found
{"do":"call","func":2} => refused TurnLimit
{"do":"global_get","global":3} => ok values i32:398
{"do":"memory_new","min":1} => ok memory 0"#,
    );
}
