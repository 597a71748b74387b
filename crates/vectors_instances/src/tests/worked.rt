//! Worked rows: an indirect call through a segment, a segment that traps, and imports that are not there.

use crate::tests::{Session, check_sessions};

/// Functions of a type and of a subtype of it stand in a table, and are called from there.
const INDIRECT_CALL: &str =
    r#""types":[{"results":["i32"],"final":false},{"results":["i32"],"super":0},{"params":["i32"],
"results":["i32"]},{}],
"modules":[{"functions":[{"type":1,"code":[["i32.const",7]]},{"type":3,"code":[]},{"type":2,"code":[["local.get",0],
["call_indirect",0,0]]}],
"tables":[{"ref":"funcref","min":4}],
"elements":[{"ref":"funcref","table":0,"offset":["i32.const",0],"items":[["ref.func",0],["ref.func",1]]}],
"exports":[{"name":"f","func":2}]}]"#;

/// The second of two element segments passes the end of the table that is imported; a data segment comes after it.
const TRAPPING_SEGMENT: &str = r#""types":[{"results":["i32"]}],
"modules":[{"imports":[{"module":"h","name":"t","table":{"ref":"funcref","min":2}}],"memories":[{"min":1}],
"functions":[{"type":0,"code":[["i32.const",0],["i32.load8_u",0,0]]}],
"elements":[{"ref":"funcref","table":0,"offset":["i32.const",0],"items":[["ref.func",0]]},
{"ref":"funcref","table":0,"offset":["i32.const",5],"items":[["ref.func",0]]}],
"datas":[{"bytes":"ff","memory":0,"offset":["i32.const",0]}]},{}]"#;

/// A module that imports a memory of two pages, and one that imports nothing.
const MEMORY_IMPORT: &str =
    r#""modules":[{"imports":[{"module":"h","name":"m","memory":{"min":2}}]},{}]"#;

/// What each session shows, its members, and its commands with their lines.
const SESSIONS: [Session; 3] = [
    (
        "a segment fills a table of functions",
        INDIRECT_CALL,
        r#"{"do":"instantiate","module":0} => ok instance 0
{"do":"get_export","instance":0,"name":"f"} => ok func 2
{"do":"call","func":1,"args":[{"i32":0}]} => ok values i32:7
{"do":"call","func":1,"args":[{"i32":1}]} => trap BadSignature
{"do":"call","func":1,"args":[{"i32":2}]} => trap IndirectCallToNull
{"do":"call","func":1,"args":[{"i32":9}]} => trap TableOutOfBounds
{"do":"call","func":1,"args":[{"i32":-1}]} => trap TableOutOfBounds"#,
    ),
    (
        "a segment that traps leaves the instance and the earlier segments",
        TRAPPING_SEGMENT,
        r#"{"do":"table_new","ref":"funcref","min":2,"init":{"func":null}} => ok table 0
{"do":"instantiate","module":0,"imports":[0]} => trap TableOutOfBounds
{"do":"table_get","table":0,"at":0} => ok values funcref:0
{"do":"call","func":{"value":[2,0]}} => ok values i32:0
{"do":"instantiate","module":1} => ok instance 1
{"do":"table_get","table":0,"at":1} => ok values funcref:null"#,
    ),
    (
        "imports are as many and of the types that are declared",
        MEMORY_IMPORT,
        r#"{"do":"memory_new","min":1} => ok memory 0
{"do":"instantiate","module":0} => refused ImportCount
{"do":"instantiate","module":0,"imports":[]} => refused ImportCount
{"do":"instantiate","module":0,"imports":[0]} => refused ImportType 0
{"do":"instantiate","module":0,"imports":[9]} => refused NoReply
{"do":"instantiate","module":0,"imports":[0,0]} => refused ImportCount
{"do":"instantiate","module":0,"imports":[0,9]} => refused NoReply
{"do":"instantiate","module":0,"imports":[1]} => refused NoReply
{"do":"instantiate","module":0,"imports":[{"value":[0,0]}]} => refused NoReply
{"do":"instantiate","module":0,"imports":[{"arg":0}]} => refused NoReply
{"do":"instantiate","module":1,"imports":[0]} => refused ImportCount
{"do":"instantiate","module":2} => refused NoReply
{"do":"instantiate","module":2,"imports":[0]} => refused NoReply
{"do":"instantiate","module":18446744073709551615} => refused NoReply
{"do":"instantiate","module":1} => ok instance 0
{"do":"instantiate","module":0,"imports":[14]} => refused NoReply
{"do":"memory_grow","memory":0,"delta":1} => ok 1
{"do":"instantiate","module":0,"imports":[0]} => ok instance 1"#,
    ),
];

#[test]
fn sessions_go_as_is_said(rt: HostRuntime) {
    check_sessions(&rt, rt.alloc(), &SESSIONS);
}
