//! What a command reaches, and what it leaves alone: each session has memories that the command reaches by one way alone,
//! and beside them such that it does not reach, which stay as they were, where it traps or is stopped, too. The lines were
//! found by hand, and an executor written apart gives the same.

use crate::tests::{Session, append, check_session, check_sessions};
use std::alloc::Global;
use std::process::Abort;

/// Instances over one table: `put` puts a function of its own into it, and `go` calls what stands there. That function
/// writes a byte into the memory of its instance and calls itself without an end.
const SHARED_TABLE: &str = r#""types":[{}],
"modules":[{"imports":[{"module":"h","name":"t","table":{"ref":"funcref","min":1}}],"memories":[{"min":1}],
"functions":[{"type":0,"code":[["i32.const",0],["i32.const",255],["i32.store8",0,0],["call",0]]},
{"type":0,"code":[["i32.const",0],["ref.func",0],["table.set",0]]},
{"type":0,"code":[["i32.const",0],["call_indirect",0,0]]}],
"exports":[{"name":"put","func":1},{"name":"go","func":2},{"name":"m","memory":0}]}]"#;

/// Two guests of one module, each with a memory, over one function of the host. Its body writes into the memory that is
/// stored with it, and into that of the guest that calls.
const SHARED_HOST_FUNCTION: &str = r#""types":[{}],
"modules":[{"imports":[{"module":"h","name":"h","func":0}],"memories":[{"min":1}],
"functions":[{"type":0,"code":[["i32.const",0],["i32.const",7],["i32.store8",0,0],["call",0]]}],
"exports":[{"name":"go","func":1},{"name":"m","memory":0}]}],
"host":[[{"do":{"do":"memory_write","memory":{"stored":0},"at":0,"bytes":"5a"}},
{"do":{"do":"get_export","instance":{"caller":true},"name":"m"}},
{"do":{"do":"memory_write","memory":1,"at":1,"bytes":"99"}}]]"#;

/// A start function that writes into the memory that is imported, calls what stands in the table that is imported, and
/// traps; and a module with such a table and a function for it, which writes into a memory of its own.
const TRAPPED_START: &str = r#""types":[{}],
"modules":[{"tables":[{"ref":"funcref","min":1}],"memories":[{"min":1}],
"functions":[{"type":0,"code":[["i32.const",0],["i32.const",8],["i32.store8",0,0]]}],
"elements":[{"ref":"funcref","table":0,"offset":["i32.const",0],"items":[["ref.func",0]]}],
"exports":[{"name":"t","table":0},{"name":"m","memory":0}]},
{"imports":[{"module":"h","name":"m","memory":{"min":1}},{"module":"h","name":"t","table":{"ref":"funcref","min":1}}],
"functions":[{"type":0,"code":[["i32.const",0],["i32.const",9],["i32.store8",0,0],["i32.const",0],
["call_indirect",0,0],["unreachable"]]}],"start":0}]"#;

/// A module whose function writes into a memory of its own; one whose passive segment holds a function that it is given
/// by a global, takes it into a table and calls it there; and one that drops that segment first.
const PASSIVE_SEGMENT: &str = r#""types":[{}],
"modules":[{"memories":[{"min":1}],"functions":[{"type":0,"code":[["i32.const",0],["i32.const",255],
["i32.store8",0,0]]}],"exports":[{"name":"write","func":0},{"name":"m","memory":0}]},
{"imports":[{"module":"h","name":"f","global":{"val":"funcref"}}],"tables":[{"ref":"funcref","min":1}],
"elements":[{"ref":"funcref","items":[["global.get",0]]}],
"functions":[{"type":0,"code":[["i32.const",0],["i32.const",0],["i32.const",1],["table.init",0,0],["i32.const",0],
["call_indirect",0,0]]},{"type":0,"code":[["elem.drop",0]]}],
"exports":[{"name":"go","func":0},{"name":"drop","func":1}]}]"#;

/// A function of a guest calls one of the host, with which a global is stored, in which a function of another guest
/// stands, which writes into a memory of its own.
const CHAIN_BY_GLOBAL: &str = r#""types":[{}],
"modules":[{"memories":[{"min":1}],"functions":[{"type":0,"code":[["i32.const",0],["i32.const",255],
["i32.store8",0,0]]}],"exports":[{"name":"write","func":0},{"name":"m","memory":0}]},
{"imports":[{"module":"h","name":"h","func":0}],"functions":[{"type":0,"code":[["call",0]]}],
"exports":[{"name":"go","func":1}]}],
"host":[[{"do":{"do":"global_get","global":{"stored":0}}},{"do":{"do":"call","func":{"value":[0,0]}}},
{"note":[{"last":true}]}]]"#;

/// What each session shows, its members, and its commands with their lines.
const SESSIONS: [Session; 5] = [
    (
        "a call writes where the function in a shared table writes, and not in its own instance",
        SHARED_TABLE,
        r#"{"do":"table_new","ref":"funcref","min":1,"init":{"func":null}} => ok table 0
{"do":"instantiate","module":0,"imports":[0]} => ok instance 0
{"do":"instantiate","module":0,"imports":[0]} => ok instance 1
{"do":"instantiate","module":0,"imports":[0]} => ok instance 2
{"do":"get_export","instance":1,"name":"put"} => ok func 1
{"do":"get_export","instance":2,"name":"go"} => ok func 5
{"do":"call","func":4} => ok values
{"do":"call","func":5} => trap StackOverflow
{"do":"get_export","instance":1,"name":"m"} => ok memory 0
{"do":"get_export","instance":2,"name":"m"} => ok memory 1
{"do":"get_export","instance":3,"name":"m"} => ok memory 2
{"do":"memory_read","memory":8,"at":0,"len":1} => ok bytes ff
{"do":"memory_read","memory":9,"at":0,"len":1} => ok bytes 00
{"do":"memory_read","memory":10,"at":0,"len":1} => ok bytes 00"#,
    ),
    (
        "guests that share a function of the host share what is stored with it, and no more",
        SHARED_HOST_FUNCTION,
        r#"{"do":"memory_new","min":1} => ok memory 0
{"do":"memory_new","min":1} => ok memory 1
{"do":"func_new","type":0,"body":0,"stored":[0]} => ok func 0
{"do":"instantiate","module":0,"imports":[2]} => ok instance 0
{"do":"instantiate","module":0,"imports":[2]} => ok instance 1
{"do":"get_export","instance":3,"name":"go"} => ok func 1
{"do":"call","func":5} => ok values
{"do":"get_export","instance":3,"name":"m"} => ok memory 2
{"do":"get_export","instance":4,"name":"m"} => ok memory 3
{"do":"memory_read","memory":0,"at":0,"len":2} => ok bytes 5a00
{"do":"memory_read","memory":1,"at":0,"len":2} => ok bytes 0000
{"do":"memory_read","memory":7,"at":0,"len":2} => ok bytes 0799
{"do":"memory_read","memory":8,"at":0,"len":2} => ok bytes 0000
{"do":"memory_write","memory":0,"at":0,"bytes":"00"} => ok
{"do":"get_export","instance":4,"name":"go"} => ok func 2
{"do":"call","func":14} => ok values
{"do":"memory_read","memory":0,"at":0,"len":2} => ok bytes 5a00
{"do":"memory_read","memory":8,"at":0,"len":2} => ok bytes 0799"#,
    ),
    (
        "a start function that traps wrote where its imports lead, and nowhere else",
        TRAPPED_START,
        r#"{"do":"memory_new","min":1} => ok memory 0
{"do":"memory_new","min":1} => ok memory 1
{"do":"instantiate","module":0} => ok instance 0
{"do":"instantiate","module":0} => ok instance 1
{"do":"get_export","instance":2,"name":"t"} => ok table 0
{"do":"instantiate","module":1,"imports":[0,4]} => trap UnreachableCodeReached
{"do":"memory_read","memory":0,"at":0,"len":1} => ok bytes 09
{"do":"memory_read","memory":1,"at":0,"len":1} => ok bytes 00
{"do":"get_export","instance":2,"name":"m"} => ok memory 2
{"do":"get_export","instance":3,"name":"m"} => ok memory 3
{"do":"memory_read","memory":8,"at":0,"len":1} => ok bytes 08
{"do":"memory_read","memory":9,"at":0,"len":1} => ok bytes 00"#,
    ),
    (
        "a function that stands in a passive segment is reached",
        PASSIVE_SEGMENT,
        r#"{"do":"instantiate","module":0} => ok instance 0
{"do":"instantiate","module":0} => ok instance 1
{"do":"get_export","instance":0,"name":"write"} => ok func 0
{"do":"global_new","val":"funcref","init":{"name":2}} => ok global 0
{"do":"instantiate","module":1,"imports":[3]} => ok instance 2
{"do":"instantiate","module":1,"imports":[3]} => ok instance 3
{"do":"get_export","instance":5,"name":"drop"} => ok func 5
{"do":"call","func":6} => ok values
{"do":"get_export","instance":5,"name":"go"} => ok func 4
{"do":"call","func":8} => trap TableOutOfBounds
{"do":"get_export","instance":0,"name":"m"} => ok memory 0
{"do":"get_export","instance":1,"name":"m"} => ok memory 1
{"do":"memory_read","memory":10,"at":0,"len":1} => ok bytes 00
{"do":"get_export","instance":4,"name":"go"} => ok func 2
{"do":"call","func":13} => ok values
{"do":"memory_read","memory":10,"at":0,"len":1} => ok bytes ff
{"do":"memory_read","memory":11,"at":0,"len":1} => ok bytes 00"#,
    ),
    (
        "a chain leads from a guest by a function of the host and a global to another guest",
        CHAIN_BY_GLOBAL,
        r#"{"do":"instantiate","module":0} => ok instance 0
{"do":"instantiate","module":0} => ok instance 1
{"do":"global_new","val":"funcref","mut":true,"init":{"func":null}} => ok global 0
{"do":"func_new","type":0,"body":0,"stored":[2]} => ok func 2
{"do":"instantiate","module":1,"imports":[3]} => ok instance 2
{"do":"get_export","instance":4,"name":"go"} => ok func 3
{"do":"get_export","instance":0,"name":"m"} => ok memory 0
{"do":"get_export","instance":1,"name":"m"} => ok memory 1
note refused NoReply
{"do":"call","func":5} => ok values
{"do":"memory_read","memory":6,"at":0,"len":1} => ok bytes 00
{"do":"get_export","instance":1,"name":"write"} => ok func 1
{"do":"global_set","global":2,"value":{"name":10}} => ok
note ok values
{"do":"call","func":5} => ok values
{"do":"memory_read","memory":6,"at":0,"len":1} => ok bytes 00
{"do":"memory_read","memory":7,"at":0,"len":1} => ok bytes ff"#,
    ),
];

#[test]
fn what_is_not_reached_stays(rt: HostRuntime) {
    check_sessions(&rt, rt.alloc(), &SESSIONS);
}

/// The commands before the calls: an instance is made in one turn.
const MADE: &str = r#"{"do":"table_new","ref":"funcref","min":1,"init":{"func":null}} => ok table 0
{"do":"instantiate","module":0,"imports":[0]} => ok instance 0
{"do":"instantiate","module":0,"imports":[0]} => ok instance 1
{"do":"instantiate","module":0,"imports":[0]} => ok instance 2
{"do":"get_export","instance":1,"name":"put"} => ok func 1
{"do":"get_export","instance":2,"name":"go"} => ok func 5
{"do":"get_export","instance":1,"name":"m"} => ok memory 0
"#;

/// The memory of the second instance, whose function writes nothing itself, and that of the third, which no call here
/// reaches, are as they were.
const LEFT_ALONE: &str = r#"
{"do":"get_export","instance":2,"name":"m"} => ok memory 1
{"do":"get_export","instance":3,"name":"m"} => ok memory 2
{"do":"memory_read","memory":11,"at":0,"len":1} => ok bytes 00
{"do":"memory_read","memory":12,"at":0,"len":1} => ok bytes 00"#;

/// An engine of so many turns, and the lines of the calls that it stops. `put` takes three turns, and sets the element in
/// the last; `go` takes two up to the call, and writes in the fifth.
const STOPS: [(&str, &str); 5] = [
    (
        r#""engine":{"turns":1}"#,
        r#"{"do":"call","func":4} => refused TurnLimit
{"do":"table_get","table":0,"at":0} => ok values funcref:null
{"do":"call","func":5} => refused TurnLimit
{"do":"memory_read","memory":6,"at":0,"len":1} => ok bytes 00"#,
    ),
    (
        r#""engine":{"turns":2}"#,
        r#"{"do":"call","func":4} => refused TurnLimit
{"do":"table_get","table":0,"at":0} => ok values funcref:null
{"do":"call","func":5} => trap IndirectCallToNull
{"do":"memory_read","memory":6,"at":0,"len":1} => ok bytes 00"#,
    ),
    (
        r#""engine":{"turns":3}"#,
        r#"{"do":"call","func":4} => ok values
{"do":"table_get","table":0,"at":0} => ok values funcref:0
{"do":"call","func":5} => refused TurnLimit
{"do":"memory_read","memory":6,"at":0,"len":1} => ok bytes 00"#,
    ),
    (
        r#""engine":{"turns":4}"#,
        r#"{"do":"call","func":4} => ok values
{"do":"table_get","table":0,"at":0} => ok values funcref:0
{"do":"call","func":5} => refused TurnLimit
{"do":"memory_read","memory":6,"at":0,"len":1} => ok bytes 00"#,
    ),
    (
        r#""engine":{"turns":5}"#,
        r#"{"do":"call","func":4} => ok values
{"do":"table_get","table":0,"at":0} => ok values funcref:0
{"do":"call","func":5} => refused TurnLimit
{"do":"memory_read","memory":6,"at":0,"len":1} => ok bytes ff"#,
    ),
];

/// The parts of a text in their order.
fn joined(rt: &impl Abort, alloc: Global, parts: &[&str]) -> String {
    let mut text = String::new(alloc);
    for part in parts {
        append(rt, &mut text, part);
    }
    text
}

#[test]
fn a_stopped_call_has_changed_nothing_that_is_not_reached(rt: HostRuntime) {
    for (engine, stopped) in &STOPS {
        let members = joined(&rt, rt.alloc(), &[engine, ",", SHARED_TABLE]);
        let rows = joined(&rt, rt.alloc(), &[MADE, stopped, LEFT_ALONE]);
        check_session(&rt, rt.alloc(), members.as_str(), rows.as_str());
    }
}
