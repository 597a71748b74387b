//! Start functions: when they run, and what one that ends early leaves.

use crate::tests::{Session, check_sessions};

/// A start function that adds two bytes of a data segment and writes the sum behind them, and then traps or not.
const AFTER_SEGMENTS: &str = r#""types":[{}],
"modules":[{"imports":[{"module":"h","name":"m","memory":{"min":1}}],
"functions":[{"type":0,"code":[["i32.const",2],["i32.const",0],["i32.load8_u",0,0],["i32.const",0],
["i32.load8_u",0,1],["i32.add"],["i32.store8",0,0]]}],
"datas":[{"bytes":"0506","memory":0,"offset":["i32.const",0]}],"start":0},
{"imports":[{"module":"h","name":"m","memory":{"min":1}},{"module":"h","name":"t","table":{"ref":"funcref","min":1}}],
"globals":[{"val":"i32","mut":true,"init":["i32.const",0]}],
"functions":[{"type":0,"code":[["i32.const",3],["i32.const",255],["i32.store8",0,0],["i32.const",9],
["global.set",0],["unreachable"]]},
{"type":0,"code":[["i32.const",4],["global.get",0],["i32.store8",0,0]]}],
"elements":[{"ref":"funcref","table":0,"offset":["i32.const",0],"items":[["ref.func",1]]}],"start":0},
{}]"#;

/// A start function that is imported, and one that calls an imported function of another instance.
const IMPORTED: &str = r#""types":[{}],
"modules":[{"globals":[{"val":"i32","mut":true,"init":["i32.const",0]}],
"functions":[{"type":0,"code":[["global.get",0],["i32.const",1],["i32.add"],["global.set",0]]}],
"exports":[{"name":"count","func":0},{"name":"n","global":0}]},
{"imports":[{"module":"a","name":"count","func":0}],"start":0},
{"imports":[{"module":"a","name":"count","func":0}],"functions":[{"type":0,"code":[["call",0],["call",0]]}],
"start":1}]"#;

/// Start functions of no, of one, and of two instructions, in an engine of two turns; the instance takes the first.
const TURNS: &str = r#""types":[{}],"engine":{"turns":2},
"modules":[{},{"functions":[{"type":0}],"start":0},{"functions":[{"type":0,"code":[["nop"]]}],"start":0},
{"imports":[{"module":"h","name":"g","global":{"val":"i32","mut":true}}],
"functions":[{"type":0,"code":[["i32.const",9],["global.set",0]]}],"start":0}]"#;

/// One frame, and start functions that open one and two.
const FRAMES: &str = r#""types":[{}],"engine":{"frames":1,"turns":100},
"modules":[{"functions":[{"type":0}],"start":0},{"functions":[{"type":0},{"type":0,"code":[["call",0]]}],"start":1},
{"functions":[{"type":0,"code":[["loop",0,[["br",0]]]]}],"start":0},
{"imports":[{"module":"h","name":"t","table":{"ref":"funcref","min":1}}],
"functions":[{"type":0,"code":[["i32.const",0],["call_indirect",0,0]]}],"start":0},
{"imports":[{"module":"h","name":"m","memory":{"min":1}}],
"functions":[{"type":0,"code":[["i32.const",65536],["i32.load8_u",0,0],["drop"]]}],
"datas":[{"bytes":"2a","memory":0,"offset":["i32.const",0]}],"start":0}]"#;

/// What each session shows, its members, and its commands with their lines.
const SESSIONS: [Session; 4] = [
    (
        "a start function runs after the segments and what it did stays",
        AFTER_SEGMENTS,
        r#"{"do":"memory_new","min":1} => ok memory 0
{"do":"table_new","ref":"funcref","min":1,"init":{"func":null}} => ok table 0
{"do":"instantiate","module":0,"imports":[0]} => ok instance 0
{"do":"memory_read","memory":0,"at":0,"len":4} => ok bytes 05060b00
{"do":"instantiate","module":1,"imports":[0,1]} => trap UnreachableCodeReached
{"do":"memory_read","memory":0,"at":0,"len":4} => ok bytes 05060bff
{"do":"instantiate","module":2} => ok instance 2
{"do":"table_get","table":1,"at":0} => ok values funcref:2
{"do":"call","func":{"value":[7,0]}} => ok values
{"do":"memory_read","memory":0,"at":3,"len":2} => ok bytes ff09
{"do":"get_export","instance":4,"name":"f"} => refused NoReply"#,
    ),
    (
        "a start function may be imported",
        IMPORTED,
        r#"{"do":"instantiate","module":0} => ok instance 0
{"do":"get_export","instance":0,"name":"count"} => ok func 0
{"do":"get_export","instance":0,"name":"n"} => ok global 0
{"do":"instantiate","module":1,"imports":[1]} => ok instance 1
{"do":"global_get","global":2} => ok values i32:1
{"do":"instantiate","module":2,"imports":[1]} => ok instance 2
{"do":"global_get","global":2} => ok values i32:3
{"do":"func_new","type":0,"body":0} => ok func 2
{"do":"instantiate","module":1,"imports":[7]} => refused NoHostBody
{"do":"instantiate","module":2,"imports":[7]} => refused NoHostBody
{"do":"instantiate","module":1,"imports":[1]} => ok instance 5"#,
    ),
    (
        "an instance takes one turn and each instruction of the start function another",
        TURNS,
        r#"{"do":"global_new","val":"i32","mut":true,"init":{"i32":1}} => ok global 0
{"do":"instantiate","module":0} => ok instance 0
{"do":"instantiate","module":1} => ok instance 1
{"do":"instantiate","module":2} => ok instance 2
{"do":"instantiate","module":3,"imports":[0]} => refused TurnLimit
{"do":"global_get","global":0} => ok values i32:1
{"do":"instantiate","module":0} => ok instance 4"#,
    ),
    (
        "a start function ends as a call does",
        FRAMES,
        r#"{"do":"instantiate","module":0} => ok instance 0
{"do":"instantiate","module":1} => trap StackOverflow
{"do":"instantiate","module":2} => refused TurnLimit
{"do":"table_new","ref":"funcref","min":1,"init":{"func":null}} => ok table 0
{"do":"instantiate","module":3,"imports":[3]} => trap IndirectCallToNull
{"do":"memory_new","min":1} => ok memory 0
{"do":"instantiate","module":4,"imports":[5]} => trap MemoryOutOfBounds
{"do":"memory_read","memory":5,"at":0,"len":2} => ok bytes 2a00
{"do":"instantiate","module":0} => ok instance 5"#,
    ),
];

#[test]
fn start_functions_run_as_is_said(rt: HostRuntime) {
    check_sessions(&rt, rt.alloc(), &SESSIONS);
}
