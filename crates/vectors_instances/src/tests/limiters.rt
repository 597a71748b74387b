//! The limiter of a script: what it is asked, and what follows from its answers.

use crate::tests::{Session, check_sessions};

/// A memory of at most so many pages, and a function that grows it.
const LIMITER_MEMORY_GROW_GUEST: &str =
    r#""data":{"limiter":{"answers":["yes","yes","yes","no","fault"]}},
"types":[{"params":["i32"],"results":["i32"]}],
"modules":[{"memories":[{"min":1,"max":3}],"functions":[{"type":0,"code":[["local.get",0],["memory.grow",0]]}],
"exports":[{"name":"f","func":0}]}]"#;

/// Memories of the host alone.
const LIMITER_MEMORY_GROW_HOST: &str =
    r#""data":{"limiter":{"answers":["yes","yes","no","fault","yes","no"]}}"#;

/// Memories and tables that have a size, and such that have none.
const LIMITER_INSTANTIATION: &str =
    r#""data":{"limiter":{"answers":["yes","no","yes","yes","fault","yes","yes","yes","no"]}},
"modules":[{"memories":[{"min":1},{"min":0},{"min":2}],"tables":[{"ref":"funcref","min":1}],
"exports":[{"name":"m","memory":0}]}]"#;

/// Modules of memories and tables, of which few may be made.
const LIMITER_COUNTS_KEPT: &str =
    r#""data":{"limiter":{"instances":7,"memories":5,"tables":1,"answers":["no","fault"]}},
"modules":[{"memories":[{"min":1},{"min":1}]},{"memories":[{"min":0}]},{"tables":[{"ref":"funcref","min":0}]}]"#;

/// One instance and no memory.
const LIMITER_OF_ONE_INSTANCE: &str = r#""data":{"limiter":{"instances":1,"memories":0}},
"modules":[{"memories":[{"min":0}]},{}]"#;

/// What each session shows, its members, and its commands with their lines.
const SESSIONS: [Session; 5] = [
    (
        "a limiter is asked of a guest that grows a memory",
        LIMITER_MEMORY_GROW_GUEST,
        r#"{"do":"instantiate","module":0} => ok instance 0
{"do":"get_export","instance":0,"name":"f"} => ok func 0
{"do":"call","func":1,"args":[{"i32":0}]} => ok values i32:1
{"do":"call","func":1,"args":[{"i32":2}]} => ok values i32:1
{"do":"call","func":1,"args":[{"i32":1}]} => ok values i32:-1
{"do":"call","func":1,"args":[{"i32":1}]} => ok values i32:-1
{"do":"call","func":1,"args":[{"i32":1}]} => refused LimiterFault
{"do":"call","func":1,"args":[{"i32":0}]} => ok values i32:3"#,
    ),
    (
        "a limiter is asked of a host that grows a memory",
        LIMITER_MEMORY_GROW_HOST,
        r#"{"do":"memory_new","min":1,"max":3} => ok memory 0
{"do":"memory_grow","memory":0,"delta":0} => ok 1
{"do":"memory_grow","memory":0,"delta":65536} => refused GrowFailed
{"do":"memory_grow","memory":0,"delta":18446744073709551615} => refused GrowFailed
{"do":"memory_grow","memory":0,"delta":3} => refused GrowFailed
{"do":"memory_grow","memory":0,"delta":1} => refused GrowFailed
{"do":"memory_grow","memory":0,"delta":1} => refused LimiterFault
{"do":"memory_size","memory":0} => ok 1
{"do":"memory_grow","memory":0,"delta":1} => ok 1
{"do":"memory_size","memory":0} => ok 2"#,
    ),
    (
        "a limiter is asked of what an instance begins with",
        LIMITER_INSTANTIATION,
        r#"{"do":"instantiate","module":0} => refused GrowFailed
{"do":"instantiate","module":0} => refused LimiterFault
{"do":"instantiate","module":0} => ok instance 0
{"do":"get_export","instance":2,"name":"m"} => ok memory 0
{"do":"memory_new","min":1} => refused GrowFailed"#,
    ),
    (
        "counts stay where a limiter denies",
        LIMITER_COUNTS_KEPT,
        r#"{"do":"instantiate","module":0} => refused GrowFailed
{"do":"instantiate","module":0} => refused LimiterFault
{"do":"instantiate","module":0} => refused ResourceLimit memory
{"do":"memory_new","min":1} => ok memory 0
{"do":"instantiate","module":1} => ok instance 0
{"do":"instantiate","module":2} => ok instance 1
{"do":"instantiate","module":2} => refused ResourceLimit table"#,
    ),
    (
        "an instance that is refused its memory is counted",
        LIMITER_OF_ONE_INSTANCE,
        r#"{"do":"instantiate","module":0} => refused ResourceLimit memory
{"do":"instantiate","module":1} => refused ResourceLimit instance"#,
    ),
];

#[test]
fn a_limiter_is_asked_as_is_said(rt: HostRuntime) {
    check_sessions(&rt, rt.alloc(), &SESSIONS);
}
