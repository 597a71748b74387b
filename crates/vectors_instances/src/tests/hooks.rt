//! Hooks: the events that the hook of a script is told of, and what follows where it fails.

use crate::tests::{Hooked, check_all_hooked};

/// A function that calls another.
const HOOKS_CALLS: &str = r#""data":{"hook":[]},
"types":[{}],
"modules":[{"functions":[{"type":0,"code":[["call",1]]},{"type":0,"code":[]}],"exports":[{"name":"f",
"func":0}]}]"#;

/// A start function that leaves a trace.
const HOOKS_START_FUNCTION: &str = r#""data":{"hook":["fault","ok","fault"]},
"types":[{}],
"modules":[{"globals":[{"val":"i32","mut":true,"init":["i32.const",0]}],"functions":[{"type":0,
"code":[["global.get",0],["i32.const",1],["i32.add"],["global.set",0]]}],"start":0,"exports":[{"name":"g",
"global":0}]}]"#;

/// Functions that trap.
const HOOKS_AFTER_TRAP: &str = r#""data":{"hook":["ok","ok","ok","fault","fault"]},
"types":[{}],
"modules":[{"functions":[{"type":0,"code":[["unreachable"]]}],"exports":[{"name":"f","func":0}]}]"#;

/// An engine of fuel and epochs.
const HOOKS_AFTER_METERS: &str = r#""engine":{"fuel":true,"epochs":true},
"data":{"hook":[],"deadline":["interrupt","fault",100]},
"types":[{}],
"modules":[{"functions":[{"type":0,"code":[["nop"]]}],"exports":[{"name":"f","func":0}]}]"#;

/// A function that grows a memory.
const HOOKS_LIMITER_FAULT: &str =
    r#""data":{"limiter":{"answers":["fault","fault"]},"hook":["ok","ok","ok","fault"]},
"types":[{"params":["i32"],"results":["i32"]}],
"modules":[{"memories":[{"min":0,"max":3}],"functions":[{"type":0,"code":[["local.get",0],["memory.grow",0]]}],
"exports":[{"name":"f","func":0},{"name":"m","memory":0}]}]"#;

/// A function that calls one of the host.
const HOOKS_HOST_FUNCTION_WITHOUT_BODY: &str = r#""data":{"hook":["ok","ok","fault","ok","fault"]},
"types":[{}],
"modules":[{"imports":[{"module":"h","name":"h","func":0}],"functions":[{"type":0,"code":[["call",0]]},
{"type":0,"code":[["unreachable"]]}],"exports":[{"name":"go","func":1},{"name":"bad","func":2}]}]"#;

/// What each session shows, its members, its commands with their lines, and the events.
const SESSIONS: [Hooked; 6] = [
    (
        "a call from outside has two events",
        HOOKS_CALLS,
        r#"{"do":"instantiate","module":0} => ok instance 0
{"do":"get_export","instance":0,"name":"f"} => ok func 0
{"do":"call","func":1} => ok values
{"do":"call","func":1,"args":[{"i32":1}]} => refused ArgumentCount
{"do":"memory_new","min":1} => ok memory 0
{"do":"call","func":1} => ok values"#,
        "hooks CallingWasm ReturningFromWasm CallingWasm ReturningFromWasm",
    ),
    (
        "a start function has two events",
        HOOKS_START_FUNCTION,
        r#"{"do":"instantiate","module":0} => refused HookFault
{"do":"instantiate","module":0} => refused HookFault
{"do":"instantiate","module":0} => ok instance 2
{"do":"get_export","instance":2,"name":"g"} => ok global 2
{"do":"global_get","global":3} => ok values i32:1
{"do":"memory_new","min":0} => ok memory 0"#,
        "hooks CallingWasm CallingWasm ReturningFromWasm CallingWasm ReturningFromWasm",
    ),
    (
        "a hook is told behind a trap too",
        HOOKS_AFTER_TRAP,
        r#"{"do":"instantiate","module":0} => ok instance 0
{"do":"get_export","instance":0,"name":"f"} => ok func 0
{"do":"call","func":1} => trap UnreachableCodeReached
{"do":"call","func":1} => refused HookFault
{"do":"call","func":1} => refused HookFault"#,
        "hooks CallingWasm ReturningFromWasm CallingWasm ReturningFromWasm CallingWasm",
    ),
    (
        "a hook is told behind what meters and the host refuse",
        HOOKS_AFTER_METERS,
        r#"{"do":"instantiate","module":0} => ok instance 0
{"do":"get_export","instance":0,"name":"f"} => ok func 0
{"do":"call","func":1} => trap OutOfFuel
{"do":"set_fuel","fuel":9} => ok
{"do":"call","func":1} => trap Interrupt
{"do":"call","func":1} => refused EpochFault
{"do":"call","func":1} => ok values
{"do":"func_new","type":0,"body":0} => ok func 1
{"do":"call","func":7} => refused NoHostBody"#,
        r#"hooks CallingWasm ReturningFromWasm CallingWasm ReturningFromWasm CallingWasm ReturningFromWasm
CallingWasm ReturningFromWasm CallingWasm ReturningFromWasm"#,
    ),
    (
        "a hook is told behind a limiter that fails",
        HOOKS_LIMITER_FAULT,
        r#"{"do":"instantiate","module":0} => ok instance 0
{"do":"get_export","instance":0,"name":"f"} => ok func 0
{"do":"call","func":1,"args":[{"i32":1}]} => refused LimiterFault
{"do":"call","func":1,"args":[{"i32":1}]} => refused HookFault
{"do":"call","func":1,"args":[{"i32":1}]} => ok values i32:0"#,
        "hooks CallingWasm ReturningFromWasm CallingWasm ReturningFromWasm CallingWasm ReturningFromWasm",
    ),
    (
        "a function of the host without a body has no event",
        HOOKS_HOST_FUNCTION_WITHOUT_BODY,
        r#"{"do":"func_new","type":0,"body":0} => ok func 0
{"do":"instantiate","module":0,"imports":[0]} => ok instance 0
{"do":"get_export","instance":1,"name":"go"} => ok func 1
{"do":"call","func":2} => refused NoHostBody
{"do":"call","func":2} => refused HookFault
{"do":"call","func":0} => refused HookFault
{"do":"get_export","instance":1,"name":"bad"} => ok func 2
{"do":"call","func":6} => trap UnreachableCodeReached"#,
        r#"hooks CallingWasm ReturningFromWasm CallingWasm CallingWasm ReturningFromWasm CallingWasm
ReturningFromWasm"#,
    ),
];

#[test]
fn a_hook_is_told_as_is_said(rt: HostRuntime) {
    check_all_hooked(&rt, rt.alloc(), &SESSIONS);
}
