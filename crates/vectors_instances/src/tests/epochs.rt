//! Epochs: where they are read, and what is done at the deadline. The program's source gives 0, 1, 2 and so on.

use crate::tests::{Session, check_sessions};

/// A behaviour that goes on once, by five ticks, and then interrupts.
const EPOCH_CONTINUE: &str = r#""engine":{"epochs":true},
"data":{"deadline":[5]},
"types":[{}],
"modules":[{"globals":[{"val":"i32","mut":true,"init":["i32.const",0]}],"functions":[{"type":0,"code":[["loop",
0,[["global.get",0],["i32.const",1],["i32.add"],["global.set",0],["br",0]]]]}],"exports":[{"name":"f","func":0},
{"name":"g","global":0}]}]"#;

/// A behaviour that goes on by nothing: what it says holds for the check that asked.
const EPOCH_CONTINUE_ZERO: &str = r#""engine":{"epochs":true},
"data":{"deadline":[0,0]},
"types":[{}],
"modules":[{"globals":[{"val":"i32","mut":true,"init":["i32.const",0]}],"functions":[{"type":0,"code":[["loop",
0,[["global.get",0],["i32.const",1],["i32.add"],["global.set",0],["br",0]]]]}],"exports":[{"name":"f","func":0},
{"name":"g","global":0}]}]"#;

/// A behaviour that fails first, then interrupts, and then goes on.
const EPOCH_BEHAVIOUR_FAULT: &str = r#""engine":{"epochs":true},
"data":{"deadline":["fault","interrupt",2]},
"types":[{}],
"modules":[{"globals":[{"val":"i32","mut":true,"init":["i32.const",0]}],"functions":[{"type":0,
"code":[["global.get",0],["i32.const",1],["i32.add"],["global.set",0]]}],"exports":[{"name":"f","func":0},
{"name":"g","global":0}]}]"#;

/// A behaviour that goes on for as long as a number can say.
const EPOCH_CONTINUE_SATURATES: &str = r#""engine":{"epochs":true},
"data":{"deadline":[18446744073709551615]},
"types":[{},{"params":["i32"]}],
"modules":[{"globals":[{"val":"i32","mut":true,"init":["i32.const",0]}],"functions":[{"type":1,"code":[["loop",
0,[["global.get",0],["i32.const",1],["i32.add"],["global.set",0],["local.get",0],["i32.const",1],["i32.sub"],
["local.tee",0],["br_if",0]]]]}],"exports":[{"name":"f","func":0},{"name":"g","global":0}]}]"#;

/// A start function at the deadline.
const EPOCH_START_FUNCTION: &str = r#""engine":{"epochs":true},
"data":{"deadline":["interrupt","fault",9]},
"types":[{}],
"modules":[{"globals":[{"val":"i32","mut":true,"init":["i32.const",0]}],"functions":[{"type":0,
"code":[["global.get",0],["i32.const",1],["i32.add"],["global.set",0]]}],"start":0,"exports":[{"name":"g",
"global":0}]}]"#;

/// What each session shows, its members, and its commands with their lines.
const SESSIONS: [Session; 5] = [
    (
        "a behaviour moves the deadline",
        EPOCH_CONTINUE,
        r#"{"do":"instantiate","module":0} => ok instance 0
{"do":"get_export","instance":0,"name":"f"} => ok func 0
{"do":"get_export","instance":0,"name":"g"} => ok global 0
{"do":"set_epoch_deadline","ticks":2} => ok
{"do":"call","func":1} => trap Interrupt
{"do":"global_get","global":2} => ok values i32:5"#,
    ),
    (
        "going on by no ticks passes one check",
        EPOCH_CONTINUE_ZERO,
        r#"{"do":"instantiate","module":0} => ok instance 0
{"do":"get_export","instance":0,"name":"f"} => ok func 0
{"do":"get_export","instance":0,"name":"g"} => ok global 0
{"do":"call","func":1} => trap Interrupt
{"do":"global_get","global":2} => ok values i32:1"#,
    ),
    (
        "a behaviour that fails ends the run",
        EPOCH_BEHAVIOUR_FAULT,
        r#"{"do":"instantiate","module":0} => ok instance 0
{"do":"get_export","instance":0,"name":"f"} => ok func 0
{"do":"get_export","instance":0,"name":"g"} => ok global 0
{"do":"call","func":1} => refused EpochFault
{"do":"call","func":1} => trap Interrupt
{"do":"call","func":1} => ok values
{"do":"global_get","global":2} => ok values i32:1
{"do":"call","func":1} => ok values
{"do":"global_get","global":2} => ok values i32:2"#,
    ),
    (
        "the deadline stays below the last reading",
        EPOCH_CONTINUE_SATURATES,
        r#"{"do":"instantiate","module":0} => ok instance 0
{"do":"get_export","instance":0,"name":"f"} => ok func 0
{"do":"get_export","instance":0,"name":"g"} => ok global 0
{"do":"call","func":1,"args":[{"i32":20}]} => ok values
{"do":"global_get","global":2} => ok values i32:20
{"do":"call","func":1,"args":[{"i32":20}]} => ok values
{"do":"global_get","global":2} => ok values i32:40
{"do":"set_epoch_deadline","ticks":0} => ok
{"do":"call","func":1,"args":[{"i32":1}]} => trap Interrupt
{"do":"global_get","global":2} => ok values i32:40"#,
    ),
    (
        "a start function is checked too",
        EPOCH_START_FUNCTION,
        r#"{"do":"instantiate","module":0} => trap Interrupt
{"do":"instantiate","module":0} => refused EpochFault
{"do":"instantiate","module":0} => ok instance 2
{"do":"get_export","instance":2,"name":"g"} => ok global 2
{"do":"global_get","global":3} => ok values i32:1"#,
    ),
];

#[test]
fn epochs_are_read_as_is_said(rt: HostRuntime) {
    check_sessions(&rt, rt.alloc(), &SESSIONS);
}
