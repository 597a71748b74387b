//! Fuel: what code costs, where it is looked at, and what is charged.

use crate::tests::{Session, bulk, check_all_hooked, check_sessions};

/// Three instructions, which run on a debt.
const FUEL_STRAIGHT_NEEDS_ONE: &str = r#""engine":{"fuel":true},
"types":[{}],
"modules":[{"functions":[{"type":0,"code":[["nop"],["nop"],["nop"]]}],"exports":[{"name":"f","func":0}]}]"#;

/// A function that calls another behind one instruction.
const FUEL_AT_INNER_CALL: &str = r#""engine":{"fuel":true},
"types":[{}],
"modules":[{"globals":[{"val":"i32","mut":true,"init":["i32.const",0]}],"functions":[{"type":0,"code":[["nop"],
["call",1],["global.get",0],["i32.const",1],["i32.add"],["global.set",0]]},{"type":0,"code":[["global.get",0],
["i32.const",1],["i32.add"],["global.set",0]]}],"exports":[{"name":"f","func":0},{"name":"g","global":0}]}]"#;

/// A loop that runs into a debt.
const FUEL_INTERVAL: &str = r#""engine":{"fuel":true},
"types":[{}],
"modules":[{"functions":[{"type":0,"code":[["nop"],["nop"],["nop"]]}],"exports":[{"name":"f","func":0}]}]"#;

/// A loop without an end, which counts its rounds in a global.
const FUEL_COUNTING: &str = r#""engine":{"fuel":true},
"types":[{}],
"modules":[{"globals":[{"val":"i32","mut":true,"init":["i32.const",0]}],
"functions":[{"type":0,"code":[["loop",0,[["global.get",0],["i32.const",1],["i32.add"],["global.set",0],["br",0]]]]}],
"exports":[{"name":"f","func":0},{"name":"g","global":0}]}]"#;

/// An engine without fuel and epochs.
const FUEL_NOT_CONFIGURED: &str = r#""types":[{}],
"modules":[{"functions":[{"type":0,"code":[["nop"],["nop"],["nop"]]}],"exports":[{"name":"f","func":0}]}]"#;

/// A trap, and a call that its conditions refuse.
const FUEL_TRAP_IS_CHARGED: &str = r#""engine":{"fuel":true},
"types":[{}],
"modules":[{"functions":[{"type":0,"code":[["nop"],["unreachable"],["nop"]]}],"exports":[{"name":"f",
"func":0}]}]"#;

/// A growth that is denied, and one whose limiter fails.
const FUEL_GROWTH: &str = r#""engine":{"fuel":true},
"data":{"limiter":{"answers":["no","fault","yes"]}},
"types":[{"params":["i32"],"results":["i32"]}],
"modules":[{"memories":[{"min":0,"max":3}],"functions":[{"type":0,"code":[["local.get",0],["memory.grow",0]]}],
"exports":[{"name":"f","func":0},{"name":"m","memory":0}]}]"#;

/// A start function of four instructions.
const FUEL_START_FUNCTION: &str = r#""engine":{"fuel":true},
"types":[{}],
"modules":[{"globals":[{"val":"i32","mut":true,"init":["i32.const",0]}],"functions":[{"type":0,
"code":[["global.get",0],["i32.const",1],["i32.add"],["global.set",0]]}],"start":0,"exports":[{"name":"g",
"global":0}]}]"#;

/// Fuel and epochs at once: fuel is looked at first.
const FUEL_BEFORE_READING: &str = r#""engine":{"fuel":true,"epochs":true},
"types":[{}],
"modules":[{"functions":[{"type":0,"code":[["nop"],["nop"],["nop"]]}],"exports":[{"name":"f","func":0}]}]"#;

/// What each session shows, its members, and its commands with their lines.
const SESSIONS: [Session; 9] = [
    (
        "straight code is checked at its entry alone",
        FUEL_STRAIGHT_NEEDS_ONE,
        r#"{"do":"instantiate","module":0} => ok instance 0
{"do":"get_export","instance":0,"name":"f"} => ok func 0
{"do":"call","func":1} => trap OutOfFuel
{"do":"set_fuel","fuel":1} => ok
{"do":"call","func":1} => ok values
{"do":"get_fuel"} => ok 0
{"do":"call","func":1} => trap OutOfFuel
{"do":"set_fuel","fuel":5} => ok
{"do":"call","func":1} => ok values
{"do":"get_fuel"} => ok 2
{"do":"call","func":1} => ok values
{"do":"get_fuel"} => ok 0"#,
    ),
    (
        "a called function is checked too",
        FUEL_AT_INNER_CALL,
        r#"{"do":"instantiate","module":0} => ok instance 0
{"do":"get_export","instance":0,"name":"f"} => ok func 0
{"do":"get_export","instance":0,"name":"g"} => ok global 0
{"do":"set_fuel","fuel":2} => ok
{"do":"call","func":1} => trap OutOfFuel
{"do":"global_get","global":2} => ok values i32:0
{"do":"get_fuel"} => ok 0
{"do":"set_fuel","fuel":3} => ok
{"do":"call","func":1} => ok values
{"do":"global_get","global":2} => ok values i32:2
{"do":"get_fuel"} => ok 0
{"do":"set_fuel","fuel":11} => ok
{"do":"call","func":1} => ok values
{"do":"get_fuel"} => ok 1"#,
    ),
    (
        "an interval leaves the fuel that is told",
        FUEL_INTERVAL,
        r#"{"do":"get_fuel"} => ok 0
{"do":"set_fuel","fuel":7} => ok
{"do":"yield_interval","interval":0} => refused FuelInterval
{"do":"get_fuel"} => ok 7
{"do":"yield_interval","interval":3} => ok
{"do":"get_fuel"} => ok 7
{"do":"yield_interval","interval":null} => ok
{"do":"get_fuel"} => ok 7
{"do":"yield_interval","interval":18446744073709551615} => ok
{"do":"get_fuel"} => ok 7
{"do":"instantiate","module":0} => ok instance 0
{"do":"get_export","instance":10,"name":"f"} => ok func 0
{"do":"set_fuel","fuel":1} => ok
{"do":"call","func":11} => ok values
{"do":"get_fuel"} => ok 0
{"do":"yield_interval","interval":2} => ok
{"do":"get_fuel"} => ok 0
{"do":"call","func":11} => trap OutOfFuel"#,
    ),
    (
        "an interval changes nothing of what a loop consumes",
        FUEL_COUNTING,
        r#"{"do":"instantiate","module":0} => ok instance 0
{"do":"get_export","instance":0,"name":"f"} => ok func 0
{"do":"get_export","instance":0,"name":"g"} => ok global 0
{"do":"call","func":1} => trap OutOfFuel
{"do":"set_fuel","fuel":12} => ok
{"do":"call","func":1} => trap OutOfFuel
{"do":"global_get","global":2} => ok values i32:3
{"do":"get_fuel"} => ok 0
{"do":"yield_interval","interval":1} => ok
{"do":"set_fuel","fuel":12} => ok
{"do":"call","func":1} => trap OutOfFuel
{"do":"global_get","global":2} => ok values i32:6
{"do":"get_fuel"} => ok 0
{"do":"yield_interval","interval":10} => ok
{"do":"set_fuel","fuel":12} => ok
{"do":"call","func":1} => trap OutOfFuel
{"do":"global_get","global":2} => ok values i32:9
{"do":"get_fuel"} => ok 0
{"do":"yield_interval","interval":18446744073709551615} => ok
{"do":"set_fuel","fuel":12} => ok
{"do":"call","func":1} => trap OutOfFuel
{"do":"global_get","global":2} => ok values i32:12
{"do":"get_fuel"} => ok 0"#,
    ),
    (
        "without fuel its commands are refused",
        FUEL_NOT_CONFIGURED,
        r#"{"do":"get_fuel"} => refused FuelNotConfigured
{"do":"set_fuel","fuel":5} => refused FuelNotConfigured
{"do":"yield_interval","interval":0} => refused FuelNotConfigured
{"do":"yield_interval","interval":null} => refused FuelNotConfigured
{"do":"yield_interval","interval":4} => refused FuelNotConfigured
{"do":"set_epoch_deadline","ticks":0} => ok
{"do":"instantiate","module":0} => ok instance 0
{"do":"get_export","instance":6,"name":"f"} => ok func 0
{"do":"call","func":7} => ok values
{"do":"get_fuel"} => refused FuelNotConfigured"#,
    ),
    (
        "an instruction that traps is charged",
        FUEL_TRAP_IS_CHARGED,
        r#"{"do":"instantiate","module":0} => ok instance 0
{"do":"get_export","instance":0,"name":"f"} => ok func 0
{"do":"set_fuel","fuel":9} => ok
{"do":"call","func":1} => trap UnreachableCodeReached
{"do":"get_fuel"} => ok 7
{"do":"call","func":1,"args":[{"i32":1}]} => refused ArgumentCount
{"do":"get_fuel"} => ok 7
{"do":"call","func":1,"results":1} => refused ResultCount
{"do":"get_fuel"} => ok 7"#,
    ),
    (
        "a growth is charged unless the limiter fails",
        FUEL_GROWTH,
        r#"{"do":"instantiate","module":0} => ok instance 0
{"do":"get_export","instance":0,"name":"f"} => ok func 0
{"do":"set_fuel","fuel":10} => ok
{"do":"call","func":1,"args":[{"i32":1}]} => ok values i32:-1
{"do":"get_fuel"} => ok 8
{"do":"call","func":1,"args":[{"i32":1}]} => refused LimiterFault
{"do":"get_fuel"} => ok 7
{"do":"call","func":1,"args":[{"i32":1}]} => ok values i32:0
{"do":"get_fuel"} => ok 5"#,
    ),
    (
        "a start function needs fuel",
        FUEL_START_FUNCTION,
        r#"{"do":"instantiate","module":0} => trap OutOfFuel
{"do":"set_fuel","fuel":10} => ok
{"do":"instantiate","module":0} => ok instance 1
{"do":"get_fuel"} => ok 6
{"do":"get_export","instance":2,"name":"g"} => ok global 1
{"do":"global_get","global":4} => ok values i32:1"#,
    ),
    (
        "without fuel the epoch is not read",
        FUEL_BEFORE_READING,
        r#"{"do":"instantiate","module":0} => ok instance 0
{"do":"get_export","instance":0,"name":"f"} => ok func 0
{"do":"set_epoch_deadline","ticks":2} => ok
{"do":"call","func":1} => trap OutOfFuel
{"do":"set_fuel","fuel":9} => ok
{"do":"call","func":1} => ok values
{"do":"get_fuel"} => ok 6
{"do":"call","func":1} => trap Interrupt
{"do":"get_fuel"} => ok 6"#,
    ),
];

#[test]
fn fuel_is_consumed_as_is_said(rt: HostRuntime) {
    check_sessions(&rt, rt.alloc(), &SESSIONS);
    check_sessions(&rt, rt.alloc(), &bulk::SESSIONS);
    check_all_hooked(&rt, rt.alloc(), &bulk::HOOKED);
}
