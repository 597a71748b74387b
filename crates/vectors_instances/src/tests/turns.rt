//! Turns of what is asked: a hook, a reading, a behaviour and a limiter take one each.

use crate::tests::hosts::{MADE, nested};
use crate::tests::{append, check_hooked, check_session};

/// Three instructions under a hook and epochs: six turns, of which there are five.
const TURNS_5_HOOK_READING: &str = r#""engine":{"epochs":true,"turns":5},
"data":{"hook":[]},
"types":[{}],
"modules":[{"functions":[{"type":0,"code":[["nop"],["nop"],["nop"]]}],"exports":[{"name":"f","func":0}]}]"#;

#[test]
fn the_last_hook_is_not_told_where_no_turn_is_left(rt: HostRuntime) {
    check_hooked(
        &rt,
        rt.alloc(),
        TURNS_5_HOOK_READING,
        r#"{"do":"instantiate","module":0} => ok instance 0
{"do":"get_export","instance":0,"name":"f"} => ok func 0
{"do":"set_epoch_deadline","ticks":100} => ok
{"do":"call","func":1} => refused TurnLimit"#,
        "hooks CallingWasm",
    );
}

/// One instruction under a hook and a behaviour: six turns, of which there are five.
const TURNS_5_BEHAVIOUR: &str = r#""engine":{"epochs":true,"turns":5},
"data":{"hook":[],"deadline":[9]},
"types":[{}],
"modules":[{"functions":[{"type":0,"code":[["nop"]]}],"exports":[{"name":"f","func":0}]}]"#;

#[test]
fn a_behaviour_and_its_reading_take_turns(rt: HostRuntime) {
    check_hooked(
        &rt,
        rt.alloc(),
        TURNS_5_BEHAVIOUR,
        r#"{"do":"instantiate","module":0} => ok instance 0
{"do":"get_export","instance":0,"name":"f"} => ok func 0
{"do":"call","func":1} => refused TurnLimit"#,
        "hooks CallingWasm",
    );
}

/// A loop without an end.
const TURNS_NO_HOOK_AFTER_LIMIT: &str = r#""engine":{"turns":7},
"data":{"hook":[]},
"types":[{}],
"modules":[{"globals":[{"val":"i32","mut":true,"init":["i32.const",0]}],"functions":[{"type":0,"code":[["loop",
0,[["global.get",0],["i32.const",1],["i32.add"],["global.set",0],["br",0]]]]}],"exports":[{"name":"f","func":0},
{"name":"g","global":0}]}]"#;

#[test]
fn no_hook_is_told_behind_the_limit_of_turns(rt: HostRuntime) {
    check_hooked(
        &rt,
        rt.alloc(),
        TURNS_NO_HOOK_AFTER_LIMIT,
        r#"{"do":"instantiate","module":0} => ok instance 0
{"do":"get_export","instance":0,"name":"f"} => ok func 0
{"do":"get_export","instance":0,"name":"g"} => ok global 0
{"do":"call","func":1} => refused TurnLimit
{"do":"global_get","global":2} => ok values i32:1
{"do":"call","func":1} => refused TurnLimit
{"do":"global_get","global":2} => ok values i32:2"#,
        "hooks CallingWasm CallingWasm",
    );
}

/// One turn: a creation that asks needs two.
const TURNS_1_LIMITER: &str = r#""engine":{"turns":1},
"data":{"limiter":{"answers":["yes","yes","no","fault"]}}"#;

#[test]
fn the_question_to_a_limiter_takes_a_turn(rt: HostRuntime) {
    check_session(
        &rt,
        rt.alloc(),
        TURNS_1_LIMITER,
        r#"{"do":"memory_new","min":1} => refused TurnLimit
{"do":"memory_new","min":0} => ok memory 0
{"do":"memory_grow","memory":1,"delta":1} => refused TurnLimit
{"do":"memory_grow","memory":1,"delta":0} => ok 0
{"do":"memory_new","min":1} => refused GrowFailed
{"do":"memory_new","min":1} => refused LimiterFault"#,
    );
}

/// One turn: the reading is made, and the deadline stands.
const TURNS_1_DEADLINE: &str = r#""engine":{"turns":1,"fuel":true}"#;

#[test]
fn a_deadline_takes_a_reading_and_its_act(rt: HostRuntime) {
    check_session(
        &rt,
        rt.alloc(),
        TURNS_1_DEADLINE,
        r#"{"do":"set_epoch_deadline","ticks":9} => refused TurnLimit
{"do":"set_epoch_deadline","ticks":9} => refused TurnLimit
{"do":"get_fuel"} => ok 0"#,
    );
}

/// Two questions, the instance, and two instructions: five turns, of which there are four.
const TURNS_4_INSTANTIATION: &str = r#""engine":{"turns":4},
"data":{"limiter":{}},
"types":[{}],
"modules":[{"memories":[{"min":1}],"tables":[{"ref":"funcref","min":1}],"functions":[{"type":0,"code":[["nop"],
["nop"]]}],"start":0},{}]"#;

#[test]
fn a_start_function_has_the_turns_that_are_left(rt: HostRuntime) {
    check_session(
        &rt,
        rt.alloc(),
        TURNS_4_INSTANTIATION,
        r#"{"do":"instantiate","module":0} => refused TurnLimit
{"do":"instantiate","module":1} => ok instance 1"#,
    );
}

/// The same with two turns: the counts stay.
const TURNS_2_INSTANTIATION: &str = r#""engine":{"turns":2},
"data":{"limiter":{"memories":1}},
"modules":[{"memories":[{"min":1}],"tables":[{"ref":"funcref","min":1}]},{}]"#;

#[test]
fn an_instance_that_lacks_its_turn_is_not_made(rt: HostRuntime) {
    check_session(
        &rt,
        rt.alloc(),
        TURNS_2_INSTANTIATION,
        r#"{"do":"instantiate","module":0} => refused TurnLimit
{"do":"instantiate","module":0} => refused ResourceLimit memory
{"do":"instantiate","module":1} => ok instance 0"#,
    );
}

/// A growth of a guest: three turns, of which there are two.
const TURNS_GROWTH_IN_GUEST: &str = r#""engine":{"turns":2},
"data":{"limiter":{}},
"types":[{"params":["i32"],"results":["i32"]}],
"modules":[{"memories":[{"min":0,"max":3}],"functions":[{"type":0,"code":[["local.get",0],["memory.grow",0]]}],
"exports":[{"name":"f","func":0},{"name":"m","memory":0}]}]"#;

#[test]
fn a_growth_that_lacks_its_turn_is_not_made(rt: HostRuntime) {
    check_session(
        &rt,
        rt.alloc(),
        TURNS_GROWTH_IN_GUEST,
        r#"{"do":"instantiate","module":0} => ok instance 0
{"do":"get_export","instance":0,"name":"f"} => ok func 0
{"do":"get_export","instance":0,"name":"m"} => ok memory 0
{"do":"call","func":1,"args":[{"i32":1}]} => refused TurnLimit
{"do":"memory_size","memory":2} => ok 0
{"do":"call","func":1,"args":[{"i32":0}]} => ok values i32:0
{"do":"memory_size","memory":2} => ok 0"#,
    );
}

/// A guest calls a body that calls it back, where it traps in the fifth turn; the body goes on in the sixth.
const TURNS_NESTED: [(&str, &str); 2] = [
    (
        r#""engine":{"turns":5}"#,
        r#"
{"do":"call","func":2} => refused TurnLimit"#,
    ),
    (
        r#""engine":{"turns":6}"#,
        r#"
note got trap UnreachableCodeReached
{"do":"call","func":2} => ok values"#,
    ),
];

#[test]
fn a_body_goes_on_where_a_turn_is_left(rt: HostRuntime) {
    for (engine, called) in &TURNS_NESTED {
        let members = nested(&rt, rt.alloc(), engine);
        let mut rows = String::new(rt.alloc());
        append(&rt, &mut rows, MADE);
        append(&rt, &mut rows, called);
        check_session(&rt, rt.alloc(), members.as_str(), rows.as_str());
    }
}
