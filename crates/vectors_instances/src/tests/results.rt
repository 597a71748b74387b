//! What bodies of the host return: references, nulls, numbers beside them, and values that do not fit the function. The
//! lines are those of an executor of its own.

use crate::tests::{Session, check_sessions};

/// A guest that keeps, calls and gives back what three functions of the host return; bodies that return references,
/// alone and beside a number; and bodies that return nulls in their place.
const REFERENCES: &str =
    r#""types":[{"results":["externref"]},{"results":["funcref"]},{"params":["i32"],"results":["i32","externref"]},
{"params":["i32"]},{"results":["i32"]}],
"modules":[{"imports":[{"module":"h","name":"extern","func":0},{"module":"h","name":"func","func":1},{"module":"h",
"name":"both","func":2},{"module":"h","name":"t","table":{"ref":"externref","min":2}}],
"tables":[{"ref":"funcref","min":1}],
"functions":[{"type":3,"code":[["local.get",0],["call",0],["table.set",0]]},{"type":0,"code":[["call",0]]},
{"type":4,"code":[["i32.const",0],["call",1],["table.set",1],["i32.const",0],["call_indirect",4,1]]},
{"type":1,"code":[["call",1]]},{"type":2,"locals":["externref"],"code":[["local.get",0],["call",2],["local.set",1],
["i32.const",1],["i32.add"],["local.get",1]]},{"type":4,"code":[["i32.const",7]]}],
"exports":[{"name":"keep","func":3},{"name":"extern","func":4},{"name":"run","func":5},{"name":"func","func":6},
{"name":"both","func":7},{"name":"seven","func":8}]}],
"host":[[{"return":[{"extern":5}]}],
[{"do":{"do":"get_export","instance":{"caller":true},"name":"seven"}},{"return":[{"name":0}]}],
[{"return":[{"name":{"arg":0}},{"extern":18446744073709551615}]}],[{"return":[{"extern":null}]}],
[{"return":[{"func":null}]}],[{"return":[{"i32":-9},{"extern":null}]}]]"#;

/// A guest that gives back what a function of the host returns, and bodies, each of which returns what does not fit some
/// of the types.
const UNFIT: &str =
    r#""types":[{"results":["i32"]},{"results":["externref"]},{"results":[{"ref":0}]},
{"results":[{"ref":"func","null":false}]},{"results":["i32","externref"]},{}],
"modules":[{"imports":[{"module":"h","name":"h","func":0}],"functions":[{"type":0,"code":[["call",0]]}],
"exports":[{"name":"go","func":1}]}],
"host":[[{"return":[{"extern":5}]}],[{"return":[{"extern":5},{"extern":6}]}],[{"return":[{"func":null}]}],
[{"return":[{"name":{"stored":0}}]}],[{"return":[{"extern":5},{"i32":1}]}],[{"return":[{"i32":1}]}],[{"return":[]}],
[{"return":[{"any":5}]}]]"#;

/// What each session shows, its members, and its commands with their lines.
const SESSIONS: [Session; 2] = [
    (
        "a guest gets references",
        REFERENCES,
        r#"{"do":"table_new","ref":"externref","min":2,"init":{"extern":1}} => ok table 0
{"do":"func_new","type":0,"body":0} => ok func 0
{"do":"func_new","type":1,"body":1} => ok func 1
{"do":"func_new","type":2,"body":2} => ok func 2
{"do":"instantiate","module":0,"imports":[1,2,3,0]} => ok instance 0
{"do":"get_export","instance":4,"name":"keep"} => ok func 3
{"do":"call","func":5,"args":[{"i32":0}]} => ok values
{"do":"table_get","table":0,"at":0} => ok values externref:5
{"do":"table_get","table":0,"at":1} => ok values externref:1
{"do":"get_export","instance":4,"name":"extern"} => ok func 4
{"do":"call","func":9} => ok values externref:5
{"do":"get_export","instance":4,"name":"run"} => ok func 5
{"do":"call","func":11} => ok values i32:7
{"do":"get_export","instance":4,"name":"func"} => ok func 6
{"do":"call","func":13} => ok values funcref:8
{"do":"call","func":{"value":[14,0]}} => ok values i32:7
{"do":"get_export","instance":4,"name":"both"} => ok func 7
{"do":"call","func":16,"args":[{"i32":41}]} => ok values i32:42 externref:18446744073709551615
{"do":"call","func":2} => refused HostFault
{"do":"func_new","type":0,"body":3} => ok func 9
{"do":"func_new","type":1,"body":4} => ok func 10
{"do":"func_new","type":2,"body":5} => ok func 11
{"do":"instantiate","module":0,"imports":[19,20,21,0]} => ok instance 1
{"do":"get_export","instance":22,"name":"keep"} => ok func 12
{"do":"call","func":23,"args":[{"i32":1}]} => ok values
{"do":"table_get","table":0,"at":0} => ok values externref:5
{"do":"table_get","table":0,"at":1} => ok values externref:null
{"do":"get_export","instance":22,"name":"extern"} => ok func 13
{"do":"call","func":27} => ok values externref:null
{"do":"get_export","instance":22,"name":"run"} => ok func 14
{"do":"call","func":29} => trap IndirectCallToNull
{"do":"get_export","instance":22,"name":"func"} => ok func 15
{"do":"call","func":31} => ok values funcref:null
{"do":"get_export","instance":22,"name":"both"} => ok func 16
{"do":"call","func":33,"args":[{"i32":41}]} => ok values i32:-8 externref:null"#,
    ),
    (
        "results that do not fit are refused",
        UNFIT,
        r#"{"do":"func_new","type":0,"body":0} => ok func 0
{"do":"call","func":0} => refused HostResultType
{"do":"instantiate","module":0,"imports":[0]} => ok instance 0
{"do":"get_export","instance":2,"name":"go"} => ok func 1
{"do":"call","func":3} => refused HostResultType
{"do":"func_new","type":1,"body":0} => ok func 2
{"do":"call","func":5} => ok values externref:5
{"do":"func_new","type":1,"body":1} => ok func 3
{"do":"call","func":7} => refused HostResultType
{"do":"func_new","type":1,"body":2} => ok func 4
{"do":"call","func":9} => refused HostResultType
{"do":"func_new","type":1,"body":5} => ok func 5
{"do":"call","func":11} => refused HostResultType
{"do":"func_new","type":1,"body":6} => ok func 6
{"do":"call","func":13} => refused HostResultType
{"do":"func_new","type":1,"body":7} => ok func 7
{"do":"call","func":15} => refused HostResultType
{"do":"func_new","type":2,"body":3,"stored":[5]} => ok func 8
{"do":"call","func":17} => refused HostResultType
{"do":"func_new","type":2,"body":3,"stored":[0]} => ok func 9
{"do":"call","func":19} => ok values funcref:0
{"do":"func_new","type":2,"body":2} => ok func 10
{"do":"call","func":21} => ok values funcref:null
{"do":"func_new","type":3,"body":2} => ok func 11
{"do":"call","func":23} => refused HostResultType
{"do":"func_new","type":3,"body":3,"stored":[5]} => ok func 12
{"do":"call","func":25} => ok values funcref:2
{"do":"func_new","type":4,"body":4} => ok func 13
{"do":"call","func":27} => refused HostResultType
{"do":"func_new","type":5,"body":0} => ok func 14
{"do":"call","func":29} => refused HostResultType"#,
    ),
];

#[test]
fn results_are_given_as_is_said(rt: HostRuntime) {
    check_sessions(&rt, rt.alloc(), &SESSIONS);
}
