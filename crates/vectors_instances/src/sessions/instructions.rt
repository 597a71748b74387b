//! Instructions of control, of calls, of variables and of references, each at its boundaries, in sessions. The lines
//! are those of node's WebAssembly, but for what it does not have: supertypes, vectors, references of the internal kind
//! and code that is not typed.

use crate::sessions::{check_invalid, check_lines};
use wasm_module::{Part, Rule};

/// Blocks, loops, conditions, branches, returns and traps; code behind a branch, which is not typed.
const CONTROL: [(&str, &str); 2] = [
    (
        r#"{"types":[
{},{"params":["i32"],"results":["i32"]},{"results":["i32"]},
{"params":["i32","i32"],"results":["i32"]},{"params":["i32"],"results":["i32","i32"]}],
"modules":[{"functions":[
{"type":1,"code":[["i32.const",7],
["block",2,[["i32.const",1],["i32.const",2],["local.get",0],["br",0]]],["i32.sub"]]},
{"type":1,"code":[["i32.const",0],
["loop",1,[["local.get",0],["i32.add"],["local.get",0],["i32.const",1],["i32.sub"],["local.tee",0],["br_if",0]]]]},
{"type":1,"code":[["local.get",0],["if",2,[["i32.const",10]],[["i32.const",20]]]]},
{"type":1,"code":[["i32.const",5],["local.get",0],["if",1,[["i32.const",1],["i32.add"]],[]]]},
{"type":1,"code":[["block",0,[["block",0,[["local.get",0],["br_table",[0],1]]],["i32.const",10],["return"]]],
["i32.const",20]]},
{"type":1,"code":[["block",2,[["block",2,[["block",2,[["i32.const",3],["i32.const",40],["local.get",0],["br_table",[0,1,2,3],0]]],["i32.const",1],["i32.add"]]],["i32.const",2],["i32.mul"]]],
["i32.const",3],["i32.sub"]]},
{"type":1,"code":[["i32.const",9],["local.get",0],["br_table",[],0]]},
{"type":1,"code":[["i32.const",5],
["loop",0,[["block",0,[["i32.const",9],["local.get",0],["return"]]]]]]},
{"type":1,"code":[["block",2,[["local.get",0],["local.get",0],["br_if",0],["i32.const",100],["i32.add"]]]]},
{"type":1,"code":[["block",0,[["local.get",0],["i32.const",8],["local.get",0],["br_if",1],["drop"],["br",1]]],
["i32.const",6]]},
{"type":0,"code":[["unreachable"]]},
{"type":2,"code":[["nop"],["i32.const",4],["i32.const",5],["drop"],["nop"]]},
{"type":1,"code":[["loop",0,[["local.get",0],["i32.const",1],["i32.add"],["local.set",0]]],
["local.get",0]]}],
"exports":[
{"name":"0","func":0},{"name":"1","func":1},{"name":"2","func":2},{"name":"3","func":3},
{"name":"4","func":4},{"name":"5","func":5},{"name":"6","func":6},{"name":"7","func":7},
{"name":"8","func":8},{"name":"9","func":9},{"name":"10","func":10},{"name":"11","func":11},
{"name":"12","func":12}]}],
"commands":[
{"do":"instantiate","module":0},{"do":"get_export","instance":0,"name":"0"},
{"do":"get_export","instance":0,"name":"1"},{"do":"get_export","instance":0,"name":"2"},
{"do":"get_export","instance":0,"name":"3"},{"do":"get_export","instance":0,"name":"4"},
{"do":"get_export","instance":0,"name":"5"},{"do":"get_export","instance":0,"name":"6"},
{"do":"get_export","instance":0,"name":"7"},{"do":"get_export","instance":0,"name":"8"},
{"do":"get_export","instance":0,"name":"9"},{"do":"get_export","instance":0,"name":"10"},
{"do":"get_export","instance":0,"name":"11"},{"do":"get_export","instance":0,"name":"12"},
{"do":"call","func":1,"args":[{"i32":3}]},{"do":"call","func":2,"args":[{"i32":1}]},
{"do":"call","func":2,"args":[{"i32":4}]},{"do":"call","func":3,"args":[{"i32":0}]},
{"do":"call","func":3,"args":[{"i32":1}]},{"do":"call","func":3,"args":[{"i32":-1}]},
{"do":"call","func":3,"args":[{"i32":-2147483648}]},{"do":"call","func":4,"args":[{"i32":0}]},
{"do":"call","func":4,"args":[{"i32":2}]},{"do":"call","func":5,"args":[{"i32":0}]},
{"do":"call","func":5,"args":[{"i32":1}]},{"do":"call","func":5,"args":[{"i32":-1}]},
{"do":"call","func":6,"args":[{"i32":0}]},{"do":"call","func":6,"args":[{"i32":1}]},
{"do":"call","func":6,"args":[{"i32":2}]},{"do":"call","func":6,"args":[{"i32":3}]},
{"do":"call","func":6,"args":[{"i32":4}]},{"do":"call","func":6,"args":[{"i32":-1}]},
{"do":"call","func":7,"args":[{"i32":0}]},{"do":"call","func":7,"args":[{"i32":-1}]},
{"do":"call","func":8,"args":[{"i32":11}]},{"do":"call","func":9,"args":[{"i32":0}]},
{"do":"call","func":9,"args":[{"i32":7}]},{"do":"call","func":10,"args":[{"i32":0}]},
{"do":"call","func":10,"args":[{"i32":1}]},{"do":"call","func":11},{"do":"call","func":12},
{"do":"call","func":13,"args":[{"i32":1}]}]}"#,
        "ok instance 0
ok func 0
ok func 1
ok func 2
ok func 3
ok func 4
ok func 5
ok func 6
ok func 7
ok func 8
ok func 9
ok func 10
ok func 11
ok func 12
ok values i32:4
ok values i32:1
ok values i32:10
ok values i32:20
ok values i32:10
ok values i32:10
ok values i32:10
ok values i32:5
ok values i32:6
ok values i32:10
ok values i32:20
ok values i32:20
ok values i32:79
ok values i32:77
ok values i32:37
ok values i32:40
ok values i32:79
ok values i32:79
ok values i32:9
ok values i32:9
ok values i32:11
ok values i32:100
ok values i32:7
ok values i32:0
ok values i32:8
trap UnreachableCodeReached
ok values i32:4
ok values i32:2
",
    ),
    (
        r#"{"types":[{"results":["i32"]}],
"modules":[{"functions":[
{"type":0,"code":[["i32.const",1],["br",0],["drop"],["i64.const",2]]},
{"type":0,"code":[["i32.const",2],["return"],["br",7]]},
{"type":0,"code":[["block",0,[["unreachable"],["local.get",5]]]]}],
"exports":[{"name":"0","func":0},{"name":"1","func":1},{"name":"2","func":2}]}],
"commands":[
{"do":"instantiate","module":0},{"do":"get_export","instance":0,"name":"0"},
{"do":"get_export","instance":0,"name":"1"},{"do":"get_export","instance":0,"name":"2"},
{"do":"call","func":1},{"do":"call","func":2},{"do":"call","func":3}]}"#,
        "ok instance 0
ok func 0
ok func 1
ok func 2
ok values i32:1
ok values i32:2
trap UnreachableCodeReached
",
    ),
];

/// Calls, and calls through a table; a function of a subtype, called as its supertype.
const CALLS: [(&str, &str); 2] = [
    (
        r#"{"types":[
{"params":["i32","i32"],"results":["i32"]},{"params":["i32","i64"],"results":["i64","i32"]},
{"results":["i32"]},{"params":["i32","i32","i32"],"results":["i32"]},{}],
"modules":[{"tables":[{"ref":"funcref","min":4,"max":4}],
"functions":[
{"type":0,"code":[["local.get",0],["local.get",1],["i32.sub"]]},
{"type":1,"code":[["local.get",1],["local.get",0]]},
{"type":2,"code":[["i32.const",42]]},
{"type":3,"code":[["local.get",0],["local.get",1],["local.get",2],["call",0],["i32.add"]]},
{"type":1,"code":[["local.get",0],["local.get",1],["call",1],["i64.extend_i32_s"],["i64.add"],
["local.get",0]]},
{"type":3,"code":[["local.get",1],["local.get",2],["local.get",0],["call_indirect",0,0]]},
{"type":2,"locals":["i32"],"code":[["i32.const",3],["local.set",0],["i32.const",1],["i32.const",2],
["call",0],["drop"],["local.get",0]]}],
"exports":[
{"name":"0","func":0},{"name":"1","func":1},{"name":"2","func":2},{"name":"3","func":3},
{"name":"4","func":4},{"name":"5","func":5},{"name":"6","func":6},{"name":"t0","table":0}]}],
"commands":[
{"do":"instantiate","module":0},{"do":"get_export","instance":0,"name":"0"},
{"do":"get_export","instance":0,"name":"1"},{"do":"get_export","instance":0,"name":"2"},
{"do":"get_export","instance":0,"name":"3"},{"do":"get_export","instance":0,"name":"4"},
{"do":"get_export","instance":0,"name":"5"},{"do":"get_export","instance":0,"name":"6"},
{"do":"get_export","instance":0,"name":"t0"},
{"do":"table_set","table":8,"at":0,"value":{"name":1}},
{"do":"table_set","table":8,"at":1,"value":{"name":2}},
{"do":"call","func":1,"args":[{"i32":7},{"i32":9}]},
{"do":"call","func":2,"args":[{"i32":-1},{"i64":-2}]},{"do":"call","func":3},
{"do":"call","func":4,"args":[{"i32":100},{"i32":7},{"i32":9}]},
{"do":"call","func":5,"args":[{"i32":3},{"i64":4}]},
{"do":"call","func":6,"args":[{"i32":0},{"i32":7},{"i32":9}]},
{"do":"call","func":6,"args":[{"i32":1},{"i32":7},{"i32":9}]},
{"do":"call","func":6,"args":[{"i32":2},{"i32":7},{"i32":9}]},
{"do":"call","func":6,"args":[{"i32":3},{"i32":7},{"i32":9}]},
{"do":"call","func":6,"args":[{"i32":4},{"i32":7},{"i32":9}]},
{"do":"call","func":6,"args":[{"i32":-1},{"i32":7},{"i32":9}]},{"do":"call","func":7}]}"#,
        "ok instance 0
ok func 0
ok func 1
ok func 2
ok func 3
ok func 4
ok func 5
ok func 6
ok table 0
ok
ok
ok values i32:-2
ok values i64:-2 i32:-1
ok values i32:42
ok values i32:98
ok values i64:7 i32:3
ok values i32:-2
trap BadSignature
trap IndirectCallToNull
trap IndirectCallToNull
trap TableOutOfBounds
trap TableOutOfBounds
ok values i32:3
",
    ),
    (
        r#"{"types":[
{"results":["i32"],"final":false},{"results":["i32"],"super":0},
{"params":["i32"],"results":["i32"]},{}],
"modules":[{"tables":[{"ref":"funcref","min":4}],
"functions":[
{"type":1,"code":[["i32.const",7]]},
{"type":3,"code":[]},
{"type":0,"code":[["i32.const",8]]},
{"type":2,"code":[["local.get",0],["call_indirect",0,0]]},
{"type":2,"code":[["local.get",0],["call_indirect",1,0]]}],
"exports":[
{"name":"0","func":0},{"name":"1","func":1},{"name":"2","func":2},{"name":"3","func":3},
{"name":"4","func":4},{"name":"t0","table":0}]}],
"commands":[
{"do":"instantiate","module":0},{"do":"get_export","instance":0,"name":"0"},
{"do":"get_export","instance":0,"name":"1"},{"do":"get_export","instance":0,"name":"2"},
{"do":"get_export","instance":0,"name":"3"},{"do":"get_export","instance":0,"name":"4"},
{"do":"get_export","instance":0,"name":"t0"},
{"do":"table_set","table":6,"at":0,"value":{"name":1}},
{"do":"table_set","table":6,"at":1,"value":{"name":2}},
{"do":"table_set","table":6,"at":2,"value":{"name":3}},{"do":"call","func":4,"args":[{"i32":0}]},
{"do":"call","func":4,"args":[{"i32":1}]},{"do":"call","func":4,"args":[{"i32":2}]},
{"do":"call","func":4,"args":[{"i32":3}]},{"do":"call","func":4,"args":[{"i32":9}]},
{"do":"call","func":5,"args":[{"i32":0}]},{"do":"call","func":5,"args":[{"i32":2}]}]}"#,
        "ok instance 0
ok func 0
ok func 1
ok func 2
ok func 3
ok func 4
ok table 0
ok
ok
ok
ok values i32:7
trap BadSignature
ok values i32:8
trap IndirectCallToNull
trap TableOutOfBounds
ok values i32:7
trap BadSignature
",
    ),
];

/// Locals, globals, constants and selections; numbers that code only moves.
const VARIABLES: [(&str, &str); 2] = [
    (
        r#"{"types":[
{"results":["i32","i64","funcref","externref"]},{"params":["i32","i64"],"results":["i64","i32"]},
{"params":["i32"],"results":["i32","i32"]},{"params":["i64"],"results":["i64"]},
{"results":["i32","i32","i64","i64"]},{"params":["i32"],"results":["i32"]},
{"params":["i64","i64","i32"],"results":["i64"]},{"params":["i32","i32","i32"],"results":["i32"]}],
"modules":[{"globals":[
{"val":"i32","init":["i32.const",5]},{"val":"i64","mut":true,"init":["i64.const",-3]}],
"functions":[
{"type":0,"locals":["i32","i64","funcref","externref"],"code":[["local.get",0],["local.get",1],
["local.get",2],["local.get",3]]},
{"type":1,"locals":["i32","i64"],"code":[["local.get",0],["local.set",2],["local.get",1],
["local.set",3],["local.get",3],["local.get",2]]},
{"type":2,"locals":["i32"],"code":[["local.get",0],["local.tee",1],["local.get",1]]},
{"type":3,"code":[["global.get",1],["local.get",0],["global.set",1]]},
{"type":4,"code":[["i32.const",-2147483648],["i32.const",4294967295],
["i64.const",-9223372036854775808],["i64.const",18446744073709551615]]},
{"type":5,"code":[["global.get",0],["local.get",0],["i32.add"]]},
{"type":6,"code":[["local.get",0],["local.get",1],["local.get",2],["select"]]},
{"type":7,"code":[["local.get",0],["local.get",1],["local.get",2],["select"]]}],
"exports":[
{"name":"0","func":0},{"name":"1","func":1},{"name":"2","func":2},{"name":"3","func":3},
{"name":"4","func":4},{"name":"5","func":5},{"name":"6","func":6},{"name":"7","func":7},
{"name":"g0","global":0},{"name":"g1","global":1}]}],
"commands":[
{"do":"instantiate","module":0},{"do":"get_export","instance":0,"name":"0"},
{"do":"get_export","instance":0,"name":"1"},{"do":"get_export","instance":0,"name":"2"},
{"do":"get_export","instance":0,"name":"3"},{"do":"get_export","instance":0,"name":"4"},
{"do":"get_export","instance":0,"name":"5"},{"do":"get_export","instance":0,"name":"6"},
{"do":"get_export","instance":0,"name":"7"},{"do":"get_export","instance":0,"name":"g0"},
{"do":"get_export","instance":0,"name":"g1"},{"do":"call","func":1},
{"do":"call","func":2,"args":[{"i32":-1},{"i64":-9223372036854775808}]},
{"do":"call","func":3,"args":[{"i32":6}]},{"do":"call","func":4,"args":[{"i64":8}]},
{"do":"call","func":4,"args":[{"i64":9}]},{"do":"call","func":5},
{"do":"call","func":6,"args":[{"i32":2}]},
{"do":"call","func":7,"args":[{"i64":1},{"i64":2},{"i32":1}]},
{"do":"call","func":7,"args":[{"i64":1},{"i64":2},{"i32":0}]},
{"do":"call","func":7,"args":[{"i64":1},{"i64":2},{"i32":-2147483648}]},
{"do":"call","func":8,"args":[{"i32":1},{"i32":2},{"i32":0}]},
{"do":"call","func":8,"args":[{"i32":1},{"i32":2},{"i32":256}]},{"do":"global_get","global":10}]}"#,
        "ok instance 0
ok func 0
ok func 1
ok func 2
ok func 3
ok func 4
ok func 5
ok func 6
ok func 7
ok global 0
ok global 1
ok values i32:0 i64:0 funcref:null externref:null
ok values i64:-9223372036854775808 i32:-1
ok values i32:6 i32:6
ok values i64:-3
ok values i64:8
ok values i32:-2147483648 i32:-1 i64:-9223372036854775808 i64:-1
ok values i32:7
ok values i64:1
ok values i64:2
ok values i64:1
ok values i32:2
ok values i32:1
ok values i64:9
",
    ),
    (
        r#"{"types":[
{"params":["f32","f64"],"results":["f64","f32"]},{"params":["i32"],"results":["v128"]},
{"params":["v128"]},{"params":["f32","f32","i32"],"results":["f32"]}],
"modules":[{"globals":[
{"val":"v128","init":["v128.hex","000102030405060708090A0B0C0D0E0F"]},
{"val":"v128","mut":true,"init":["v128.hex","ffffffffffffffffffffffffffffffff"]}],
"functions":[
{"type":0,"code":[["local.get",1],["local.get",0]]},
{"type":1,"code":[["global.get",0],["global.get",1],["local.get",0],["select"]]},
{"type":2,"locals":["v128"],"code":[["local.get",0],["local.tee",1],["global.set",1]]},
{"type":3,"code":[["local.get",0],["local.get",1],["local.get",2],["select"]]}],
"exports":[
{"name":"0","func":0},{"name":"1","func":1},{"name":"2","func":2},{"name":"3","func":3},
{"name":"g0","global":0},{"name":"g1","global":1}]}],
"commands":[
{"do":"instantiate","module":0},{"do":"get_export","instance":0,"name":"0"},
{"do":"get_export","instance":0,"name":"1"},{"do":"get_export","instance":0,"name":"2"},
{"do":"get_export","instance":0,"name":"3"},{"do":"get_export","instance":0,"name":"g0"},
{"do":"get_export","instance":0,"name":"g1"},
{"do":"call","func":1,"args":[{"f32":2143289345},{"f64":9218868437227405313}]},
{"do":"call","func":2,"args":[{"i32":1}]},{"do":"call","func":2,"args":[{"i32":0}]},
{"do":"call","func":3,"args":[{"v128":"80000000000000000000000000000000"}]},
{"do":"call","func":2,"args":[{"i32":0}]},
{"do":"call","func":4,"args":[{"f32":1},{"f32":4294967295},{"i32":0}]}]}"#,
        "ok instance 0
ok func 0
ok func 1
ok func 2
ok func 3
ok global 0
ok global 1
ok values f64:7ff0000000000001 f32:7fc00001
ok values v128:000102030405060708090a0b0c0d0e0f
ok values v128:ffffffffffffffffffffffffffffffff
ok values
ok values v128:80000000000000000000000000000000
ok values f32:ffffffff
",
    ),
];

/// Nulls and references to functions.
const REFERENCES: [(&str, &str); 2] = [
    (
        r#"{"types":[
{"results":["i32","i32","i32"]},{"results":["funcref","funcref"]},
{"params":["externref"],"results":["externref","i32"]},{"params":["funcref"],"results":["i32"]}],
"modules":[{"functions":[
{"type":0,"code":[["ref.null","func"],["ref.is_null"],["ref.null","extern"],["ref.is_null"],
["ref.func",1],["ref.is_null"]]},
{"type":1,"code":[["ref.func",0],["ref.null","func"]]},
{"type":2,"code":[["local.get",0],["local.get",0],["ref.is_null"]]},
{"type":3,"code":[["local.get",0],["ref.is_null"]]}],
"exports":[
{"name":"0","func":0},{"name":"1","func":1},{"name":"2","func":2},{"name":"3","func":3}]}],
"commands":[
{"do":"instantiate","module":0},{"do":"get_export","instance":0,"name":"0"},
{"do":"get_export","instance":0,"name":"1"},{"do":"get_export","instance":0,"name":"2"},
{"do":"get_export","instance":0,"name":"3"},{"do":"call","func":1},{"do":"call","func":2},
{"do":"call","func":3,"args":[{"extern":18446744073709551615}]},
{"do":"call","func":3,"args":[{"extern":null}]},{"do":"call","func":4,"args":[{"name":1}]},
{"do":"call","func":4,"args":[{"func":null}]}]}"#,
        "ok instance 0
ok func 0
ok func 1
ok func 2
ok func 3
ok values i32:1 i32:1 i32:0
ok values funcref:0 funcref:null
ok values externref:18446744073709551615 i32:0
ok values externref:null i32:1
ok values i32:0
ok values i32:1
",
    ),
    (
        r#"{"types":[{"results":["i32"]},{"params":["anyref"],"results":["anyref","i32"]}],
"modules":[{"functions":[
{"type":0,"code":[["ref.null","any"],["ref.is_null"]]},
{"type":1,"code":[["local.get",0],["local.get",0],["ref.is_null"]]}],
"exports":[{"name":"0","func":0},{"name":"1","func":1}]}],
"commands":[
{"do":"instantiate","module":0},{"do":"get_export","instance":0,"name":"0"},
{"do":"get_export","instance":0,"name":"1"},{"do":"call","func":1},
{"do":"call","func":2,"args":[{"any":2147483647}]},{"do":"call","func":2,"args":[{"any":null}]}]}"#,
        "ok instance 0
ok func 0
ok func 1
ok values i32:1
ok values anyref:2147483647 i32:0
ok values anyref:null i32:1
",
    ),
];

/// Modules in which an instruction names a segment, of which there are none.
const SEGMENTS: [&str; 4] = [
    r#"{"types":[{}],
"modules":[{"memories":[{"min":1}],
"tables":[{"ref":"funcref","min":1}],
"functions":[
{"type":0,"code":[["i32.const",0],["i32.const",0],["i32.const",0],["memory.init",0,0]]}]}],
"commands":[]}"#,
    r#"{"types":[{}],
"modules":[{"memories":[{"min":1}],
"tables":[{"ref":"funcref","min":1}],
"functions":[
{"type":0,"code":[["data.drop",0]]}]}],
"commands":[]}"#,
    r#"{"types":[{}],
"modules":[{"memories":[{"min":1}],
"tables":[{"ref":"funcref","min":1}],
"functions":[
{"type":0,"code":[["i32.const",0],["i32.const",0],["i32.const",0],["table.init",0,0]]}]}],
"commands":[]}"#,
    r#"{"types":[{}],
"modules":[{"memories":[{"min":1}],
"tables":[{"ref":"funcref","min":1}],
"functions":[
{"type":0,"code":[["elem.drop",0]]}]}],
"commands":[]}"#,
];

#[test]
fn no_segment_is_there(rt: HostRuntime) {
    for script in SEGMENTS {
        check_invalid(&rt, rt.alloc(), script, 0, (Rule::Body, Part::Functions, 0));
    }
}

#[test]
fn instructions_do_what_another_engine_does(rt: HostRuntime) {
    let alloc = rt.alloc();
    check_lines(&rt, alloc, &CONTROL);
    check_lines(&rt, alloc, &CALLS);
    check_lines(&rt, alloc, &VARIABLES);
    check_lines(&rt, alloc, &REFERENCES);
}
