//! Code in sessions: what comes before it, what ends it, and what it leaves.

use crate::sessions::check_lines;

/// A function that gives its argument, called on other arguments and for other results than it has, and on its own.
const ARGUMENTS: [(&str, &str); 2] = [
    (
        r#"{"types":[{"params":["i32"],"results":["i32"]}],
"modules":[{"functions":[{"type":0,"code":[["local.get",0]]}],"exports":[{"name":"f","func":0}]}],
"commands":[{"do":"instantiate","module":0},{"do":"get_export","instance":0,"name":"f"},
{"do":"call","func":1,"results":0},{"do":"call","func":1,"args":[{"i64":1}],"results":0},
{"do":"call","func":1,"args":[{"i64":1}]},{"do":"call","func":1,"args":[{"i32":-5}]},
{"do":"call","func":1,"args":[{"i32":4294967291}]},
{"do":"call","func":1,"args":[{"i32":1},{"i32":2}]},
{"do":"call","func":1,"args":[{"i32":7}],"results":1},
{"do":"call","func":1,"args":[{"i32":7}],"results":18446744073709551615},
{"do":"call","func":1,"args":[{"name":{"value":[5,0]}}]},
{"do":"call","func":1,"args":[{"i64":1},{"name":{"value":[5,1]}}],"results":0},
{"do":"call","func":1,"args":[{"name":0}]},{"do":"call","func":0},{"do":"call","func":{"value":[5,0]}}]}"#,
        "ok instance 0
ok func 0
refused ArgumentCount
refused ResultCount
refused TypeMismatch
ok values i32:-5
ok values i32:-5
refused ArgumentCount
ok values i32:7
refused ResultCount
ok values i32:-5
refused NoReply
refused NoReply
refused NoReply
refused NoReply
",
    ),
    (
        r#"{"types":[{"params":[{"ref":"func","null":false},"externref"],"results":["funcref"]},
{"params":[{"ref":0},"anyref"]}],
"modules":[{"functions":[{"type":0,"code":[["local.get",0]]},{"type":1}],
"exports":[{"name":"f","func":0},{"name":"g","func":1}]}],
"commands":[{"do":"instantiate","module":0},{"do":"get_export","instance":0,"name":"f"},
{"do":"get_export","instance":0,"name":"g"},
{"do":"call","func":1,"args":[{"func":null},{"extern":1}]},
{"do":"call","func":1,"args":[{"name":2},{"extern":1}]},
{"do":"call","func":1,"args":[{"name":{"value":[4,0]}},{"any":null}]},
{"do":"call","func":2,"args":[{"name":2},{"any":1}]},
{"do":"call","func":2,"args":[{"name":1},{"any":1}]},
{"do":"call","func":2,"args":[{"func":null},{"any":null}]},
{"do":"call","func":{"value":[4,0]},"args":[{"name":1},{"extern":null}]}]}"#,
        "ok instance 0
ok func 0
ok func 1
refused TypeMismatch
ok values funcref:1
refused TypeMismatch
refused TypeMismatch
ok values
ok values
refused TypeMismatch
",
    ),
];

/// Two instances of a module: a function of the first writes a byte and calls itself.
const TRAPPED: [(&str, &str); 1] = [(
    r#"{"types":[{}],
"modules":[{"memories":[{"min":1}],
"functions":[{"type":0,"code":[["i32.const",0],["i32.const",255],["i32.store8",0,0],["call",0]]}],
"exports":[{"name":"f","func":0},{"name":"m","memory":0}]}],
"commands":[{"do":"instantiate","module":0},{"do":"instantiate","module":0},
{"do":"get_export","instance":0,"name":"f"},{"do":"get_export","instance":0,"name":"m"},
{"do":"get_export","instance":1,"name":"m"},{"do":"call","func":2},
{"do":"memory_read","memory":3,"at":0,"len":1},{"do":"memory_read","memory":4,"at":0,"len":1}]}"#,
    "ok instance 0
ok instance 1
ok func 0
ok memory 0
ok memory 1
trap StackOverflow
ok bytes ff
ok bytes 00
",
)];

/// Divisions; a branch by a table; growth within a maximum.
const RESULTS: [(&str, &str); 3] = [
    (
        r#"{"types":[{"params":["i32","i32"],"results":["i32"]}],
"modules":[{"functions":[{"type":0,"code":[["local.get",0],["local.get",1],["i32.div_s"]]},
{"type":0,"code":[["local.get",0],["local.get",1],["i32.rem_s"]]}],
"exports":[{"name":"div","func":0},{"name":"rem","func":1}]}],
"commands":[{"do":"instantiate","module":0},{"do":"get_export","instance":0,"name":"div"},
{"do":"get_export","instance":0,"name":"rem"},
{"do":"call","func":1,"args":[{"i32":7},{"i32":-2}]},{"do":"call","func":1,"args":[{"i32":1},{"i32":0}]},
{"do":"call","func":1,"args":[{"i32":-2147483648},{"i32":-1}]},
{"do":"call","func":2,"args":[{"i32":-7},{"i32":2}]},
{"do":"call","func":2,"args":[{"i32":-2147483648},{"i32":-1}]}]}"#,
        "ok instance 0
ok func 0
ok func 1
ok values i32:-3
trap IntegerDivisionByZero
trap IntegerOverflow
ok values i32:-1
ok values i32:0
",
    ),
    (
        r#"{"types":[{},{"params":["i32"],"results":["i32"]}],
"modules":[{"functions":[{"type":1,"code":[["block",0,[["block",0,[["local.get",0],["br_table",[0],1]]],
["i32.const",10],["return"]]],["i32.const",20]]}],"exports":[{"name":"f","func":0}]}],
"commands":[{"do":"instantiate","module":0},{"do":"get_export","instance":0,"name":"f"},
{"do":"call","func":1,"args":[{"i32":0}]},{"do":"call","func":1,"args":[{"i32":1}]},
{"do":"call","func":1,"args":[{"i32":-1}]}]}"#,
        "ok instance 0
ok func 0
ok values i32:10
ok values i32:20
ok values i32:20
",
    ),
    (
        r#"{"types":[{"params":["i32"],"results":["i32"]}],
"modules":[{"memories":[{"min":1,"max":3}],
"functions":[{"type":0,"code":[["local.get",0],["memory.grow",0]]}],"exports":[{"name":"f","func":0}]}],
"commands":[{"do":"instantiate","module":0},{"do":"get_export","instance":0,"name":"f"},
{"do":"call","func":1,"args":[{"i32":0}]},{"do":"call","func":1,"args":[{"i32":2}]},
{"do":"call","func":1,"args":[{"i32":1}]}]}"#,
        "ok instance 0
ok func 0
ok values i32:1
ok values i32:1
ok values i32:-1
",
    ),
];

/// A loop without end, in an engine of so many turns; and one that counts in a global, five turns a round behind the
/// first: how often it did so before it was stopped.
const TURNS: [(&str, &str); 7] = [
    (
        r#"{"engine":{"turns":1000},"types":[{}],
"modules":[{"functions":[{"type":0,"code":[["loop",0,[["br",0]]]]}],"exports":[{"name":"f","func":0}]}],
"commands":[{"do":"instantiate","module":0},{"do":"get_export","instance":0,"name":"f"},
{"do":"call","func":1},{"do":"call","func":1},{"do":"memory_new","min":1}]}"#,
        "ok instance 0
ok func 0
refused TurnLimit
refused TurnLimit
ok memory 0
",
    ),
    (
        r#"{"engine":{"turns":4},"types":[{}],
"modules":[{"globals":[{"val":"i32","mut":true,"init":["i32.const",0]}],
"functions":[{"type":0,"code":[["loop",0,[["global.get",0],["i32.const",1],["i32.add"],["global.set",0],
["br",0]]]]}],"exports":[{"name":"f","func":0},{"name":"g","global":0}]}],
"commands":[{"do":"instantiate","module":0},{"do":"get_export","instance":0,"name":"f"},
{"do":"get_export","instance":0,"name":"g"},{"do":"call","func":1},{"do":"global_get","global":2}]}"#,
        "ok instance 0
ok func 0
ok global 0
refused TurnLimit
ok values i32:0
",
    ),
    (
        r#"{"engine":{"turns":5},"types":[{}],
"modules":[{"globals":[{"val":"i32","mut":true,"init":["i32.const",0]}],
"functions":[{"type":0,"code":[["loop",0,[["global.get",0],["i32.const",1],["i32.add"],["global.set",0],
["br",0]]]]}],"exports":[{"name":"f","func":0},{"name":"g","global":0}]}],
"commands":[{"do":"instantiate","module":0},{"do":"get_export","instance":0,"name":"f"},
{"do":"get_export","instance":0,"name":"g"},{"do":"call","func":1},{"do":"global_get","global":2},
{"do":"call","func":1},{"do":"global_get","global":2}]}"#,
        "ok instance 0
ok func 0
ok global 0
refused TurnLimit
ok values i32:1
refused TurnLimit
ok values i32:2
",
    ),
    (
        r#"{"engine":{"turns":1000},"types":[{}],
"modules":[{"globals":[{"val":"i32","mut":true,"init":["i32.const",0]}],
"functions":[{"type":0,"code":[["loop",0,[["global.get",0],["i32.const",1],["i32.add"],["global.set",0],
["br",0]]]]}],"exports":[{"name":"f","func":0},{"name":"g","global":0}]}],
"commands":[{"do":"instantiate","module":0},{"do":"get_export","instance":0,"name":"f"},
{"do":"get_export","instance":0,"name":"g"},{"do":"call","func":1},{"do":"global_get","global":2}]}"#,
        "ok instance 0
ok func 0
ok global 0
refused TurnLimit
ok values i32:200
",
    ),
    (
        r#"{"engine":{"turns":1},"types":[{},{"results":["i32"]}],
"modules":[{"functions":[{"type":0},{"type":1,"code":[["i32.const",7]]},{"type":0,"code":[["call",0]]},
{"type":0,"code":[["nop"],["nop"]]}],
"exports":[{"name":"a","func":0},{"name":"b","func":1},{"name":"c","func":2},{"name":"d","func":3}]}],
"commands":[{"do":"instantiate","module":0},{"do":"get_export","instance":0,"name":"a"},
{"do":"get_export","instance":0,"name":"b"},{"do":"get_export","instance":0,"name":"c"},
{"do":"get_export","instance":0,"name":"d"},{"do":"call","func":1},{"do":"call","func":2},
{"do":"call","func":3},{"do":"call","func":4}]}"#,
        "ok instance 0
ok func 0
ok func 1
ok func 2
ok func 3
ok values
ok values i32:7
ok values
refused TurnLimit
",
    ),
    (
        r#"{"engine":{"turns":3},"types":[{"params":["i32"]},{}],
"modules":[{"functions":[{"type":0,"code":[["local.get",0],["if",1,[["nop"]],[]]]},
{"type":1,"code":[["block",1,[["br",0],["nop"]]],["nop"]]},
{"type":1,"code":[["block",1,[["br",0]]],["nop"],["nop"]]},
{"type":1,"code":[["i32.const",0],["table.get",0],["drop"]]}],
"tables":[{"ref":"funcref","min":0}],
"exports":[{"name":"a","func":0},{"name":"b","func":1},{"name":"c","func":2},{"name":"d","func":3}]}],
"commands":[{"do":"instantiate","module":0},{"do":"get_export","instance":0,"name":"a"},
{"do":"get_export","instance":0,"name":"b"},{"do":"get_export","instance":0,"name":"c"},
{"do":"get_export","instance":0,"name":"d"},{"do":"call","func":1,"args":[{"i32":0}]},
{"do":"call","func":1,"args":[{"i32":1}]},{"do":"call","func":2},{"do":"call","func":3},
{"do":"call","func":4}]}"#,
        "ok instance 0
ok func 0
ok func 1
ok func 2
ok func 3
ok values
ok values
ok values
refused TurnLimit
trap TableOutOfBounds
",
    ),
    (
        r#"{"engine":{"turns":1},"types":[{}],
"modules":[{"functions":[{"type":0,"code":[["unreachable"]]},{"type":0,"code":[["nop"],["unreachable"]]}],
"exports":[{"name":"a","func":0},{"name":"b","func":1}]}],
"commands":[{"do":"instantiate","module":0},{"do":"get_export","instance":0,"name":"a"},
{"do":"get_export","instance":0,"name":"b"},{"do":"call","func":1},{"do":"call","func":2}]}"#,
        "ok instance 0
ok func 0
ok func 1
trap UnreachableCodeReached
refused TurnLimit
",
    ),
];

/// Functions that call one another in an engine of few frames, one of the host among them: it has no body, and is not
/// entered where no frame is left.
const FRAMES: [(&str, &str); 3] = [
    (
        r#"{"engine":{"frames":1},"types":[{}],
"modules":[{"tables":[{"ref":"funcref","min":1}],
"functions":[{"type":0,"code":[["nop"]]},{"type":0,"code":[["call",0]]},
{"type":0,"code":[["i32.const",0],["call_indirect",0,0]]}],
"exports":[{"name":"a","func":0},{"name":"b","func":1},{"name":"c","func":2},{"name":"t","table":0}]}],
"commands":[{"do":"instantiate","module":0},{"do":"get_export","instance":0,"name":"a"},
{"do":"get_export","instance":0,"name":"b"},{"do":"get_export","instance":0,"name":"c"},
{"do":"get_export","instance":0,"name":"t"},{"do":"func_new","type":0,"body":0},
{"do":"call","func":1},{"do":"call","func":2},{"do":"call","func":3},
{"do":"table_set","table":4,"at":0,"value":{"name":5}},{"do":"call","func":3},{"do":"call","func":5}]}"#,
        "ok instance 0
ok func 0
ok func 1
ok func 2
ok table 0
ok func 3
ok values
trap StackOverflow
trap IndirectCallToNull
ok
trap StackOverflow
refused NoHostBody
",
    ),
    (
        r#"{"engine":{"frames":2},"types":[{}],
"modules":[{"tables":[{"ref":"funcref","min":1}],
"functions":[{"type":0,"code":[["nop"]]},{"type":0,"code":[["call",0],["call",0]]},
{"type":0,"code":[["call",1]]},{"type":0,"code":[["i32.const",0],["call_indirect",0,0]]}],
"exports":[{"name":"b","func":1},{"name":"c","func":2},{"name":"d","func":3},{"name":"t","table":0}]}],
"commands":[{"do":"instantiate","module":0},{"do":"get_export","instance":0,"name":"b"},
{"do":"get_export","instance":0,"name":"c"},{"do":"get_export","instance":0,"name":"d"},
{"do":"get_export","instance":0,"name":"t"},{"do":"func_new","type":0,"body":1},
{"do":"call","func":1},{"do":"call","func":2},
{"do":"table_set","table":4,"at":0,"value":{"name":5}},{"do":"call","func":3},{"do":"call","func":1}]}"#,
        "ok instance 0
ok func 1
ok func 2
ok func 3
ok table 0
ok func 4
ok values
trap StackOverflow
ok
refused NoHostBody
ok values
",
    ),
    (
        r#"{"engine":{"frames":7},"types":[{}],
"modules":[{"globals":[{"val":"i64","mut":true,"init":["i64.const",0]}],
"functions":[{"type":0,"code":[["global.get",0],["i64.const",1],["i64.add"],["global.set",0],["call",0]]}],
"exports":[{"name":"f","func":0},{"name":"g","global":0}]}],
"commands":[{"do":"instantiate","module":0},{"do":"get_export","instance":0,"name":"f"},
{"do":"get_export","instance":0,"name":"g"},{"do":"call","func":1},{"do":"global_get","global":2}]}"#,
        "ok instance 0
ok func 0
ok global 0
trap StackOverflow
ok values i64:7
",
    ),
];

/// Two look-ups of an export are one object; another instance has others; and what is no export.
const EXPORTS: [(&str, &str); 2] = [
    (
        r#"{"types":[{}],
"modules":[{"memories":[{"min":1}],"tables":[{"ref":"externref","min":1}],
"globals":[{"val":"i32","mut":true,"init":["i32.const",1]},{"val":"i32","init":["i32.const",2]}],
"tags":[0],"functions":[{"type":0}],
"exports":[{"name":"f","func":0},{"name":"m","memory":0},{"name":"t","table":0},{"name":"g","global":0},
{"name":"c","global":1},{"name":"e","tag":0},{"name":"","func":0}]}],
"commands":[{"do":"instantiate","module":0},{"do":"get_export","instance":0,"name":"f"},
{"do":"get_export","instance":0,"name":"f"},{"do":"get_export","instance":0,"name":""},
{"do":"get_export","instance":0,"name":"m"},{"do":"get_export","instance":0,"name":"m"},
{"do":"get_export","instance":0,"name":"t"},{"do":"get_export","instance":0,"name":"t"},
{"do":"get_export","instance":0,"name":"g"},{"do":"get_export","instance":0,"name":"g"},
{"do":"memory_write","memory":4,"at":7,"bytes":"0a"},{"do":"memory_read","memory":5,"at":7,"len":1},
{"do":"table_set","table":6,"at":0,"value":{"extern":3}},{"do":"table_get","table":7,"at":0},
{"do":"global_set","global":8,"value":{"i32":9}},{"do":"global_get","global":9},
{"do":"get_export","instance":0,"name":"c"},{"do":"global_set","global":16,"value":{"i32":9}},
{"do":"global_get","global":16},{"do":"get_export","instance":0,"name":"e"},
{"do":"get_export","instance":0,"name":"F"},{"do":"get_export","instance":0,"name":"ff"},
{"do":"instantiate","module":0},{"do":"get_export","instance":22,"name":"f"},
{"do":"get_export","instance":22,"name":"m"},{"do":"get_export","instance":22,"name":"t"},
{"do":"get_export","instance":22,"name":"g"},{"do":"get_export","instance":22,"name":"e"},
{"do":"memory_read","memory":24,"at":7,"len":1},{"do":"table_get","table":25,"at":0},
{"do":"global_get","global":26}]}"#,
        "ok instance 0
ok func 0
ok func 0
ok func 0
ok memory 0
ok memory 0
ok table 0
ok table 0
ok global 0
ok global 0
ok
ok bytes 0a
ok
ok values externref:3
ok
ok values i32:9
ok global 1
refused ImmutableGlobal
ok values i32:2
ok tag 0
refused NoExport
refused NoExport
ok instance 1
ok func 1
ok memory 1
ok table 1
ok global 2
ok tag 1
ok bytes 00
ok values externref:null
ok values i32:1
",
    ),
    (
        r#"{"types":[{}],"modules":[{"functions":[{"type":0}],"exports":[{"name":"f","func":0}]},{}],
"commands":[{"do":"instantiate","module":2},{"do":"instantiate","module":18446744073709551615},
{"do":"instantiate","module":1},{"do":"get_export","instance":2,"name":"f"},
{"do":"get_export","instance":0,"name":"f"},{"do":"get_export","instance":9,"name":"f"},
{"do":"instantiate","module":0},{"do":"get_export","instance":6,"name":"f"},
{"do":"get_export","instance":7,"name":"f"},{"do":"get_export","instance":{"caller":true},"name":"f"},
{"do":"call","func":6},{"do":"call","func":{"arg":0}},{"do":"memory_size","memory":6},
{"do":"func_new","type":0,"body":0,"stored":[7]},{"do":"func_new","type":0,"body":0,"stored":[6]},
{"do":"call","func":7}]}"#,
        "refused NoReply
refused NoReply
ok instance 0
refused NoExport
refused NoReply
refused NoReply
ok instance 1
ok func 0
refused NoReply
refused NoReply
refused NoReply
refused NoReply
refused NoReply
ok func 1
refused NoReply
ok values
",
    ),
];

#[test]
fn code_is_called_and_ends_as_is_said(rt: HostRuntime) {
    let alloc = rt.alloc();
    check_lines(&rt, alloc, &ARGUMENTS);
    check_lines(&rt, alloc, &TRAPPED);
    check_lines(&rt, alloc, &RESULTS);
    check_lines(&rt, alloc, &TURNS);
    check_lines(&rt, alloc, &FRAMES);
    check_lines(&rt, alloc, &EXPORTS);
}
