//! Modules whose calls give what another engine gives: each a session with its lines. What calls change they leave to the
//! calls behind them.

use crate::sessions::check_lines;

/// Sessions over one instance each, with their lines.
const ROWS: [(&str, &str); 9] = [
    // Factorials by loop and by recursion.
    (
        r#"{"types":[{"params":["i64"],"results":["i64"]},{},{"results":["i64"]}],
"modules":[{"functions":[
{"type":0,"locals":["i64"],"code":[["i64.const",1],["local.set",1],["block",1,[["loop",1,[["local.get",0],["i64.eqz"],["br_if",1],["local.get",1],["local.get",0],["i64.mul"],["local.set",1],["local.get",0],["i64.const",1],["i64.sub"],["local.set",0],["br",0]]]]],["local.get",1]]},
{"type":0,"code":[["local.get",0],["i64.eqz"],["if",2,[["i64.const",1]],[["local.get",0],["local.get",0],["i64.const",1],["i64.sub"],["call",1],["i64.mul"]]]]}],
"exports":[
{"name":"f0","func":0},{"name":"f1","func":1}]}],
"commands":[
{"do":"instantiate","module":0},{"do":"get_export","instance":0,"name":"f0"},
{"do":"get_export","instance":0,"name":"f1"},{"do":"call","func":1,"args":[{"i64":0}]},
{"do":"call","func":1,"args":[{"i64":1}]},{"do":"call","func":1,"args":[{"i64":10}]},
{"do":"call","func":1,"args":[{"i64":20}]},{"do":"call","func":1,"args":[{"i64":25}]},
{"do":"call","func":2,"args":[{"i64":0}]},{"do":"call","func":2,"args":[{"i64":1}]},
{"do":"call","func":2,"args":[{"i64":10}]},{"do":"call","func":2,"args":[{"i64":20}]},
{"do":"call","func":2,"args":[{"i64":25}]}]}"#,
        "ok instance 0
ok func 0
ok func 1
ok values i64:1
ok values i64:1
ok values i64:3628800
ok values i64:2432902008176640000
ok values i64:7034535277573963776
ok values i64:1
ok values i64:1
ok values i64:3628800
ok values i64:2432902008176640000
ok values i64:7034535277573963776
",
    ),
    // Fibonacci numbers.
    (
        r#"{"types":[{"params":["i32"],"results":["i32"]},{"results":["i32"]}],
"modules":[{"functions":[
{"type":0,"code":[["local.get",0],["i32.const",2],["i32.lt_u"],["if",1,[["local.get",0]],[["local.get",0],["i32.const",1],["i32.sub"],["call",0],["local.get",0],["i32.const",2],["i32.sub"],["call",0],["i32.add"]]]]}],
"exports":[
{"name":"f0","func":0}]}],
"commands":[
{"do":"instantiate","module":0},{"do":"get_export","instance":0,"name":"f0"},
{"do":"call","func":1,"args":[{"i32":0}]},{"do":"call","func":1,"args":[{"i32":1}]},
{"do":"call","func":1,"args":[{"i32":2}]},{"do":"call","func":1,"args":[{"i32":10}]},
{"do":"call","func":1,"args":[{"i32":15}]}]}"#,
        "ok instance 0
ok func 0
ok values i32:0
ok values i32:1
ok values i32:1
ok values i32:55
ok values i32:610
",
    ),
    // A switch by a branch table.
    (
        r#"{"types":[{"params":["i32"],"results":["i32"]},{}],
"modules":[{"functions":[
{"type":0,"code":[["block",1,[["block",1,[["block",1,[["block",1,[["local.get",0],["br_table",[0,1,2],3]]],["i32.const",10],["return"]]],["i32.const",20],["return"]]],["i32.const",30],["return"]]],["i32.const",99]]}],
"exports":[
{"name":"f0","func":0}]}],
"commands":[
{"do":"instantiate","module":0},{"do":"get_export","instance":0,"name":"f0"},
{"do":"call","func":1,"args":[{"i32":0}]},{"do":"call","func":1,"args":[{"i32":1}]},
{"do":"call","func":1,"args":[{"i32":2}]},{"do":"call","func":1,"args":[{"i32":3}]},
{"do":"call","func":1,"args":[{"i32":4}]},{"do":"call","func":1,"args":[{"i32":-1}]},
{"do":"call","func":1,"args":[{"i32":-2147483648}]}]}"#,
        "ok instance 0
ok func 0
ok values i32:10
ok values i32:20
ok values i32:30
ok values i32:99
ok values i32:99
ok values i32:99
ok values i32:99
",
    ),
    // A branch table that carries a value.
    (
        r#"{"types":[{"params":["i32"],"results":["i32"]},{"results":["i32"]}],
"modules":[{"functions":[
{"type":0,"code":[["block",1,[["block",1,[["i32.const",5],["local.get",0],["br_table",[1,0],2]]],["i32.const",10],["i32.add"]]],["i32.const",100],["i32.add"]]}],
"exports":[
{"name":"f0","func":0}]}],
"commands":[
{"do":"instantiate","module":0},{"do":"get_export","instance":0,"name":"f0"},
{"do":"call","func":1,"args":[{"i32":0}]},{"do":"call","func":1,"args":[{"i32":1}]},
{"do":"call","func":1,"args":[{"i32":2}]},{"do":"call","func":1,"args":[{"i32":3}]}]}"#,
        "ok instance 0
ok func 0
ok values i32:105
ok values i32:115
ok values i32:5
ok values i32:5
",
    ),
    // Branches outwards drop what lies between.
    (
        r#"{"types":[{"params":["i32"],"results":["i32"]},{},{"results":["i32"]}],
"modules":[{"functions":[
{"type":0,"code":[["i32.const",1],["block",2,[["i32.const",50],["block",2,[["i32.const",7],["i32.const",8],["local.get",0],["br_if",1],["i32.add"]]],["i32.add"]]],["i32.add"]]},
{"type":0,"code":[["i32.const",1],["block",2,[["i32.const",2],["block",2,[["i32.const",3],["block",2,[["i32.const",4],["i32.const",5],["i32.const",6],["local.get",0],["br_if",2],["drop"],["drop"]]],["i32.mul"]]],["i32.mul"]]],["i32.add"]]},
{"type":0,"code":[["i32.const",1],["block",1,[["local.get",0],["if",1,[["i32.const",11],["i32.const",12],["return"]],[["i32.const",13],["br",2]]]]]]}],
"exports":[
{"name":"f0","func":0},{"name":"f1","func":1},{"name":"f2","func":2}]}],
"commands":[
{"do":"instantiate","module":0},{"do":"get_export","instance":0,"name":"f0"},
{"do":"get_export","instance":0,"name":"f1"},{"do":"get_export","instance":0,"name":"f2"},
{"do":"call","func":1,"args":[{"i32":0}]},{"do":"call","func":1,"args":[{"i32":1}]},
{"do":"call","func":2,"args":[{"i32":0}]},{"do":"call","func":2,"args":[{"i32":1}]},
{"do":"call","func":3,"args":[{"i32":0}]},{"do":"call","func":3,"args":[{"i32":1}]}]}"#,
        "ok instance 0
ok func 0
ok func 1
ok func 2
ok values i32:66
ok values i32:9
ok values i32:25
ok values i32:7
ok values i32:13
ok values i32:12
",
    ),
    // Blocks with parameters and several results.
    (
        r#"{"types":[{"params":["i32","i32"],"results":["i32","i32"]},{"params":["i32","i32"],"results":["i32"]},{"params":["i32"],"results":["i32"]},{"params":["i32","i64"],"results":["i64","i32"]}],
"modules":[{"functions":[
{"type":0,"code":[["local.get",0],["local.get",1],["block",1,[["i32.sub"]]],["local.get",0]]},
{"type":3,"code":[["local.get",1],["local.get",0]]},
{"type":2,"code":[["local.get",0],["loop",2,[["i32.const",3],["i32.mul"],["local.tee",0],["local.get",0],["i32.const",100],["i32.lt_s"],["br_if",0]]]]}],
"exports":[
{"name":"f0","func":0},{"name":"f1","func":1},{"name":"f2","func":2}]}],
"commands":[
{"do":"instantiate","module":0},{"do":"get_export","instance":0,"name":"f0"},
{"do":"get_export","instance":0,"name":"f1"},{"do":"get_export","instance":0,"name":"f2"},
{"do":"call","func":1,"args":[{"i32":9},{"i32":4}]},{"do":"call","func":2,"args":[{"i32":3},{"i64":4}]},
{"do":"call","func":3,"args":[{"i32":1}]},{"do":"call","func":3,"args":[{"i32":200}]}]}"#,
        "ok instance 0
ok func 0
ok func 1
ok func 2
ok values i32:5 i32:9
ok values i64:4 i32:3
ok values i32:243
ok values i32:600
",
    ),
    // Stops.
    (
        r#"{"types":[{"params":["i32","i32"],"results":["i32"]},{},{"params":["i32"],"results":["i32"]}],
"modules":[{"functions":[
{"type":0,"code":[["local.get",0],["local.get",1],["i32.div_s"]]},
{"type":0,"code":[["local.get",0],["local.get",1],["i32.rem_s"]]},
{"type":0,"code":[["local.get",0],["local.get",1],["i32.div_u"]]},
{"type":0,"code":[["local.get",0],["local.get",1],["i32.rem_u"]]},{"type":1,"code":[["unreachable"]]},
{"type":1,"code":[["call",5]]},{"type":1,"code":[["nop"]]},
{"type":2,"code":[["block",1,[["block",1,[["local.get",0],["br_table",[0],1]]],["i32.const",10],["return"]]],["i32.const",20]]},
{"type":2,"code":[["local.get",0]]}],
"exports":[
{"name":"f0","func":0},{"name":"f1","func":1},{"name":"f2","func":2},{"name":"f3","func":3},{"name":"f4","func":4},
{"name":"f5","func":5},{"name":"f6","func":6},{"name":"f7","func":7},{"name":"f8","func":8}]}],
"commands":[
{"do":"instantiate","module":0},{"do":"get_export","instance":0,"name":"f0"},
{"do":"get_export","instance":0,"name":"f1"},{"do":"get_export","instance":0,"name":"f2"},
{"do":"get_export","instance":0,"name":"f3"},{"do":"get_export","instance":0,"name":"f4"},
{"do":"get_export","instance":0,"name":"f5"},{"do":"get_export","instance":0,"name":"f6"},
{"do":"get_export","instance":0,"name":"f7"},{"do":"get_export","instance":0,"name":"f8"},
{"do":"call","func":1,"args":[{"i32":7},{"i32":-2}]},{"do":"call","func":1,"args":[{"i32":1},{"i32":0}]},
{"do":"call","func":1,"args":[{"i32":-2147483648},{"i32":-1}]},{"do":"call","func":2,"args":[{"i32":-7},{"i32":2}]},
{"do":"call","func":2,"args":[{"i32":-2147483648},{"i32":-1}]},{"do":"call","func":2,"args":[{"i32":1},{"i32":0}]},
{"do":"call","func":3,"args":[{"i32":-1},{"i32":2}]},{"do":"call","func":3,"args":[{"i32":1},{"i32":0}]},
{"do":"call","func":4,"args":[{"i32":-1},{"i32":10}]},{"do":"call","func":4,"args":[{"i32":1},{"i32":0}]},
{"do":"call","func":5},{"do":"call","func":6},{"do":"call","func":7},{"do":"call","func":8,"args":[{"i32":0}]},
{"do":"call","func":8,"args":[{"i32":1}]},{"do":"call","func":8,"args":[{"i32":-1}]},
{"do":"call","func":9,"args":[{"i32":-5}]},{"do":"call","func":9,"args":[{"i32":-5}]}]}"#,
        "ok instance 0
ok func 0
ok func 1
ok func 2
ok func 3
ok func 4
ok func 5
ok func 6
ok func 7
ok func 8
ok values i32:-3
trap IntegerDivisionByZero
trap IntegerOverflow
ok values i32:-1
ok values i32:0
trap IntegerDivisionByZero
ok values i32:2147483647
trap IntegerDivisionByZero
ok values i32:5
trap IntegerDivisionByZero
trap UnreachableCodeReached
trap StackOverflow
ok values
ok values i32:10
ok values i32:20
ok values i32:20
ok values i32:-5
ok values i32:-5
",
    ),
    // Divisions of 64 bits and selections.
    (
        r#"{"types":[{"params":["i64","i64"],"results":["i64"]},{"params":["i32","i32","i32"],"results":["i32"]},{"params":["i32"],"results":["i64"]}],
"modules":[{"functions":[
{"type":0,"code":[["local.get",0],["local.get",1],["i64.div_s"]]},
{"type":0,"code":[["local.get",0],["local.get",1],["i64.rem_s"]]},
{"type":0,"code":[["local.get",0],["local.get",1],["i64.div_u"]]},
{"type":1,"code":[["local.get",0],["local.get",1],["local.get",2],["select"]]},
{"type":2,"code":[["local.get",0],["i64.extend_i32_s"]]},{"type":2,"code":[["local.get",0],["i64.extend_i32_u"]]}],
"exports":[
{"name":"f0","func":0},{"name":"f1","func":1},{"name":"f2","func":2},{"name":"f3","func":3},{"name":"f4","func":4},
{"name":"f5","func":5}]}],
"commands":[
{"do":"instantiate","module":0},{"do":"get_export","instance":0,"name":"f0"},
{"do":"get_export","instance":0,"name":"f1"},{"do":"get_export","instance":0,"name":"f2"},
{"do":"get_export","instance":0,"name":"f3"},{"do":"get_export","instance":0,"name":"f4"},
{"do":"get_export","instance":0,"name":"f5"},{"do":"call","func":1,"args":[{"i64":7},{"i64":-2}]},
{"do":"call","func":1,"args":[{"i64":1},{"i64":0}]},
{"do":"call","func":1,"args":[{"i64":-9223372036854775808},{"i64":-1}]},
{"do":"call","func":2,"args":[{"i64":-9223372036854775808},{"i64":-1}]},
{"do":"call","func":2,"args":[{"i64":-7},{"i64":0}]},{"do":"call","func":3,"args":[{"i64":-1},{"i64":2}]},
{"do":"call","func":4,"args":[{"i32":4},{"i32":5},{"i32":0}]},
{"do":"call","func":4,"args":[{"i32":4},{"i32":5},{"i32":-1}]},{"do":"call","func":5,"args":[{"i32":-3}]},
{"do":"call","func":6,"args":[{"i32":-3}]}]}"#,
        "ok instance 0
ok func 0
ok func 1
ok func 2
ok func 3
ok func 4
ok func 5
ok values i64:-3
trap IntegerDivisionByZero
trap IntegerOverflow
ok values i64:0
trap IntegerDivisionByZero
ok values i64:9223372036854775807
ok values i32:5
ok values i32:4
ok values i64:-3
ok values i64:4294967293
",
    ),
    // Indirect calls.
    (
        r#"{"types":[{"params":["i32"],"results":["i32"]},{"results":["i32"]},{"params":["i64"],"results":["i64"]}],
"modules":[{"tables":[{"ref":"funcref","min":4}],
"elements":[{"ref":"funcref","table":0,"offset":["i32.const",0],"items":[["ref.func",0],["ref.func",1],["ref.null","func"],["ref.func",2]]}],
"functions":[
{"type":1,"code":[["i32.const",7]]},{"type":0,"code":[["local.get",0],["i32.const",1],["i32.add"]]},
{"type":2,"code":[["local.get",0]]},{"type":0,"code":[["local.get",0],["call_indirect",1,0]]},
{"type":0,"code":[["i32.const",40],["local.get",0],["call_indirect",0,0]]}],
"exports":[
{"name":"f3","func":3},{"name":"f4","func":4}]}],
"commands":[
{"do":"instantiate","module":0},{"do":"get_export","instance":0,"name":"f3"},
{"do":"get_export","instance":0,"name":"f4"},{"do":"call","func":1,"args":[{"i32":0}]},
{"do":"call","func":1,"args":[{"i32":1}]},{"do":"call","func":1,"args":[{"i32":2}]},
{"do":"call","func":1,"args":[{"i32":3}]},{"do":"call","func":1,"args":[{"i32":4}]},
{"do":"call","func":1,"args":[{"i32":-1}]},{"do":"call","func":2,"args":[{"i32":0}]},
{"do":"call","func":2,"args":[{"i32":1}]}]}"#,
        "ok instance 0
ok func 3
ok func 4
ok values i32:7
trap BadSignature
trap IndirectCallToNull
trap BadSignature
trap TableOutOfBounds
trap TableOutOfBounds
trap BadSignature
ok values i32:41
",
    ),
];

#[test]
fn calls_give_what_another_engine_gives(rt: HostRuntime) {
    check_lines(&rt, rt.alloc(), &ROWS);
}
