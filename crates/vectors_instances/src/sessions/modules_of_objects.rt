//! Modules whose calls change globals, tables and memories as another engine changes them: each a session with its lines.
//! What calls change they leave to the calls behind them.

use crate::sessions::check_lines;

/// Sessions over one instance each, with their lines.
const ROWS: [(&str, &str); 6] = [
    // Globals keep what is set.
    (
        r#"{"types":[{"params":["i32"]},{"results":["i32"]}],
"modules":[{"globals":[{"val":"i32","mut":true,"init":["i32.const",5]},{"val":"i32","mut":true,"init":["i32.const",-6]}],
"functions":[
{"type":0,"code":[["local.get",0],["global.set",0]]},
{"type":1,"code":[["global.get",0],["global.get",1],["i32.mul"]]},
{"type":0,"code":[["global.get",1],["local.get",0],["i32.add"],["global.set",1],["unreachable"]]}],
"exports":[
{"name":"f0","func":0},{"name":"f1","func":1},{"name":"f2","func":2}]}],
"commands":[
{"do":"instantiate","module":0},{"do":"get_export","instance":0,"name":"f0"},
{"do":"get_export","instance":0,"name":"f1"},{"do":"get_export","instance":0,"name":"f2"},{"do":"call","func":2},
{"do":"call","func":1,"args":[{"i32":9}]},{"do":"call","func":2},{"do":"call","func":3,"args":[{"i32":1}]},
{"do":"call","func":2}]}"#,
        "ok instance 0
ok func 0
ok func 1
ok func 2
ok values i32:-30
ok values
ok values i32:-54
trap UnreachableCodeReached
ok values i32:-45
",
    ),
    // Tables change.
    (
        r#"{"types":[{"params":["i32"],"results":["i32"]},{"results":["i32"]},{"params":["i32","i32"]},{"params":["i32","i32","i32"]},{}],
"modules":[{"tables":[{"ref":"funcref","min":4,"max":6},{"ref":"funcref","min":1}],
"elements":[{"ref":"funcref","items":[["ref.func",0],["ref.func",1]]},{"ref":"funcref","table":0,"offset":["i32.const",0],"items":[["ref.func",0],["ref.func",1],["ref.null","func"],["ref.null","func"]]},{"ref":"funcref","table":1,"offset":["i32.const",0],"items":[["ref.func",1]]}],
"functions":[
{"type":1,"code":[["i32.const",70]]},{"type":1,"code":[["i32.const",71]]},
{"type":0,"code":[["local.get",0],["call_indirect",1,0]]},
{"type":2,"code":[["local.get",0],["local.get",1],["table.get",0],["table.set",0]]},
{"type":0,"code":[["ref.null","func"],["local.get",0],["table.grow",0]]},{"type":1,"code":[["table.size",0]]},
{"type":2,"code":[["local.get",0],["ref.func",1],["local.get",1],["table.fill",0]]},
{"type":3,"code":[["local.get",0],["local.get",1],["local.get",2],["table.copy",0,0]]},
{"type":3,"code":[["local.get",0],["local.get",1],["local.get",2],["table.copy",0,1]]},
{"type":3,"code":[["local.get",0],["local.get",1],["local.get",2],["table.init",0,0]]},
{"type":4,"code":[["elem.drop",0]]},{"type":0,"code":[["local.get",0],["table.get",0],["ref.is_null"]]}],
"exports":[
{"name":"f2","func":2},{"name":"f3","func":3},{"name":"f4","func":4},{"name":"f5","func":5},{"name":"f6","func":6},
{"name":"f7","func":7},{"name":"f8","func":8},{"name":"f9","func":9},{"name":"f10","func":10},
{"name":"f11","func":11}]}],
"commands":[
{"do":"instantiate","module":0},{"do":"get_export","instance":0,"name":"f2"},
{"do":"get_export","instance":0,"name":"f3"},{"do":"get_export","instance":0,"name":"f4"},
{"do":"get_export","instance":0,"name":"f5"},{"do":"get_export","instance":0,"name":"f6"},
{"do":"get_export","instance":0,"name":"f7"},{"do":"get_export","instance":0,"name":"f8"},
{"do":"get_export","instance":0,"name":"f9"},{"do":"get_export","instance":0,"name":"f10"},
{"do":"get_export","instance":0,"name":"f11"},{"do":"call","func":1,"args":[{"i32":0}]},
{"do":"call","func":2,"args":[{"i32":3},{"i32":0}]},{"do":"call","func":1,"args":[{"i32":3}]},
{"do":"call","func":10,"args":[{"i32":2}]},{"do":"call","func":10,"args":[{"i32":3}]},
{"do":"call","func":10,"args":[{"i32":4}]},{"do":"call","func":2,"args":[{"i32":4},{"i32":0}]},
{"do":"call","func":2,"args":[{"i32":0},{"i32":4}]},{"do":"call","func":4},
{"do":"call","func":3,"args":[{"i32":0}]},{"do":"call","func":3,"args":[{"i32":2}]},
{"do":"call","func":3,"args":[{"i32":1}]},{"do":"call","func":3,"args":[{"i32":-1}]},{"do":"call","func":4},
{"do":"call","func":10,"args":[{"i32":5}]},{"do":"call","func":5,"args":[{"i32":4},{"i32":2}]},
{"do":"call","func":1,"args":[{"i32":5}]},{"do":"call","func":5,"args":[{"i32":4},{"i32":3}]},
{"do":"call","func":5,"args":[{"i32":6},{"i32":0}]},{"do":"call","func":5,"args":[{"i32":7},{"i32":0}]},
{"do":"call","func":6,"args":[{"i32":2},{"i32":0},{"i32":4}]},{"do":"call","func":1,"args":[{"i32":2}]},
{"do":"call","func":1,"args":[{"i32":3}]},{"do":"call","func":10,"args":[{"i32":4}]},
{"do":"call","func":6,"args":[{"i32":3},{"i32":0},{"i32":4}]},
{"do":"call","func":7,"args":[{"i32":4},{"i32":0},{"i32":1}]},{"do":"call","func":1,"args":[{"i32":4}]},
{"do":"call","func":7,"args":[{"i32":0},{"i32":1},{"i32":1}]},
{"do":"call","func":8,"args":[{"i32":0},{"i32":1},{"i32":1}]},{"do":"call","func":1,"args":[{"i32":0}]},
{"do":"call","func":8,"args":[{"i32":0},{"i32":1},{"i32":2}]},
{"do":"call","func":8,"args":[{"i32":5},{"i32":0},{"i32":2}]},{"do":"call","func":9},
{"do":"call","func":8,"args":[{"i32":0},{"i32":0},{"i32":1}]},
{"do":"call","func":8,"args":[{"i32":6},{"i32":0},{"i32":0}]},
{"do":"call","func":8,"args":[{"i32":7},{"i32":0},{"i32":0}]}]}"#,
        "ok instance 0
ok func 2
ok func 3
ok func 4
ok func 5
ok func 6
ok func 7
ok func 8
ok func 9
ok func 10
ok func 11
ok values i32:70
ok values
ok values i32:70
ok values i32:1
ok values i32:0
trap TableOutOfBounds
trap TableOutOfBounds
trap TableOutOfBounds
ok values i32:4
ok values i32:4
ok values i32:4
ok values i32:-1
ok values i32:-1
ok values i32:6
ok values i32:1
ok values
ok values i32:71
trap TableOutOfBounds
ok values
trap TableOutOfBounds
ok values
ok values i32:70
ok values i32:71
ok values i32:1
trap TableOutOfBounds
ok values
ok values i32:71
trap TableOutOfBounds
ok values
ok values i32:71
trap TableOutOfBounds
trap TableOutOfBounds
ok values
trap TableOutOfBounds
ok values
trap TableOutOfBounds
",
    ),
    // A memory grows to its maximum.
    (
        r#"{"types":[{"params":["i32"],"results":["i32"]},{"results":["i32"]}],
"modules":[{"memories":[{"min":1,"max":3}],
"functions":[
{"type":0,"code":[["local.get",0],["memory.grow",0]]},{"type":1,"code":[["memory.size",0]]},
{"type":0,"code":[["local.get",0],["i32.load",0,0]]}],
"exports":[
{"name":"f0","func":0},{"name":"f1","func":1},{"name":"f2","func":2}]}],
"commands":[
{"do":"instantiate","module":0},{"do":"get_export","instance":0,"name":"f0"},
{"do":"get_export","instance":0,"name":"f1"},{"do":"get_export","instance":0,"name":"f2"},
{"do":"call","func":3,"args":[{"i32":65532}]},{"do":"call","func":3,"args":[{"i32":65533}]},
{"do":"call","func":1,"args":[{"i32":0}]},{"do":"call","func":1,"args":[{"i32":2}]},
{"do":"call","func":1,"args":[{"i32":1}]},{"do":"call","func":2},{"do":"call","func":3,"args":[{"i32":65533}]},
{"do":"call","func":3,"args":[{"i32":196604}]},{"do":"call","func":3,"args":[{"i32":196605}]},
{"do":"call","func":1,"args":[{"i32":-1}]},{"do":"call","func":2}]}"#,
        "ok instance 0
ok func 0
ok func 1
ok func 2
ok values i32:0
trap MemoryOutOfBounds
ok values i32:1
ok values i32:1
ok values i32:-1
ok values i32:3
ok values i32:0
ok values i32:0
trap MemoryOutOfBounds
ok values i32:-1
ok values i32:3
",
    ),
    // Loads of each width.
    (
        r#"{"types":[{"params":["i32"],"results":["i32"]},{"params":["i32"],"results":["i64"]},{"params":["i32","i64"]}],
"modules":[{"memories":[{"min":1}],
"functions":[
{"type":0,"code":[["local.get",0],["i32.load",0,0]]},{"type":0,"code":[["local.get",0],["i32.load8_s",0,0]]},
{"type":0,"code":[["local.get",0],["i32.load8_u",0,0]]},{"type":0,"code":[["local.get",0],["i32.load16_s",0,0]]},
{"type":0,"code":[["local.get",0],["i32.load16_u",0,0]]},{"type":1,"code":[["local.get",0],["i64.load",0,0]]},
{"type":1,"code":[["local.get",0],["i64.load8_s",0,0]]},{"type":1,"code":[["local.get",0],["i64.load8_u",0,0]]},
{"type":1,"code":[["local.get",0],["i64.load16_s",0,0]]},{"type":1,"code":[["local.get",0],["i64.load16_u",0,0]]},
{"type":1,"code":[["local.get",0],["i64.load32_s",0,0]]},{"type":1,"code":[["local.get",0],["i64.load32_u",0,0]]},
{"type":2,"code":[["local.get",0],["local.get",1],["i64.store",0,0]]},
{"type":0,"code":[["local.get",0],["i32.load",0,3]]}],
"exports":[
{"name":"f0","func":0},{"name":"f1","func":1},{"name":"f2","func":2},{"name":"f3","func":3},{"name":"f4","func":4},
{"name":"f5","func":5},{"name":"f6","func":6},{"name":"f7","func":7},{"name":"f8","func":8},{"name":"f9","func":9},
{"name":"f10","func":10},{"name":"f11","func":11},{"name":"f12","func":12},{"name":"f13","func":13}]}],
"commands":[
{"do":"instantiate","module":0},{"do":"get_export","instance":0,"name":"f0"},
{"do":"get_export","instance":0,"name":"f1"},{"do":"get_export","instance":0,"name":"f2"},
{"do":"get_export","instance":0,"name":"f3"},{"do":"get_export","instance":0,"name":"f4"},
{"do":"get_export","instance":0,"name":"f5"},{"do":"get_export","instance":0,"name":"f6"},
{"do":"get_export","instance":0,"name":"f7"},{"do":"get_export","instance":0,"name":"f8"},
{"do":"get_export","instance":0,"name":"f9"},{"do":"get_export","instance":0,"name":"f10"},
{"do":"get_export","instance":0,"name":"f11"},{"do":"get_export","instance":0,"name":"f12"},
{"do":"get_export","instance":0,"name":"f13"},
{"do":"call","func":13,"args":[{"i32":8},{"i64":-8070168105405120001}]},{"do":"call","func":1,"args":[{"i32":8}]},
{"do":"call","func":2,"args":[{"i32":8}]},{"do":"call","func":3,"args":[{"i32":8}]},
{"do":"call","func":4,"args":[{"i32":8}]},{"do":"call","func":5,"args":[{"i32":8}]},
{"do":"call","func":6,"args":[{"i32":8}]},{"do":"call","func":7,"args":[{"i32":8}]},
{"do":"call","func":8,"args":[{"i32":8}]},{"do":"call","func":9,"args":[{"i32":8}]},
{"do":"call","func":10,"args":[{"i32":8}]},{"do":"call","func":11,"args":[{"i32":8}]},
{"do":"call","func":12,"args":[{"i32":8}]},{"do":"call","func":1,"args":[{"i32":10}]},
{"do":"call","func":2,"args":[{"i32":10}]},{"do":"call","func":3,"args":[{"i32":10}]},
{"do":"call","func":4,"args":[{"i32":10}]},{"do":"call","func":5,"args":[{"i32":10}]},
{"do":"call","func":6,"args":[{"i32":10}]},{"do":"call","func":7,"args":[{"i32":10}]},
{"do":"call","func":8,"args":[{"i32":10}]},{"do":"call","func":9,"args":[{"i32":10}]},
{"do":"call","func":10,"args":[{"i32":10}]},{"do":"call","func":11,"args":[{"i32":10}]},
{"do":"call","func":12,"args":[{"i32":10}]},{"do":"call","func":14,"args":[{"i32":6}]},
{"do":"call","func":14,"args":[{"i32":-3}]},{"do":"call","func":6,"args":[{"i32":65528}]},
{"do":"call","func":6,"args":[{"i32":65529}]},{"do":"call","func":2,"args":[{"i32":65535}]},
{"do":"call","func":2,"args":[{"i32":65536}]},{"do":"call","func":5,"args":[{"i32":65535}]},
{"do":"call","func":12,"args":[{"i32":65533}]},{"do":"call","func":13,"args":[{"i32":65529},{"i64":1}]}]}"#,
        "ok instance 0
ok func 0
ok func 1
ok func 2
ok func 3
ok func 4
ok func 5
ok func 6
ok func 7
ok func 8
ok func 9
ok func 10
ok func 11
ok func 12
ok func 13
ok values
ok values i32:-1616641537
ok values i32:-1
ok values i32:255
ok values i32:511
ok values i32:511
ok values i64:-8070168105405120001
ok values i64:-1
ok values i64:255
ok values i64:511
ok values i64:511
ok values i64:-1616641537
ok values i64:2678325759
ok values i32:14524324
ok values i32:-92
ok values i32:164
ok values i32:-24668
ok values i32:40868
ok values i64:158333983891364
ok values i64:-92
ok values i64:164
ok values i64:-24668
ok values i64:40868
ok values i64:14524324
ok values i64:14524324
ok values i32:-576740351
trap MemoryOutOfBounds
ok values i64:0
trap MemoryOutOfBounds
ok values i32:0
trap MemoryOutOfBounds
trap MemoryOutOfBounds
trap MemoryOutOfBounds
trap MemoryOutOfBounds
",
    ),
    // Stores of each width.
    (
        r#"{"types":[{"params":["i32","i32"]},{"params":["i32","i64"]},{"results":["i64"]},{}],
"modules":[{"memories":[{"min":1}],
"functions":[
{"type":0,"code":[["local.get",0],["local.get",1],["i32.store",0,0]]},
{"type":0,"code":[["local.get",0],["local.get",1],["i32.store8",0,0]]},
{"type":0,"code":[["local.get",0],["local.get",1],["i32.store16",0,0]]},
{"type":1,"code":[["local.get",0],["local.get",1],["i64.store",0,0]]},
{"type":1,"code":[["local.get",0],["local.get",1],["i64.store8",0,0]]},
{"type":1,"code":[["local.get",0],["local.get",1],["i64.store16",0,0]]},
{"type":1,"code":[["local.get",0],["local.get",1],["i64.store32",0,0]]},
{"type":2,"code":[["i32.const",0],["i64.load",0,0]]},
{"type":3,"code":[["i32.const",0],["i64.const",-1],["i64.store",0,0]]}],
"exports":[
{"name":"f0","func":0},{"name":"f1","func":1},{"name":"f2","func":2},{"name":"f3","func":3},{"name":"f4","func":4},
{"name":"f5","func":5},{"name":"f6","func":6},{"name":"f7","func":7},{"name":"f8","func":8}]}],
"commands":[
{"do":"instantiate","module":0},{"do":"get_export","instance":0,"name":"f0"},
{"do":"get_export","instance":0,"name":"f1"},{"do":"get_export","instance":0,"name":"f2"},
{"do":"get_export","instance":0,"name":"f3"},{"do":"get_export","instance":0,"name":"f4"},
{"do":"get_export","instance":0,"name":"f5"},{"do":"get_export","instance":0,"name":"f6"},
{"do":"get_export","instance":0,"name":"f7"},{"do":"get_export","instance":0,"name":"f8"},{"do":"call","func":9},
{"do":"call","func":1,"args":[{"i32":2},{"i32":16909060}]},{"do":"call","func":8},{"do":"call","func":9},
{"do":"call","func":2,"args":[{"i32":2},{"i32":16909060}]},{"do":"call","func":8},{"do":"call","func":9},
{"do":"call","func":3,"args":[{"i32":2},{"i32":16909060}]},{"do":"call","func":8},
{"do":"call","func":4,"args":[{"i32":0},{"i64":72623859790382856}]},{"do":"call","func":8},{"do":"call","func":9},
{"do":"call","func":5,"args":[{"i32":1},{"i64":72623859790382856}]},{"do":"call","func":8},{"do":"call","func":9},
{"do":"call","func":6,"args":[{"i32":1},{"i64":72623859790382856}]},{"do":"call","func":8},{"do":"call","func":9},
{"do":"call","func":7,"args":[{"i32":1},{"i64":72623859790382856}]},{"do":"call","func":8},
{"do":"call","func":1,"args":[{"i32":65533},{"i32":1}]},{"do":"call","func":2,"args":[{"i32":65536},{"i32":1}]},
{"do":"call","func":3,"args":[{"i32":65535},{"i32":1}]},{"do":"call","func":7,"args":[{"i32":-1},{"i64":1}]},
{"do":"call","func":8}]}"#,
        "ok instance 0
ok func 0
ok func 1
ok func 2
ok func 3
ok func 4
ok func 5
ok func 6
ok func 7
ok func 8
ok values
ok values
ok values i64:-280366824488961
ok values
ok values
ok values i64:-16449537
ok values
ok values
ok values i64:-4244307969
ok values
ok values i64:72623859790382856
ok values
ok values
ok values i64:-63233
ok values
ok values
ok values i64:-16316161
ok values
ok values
ok values i64:-1077935666945
trap MemoryOutOfBounds
trap MemoryOutOfBounds
trap MemoryOutOfBounds
trap MemoryOutOfBounds
ok values i64:-1077935666945
",
    ),
    // Ranges of a memory.
    (
        r#"{"types":[{"params":["i32","i32","i32"]},{"results":["i64"]},{}],
"modules":[{"memories":[{"min":1}],
"datas":[{"bytes":"0102030405"}],
"functions":[
{"type":0,"code":[["local.get",0],["local.get",1],["local.get",2],["memory.fill",0]]},
{"type":0,"code":[["local.get",0],["local.get",1],["local.get",2],["memory.copy",0,0]]},
{"type":0,"code":[["local.get",0],["local.get",1],["local.get",2],["memory.init",0,0]]},
{"type":2,"code":[["data.drop",0]]},{"type":1,"code":[["i32.const",0],["i64.load",0,0]]}],
"exports":[
{"name":"f0","func":0},{"name":"f1","func":1},{"name":"f2","func":2},{"name":"f3","func":3},{"name":"f4","func":4}]}],
"commands":[
{"do":"instantiate","module":0},{"do":"get_export","instance":0,"name":"f0"},
{"do":"get_export","instance":0,"name":"f1"},{"do":"get_export","instance":0,"name":"f2"},
{"do":"get_export","instance":0,"name":"f3"},{"do":"get_export","instance":0,"name":"f4"},
{"do":"call","func":3,"args":[{"i32":0},{"i32":0},{"i32":5}]},{"do":"call","func":5},
{"do":"call","func":2,"args":[{"i32":1},{"i32":0},{"i32":5}]},{"do":"call","func":5},
{"do":"call","func":2,"args":[{"i32":0},{"i32":2},{"i32":6}]},{"do":"call","func":5},
{"do":"call","func":1,"args":[{"i32":3},{"i32":511},{"i32":2}]},{"do":"call","func":5},
{"do":"call","func":1,"args":[{"i32":65535},{"i32":7},{"i32":2}]},
{"do":"call","func":2,"args":[{"i32":65530},{"i32":0},{"i32":7}]},
{"do":"call","func":2,"args":[{"i32":0},{"i32":65530},{"i32":7}]},
{"do":"call","func":3,"args":[{"i32":0},{"i32":3},{"i32":3}]},
{"do":"call","func":3,"args":[{"i32":65534},{"i32":0},{"i32":3}]},
{"do":"call","func":3,"args":[{"i32":0},{"i32":5},{"i32":0}]},
{"do":"call","func":3,"args":[{"i32":0},{"i32":6},{"i32":0}]},
{"do":"call","func":1,"args":[{"i32":65536},{"i32":1},{"i32":0}]},
{"do":"call","func":1,"args":[{"i32":65537},{"i32":1},{"i32":0}]},{"do":"call","func":4},
{"do":"call","func":3,"args":[{"i32":0},{"i32":0},{"i32":1}]},
{"do":"call","func":3,"args":[{"i32":0},{"i32":0},{"i32":0}]},{"do":"call","func":5}]}"#,
        "ok instance 0
ok func 0
ok func 1
ok func 2
ok func 3
ok func 4
ok values
ok values i64:21542142465
ok values
ok values i64:5514788471041
ok values
ok values i64:84148994
ok values
ok values i64:1099495113474
trap MemoryOutOfBounds
trap MemoryOutOfBounds
trap MemoryOutOfBounds
trap MemoryOutOfBounds
trap MemoryOutOfBounds
ok values
trap MemoryOutOfBounds
ok values
trap MemoryOutOfBounds
ok values
trap MemoryOutOfBounds
ok values
ok values i64:1099495113474
",
    ),
];

#[test]
fn calls_change_what_another_engine_changes(rt: HostRuntime) {
    check_lines(&rt, rt.alloc(), &ROWS);
}
