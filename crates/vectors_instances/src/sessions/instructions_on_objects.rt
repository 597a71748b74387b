//! Instructions on memories and on tables, each at its boundaries, in sessions. The lines are those of node's
//! WebAssembly, but for a second memory and for pages of a byte, which it does not have.

use crate::sessions::check_lines;

/// Each load at the front, at the last place and past it; sums of address and offset past 2^32.
const LOADS: [(&str, &str); 1] = [(
    r#"{"types":[{"params":["i32"],"results":["i32"]},{"params":["i32"],"results":["i64"]}],
"modules":[{"memories":[{"min":1}],
"functions":[
{"type":0,"code":[["local.get",0],["i32.load",0,0]]},
{"type":0,"code":[["local.get",0],["i32.load16_s",0,0]]},
{"type":0,"code":[["local.get",0],["i32.load16_u",0,0]]},
{"type":0,"code":[["local.get",0],["i32.load8_s",0,0]]},
{"type":0,"code":[["local.get",0],["i32.load8_u",0,0]]},
{"type":1,"code":[["local.get",0],["i64.load",0,0]]},
{"type":1,"code":[["local.get",0],["i64.load16_s",0,0]]},
{"type":1,"code":[["local.get",0],["i64.load16_u",0,0]]},
{"type":1,"code":[["local.get",0],["i64.load32_s",0,0]]},
{"type":1,"code":[["local.get",0],["i64.load32_u",0,0]]},
{"type":1,"code":[["local.get",0],["i64.load8_s",0,0]]},
{"type":1,"code":[["local.get",0],["i64.load8_u",0,0]]},
{"type":0,"code":[["local.get",0],["i32.load8_u",0,1]]},
{"type":0,"code":[["local.get",0],["i32.load",0,4294967295]]}],
"exports":[
{"name":"0","func":0},{"name":"1","func":1},{"name":"2","func":2},{"name":"3","func":3},
{"name":"4","func":4},{"name":"5","func":5},{"name":"6","func":6},{"name":"7","func":7},
{"name":"8","func":8},{"name":"9","func":9},{"name":"10","func":10},{"name":"11","func":11},
{"name":"12","func":12},{"name":"13","func":13},{"name":"m0","memory":0}]}],
"commands":[
{"do":"instantiate","module":0},{"do":"get_export","instance":0,"name":"0"},
{"do":"get_export","instance":0,"name":"1"},{"do":"get_export","instance":0,"name":"2"},
{"do":"get_export","instance":0,"name":"3"},{"do":"get_export","instance":0,"name":"4"},
{"do":"get_export","instance":0,"name":"5"},{"do":"get_export","instance":0,"name":"6"},
{"do":"get_export","instance":0,"name":"7"},{"do":"get_export","instance":0,"name":"8"},
{"do":"get_export","instance":0,"name":"9"},{"do":"get_export","instance":0,"name":"10"},
{"do":"get_export","instance":0,"name":"11"},{"do":"get_export","instance":0,"name":"12"},
{"do":"get_export","instance":0,"name":"13"},{"do":"get_export","instance":0,"name":"m0"},
{"do":"memory_write","memory":15,"at":0,"bytes":"8899aabbccddeeff7f"},
{"do":"memory_write","memory":15,"at":65528,"bytes":"0123456789abcdef"},
{"do":"call","func":1,"args":[{"i32":0}]},{"do":"call","func":1,"args":[{"i32":65532}]},
{"do":"call","func":1,"args":[{"i32":65533}]},{"do":"call","func":2,"args":[{"i32":0}]},
{"do":"call","func":2,"args":[{"i32":65534}]},{"do":"call","func":2,"args":[{"i32":65535}]},
{"do":"call","func":3,"args":[{"i32":0}]},{"do":"call","func":3,"args":[{"i32":65534}]},
{"do":"call","func":3,"args":[{"i32":65535}]},{"do":"call","func":4,"args":[{"i32":0}]},
{"do":"call","func":4,"args":[{"i32":65535}]},{"do":"call","func":4,"args":[{"i32":65536}]},
{"do":"call","func":5,"args":[{"i32":0}]},{"do":"call","func":5,"args":[{"i32":65535}]},
{"do":"call","func":5,"args":[{"i32":65536}]},{"do":"call","func":6,"args":[{"i32":0}]},
{"do":"call","func":6,"args":[{"i32":65528}]},{"do":"call","func":6,"args":[{"i32":65529}]},
{"do":"call","func":7,"args":[{"i32":0}]},{"do":"call","func":7,"args":[{"i32":65534}]},
{"do":"call","func":7,"args":[{"i32":65535}]},{"do":"call","func":8,"args":[{"i32":0}]},
{"do":"call","func":8,"args":[{"i32":65534}]},{"do":"call","func":8,"args":[{"i32":65535}]},
{"do":"call","func":9,"args":[{"i32":0}]},{"do":"call","func":9,"args":[{"i32":65532}]},
{"do":"call","func":9,"args":[{"i32":65533}]},{"do":"call","func":10,"args":[{"i32":0}]},
{"do":"call","func":10,"args":[{"i32":65532}]},{"do":"call","func":10,"args":[{"i32":65533}]},
{"do":"call","func":11,"args":[{"i32":0}]},{"do":"call","func":11,"args":[{"i32":65535}]},
{"do":"call","func":11,"args":[{"i32":65536}]},{"do":"call","func":12,"args":[{"i32":0}]},
{"do":"call","func":12,"args":[{"i32":65535}]},{"do":"call","func":12,"args":[{"i32":65536}]},
{"do":"call","func":13,"args":[{"i32":7}]},{"do":"call","func":13,"args":[{"i32":65534}]},
{"do":"call","func":13,"args":[{"i32":65535}]},{"do":"call","func":13,"args":[{"i32":-1}]},
{"do":"call","func":14,"args":[{"i32":0}]},{"do":"call","func":14,"args":[{"i32":1}]},
{"do":"call","func":14,"args":[{"i32":-1}]}]}"#,
    "ok instance 0
ok func 0
ok func 1
ok func 2
ok func 3
ok func 4
ok func 5
ok func 6
ok func 7
ok func 8
ok func 9
ok func 10
ok func 11
ok func 12
ok func 13
ok memory 0
ok
ok
ok values i32:-1146447480
ok values i32:-271733879
trap MemoryOutOfBounds
ok values i32:-26232
ok values i32:-4147
trap MemoryOutOfBounds
ok values i32:39304
ok values i32:61389
trap MemoryOutOfBounds
ok values i32:-120
ok values i32:-17
trap MemoryOutOfBounds
ok values i32:136
ok values i32:239
trap MemoryOutOfBounds
ok values i64:-4822678189205112
ok values i64:-1167088121787636991
trap MemoryOutOfBounds
ok values i64:-26232
ok values i64:-4147
trap MemoryOutOfBounds
ok values i64:39304
ok values i64:61389
trap MemoryOutOfBounds
ok values i64:-1146447480
ok values i64:-271733879
trap MemoryOutOfBounds
ok values i64:3148519816
ok values i64:4023233417
trap MemoryOutOfBounds
ok values i64:-120
ok values i64:-17
trap MemoryOutOfBounds
ok values i64:136
ok values i64:239
trap MemoryOutOfBounds
ok values i32:127
ok values i32:239
trap MemoryOutOfBounds
trap MemoryOutOfBounds
trap MemoryOutOfBounds
trap MemoryOutOfBounds
trap MemoryOutOfBounds
",
)];

/// Each store within, at the last place and past it.
const STORES: [(&str, &str); 1] = [(
    r#"{"types":[{"params":["i32","i32"]},{"params":["i32","i64"]}],
"modules":[{"memories":[{"min":1}],
"functions":[
{"type":0,"code":[["local.get",0],["local.get",1],["i32.store",0,0]]},
{"type":0,"code":[["local.get",0],["local.get",1],["i32.store16",0,0]]},
{"type":0,"code":[["local.get",0],["local.get",1],["i32.store8",0,0]]},
{"type":1,"code":[["local.get",0],["local.get",1],["i64.store",0,0]]},
{"type":1,"code":[["local.get",0],["local.get",1],["i64.store16",0,0]]},
{"type":1,"code":[["local.get",0],["local.get",1],["i64.store32",0,0]]},
{"type":1,"code":[["local.get",0],["local.get",1],["i64.store8",0,0]]},
{"type":0,"code":[["local.get",0],["local.get",1],["i32.store8",0,3]]}],
"exports":[
{"name":"0","func":0},{"name":"1","func":1},{"name":"2","func":2},{"name":"3","func":3},
{"name":"4","func":4},{"name":"5","func":5},{"name":"6","func":6},{"name":"7","func":7},
{"name":"m0","memory":0}]}],
"commands":[
{"do":"instantiate","module":0},{"do":"get_export","instance":0,"name":"0"},
{"do":"get_export","instance":0,"name":"1"},{"do":"get_export","instance":0,"name":"2"},
{"do":"get_export","instance":0,"name":"3"},{"do":"get_export","instance":0,"name":"4"},
{"do":"get_export","instance":0,"name":"5"},{"do":"get_export","instance":0,"name":"6"},
{"do":"get_export","instance":0,"name":"7"},{"do":"get_export","instance":0,"name":"m0"},
{"do":"call","func":1,"args":[{"i32":0},{"i32":2309737967}]},
{"do":"call","func":1,"args":[{"i32":65532},{"i32":2309737967}]},
{"do":"call","func":1,"args":[{"i32":65533},{"i32":0}]},
{"do":"memory_read","memory":9,"at":65526,"len":10},
{"do":"call","func":2,"args":[{"i32":16},{"i32":2309737967}]},
{"do":"call","func":2,"args":[{"i32":65534},{"i32":2309737967}]},
{"do":"call","func":2,"args":[{"i32":65535},{"i32":0}]},
{"do":"memory_read","memory":9,"at":65526,"len":10},
{"do":"call","func":3,"args":[{"i32":32},{"i32":2309737967}]},
{"do":"call","func":3,"args":[{"i32":65535},{"i32":2309737967}]},
{"do":"call","func":3,"args":[{"i32":65536},{"i32":0}]},
{"do":"memory_read","memory":9,"at":65526,"len":10},
{"do":"call","func":4,"args":[{"i32":48},{"i64":81985529216486895}]},
{"do":"call","func":4,"args":[{"i32":65528},{"i64":81985529216486895}]},
{"do":"call","func":4,"args":[{"i32":65529},{"i64":0}]},
{"do":"memory_read","memory":9,"at":65526,"len":10},
{"do":"call","func":5,"args":[{"i32":64},{"i64":81985529216486895}]},
{"do":"call","func":5,"args":[{"i32":65534},{"i64":81985529216486895}]},
{"do":"call","func":5,"args":[{"i32":65535},{"i64":0}]},
{"do":"memory_read","memory":9,"at":65526,"len":10},
{"do":"call","func":6,"args":[{"i32":80},{"i64":81985529216486895}]},
{"do":"call","func":6,"args":[{"i32":65532},{"i64":81985529216486895}]},
{"do":"call","func":6,"args":[{"i32":65533},{"i64":0}]},
{"do":"memory_read","memory":9,"at":65526,"len":10},
{"do":"call","func":7,"args":[{"i32":96},{"i64":81985529216486895}]},
{"do":"call","func":7,"args":[{"i32":65535},{"i64":81985529216486895}]},
{"do":"call","func":7,"args":[{"i32":65536},{"i64":0}]},
{"do":"memory_read","memory":9,"at":65526,"len":10},
{"do":"call","func":8,"args":[{"i32":0},{"i32":-1}]},
{"do":"call","func":8,"args":[{"i32":65533},{"i32":1}]},
{"do":"call","func":8,"args":[{"i32":-3},{"i32":1}]},
{"do":"memory_read","memory":9,"at":0,"len":112}]}"#,
    "ok instance 0
ok func 0
ok func 1
ok func 2
ok func 3
ok func 4
ok func 5
ok func 6
ok func 7
ok memory 0
ok values
ok values
trap MemoryOutOfBounds
ok bytes 000000000000efcdab89
ok values
ok values
trap MemoryOutOfBounds
ok bytes 000000000000efcdefcd
ok values
ok values
trap MemoryOutOfBounds
ok bytes 000000000000efcdefef
ok values
ok values
trap MemoryOutOfBounds
ok bytes 0000efcdab8967452301
ok values
ok values
trap MemoryOutOfBounds
ok bytes 0000efcdab896745efcd
ok values
ok values
trap MemoryOutOfBounds
ok bytes 0000efcdab89efcdab89
ok values
ok values
trap MemoryOutOfBounds
ok bytes 0000efcdab89efcdabef
ok values
trap MemoryOutOfBounds
trap MemoryOutOfBounds
ok bytes efcdabff000000000000000000000000efcd0000000000000000000000000000ef000000000000000000000000000000efcdab89674523010000000000000000efcd0000000000000000000000000000efcdab89000000000000000000000000ef000000000000000000000000000000
",
)];

/// Sizes, growths, fills and copies; copies between memories, one of pages of a byte.
const MEMORIES: [(&str, &str); 2] = [
    (
        r#"{"types":[
{"results":["i32"]},{"params":["i32"],"results":["i32"]},{"params":["i32","i32","i32"]}],
"modules":[{"memories":[{"min":1,"max":3}],
"functions":[
{"type":0,"code":[["memory.size",0]]},
{"type":1,"code":[["local.get",0],["memory.grow",0]]},
{"type":2,"code":[["local.get",0],["local.get",1],["local.get",2],["memory.fill",0]]},
{"type":2,"code":[["local.get",0],["local.get",1],["local.get",2],["memory.copy",0,0]]}],
"exports":[
{"name":"0","func":0},{"name":"1","func":1},{"name":"2","func":2},{"name":"3","func":3},
{"name":"m0","memory":0}]}],
"commands":[
{"do":"instantiate","module":0},{"do":"get_export","instance":0,"name":"0"},
{"do":"get_export","instance":0,"name":"1"},{"do":"get_export","instance":0,"name":"2"},
{"do":"get_export","instance":0,"name":"3"},{"do":"get_export","instance":0,"name":"m0"},
{"do":"call","func":1},{"do":"call","func":3,"args":[{"i32":0},{"i32":511},{"i32":3}]},
{"do":"call","func":3,"args":[{"i32":3},{"i32":-2},{"i32":1}]},
{"do":"memory_read","memory":5,"at":0,"len":12},
{"do":"memory_write","memory":5,"at":0,"bytes":"0102030405060708090a"},
{"do":"call","func":4,"args":[{"i32":1},{"i32":0},{"i32":5}]},
{"do":"memory_read","memory":5,"at":0,"len":12},
{"do":"call","func":4,"args":[{"i32":0},{"i32":2},{"i32":6}]},
{"do":"memory_read","memory":5,"at":0,"len":12},
{"do":"call","func":3,"args":[{"i32":65536},{"i32":1},{"i32":0}]},
{"do":"call","func":3,"args":[{"i32":65537},{"i32":1},{"i32":0}]},
{"do":"call","func":3,"args":[{"i32":65535},{"i32":1},{"i32":2}]},
{"do":"call","func":3,"args":[{"i32":65535},{"i32":1},{"i32":1}]},
{"do":"call","func":3,"args":[{"i32":-1},{"i32":1},{"i32":1}]},
{"do":"call","func":3,"args":[{"i32":1},{"i32":1},{"i32":-1}]},
{"do":"memory_read","memory":5,"at":65532,"len":4},
{"do":"call","func":4,"args":[{"i32":65536},{"i32":65536},{"i32":0}]},
{"do":"call","func":4,"args":[{"i32":65537},{"i32":0},{"i32":0}]},
{"do":"call","func":4,"args":[{"i32":0},{"i32":65537},{"i32":0}]},
{"do":"call","func":4,"args":[{"i32":65535},{"i32":0},{"i32":2}]},
{"do":"call","func":4,"args":[{"i32":0},{"i32":65535},{"i32":2}]},
{"do":"call","func":4,"args":[{"i32":0},{"i32":0},{"i32":-1}]},
{"do":"call","func":4,"args":[{"i32":65534},{"i32":65535},{"i32":1}]},
{"do":"memory_read","memory":5,"at":65532,"len":4},{"do":"memory_read","memory":5,"at":0,"len":12},
{"do":"call","func":2,"args":[{"i32":0}]},{"do":"call","func":2,"args":[{"i32":2}]},
{"do":"call","func":2,"args":[{"i32":1}]},{"do":"call","func":2,"args":[{"i32":-1}]},
{"do":"call","func":2,"args":[{"i32":0}]},{"do":"call","func":1},
{"do":"call","func":3,"args":[{"i32":196607},{"i32":9},{"i32":1}]},
{"do":"memory_read","memory":5,"at":196605,"len":3}]}"#,
        "ok instance 0
ok func 0
ok func 1
ok func 2
ok func 3
ok memory 0
ok values i32:1
ok values
ok values
ok bytes fffffffe0000000000000000
ok
ok values
ok bytes 0101020304050708090a0000
ok values
ok bytes 0203040507080708090a0000
ok values
trap MemoryOutOfBounds
trap MemoryOutOfBounds
ok values
trap MemoryOutOfBounds
trap MemoryOutOfBounds
ok bytes 00000001
ok values
trap MemoryOutOfBounds
trap MemoryOutOfBounds
trap MemoryOutOfBounds
trap MemoryOutOfBounds
trap MemoryOutOfBounds
ok values
ok bytes 00000101
ok bytes 0203040507080708090a0000
ok values i32:1
ok values i32:1
ok values i32:-1
ok values i32:-1
ok values i32:3
ok values i32:3
ok values
ok bytes 000009
",
    ),
    (
        r#"{"types":[
{"params":["i32","i32","i32"]},{"results":["i32"]},{"params":["i32"],"results":["i32"]}],
"modules":[{"memories":[{"min":1},{"min":5,"max":8,"page":0}],
"functions":[
{"type":0,"code":[["local.get",0],["local.get",1],["local.get",2],["memory.copy",1,0]]},
{"type":0,"code":[["local.get",0],["local.get",1],["local.get",2],["memory.copy",0,1]]},
{"type":1,"code":[["memory.size",1]]},
{"type":2,"code":[["local.get",0],["memory.grow",1]]},
{"type":2,"code":[["local.get",0],["i32.load8_u",1,0]]}],
"exports":[
{"name":"0","func":0},{"name":"1","func":1},{"name":"2","func":2},{"name":"3","func":3},
{"name":"4","func":4},{"name":"m0","memory":0},{"name":"m1","memory":1}]}],
"commands":[
{"do":"instantiate","module":0},{"do":"get_export","instance":0,"name":"0"},
{"do":"get_export","instance":0,"name":"1"},{"do":"get_export","instance":0,"name":"2"},
{"do":"get_export","instance":0,"name":"3"},{"do":"get_export","instance":0,"name":"4"},
{"do":"get_export","instance":0,"name":"m0"},{"do":"get_export","instance":0,"name":"m1"},
{"do":"memory_write","memory":6,"at":65534,"bytes":"cafe"},
{"do":"call","func":1,"args":[{"i32":1},{"i32":65534},{"i32":2}]},
{"do":"call","func":1,"args":[{"i32":4},{"i32":0},{"i32":2}]},
{"do":"call","func":1,"args":[{"i32":0},{"i32":65535},{"i32":2}]},{"do":"call","func":3},
{"do":"call","func":2,"args":[{"i32":0},{"i32":0},{"i32":5}]},
{"do":"call","func":2,"args":[{"i32":0},{"i32":1},{"i32":5}]},
{"do":"memory_read","memory":6,"at":0,"len":6},{"do":"call","func":4,"args":[{"i32":1}]},
{"do":"call","func":4,"args":[{"i32":3}]},{"do":"call","func":4,"args":[{"i32":2}]},
{"do":"call","func":3},{"do":"call","func":5,"args":[{"i32":7}]},
{"do":"call","func":5,"args":[{"i32":8}]},{"do":"memory_read","memory":7,"at":0,"len":8}]}"#,
        "ok instance 0
ok func 0
ok func 1
ok func 2
ok func 3
ok func 4
ok memory 0
ok memory 1
ok
ok values
trap MemoryOutOfBounds
trap MemoryOutOfBounds
ok values i32:5
ok values
trap MemoryOutOfBounds
ok bytes 00cafe000000
ok values i32:5
ok values i32:-1
ok values i32:6
ok values i32:8
ok values i32:0
trap MemoryOutOfBounds
ok bytes 00cafe0000000000
",
    ),
];

/// Elements, sizes, growths, fills and copies; a start value.
const TABLES: [(&str, &str); 2] = [
    (
        r#"{"types":[
{"params":["i32"],"results":["externref"]},{"params":["i32","externref"]},{"results":["i32"]},
{"params":["externref","i32"],"results":["i32"]},{"params":["i32","externref","i32"]},
{"params":["i32","i32","i32"]}],
"modules":[{"tables":[{"ref":"externref","min":4,"max":6},{"ref":"externref","min":2}],
"functions":[
{"type":0,"code":[["local.get",0],["table.get",0]]},
{"type":1,"code":[["local.get",0],["local.get",1],["table.set",0]]},
{"type":2,"code":[["table.size",0]]},
{"type":3,"code":[["local.get",0],["local.get",1],["table.grow",0]]},
{"type":4,"code":[["local.get",0],["local.get",1],["local.get",2],["table.fill",0]]},
{"type":5,"code":[["local.get",0],["local.get",1],["local.get",2],["table.copy",0,0]]},
{"type":5,"code":[["local.get",0],["local.get",1],["local.get",2],["table.copy",1,0]]}],
"exports":[
{"name":"0","func":0},{"name":"1","func":1},{"name":"2","func":2},{"name":"3","func":3},
{"name":"4","func":4},{"name":"5","func":5},{"name":"6","func":6},{"name":"t0","table":0},
{"name":"t1","table":1}]}],
"commands":[
{"do":"instantiate","module":0},{"do":"get_export","instance":0,"name":"0"},
{"do":"get_export","instance":0,"name":"1"},{"do":"get_export","instance":0,"name":"2"},
{"do":"get_export","instance":0,"name":"3"},{"do":"get_export","instance":0,"name":"4"},
{"do":"get_export","instance":0,"name":"5"},{"do":"get_export","instance":0,"name":"6"},
{"do":"get_export","instance":0,"name":"t0"},{"do":"get_export","instance":0,"name":"t1"},
{"do":"call","func":1,"args":[{"i32":0}]},{"do":"call","func":2,"args":[{"i32":0},{"extern":10}]},
{"do":"call","func":2,"args":[{"i32":3},{"extern":13}]},
{"do":"call","func":2,"args":[{"i32":4},{"extern":14}]},
{"do":"call","func":2,"args":[{"i32":-1},{"extern":14}]},{"do":"call","func":1,"args":[{"i32":3}]},
{"do":"call","func":1,"args":[{"i32":4}]},{"do":"call","func":1,"args":[{"i32":-1}]},
{"do":"call","func":3},{"do":"call","func":4,"args":[{"extern":7},{"i32":2}]},
{"do":"call","func":4,"args":[{"extern":8},{"i32":1}]},
{"do":"call","func":4,"args":[{"extern":8},{"i32":-1}]},
{"do":"call","func":4,"args":[{"extern":8},{"i32":0}]},{"do":"call","func":3},
{"do":"call","func":1,"args":[{"i32":4}]},{"do":"call","func":1,"args":[{"i32":5}]},
{"do":"call","func":1,"args":[{"i32":6}]},
{"do":"call","func":5,"args":[{"i32":1},{"extern":1},{"i32":2}]},
{"do":"call","func":5,"args":[{"i32":6},{"extern":2},{"i32":0}]},
{"do":"call","func":5,"args":[{"i32":7},{"extern":2},{"i32":0}]},
{"do":"call","func":5,"args":[{"i32":5},{"extern":2},{"i32":2}]},
{"do":"call","func":5,"args":[{"i32":0},{"extern":2},{"i32":-1}]},
{"do":"call","func":1,"args":[{"i32":2}]},{"do":"call","func":1,"args":[{"i32":5}]},
{"do":"call","func":2,"args":[{"i32":1},{"extern":11}]},
{"do":"call","func":2,"args":[{"i32":2},{"extern":12}]},
{"do":"call","func":6,"args":[{"i32":1},{"i32":0},{"i32":3}]},{"do":"table_get","table":8,"at":1},
{"do":"table_get","table":8,"at":2},{"do":"table_get","table":8,"at":3},
{"do":"call","func":6,"args":[{"i32":0},{"i32":1},{"i32":4}]},{"do":"table_get","table":8,"at":0},
{"do":"table_get","table":8,"at":3},{"do":"call","func":6,"args":[{"i32":6},{"i32":6},{"i32":0}]},
{"do":"call","func":6,"args":[{"i32":7},{"i32":0},{"i32":0}]},
{"do":"call","func":6,"args":[{"i32":0},{"i32":7},{"i32":0}]},
{"do":"call","func":6,"args":[{"i32":5},{"i32":0},{"i32":2}]},
{"do":"call","func":6,"args":[{"i32":0},{"i32":5},{"i32":2}]},
{"do":"call","func":6,"args":[{"i32":0},{"i32":0},{"i32":-1}]},
{"do":"call","func":7,"args":[{"i32":0},{"i32":3},{"i32":2}]},
{"do":"call","func":7,"args":[{"i32":1},{"i32":0},{"i32":2}]},{"do":"table_get","table":9,"at":0},
{"do":"table_get","table":9,"at":1}]}"#,
        "ok instance 0
ok func 0
ok func 1
ok func 2
ok func 3
ok func 4
ok func 5
ok func 6
ok table 0
ok table 1
ok values externref:null
ok values
ok values
trap TableOutOfBounds
trap TableOutOfBounds
ok values externref:13
trap TableOutOfBounds
trap TableOutOfBounds
ok values i32:4
ok values i32:4
ok values i32:-1
ok values i32:-1
ok values i32:6
ok values i32:6
ok values externref:7
ok values externref:7
trap TableOutOfBounds
ok values
ok values
trap TableOutOfBounds
trap TableOutOfBounds
trap TableOutOfBounds
ok values externref:1
ok values externref:7
ok values
ok values
ok values
ok values externref:10
ok values externref:11
ok values externref:12
ok values
ok values externref:10
ok values externref:7
ok values
trap TableOutOfBounds
trap TableOutOfBounds
trap TableOutOfBounds
trap TableOutOfBounds
trap TableOutOfBounds
ok values
trap TableOutOfBounds
ok values externref:7
ok values externref:7
",
    ),
    (
        r#"{"types":[{"results":["i32"]},{"params":["i32"],"results":["i32"]}],
"modules":[{"tables":[{"ref":"funcref","min":2,"init":["ref.func",0]}],
"functions":[
{"type":0,"code":[["i32.const",7]]},
{"type":1,"code":[["local.get",0],["call_indirect",0,0]]}],
"exports":[{"name":"0","func":0},{"name":"1","func":1},{"name":"t0","table":0}]}],
"commands":[
{"do":"instantiate","module":0},{"do":"get_export","instance":0,"name":"0"},
{"do":"get_export","instance":0,"name":"1"},{"do":"get_export","instance":0,"name":"t0"},
{"do":"call","func":2,"args":[{"i32":0}]},{"do":"call","func":2,"args":[{"i32":1}]},
{"do":"call","func":2,"args":[{"i32":2}]},{"do":"table_get","table":3,"at":1}]}"#,
        "ok instance 0
ok func 0
ok func 1
ok table 0
ok values i32:7
ok values i32:7
trap TableOutOfBounds
ok values funcref:0
",
    ),
];

#[test]
fn instructions_on_objects_do_what_another_engine_does(rt: HostRuntime) {
    let alloc = rt.alloc();
    check_lines(&rt, alloc, &LOADS);
    check_lines(&rt, alloc, &STORES);
    check_lines(&rt, alloc, &MEMORIES);
    check_lines(&rt, alloc, &TABLES);
}
