//! Instances over the exports of others: what the two share, and what each has of its own.

use crate::tests::{Session, check_sessions};

/// A module with one of each kind, and one that imports and uses them: its function calls the function, adds to the
/// global, writes the memory and puts a function of its own into the table.
const NEIGHBOURS: &str = r#""types":[{"params":["i32"],"results":["i32"]},{"params":["i32"]},{}],
"modules":[{"functions":[{"type":0,"code":[["local.get",0],["i32.const",2],["i32.mul"]]},
{"type":0,"code":[["local.get",0],["i32.const",0],["call_indirect",0,0]]}],
"tables":[{"ref":"funcref","min":2}],"memories":[{"min":1}],
"globals":[{"val":"i32","mut":true,"init":["i32.const",5]}],"tags":[1],
"exports":[{"name":"double","func":0},{"name":"first","func":1},{"name":"t","table":0},{"name":"m","memory":0},
{"name":"g","global":0},{"name":"e","tag":0}]},
{"imports":[{"module":"a","name":"double","func":0},{"module":"a","name":"t","table":{"ref":"funcref","min":2}},
{"module":"a","name":"m","memory":{"min":1}},{"module":"a","name":"g","global":{"val":"i32","mut":true}},
{"module":"a","name":"e","tag":1}],
"functions":[{"type":0,"code":[["local.get",0],["call",0],["global.get",0],["i32.add"],["global.set",0],
["i32.const",8],["global.get",0],["i32.store",0,0],["i32.const",0],["ref.func",2],["table.set",0],["global.get",0]]},
{"type":0,"code":[["local.get",0],["i32.const",100],["i32.add"]]}],
"exports":[{"name":"use","func":1},{"name":"double","func":0},{"name":"e","tag":0},{"name":"m","memory":0},
{"name":"own","func":2}]}]"#;

/// A module with a function, a global, a memory and a table, all exported.
const LOOKED_UP: &str = r#""types":[{"results":["i32"]}],
"modules":[{"functions":[{"type":0,"code":[["global.get",0]]}],"tables":[{"ref":"externref","min":1}],
"memories":[{"min":1}],"globals":[{"val":"i32","mut":true,"init":["i32.const",1]},
{"val":"i64","init":["i64.const",2]}],
"exports":[{"name":"f","func":0},{"name":"g","global":0},{"name":"m","memory":0},{"name":"t","table":0},
{"name":"c","global":1},{"name":"f again","func":0}]}]"#;

/// Globals whose first values come from imported and from earlier globals, a table that begins with an imported
/// function, and one that begins with the instance's own.
const FIRST_VALUES: &str = r#""types":[{"results":["i32"]}],
"modules":[{"imports":[{"module":"h","name":"n","global":{"val":"i32"}},
{"module":"h","name":"r","global":{"val":"funcref"}},
{"module":"h","name":"f","func":0}],
"functions":[{"type":0,"code":[["i32.const",3]]}],
"tables":[{"ref":"funcref","min":2,"init":["global.get",1]},{"ref":"funcref","min":1,"init":["ref.func",1]},
{"ref":"funcref","min":1}],
"globals":[{"val":"i32","init":["global.get",0]},{"val":"i32","mut":true,"init":["global.get",2]},
{"val":"funcref","init":["ref.func",1]},{"val":"funcref","init":["global.get",4]},{"val":"f32","init":["f32.bits",1]},
{"val":"externref","init":["ref.null","extern"]}],
"exports":[{"name":"a","global":2},{"name":"b","global":3},{"name":"c","global":4},{"name":"d","global":5},
{"name":"x","table":0},{"name":"y","table":1},{"name":"z","table":2},{"name":"n","global":0},{"name":"r","global":1},
{"name":"f","func":0},{"name":"e","global":6},{"name":"w","global":7}]}]"#;

/// One memory that is imported twice, one table that is imported twice, and code that copies from the one to the other.
const SAME: &str = r#""types":[{}],
"modules":[{"imports":[{"module":"h","name":"m","memory":{"min":1}},{"module":"h","name":"n","memory":{"min":1}},
{"module":"h","name":"t","table":{"ref":"funcref","min":4}},
{"module":"h","name":"u","table":{"ref":"funcref","min":4}}],
"functions":[{"type":0,"code":[["i32.const",1],["i32.const",0],["i32.const",3],["memory.copy",0,1],
["i32.const",0],["ref.func",0],["table.set",1],["i32.const",1],["i32.const",0],["i32.const",3],["table.copy",0,1]]}],
"exports":[{"name":"f","func":0}]}]"#;

/// What each session shows, its members, and its commands with their lines.
const SESSIONS: [Session; 4] = [
    (
        "a module uses each kind of its neighbour",
        NEIGHBOURS,
        r#"{"do":"instantiate","module":0} => ok instance 0
{"do":"get_export","instance":0,"name":"double"} => ok func 0
{"do":"get_export","instance":0,"name":"t"} => ok table 0
{"do":"get_export","instance":0,"name":"m"} => ok memory 0
{"do":"get_export","instance":0,"name":"g"} => ok global 0
{"do":"get_export","instance":0,"name":"e"} => ok tag 0
{"do":"instantiate","module":1,"imports":[1,2,3,4,5]} => ok instance 1
{"do":"get_export","instance":6,"name":"use"} => ok func 2
{"do":"get_export","instance":6,"name":"double"} => ok func 0
{"do":"get_export","instance":6,"name":"e"} => ok tag 0
{"do":"get_export","instance":6,"name":"m"} => ok memory 0
{"do":"get_export","instance":6,"name":"own"} => ok func 3
{"do":"get_export","instance":6,"name":"g"} => refused NoExport
{"do":"get_export","instance":0,"name":"first"} => ok func 1
{"do":"call","func":13,"args":[{"i32":1}]} => trap IndirectCallToNull
{"do":"call","func":7,"args":[{"i32":10}]} => ok values i32:25
{"do":"global_get","global":4} => ok values i32:25
{"do":"memory_read","memory":3,"at":8,"len":4} => ok bytes 19000000
{"do":"table_get","table":2,"at":0} => ok values funcref:3
{"do":"call","func":13,"args":[{"i32":1}]} => ok values i32:101
{"do":"call","func":8,"args":[{"i32":21}]} => ok values i32:42
{"do":"global_set","global":4,"value":{"i32":1}} => ok
{"do":"memory_write","memory":10,"at":8,"bytes":"ff"} => ok
{"do":"memory_read","memory":3,"at":8,"len":1} => ok bytes ff
{"do":"call","func":7,"args":[{"i32":0}]} => ok values i32:1"#,
    ),
    (
        "two look ups of an export are one object",
        LOOKED_UP,
        r#"{"do":"instantiate","module":0} => ok instance 0
{"do":"get_export","instance":0,"name":"f"} => ok func 0
{"do":"get_export","instance":0,"name":"f"} => ok func 0
{"do":"get_export","instance":0,"name":"f again"} => ok func 0
{"do":"get_export","instance":0,"name":"g"} => ok global 0
{"do":"get_export","instance":0,"name":"g"} => ok global 0
{"do":"get_export","instance":0,"name":"m"} => ok memory 0
{"do":"get_export","instance":0,"name":"m"} => ok memory 0
{"do":"get_export","instance":0,"name":"t"} => ok table 0
{"do":"get_export","instance":0,"name":"t"} => ok table 0
{"do":"get_export","instance":0,"name":"c"} => ok global 1
{"do":"global_set","global":4,"value":{"i32":9}} => ok
{"do":"global_get","global":5} => ok values i32:9
{"do":"memory_write","memory":6,"at":65535,"bytes":"7f"} => ok
{"do":"memory_read","memory":7,"at":65535,"len":1} => ok bytes 7f
{"do":"table_set","table":8,"at":0,"value":{"extern":4}} => ok
{"do":"table_get","table":9,"at":0} => ok values externref:4
{"do":"table_grow","table":9,"delta":1,"value":{"extern":5}} => ok 1
{"do":"table_size","table":8} => ok 2
{"do":"global_set","global":10,"value":{"i64":3}} => refused ImmutableGlobal
{"do":"global_get","global":10} => ok values i64:2
{"do":"get_export","instance":0,"name":"h"} => refused NoExport
{"do":"get_export","instance":0,"name":""} => refused NoExport
{"do":"get_export","instance":0,"name":"f "} => refused NoExport
{"do":"instantiate","module":0} => ok instance 1
{"do":"get_export","instance":24,"name":"f"} => ok func 1
{"do":"get_export","instance":24,"name":"g"} => ok global 2
{"do":"get_export","instance":24,"name":"m"} => ok memory 1
{"do":"get_export","instance":24,"name":"t"} => ok table 1
{"do":"get_export","instance":24,"name":"c"} => ok global 3
{"do":"global_get","global":26} => ok values i32:1
{"do":"memory_read","memory":27,"at":65535,"len":1} => ok bytes 00
{"do":"table_get","table":28,"at":0} => ok values externref:null
{"do":"call","func":25} => ok values i32:1
{"do":"call","func":2} => ok values i32:9"#,
    ),
    (
        "first values come from imports and earlier globals",
        FIRST_VALUES,
        r#"{"do":"func_new","type":0,"body":0} => ok func 0
{"do":"global_new","val":"i32","init":{"i32":-9}} => ok global 0
{"do":"global_new","val":"funcref","init":{"name":0}} => ok global 1
{"do":"instantiate","module":0,"imports":[1,2,0]} => ok instance 0
{"do":"get_export","instance":3,"name":"a"} => ok global 2
{"do":"global_get","global":4} => ok values i32:-9
{"do":"get_export","instance":3,"name":"b"} => ok global 3
{"do":"global_get","global":6} => ok values i32:-9
{"do":"get_export","instance":3,"name":"c"} => ok global 4
{"do":"global_get","global":8} => ok values funcref:1
{"do":"get_export","instance":3,"name":"d"} => ok global 5
{"do":"global_get","global":10} => ok values funcref:1
{"do":"get_export","instance":3,"name":"x"} => ok table 0
{"do":"table_get","table":12,"at":1} => ok values funcref:0
{"do":"get_export","instance":3,"name":"y"} => ok table 1
{"do":"table_get","table":14,"at":0} => ok values funcref:1
{"do":"call","func":{"value":[15,0]}} => ok values i32:3
{"do":"get_export","instance":3,"name":"z"} => ok table 2
{"do":"table_get","table":17,"at":0} => ok values funcref:null
{"do":"get_export","instance":3,"name":"n"} => ok global 0
{"do":"get_export","instance":3,"name":"r"} => ok global 1
{"do":"get_export","instance":3,"name":"f"} => ok func 0
{"do":"call","func":21} => refused NoHostBody
{"do":"get_export","instance":3,"name":"e"} => ok global 6
{"do":"global_get","global":23} => ok values f32:00000001
{"do":"get_export","instance":3,"name":"w"} => ok global 7
{"do":"global_get","global":25} => ok values externref:null"#,
    ),
    (
        "one object may stand for two imports",
        SAME,
        r#"{"do":"memory_new","min":1} => ok memory 0
{"do":"memory_write","memory":0,"at":0,"bytes":"010203"} => ok
{"do":"table_new","ref":"funcref","min":4,"init":{"func":null}} => ok table 0
{"do":"instantiate","module":0,"imports":[0,0,2,2]} => ok instance 0
{"do":"get_export","instance":3,"name":"f"} => ok func 0
{"do":"call","func":4} => ok values
{"do":"memory_read","memory":0,"at":0,"len":5} => ok bytes 0101020300
{"do":"table_get","table":2,"at":0} => ok values funcref:0
{"do":"table_get","table":2,"at":1} => ok values funcref:0
{"do":"table_get","table":2,"at":2} => ok values funcref:null"#,
    ),
];

#[test]
fn instances_are_linked_as_is_said(rt: HostRuntime) {
    check_sessions(&rt, rt.alloc(), &SESSIONS);
}
