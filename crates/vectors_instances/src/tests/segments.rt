//! Segments: where they end, what is dropped, and the four instructions on them.

use crate::tests::{Session, check_sessions};

/// Data segments at the end of a page, one past it, and empty ones there, over a memory and a place that are imported.
const DATA_ENDS: &str = r#""modules":[{"imports":[{"module":"h","name":"m","memory":{"min":1}},
{"module":"h","name":"at","global":{"val":"i32"}}],
"datas":[{"bytes":"aabb","memory":0,"offset":["global.get",0]}]},
{"imports":[{"module":"h","name":"m","memory":{"min":1}},{"module":"h","name":"at","global":{"val":"i32"}}],
"datas":[{"bytes":"","memory":0,"offset":["global.get",0]}]}]"#;

/// The same of element segments and a table of three.
const ELEMENT_ENDS: &str = r#""types":[{}],
"modules":[{"imports":[{"module":"h","name":"t","table":{"ref":"funcref","min":3}},
{"module":"h","name":"at","global":{"val":"i32"}}],
"functions":[{"type":0}],
"elements":[{"ref":"funcref","table":0,"offset":["global.get",0],"items":[["ref.func",0],["ref.func",0]]}]},
{"imports":[{"module":"h","name":"t","table":{"ref":"funcref","min":3}},
{"module":"h","name":"at","global":{"val":"i32"}}],
"elements":[{"ref":"funcref","table":0,"offset":["global.get",0],"items":[]}]}]"#;

/// Two element segments of which the second passes the end, and data segments behind them; the same of data segments.
const ORDER: &str = r#""types":[{"params":["i32","i32"]}],
"modules":[{"imports":[{"module":"h","name":"t","table":{"ref":"funcref","min":2}},
{"module":"h","name":"m","memory":{"min":1}}],
"functions":[{"type":0}],
"datas":[{"bytes":"01","memory":0,"offset":["i32.const",0]}],
"elements":[{"ref":"funcref","table":0,"offset":["i32.const",0],"items":[["ref.func",0]]},
{"ref":"funcref","table":0,"offset":["i32.const",1],"items":[["ref.func",0],["ref.func",0]]}]},
{"imports":[{"module":"h","name":"t","table":{"ref":"funcref","min":2}},{"module":"h","name":"m","memory":{"min":1}}],
"functions":[{"type":0,"code":[["local.get",0],["i32.const",0],["local.get",1],["memory.init",0,1]]},
{"type":0,"code":[["local.get",0],["i32.const",0],["local.get",1],["memory.init",0,2]]}],
"elements":[{"ref":"funcref","table":0,"offset":["i32.const",0],"items":[["ref.func",0],["ref.func",1]]}],
"datas":[{"bytes":"0102","memory":0,"offset":["i32.const",0]},
{"bytes":"0304","memory":0,"offset":["i32.const",65535]},
{"bytes":"0506","memory":0,"offset":["i32.const",1]}]}]"#;

/// A passive data segment and an active one, with a function for each instruction on each.
const DATAS: &str = r#""types":[{"params":["i32","i32","i32"]},{}],
"modules":[{"memories":[{"min":1}],
"datas":[{"bytes":"0a0b0c0d"},{"bytes":"ee","memory":0,"offset":["i32.const",7]}],
"functions":[{"type":0,"code":[["local.get",0],["local.get",1],["local.get",2],["memory.init",0,0]]},
{"type":1,"code":[["data.drop",0]]},
{"type":0,"code":[["local.get",0],["local.get",1],["local.get",2],["memory.init",0,1]]},
{"type":1,"code":[["data.drop",1]]}],
"exports":[{"name":"init","func":0},{"name":"drop","func":1},{"name":"init active","func":2},
{"name":"drop active","func":3},
{"name":"m","memory":0}]}]"#;

/// A passive element segment, a declared one and an active one, with a function for each instruction on each.
const ELEMENTS: &str = r#""types":[{"params":["i32","i32","i32"]},{},{"results":["i32"]}],
"modules":[{"imports":[{"module":"h","name":"f","global":{"val":"funcref"}}],"tables":[{"ref":"funcref","min":4}],
"elements":[{"ref":"funcref","items":[["ref.func",6],["ref.null","func"],["global.get",0]]},
{"ref":"funcref","items":[["ref.func",6]],"declared":true},
{"ref":"funcref","table":0,"offset":["i32.const",3],"items":[["ref.func",6]]}],
"functions":[{"type":0,"code":[["local.get",0],["local.get",1],["local.get",2],["table.init",0,0]]},
{"type":1,"code":[["elem.drop",0]]},
{"type":0,"code":[["local.get",0],["local.get",1],["local.get",2],["table.init",0,1]]},
{"type":1,"code":[["elem.drop",1]]},
{"type":0,"code":[["local.get",0],["local.get",1],["local.get",2],["table.init",0,2]]},
{"type":1,"code":[["elem.drop",2]]},{"type":2,"code":[["i32.const",6]]}],
"exports":[{"name":"init","func":0},{"name":"drop","func":1},{"name":"init declared","func":2},
{"name":"drop declared","func":3},{"name":"init active","func":4},{"name":"drop active","func":5},
{"name":"t","table":0}]}]"#;

/// A segment of functions over a table of any function, and one of numbers of the host over a table of them.
const KINDS: &str = r#""types":[{},{"params":["i32"],"results":["i32"]}],
"modules":[{"imports":[{"module":"h","name":"e","global":{"val":"externref"}}],
"functions":[{"type":0},{"type":1,"code":[["local.get",0],["table.get",0],["ref.is_null"]]}],
"tables":[{"ref":{"ref":0},"min":3},{"ref":"externref","min":3}],
"elements":[{"ref":{"ref":0,"null":false},"table":0,"offset":["i32.const",1],"items":[["ref.func",0]]},
{"ref":"externref","table":1,"offset":["i32.const",2],"items":[["global.get",0]]}],
"exports":[{"name":"f","func":1},{"name":"t","table":1}]}]"#;

/// What each session shows, its members, and its commands with their lines.
const SESSIONS: [Session; 6] = [
    (
        "a data segment ends at the end of the memory",
        DATA_ENDS,
        r#"{"do":"memory_new","min":1} => ok memory 0
{"do":"global_new","val":"i32","init":{"i32":65534}} => ok global 0
{"do":"global_new","val":"i32","init":{"i32":65535}} => ok global 1
{"do":"global_new","val":"i32","init":{"i32":65536}} => ok global 2
{"do":"global_new","val":"i32","init":{"i32":65537}} => ok global 3
{"do":"global_new","val":"i32","init":{"i32":-1}} => ok global 4
{"do":"instantiate","module":0,"imports":[0,2]} => trap MemoryOutOfBounds
{"do":"memory_read","memory":0,"at":65534,"len":2} => ok bytes 0000
{"do":"instantiate","module":0,"imports":[0,1]} => ok instance 1
{"do":"memory_read","memory":0,"at":65532,"len":4} => ok bytes 0000aabb
{"do":"instantiate","module":0,"imports":[0,3]} => trap MemoryOutOfBounds
{"do":"instantiate","module":0,"imports":[0,5]} => trap MemoryOutOfBounds
{"do":"instantiate","module":1,"imports":[0,3]} => ok instance 4
{"do":"instantiate","module":1,"imports":[0,4]} => trap MemoryOutOfBounds
{"do":"instantiate","module":1,"imports":[0,5]} => trap MemoryOutOfBounds
{"do":"memory_read","memory":0,"at":0,"len":4} => ok bytes 00000000"#,
    ),
    (
        "an element segment ends at the end of the table",
        ELEMENT_ENDS,
        r#"{"do":"table_new","ref":"funcref","min":3,"init":{"func":null}} => ok table 0
{"do":"global_new","val":"i32","init":{"i32":1}} => ok global 0
{"do":"global_new","val":"i32","init":{"i32":2}} => ok global 1
{"do":"global_new","val":"i32","init":{"i32":3}} => ok global 2
{"do":"global_new","val":"i32","init":{"i32":4}} => ok global 3
{"do":"global_new","val":"i32","init":{"i32":-1}} => ok global 4
{"do":"instantiate","module":0,"imports":[0,2]} => trap TableOutOfBounds
{"do":"table_get","table":0,"at":2} => ok values funcref:null
{"do":"instantiate","module":0,"imports":[0,1]} => ok instance 1
{"do":"table_get","table":0,"at":0} => ok values funcref:null
{"do":"table_get","table":0,"at":1} => ok values funcref:1
{"do":"table_get","table":0,"at":2} => ok values funcref:1
{"do":"instantiate","module":0,"imports":[0,3]} => trap TableOutOfBounds
{"do":"instantiate","module":0,"imports":[0,5]} => trap TableOutOfBounds
{"do":"instantiate","module":1,"imports":[0,3]} => ok instance 4
{"do":"instantiate","module":1,"imports":[0,4]} => trap TableOutOfBounds
{"do":"instantiate","module":1,"imports":[0,5]} => trap TableOutOfBounds"#,
    ),
    (
        "element segments come before data segments and each in order",
        ORDER,
        r#"{"do":"table_new","ref":"funcref","min":2,"init":{"func":null}} => ok table 0
{"do":"memory_new","min":1} => ok memory 0
{"do":"instantiate","module":0,"imports":[0,1]} => trap TableOutOfBounds
{"do":"memory_read","memory":1,"at":0,"len":1} => ok bytes 00
{"do":"table_get","table":0,"at":0} => ok values funcref:0
{"do":"table_get","table":0,"at":1} => ok values funcref:null
{"do":"instantiate","module":1,"imports":[0,1]} => trap MemoryOutOfBounds
{"do":"memory_read","memory":1,"at":0,"len":3} => ok bytes 010200
{"do":"memory_read","memory":1,"at":65535,"len":1} => ok bytes 00
{"do":"table_get","table":0,"at":0} => ok values funcref:1
{"do":"table_get","table":0,"at":1} => ok values funcref:2
{"do":"call","func":{"value":[9,0]},"args":[{"i32":16},{"i32":2}]} => ok values
{"do":"call","func":{"value":[10,0]},"args":[{"i32":18},{"i32":2}]} => ok values
{"do":"memory_read","memory":1,"at":16,"len":4} => ok bytes 03040506"#,
    ),
    (
        "a data segment is empty once it is dropped",
        DATAS,
        r#"{"do":"instantiate","module":0} => ok instance 0
{"do":"get_export","instance":0,"name":"init"} => ok func 0
{"do":"get_export","instance":0,"name":"drop"} => ok func 1
{"do":"get_export","instance":0,"name":"init active"} => ok func 2
{"do":"get_export","instance":0,"name":"drop active"} => ok func 3
{"do":"get_export","instance":0,"name":"m"} => ok memory 0
{"do":"memory_read","memory":5,"at":6,"len":3} => ok bytes 00ee00
{"do":"call","func":1,"args":[{"i32":65533},{"i32":1},{"i32":3}]} => ok values
{"do":"memory_read","memory":5,"at":65532,"len":4} => ok bytes 000b0c0d
{"do":"call","func":1,"args":[{"i32":65534},{"i32":1},{"i32":3}]} => trap MemoryOutOfBounds
{"do":"call","func":1,"args":[{"i32":0},{"i32":2},{"i32":3}]} => trap MemoryOutOfBounds
{"do":"call","func":1,"args":[{"i32":65536},{"i32":4},{"i32":0}]} => ok values
{"do":"call","func":1,"args":[{"i32":65537},{"i32":0},{"i32":0}]} => trap MemoryOutOfBounds
{"do":"call","func":1,"args":[{"i32":0},{"i32":5},{"i32":0}]} => trap MemoryOutOfBounds
{"do":"call","func":1,"args":[{"i32":-1},{"i32":0},{"i32":2}]} => trap MemoryOutOfBounds
{"do":"call","func":1,"args":[{"i32":0},{"i32":-1},{"i32":2}]} => trap MemoryOutOfBounds
{"do":"call","func":1,"args":[{"i32":0},{"i32":0},{"i32":4}]} => ok values
{"do":"call","func":2} => ok values
{"do":"call","func":2} => ok values
{"do":"call","func":1,"args":[{"i32":0},{"i32":0},{"i32":1}]} => trap MemoryOutOfBounds
{"do":"call","func":1,"args":[{"i32":0},{"i32":1},{"i32":0}]} => trap MemoryOutOfBounds
{"do":"call","func":1,"args":[{"i32":65536},{"i32":0},{"i32":0}]} => ok values
{"do":"call","func":3,"args":[{"i32":0},{"i32":0},{"i32":1}]} => trap MemoryOutOfBounds
{"do":"call","func":3,"args":[{"i32":0},{"i32":0},{"i32":0}]} => ok values
{"do":"call","func":4} => ok values
{"do":"memory_read","memory":5,"at":0,"len":9} => ok bytes 0a0b0c0d000000ee00
{"do":"instantiate","module":0} => ok instance 1
{"do":"get_export","instance":26,"name":"init"} => ok func 4
{"do":"call","func":27,"args":[{"i32":0},{"i32":0},{"i32":4}]} => ok values"#,
    ),
    (
        "an element segment is empty once it is dropped",
        ELEMENTS,
        r#"{"do":"func_new","type":1,"body":0} => ok func 0
{"do":"global_new","val":"funcref","init":{"name":0}} => ok global 0
{"do":"instantiate","module":0,"imports":[1]} => ok instance 0
{"do":"get_export","instance":2,"name":"init"} => ok func 1
{"do":"get_export","instance":2,"name":"drop"} => ok func 2
{"do":"get_export","instance":2,"name":"init declared"} => ok func 3
{"do":"get_export","instance":2,"name":"drop declared"} => ok func 4
{"do":"get_export","instance":2,"name":"init active"} => ok func 5
{"do":"get_export","instance":2,"name":"drop active"} => ok func 6
{"do":"get_export","instance":2,"name":"t"} => ok table 0
{"do":"table_get","table":9,"at":3} => ok values funcref:7
{"do":"call","func":3,"args":[{"i32":2},{"i32":1},{"i32":2}]} => ok values
{"do":"table_get","table":9,"at":1} => ok values funcref:null
{"do":"table_get","table":9,"at":2} => ok values funcref:null
{"do":"table_get","table":9,"at":3} => ok values funcref:0
{"do":"call","func":3,"args":[{"i32":2},{"i32":0},{"i32":3}]} => trap TableOutOfBounds
{"do":"call","func":3,"args":[{"i32":0},{"i32":1},{"i32":3}]} => trap TableOutOfBounds
{"do":"call","func":3,"args":[{"i32":4},{"i32":3},{"i32":0}]} => ok values
{"do":"call","func":3,"args":[{"i32":5},{"i32":0},{"i32":0}]} => trap TableOutOfBounds
{"do":"call","func":3,"args":[{"i32":0},{"i32":4},{"i32":0}]} => trap TableOutOfBounds
{"do":"call","func":3,"args":[{"i32":-1},{"i32":0},{"i32":2}]} => trap TableOutOfBounds
{"do":"call","func":3,"args":[{"i32":0},{"i32":-1},{"i32":2}]} => trap TableOutOfBounds
{"do":"call","func":3,"args":[{"i32":1},{"i32":0},{"i32":1}]} => ok values
{"do":"table_get","table":9,"at":1} => ok values funcref:7
{"do":"call","func":{"value":[23,0]}} => ok values i32:6
{"do":"call","func":4} => ok values
{"do":"call","func":4} => ok values
{"do":"call","func":3,"args":[{"i32":0},{"i32":0},{"i32":1}]} => trap TableOutOfBounds
{"do":"call","func":3,"args":[{"i32":0},{"i32":1},{"i32":0}]} => trap TableOutOfBounds
{"do":"call","func":3,"args":[{"i32":4},{"i32":0},{"i32":0}]} => ok values
{"do":"call","func":5,"args":[{"i32":0},{"i32":0},{"i32":1}]} => trap TableOutOfBounds
{"do":"call","func":5,"args":[{"i32":0},{"i32":0},{"i32":0}]} => ok values
{"do":"call","func":6} => ok values
{"do":"call","func":7,"args":[{"i32":0},{"i32":0},{"i32":1}]} => trap TableOutOfBounds
{"do":"call","func":8} => ok values
{"do":"table_get","table":9,"at":0} => ok values funcref:null"#,
    ),
    (
        "an active segment fits tables of wider types",
        KINDS,
        r#"{"do":"global_new","val":"externref","init":{"extern":77}} => ok global 0
{"do":"instantiate","module":0,"imports":[0]} => ok instance 0
{"do":"get_export","instance":1,"name":"f"} => ok func 1
{"do":"call","func":2,"args":[{"i32":0}]} => ok values i32:1
{"do":"call","func":2,"args":[{"i32":1}]} => ok values i32:0
{"do":"get_export","instance":1,"name":"t"} => ok table 1
{"do":"table_get","table":5,"at":2} => ok values externref:77
{"do":"table_get","table":5,"at":1} => ok values externref:null"#,
    ),
];

#[test]
fn segments_are_taken_as_is_said(rt: HostRuntime) {
    check_sessions(&rt, rt.alloc(), &SESSIONS);
}
