//! Fuel of bulk instructions: a unit, and one for each byte or element; and the test for fuel that comes before them.

use crate::tests::{Hooked, Session};

/// Two functions that fill a page: 100 bytes, and one more than there are.
const FILLS: &str = r#""engine":{"fuel":true},
"types":[{}],
"modules":[{"memories":[{"min":1}],
"functions":[{"type":0,"code":[["i32.const",0],["i32.const",7],["i32.const",100],["memory.fill",0]]},
{"type":0,"code":[["i32.const",0],["i32.const",7],["i32.const",65537],["memory.fill",0]]}],
"exports":[{"name":"f","func":0},{"name":"g","func":1},{"name":"m","memory":0}]}]"#;

/// A function for each of the six forms, of the length 2, over a memory and a table of six.
const FORMS: &str = r#""engine":{"fuel":true},
"types":[{}],
"modules":[{"memories":[{"min":1}],"tables":[{"ref":"funcref","min":6}],
"functions":[{"type":0,"code":[["i32.const",0],["i32.const",7],["i32.const",2],["memory.fill",0]]},
{"type":0,"code":[["i32.const",2],["i32.const",0],["i32.const",2],["memory.copy",0,0]]},
{"type":0,"code":[["i32.const",4],["i32.const",0],["i32.const",2],["memory.init",0,0]]},
{"type":0,"code":[["i32.const",0],["ref.func",0],["i32.const",2],["table.fill",0]]},
{"type":0,"code":[["i32.const",2],["i32.const",0],["i32.const",2],["table.copy",0,0]]},
{"type":0,"code":[["i32.const",4],["i32.const",0],["i32.const",2],["table.init",0,0]]}],
"datas":[{"bytes":"0a0b"}],"elements":[{"ref":"funcref","items":[["ref.func",4],["ref.func",5]]}],
"exports":[{"name":"a","func":0},{"name":"b","func":1},{"name":"c","func":2},{"name":"d","func":3},
{"name":"e","func":4},{"name":"f","func":5},{"name":"m","memory":0},{"name":"t","table":0}]}]"#;

/// The greatest length, the length 0, and two fills one behind the other.
const LENGTHS: &str = r#""engine":{"fuel":true},
"types":[{}],
"modules":[{"memories":[{"min":1}],
"functions":[{"type":0,"code":[["i32.const",0],["i32.const",7],["i32.const",4294967295],["memory.fill",0]]},
{"type":0,"code":[["i32.const",0],["i32.const",7],["i32.const",0],["memory.fill",0]]},
{"type":0,"code":[["i32.const",0],["i32.const",7],["i32.const",2],["memory.fill",0],
["i32.const",2],["i32.const",7],["i32.const",2],["memory.fill",0]]}],
"exports":[{"name":"most","func":0},{"name":"none","func":1},{"name":"twice","func":2},{"name":"m","memory":0}]}]"#;

/// An engine without fuel.
const WITHOUT_FUEL: &str = r#""types":[{}],
"modules":[{"memories":[{"min":1}],
"functions":[{"type":0,"code":[["i32.const",0],["i32.const",7],["i32.const",4294967295],["memory.fill",0]]},
{"type":0,"code":[["i32.const",0],["i32.const",7],["i32.const",100],["memory.fill",0]]}],
"exports":[{"name":"most","func":0},{"name":"f","func":1},{"name":"m","memory":0}]}]"#;

/// Three turns, which the operands take.
const THREE_TURNS: &str = r#""engine":{"fuel":true,"turns":3},
"types":[{}],
"modules":[{"memories":[{"min":1}],
"functions":[{"type":0,"code":[["i32.const",0],["i32.const",7],["i32.const",2],["memory.fill",0]]}],
"exports":[{"name":"f","func":0},{"name":"m","memory":0}]}]"#;

/// Segments that are written at once, of which the last two have an offset that is imported; and a body of the host that
/// fills a table.
const SEGMENTS: &str = r#""engine":{"fuel":true},
"types":[{}],
"host":[[{"do":{"do":"table_fill","table":{"stored":0},"at":0,"value":{"func":null},"len":6}}]],
"modules":[{"imports":[{"module":"h","name":"g","global":{"val":"i32"}}],
"memories":[{"min":1}],"tables":[{"ref":"funcref","min":6}],"functions":[{"type":0,"code":[]}],
"datas":[{"bytes":"0a0b","memory":0,"offset":["i32.const",0]},{"bytes":"0c0d","memory":0,"offset":["global.get",0]}],
"elements":[{"ref":"funcref","items":[["ref.func",0]],"table":0,"offset":["i32.const",0]},
{"ref":"funcref","items":[["ref.func",0]],"table":0,"offset":["global.get",0]}],
"exports":[{"name":"m","memory":0},{"name":"t","table":0}]}]"#;

/// What each session shows, its members, and its commands with their lines.
pub const SESSIONS: [Session; 6] = [
    (
        "a fill costs a unit and one for each byte, also where it traps",
        FILLS,
        r#"{"do":"instantiate","module":0} => ok instance 0
{"do":"get_export","instance":0,"name":"f"} => ok func 0
{"do":"get_export","instance":0,"name":"m"} => ok memory 0
{"do":"set_fuel","fuel":1000} => ok
{"do":"call","func":1} => ok values
{"do":"get_fuel"} => ok 896
{"do":"memory_read","memory":2,"at":0,"len":2} => ok bytes 0707
{"do":"memory_read","memory":2,"at":98,"len":4} => ok bytes 07070000
{"do":"instantiate","module":0} => ok instance 1
{"do":"get_export","instance":8,"name":"f"} => ok func 2
{"do":"get_export","instance":8,"name":"m"} => ok memory 1
{"do":"set_fuel","fuel":50} => ok
{"do":"call","func":9} => ok values
{"do":"get_fuel"} => ok 0
{"do":"memory_read","memory":10,"at":98,"len":4} => ok bytes 07070000
{"do":"call","func":9} => trap OutOfFuel
{"do":"get_fuel"} => ok 0
{"do":"instantiate","module":0} => ok instance 2
{"do":"get_export","instance":17,"name":"f"} => ok func 4
{"do":"get_export","instance":17,"name":"m"} => ok memory 2
{"do":"set_fuel","fuel":3} => ok
{"do":"call","func":18} => trap OutOfFuel
{"do":"get_fuel"} => ok 0
{"do":"memory_read","memory":19,"at":0,"len":4} => ok bytes 00000000
{"do":"get_export","instance":17,"name":"g"} => ok func 5
{"do":"set_fuel","fuel":100000} => ok
{"do":"call","func":24} => trap MemoryOutOfBounds
{"do":"get_fuel"} => ok 34459
{"do":"memory_read","memory":19,"at":0,"len":4} => ok bytes 00000000"#,
    ),
    (
        "each form asks for fuel, and one unit is enough",
        FORMS,
        r#"{"do":"instantiate","module":0} => ok instance 0
{"do":"get_export","instance":0,"name":"a"} => ok func 0
{"do":"get_export","instance":0,"name":"b"} => ok func 1
{"do":"get_export","instance":0,"name":"c"} => ok func 2
{"do":"get_export","instance":0,"name":"d"} => ok func 3
{"do":"get_export","instance":0,"name":"e"} => ok func 4
{"do":"get_export","instance":0,"name":"f"} => ok func 5
{"do":"get_export","instance":0,"name":"m"} => ok memory 0
{"do":"get_export","instance":0,"name":"t"} => ok table 0
{"do":"set_fuel","fuel":3} => ok
{"do":"call","func":1} => trap OutOfFuel
{"do":"set_fuel","fuel":3} => ok
{"do":"call","func":2} => trap OutOfFuel
{"do":"set_fuel","fuel":3} => ok
{"do":"call","func":3} => trap OutOfFuel
{"do":"set_fuel","fuel":3} => ok
{"do":"call","func":4} => trap OutOfFuel
{"do":"set_fuel","fuel":3} => ok
{"do":"call","func":5} => trap OutOfFuel
{"do":"set_fuel","fuel":3} => ok
{"do":"call","func":6} => trap OutOfFuel
{"do":"memory_read","memory":7,"at":0,"len":6} => ok bytes 000000000000
{"do":"table_get","table":8,"at":0} => ok values funcref:null
{"do":"table_get","table":8,"at":5} => ok values funcref:null
{"do":"set_fuel","fuel":4} => ok
{"do":"call","func":1} => ok values
{"do":"get_fuel"} => ok 0
{"do":"set_fuel","fuel":4} => ok
{"do":"call","func":2} => ok values
{"do":"get_fuel"} => ok 0
{"do":"set_fuel","fuel":4} => ok
{"do":"call","func":3} => ok values
{"do":"get_fuel"} => ok 0
{"do":"set_fuel","fuel":4} => ok
{"do":"call","func":4} => ok values
{"do":"get_fuel"} => ok 0
{"do":"set_fuel","fuel":4} => ok
{"do":"call","func":5} => ok values
{"do":"get_fuel"} => ok 0
{"do":"set_fuel","fuel":4} => ok
{"do":"call","func":6} => ok values
{"do":"get_fuel"} => ok 0
{"do":"memory_read","memory":7,"at":0,"len":6} => ok bytes 070707070a0b
{"do":"table_get","table":8,"at":0} => ok values funcref:0
{"do":"table_get","table":8,"at":3} => ok values funcref:0
{"do":"table_get","table":8,"at":5} => ok values funcref:5
{"do":"set_fuel","fuel":40} => ok
{"do":"call","func":1} => ok values
{"do":"get_fuel"} => ok 34
{"do":"call","func":2} => ok values
{"do":"get_fuel"} => ok 28
{"do":"call","func":3} => ok values
{"do":"get_fuel"} => ok 22
{"do":"call","func":4} => ok values
{"do":"get_fuel"} => ok 16
{"do":"call","func":5} => ok values
{"do":"get_fuel"} => ok 10
{"do":"call","func":6} => ok values
{"do":"get_fuel"} => ok 4"#,
    ),
    (
        "a length has no sign, one of 0 needs fuel, and what one form owes stops the next",
        LENGTHS,
        r#"{"do":"instantiate","module":0} => ok instance 0
{"do":"get_export","instance":0,"name":"most"} => ok func 0
{"do":"get_export","instance":0,"name":"none"} => ok func 1
{"do":"get_export","instance":0,"name":"twice"} => ok func 2
{"do":"get_export","instance":0,"name":"m"} => ok memory 0
{"do":"set_fuel","fuel":4} => ok
{"do":"call","func":1} => trap MemoryOutOfBounds
{"do":"get_fuel"} => ok 0
{"do":"call","func":2} => trap OutOfFuel
{"do":"yield_interval","interval":null} => ok
{"do":"get_fuel"} => ok 0
{"do":"set_fuel","fuel":4294967300} => ok
{"do":"call","func":1} => trap MemoryOutOfBounds
{"do":"get_fuel"} => ok 1
{"do":"set_fuel","fuel":3} => ok
{"do":"call","func":2} => trap OutOfFuel
{"do":"set_fuel","fuel":4} => ok
{"do":"call","func":2} => ok values
{"do":"get_fuel"} => ok 0
{"do":"set_fuel","fuel":4} => ok
{"do":"call","func":3} => trap OutOfFuel
{"do":"get_fuel"} => ok 0
{"do":"memory_read","memory":4,"at":0,"len":4} => ok bytes 07070000"#,
    ),
    (
        "an engine without fuel charges nothing",
        WITHOUT_FUEL,
        r#"{"do":"instantiate","module":0} => ok instance 0
{"do":"get_export","instance":0,"name":"most"} => ok func 0
{"do":"get_export","instance":0,"name":"f"} => ok func 1
{"do":"get_export","instance":0,"name":"m"} => ok memory 0
{"do":"call","func":1} => trap MemoryOutOfBounds
{"do":"call","func":2} => ok values
{"do":"memory_read","memory":3,"at":98,"len":4} => ok bytes 07070000
{"do":"get_fuel"} => refused FuelNotConfigured"#,
    ),
    (
        "fuel is tested before the turns that are left",
        THREE_TURNS,
        r#"{"do":"instantiate","module":0} => ok instance 0
{"do":"get_export","instance":0,"name":"f"} => ok func 0
{"do":"get_export","instance":0,"name":"m"} => ok memory 0
{"do":"set_fuel","fuel":3} => ok
{"do":"call","func":1} => trap OutOfFuel
{"do":"get_fuel"} => ok 0
{"do":"set_fuel","fuel":4} => ok
{"do":"call","func":1} => refused TurnLimit
{"do":"get_fuel"} => ok 1
{"do":"memory_read","memory":2,"at":0,"len":2} => ok bytes 0000"#,
    ),
    (
        "segments that are written at once and fills by the host cost nothing",
        SEGMENTS,
        r#"{"do":"global_new","val":"i32","init":{"i32":3}} => ok global 0
{"do":"instantiate","module":0,"imports":[0]} => ok instance 0
{"do":"get_fuel"} => ok 0
{"do":"set_fuel","fuel":5} => ok
{"do":"instantiate","module":0,"imports":[0]} => ok instance 1
{"do":"get_fuel"} => ok 5
{"do":"get_export","instance":4,"name":"m"} => ok memory 1
{"do":"memory_read","memory":6,"at":0,"len":6} => ok bytes 0a0b000c0d00
{"do":"get_export","instance":4,"name":"t"} => ok table 1
{"do":"table_get","table":8,"at":3} => ok values funcref:1
{"do":"table_fill","table":8,"at":0,"value":{"name":{"value":[9,0]}},"len":6} => ok
{"do":"get_fuel"} => ok 5
{"do":"func_new","type":0,"body":0,"stored":[8]} => ok func 2
{"do":"call","func":12} => ok values
{"do":"get_fuel"} => ok 5
{"do":"table_get","table":8,"at":3} => ok values funcref:null"#,
    ),
];

/// Four turns: the hook's, and those of the operands.
const FOUR_TURNS: &str = r#""engine":{"fuel":true,"turns":4},
"data":{"hook":[]},
"types":[{}],
"modules":[{"memories":[{"min":1}],
"functions":[{"type":0,"code":[["i32.const",0],["i32.const",7],["i32.const",2],["memory.fill",0]]}],
"exports":[{"name":"f","func":0}]}]"#;

/// The same with a hook, for which there is no turn behind the trap.
pub const HOOKED: [Hooked; 1] = [(
    "a hook has no turn behind a form that found no fuel",
    FOUR_TURNS,
    r#"{"do":"instantiate","module":0} => ok instance 0
{"do":"get_export","instance":0,"name":"f"} => ok func 0
{"do":"set_fuel","fuel":3} => ok
{"do":"call","func":1} => refused TurnLimit
{"do":"get_fuel"} => ok 0
{"do":"set_fuel","fuel":4} => ok
{"do":"call","func":1} => refused TurnLimit
{"do":"get_fuel"} => ok 1"#,
    "hooks CallingWasm CallingWasm",
)];
