//! The modules of the guests, as texts in JSON.

/// It writes a byte of its memory, and calls itself without end.
pub const ENDLESS: &str =
    r#"{"types":[{}],"module":{"memories":[{"min":1}],"functions":[{"type":0,"code":[["i32.const",0],["i32.const",255],["i32.store8",0,0],["call",0]]}],"exports":[{"name":"f","func":0},{"name":"m","memory":0}]}}"#;

/// It imports a memory.
pub const OVER_MEMORY: &str =
    r#"{"types":[],"module":{"imports":[{"module":"h","name":"m","memory":{"min":1}}]}}"#;

/// It imports a function, and exports one that calls it.
pub const OVER_FUNCTION: &str =
    r#"{"types":[{}],"module":{"imports":[{"module":"h","name":"f","func":0}],"functions":[{"type":0,"code":[["call",0]]}],"exports":[{"name":"f","func":1}]}}"#;

/// It imports a function and a memory.
pub const OVER_BOTH: &str =
    r#"{"types":[{}],"module":{"imports":[{"module":"h","name":"f","func":0},{"module":"h","name":"m","memory":{"min":1}}]}}"#;

/// The same, and its start function traps.
pub const TRAPS_OVER_BOTH: &str =
    r#"{"types":[{}],"module":{"imports":[{"module":"h","name":"f","func":0},{"module":"h","name":"m","memory":{"min":1}}],"functions":[{"type":0,"code":[["unreachable"]]}],"start":1}}"#;

/// It hands its own function to the host, has a byte of its memory that this function writes, and returns it.
pub const GIVES: &str =
    r#"{"types":[{},{"params":["funcref"]},{"results":["funcref"]}],"module":{"imports":[{"module":"h","name":"keep","func":1}],"memories":[{"min":1}],"functions":[{"type":0,"code":[["i32.const",0],["i32.const",255],["i32.store8",0,0]]},{"type":0,"code":[["ref.func",1],["call",0]]},{"type":2,"code":[["ref.func",1]]}],"exports":[{"name":"write","func":1},{"name":"go","func":2},{"name":"own","func":3},{"name":"m","memory":0}]}}"#;

/// It has what the host gives it, puts it into a table, and calls it; and takes functions as arguments.
pub const TAKES: &str =
    r#"{"types":[{},{"results":["funcref"]},{"params":["funcref"]},{"params":["i32","funcref"]}],"module":{"imports":[{"module":"h","name":"give","func":1}],"tables":[{"ref":"funcref","min":1}],"functions":[{"type":0,"code":[["i32.const",0],["call",0],["table.set",0],["i32.const",0],["call_indirect",0,0]]},{"type":2,"code":[]},{"type":3,"code":[]}],"exports":[{"name":"go","func":1},{"name":"take","func":2},{"name":"take_second","func":3}]}}"#;

/// It imports a constant global.
pub const OVER_CONSTANT: &str =
    r#"{"types":[],"module":{"imports":[{"module":"h","name":"g","global":{"val":"i32"}}]}}"#;

/// It imports a variable global.
pub const OVER_VARIABLE: &str =
    r#"{"types":[],"module":{"imports":[{"module":"h","name":"g","global":{"val":"i32","mut":true}}]}}"#;

/// It exports a constant global with its own function.
pub const HOLDS: &str =
    r#"{"types":[{}],"module":{"globals":[{"val":"funcref","init":["ref.func",0]}],"functions":[{"type":0,"code":[]}],"exports":[{"name":"g","global":0}]}}"#;

/// It imports a constant global with a function.
pub const OVER_HELD: &str =
    r#"{"types":[],"module":{"imports":[{"module":"h","name":"g","global":{"val":"funcref"}}]}}"#;

/// It counts its calls in a global, and gives how many these were.
pub const COUNTS: &str =
    r#"{"types":[{},{"results":["i32"]}],"module":{"imports":[{"module":"h","name":"f","func":0}],"globals":[{"val":"i32","mut":true,"init":["i32.const",0]}],"functions":[{"type":1,"code":[["global.get",0],["i32.const",1],["i32.add"],["global.set",0],["global.get",0]]}],"exports":[{"name":"count","func":1}]}}"#;

/// It gives the host its own function, and returns what the host gives back; and takes a function.
pub const ECHOES: &str =
    r#"{"types":[{"params":["funcref"],"results":["funcref"]},{"results":["funcref"]},{"params":["funcref"]}],"module":{"imports":[{"module":"h","name":"echo","func":0}],"functions":[{"type":1,"code":[["ref.func",1],["call",0]]},{"type":2,"code":[]}],"exports":[{"name":"go","func":1},{"name":"take","func":2}]}}"#;

/// It has a function that runs for good, and one that returns at once.
pub const LOOPS: &str =
    r#"{"types":[{}],"module":{"functions":[{"type":0,"code":[["loop",0,[["br",0]]]]},{"type":0,"code":[]}],"exports":[{"name":"forever","func":0},{"name":"once","func":1}]}}"#;

/// It exports two memories, a table of a null, and a variable global.
pub const HAS_ALL: &str =
    r#"{"types":[],"module":{"memories":[{"min":1},{"min":1}],"tables":[{"ref":"funcref","min":1}],"globals":[{"val":"i32","mut":true,"init":["i32.const",0]}],"exports":[{"name":"m","memory":0},{"name":"n","memory":1},{"name":"t","table":0},{"name":"g","global":0}]}}"#;
