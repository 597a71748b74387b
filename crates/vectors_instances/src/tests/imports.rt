//! Imports of each kind: what is taken for them, at each side of each limit, and what is not.

use crate::tests::{Session, check_sessions};

/// Types `() -> (i32)`: one with a subtype, that, and a final one twice; and `(i32) -> (i32)`. A module for each of the
/// first three.
const FUNCTIONS: &str =
    r#""types":[{"results":["i32"],"final":false},{"results":["i32"],"super":0},{"results":["i32"]},
{"results":["i32"]},{"params":["i32"],"results":["i32"]}],
"modules":[{"imports":[{"module":"h","name":"f","func":0}]},
{"imports":[{"module":"h","name":"f","func":1}]},
{"imports":[{"module":"h","name":"f","func":2}]}]"#;

/// A table of at least two elements, and of two to five.
const TABLES: &str = r#""types":[{}],
"modules":[{"imports":[{"module":"h","name":"t","table":{"ref":"funcref","min":2}}]},
{"imports":[{"module":"h","name":"t","table":{"ref":"funcref","min":2,"max":5}}]}]"#;

/// A memory of at least two pages, and one of two to five.
const MEMORIES: &str = r#""modules":[{"imports":[{"module":"h","name":"m","memory":{"min":2}}]},
{"imports":[{"module":"h","name":"m","memory":{"min":2,"max":5}}]}]"#;

/// A memory of at least two pages of 64 KiB, and one of two to five pages of a byte.
const PAGES: &str = r#""modules":[{"imports":[{"module":"h","name":"m","memory":{"min":2}}]},
{"imports":[{"module":"h","name":"m","memory":{"min":2,"max":5,"page":0}}]}]"#;

/// A number and a function, each constant and variable; the function is of any type.
const GLOBALS: &str = r#""types":[{}],
"modules":[{"imports":[{"module":"h","name":"g","global":{"val":"i32"}}]},
{"imports":[{"module":"h","name":"g","global":{"val":"i32","mut":true}}]},
{"imports":[{"module":"h","name":"g","global":{"val":"funcref"}}]},
{"imports":[{"module":"h","name":"g","global":{"val":"funcref","mut":true}}]},
{"imports":[{"module":"h","name":"g","global":{"val":{"ref":"func","null":false}}}]}]"#;

/// A tag of a type that has a subtype.
const TAGS: &str =
    r#""types":[{"params":["i32"],"final":false},{"params":["i32"],"super":0},{"params":["i32"],"final":false}],
"modules":[{"imports":[{"module":"h","name":"e","tag":0}]}]"#;

/// A memory, a table and a global, in this order; of each other a function of the same type as an export.
const THREE: &str = r#""types":[{}],
"modules":[{"imports":[{"module":"h","name":"m","memory":{"min":1}},
{"module":"h","name":"t","table":{"ref":"funcref","min":1}},
{"module":"h","name":"g","global":{"val":"i32"}}]},
{"functions":[{"type":0}],"exports":[{"name":"f","func":0}]},
{"imports":[{"module":"h","name":"f","func":0}]}]"#;

/// What each session shows, its members, and its commands with their lines.
const SESSIONS: [Session; 7] = [
    (
        "a function is of the type or of a subtype",
        FUNCTIONS,
        r#"{"do":"func_new","type":0,"body":0} => ok func 0
{"do":"func_new","type":1,"body":0} => ok func 1
{"do":"func_new","type":2,"body":0} => ok func 2
{"do":"func_new","type":3,"body":0} => ok func 3
{"do":"func_new","type":4,"body":0} => ok func 4
{"do":"memory_new","min":0} => ok memory 0
{"do":"instantiate","module":0,"imports":[0]} => ok instance 0
{"do":"instantiate","module":0,"imports":[1]} => ok instance 1
{"do":"instantiate","module":0,"imports":[2]} => refused ImportType 0
{"do":"instantiate","module":0,"imports":[4]} => refused ImportType 0
{"do":"instantiate","module":1,"imports":[0]} => refused ImportType 0
{"do":"instantiate","module":1,"imports":[1]} => ok instance 2
{"do":"instantiate","module":1,"imports":[2]} => refused ImportType 0
{"do":"instantiate","module":2,"imports":[0]} => refused ImportType 0
{"do":"instantiate","module":2,"imports":[2]} => ok instance 3
{"do":"instantiate","module":2,"imports":[3]} => ok instance 4
{"do":"instantiate","module":0,"imports":[5]} => refused ImportType 0"#,
    ),
    (
        "a table has the elements and is within the limits",
        TABLES,
        r#"{"do":"table_new","ref":"funcref","min":2,"init":{"func":null}} => ok table 0
{"do":"table_new","ref":"funcref","min":1,"max":5,"init":{"func":null}} => ok table 1
{"do":"table_new","ref":"funcref","min":3,"max":6,"init":{"func":null}} => ok table 2
{"do":"table_new","ref":"funcref","min":2,"max":2,"init":{"func":null}} => ok table 3
{"do":"table_new","ref":"externref","min":2,"init":{"extern":null}} => ok table 4
{"do":"table_new","ref":{"ref":"nofunc"},"min":2,"init":{"func":null}} => ok table 5
{"do":"table_new","ref":{"ref":0},"min":2,"init":{"func":null}} => ok table 6
{"do":"instantiate","module":0,"imports":[0]} => ok instance 0
{"do":"instantiate","module":0,"imports":[1]} => refused ImportType 0
{"do":"instantiate","module":0,"imports":[2]} => ok instance 1
{"do":"instantiate","module":0,"imports":[3]} => ok instance 2
{"do":"instantiate","module":0,"imports":[4]} => refused ImportType 0
{"do":"instantiate","module":0,"imports":[5]} => refused ImportType 0
{"do":"instantiate","module":0,"imports":[6]} => refused ImportType 0
{"do":"instantiate","module":1,"imports":[0]} => refused ImportType 0
{"do":"instantiate","module":1,"imports":[1]} => refused ImportType 0
{"do":"instantiate","module":1,"imports":[2]} => refused ImportType 0
{"do":"instantiate","module":1,"imports":[3]} => ok instance 3
{"do":"table_grow","table":1,"delta":1,"value":{"func":null}} => ok 1
{"do":"instantiate","module":0,"imports":[1]} => ok instance 4
{"do":"instantiate","module":1,"imports":[1]} => ok instance 5"#,
    ),
    (
        "a memory has the pages and is within the limits",
        MEMORIES,
        r#"{"do":"memory_new","min":2} => ok memory 0
{"do":"memory_new","min":1,"max":5} => ok memory 1
{"do":"memory_new","min":3,"max":6} => ok memory 2
{"do":"memory_new","min":2,"max":2} => ok memory 3
{"do":"instantiate","module":0,"imports":[0]} => ok instance 0
{"do":"instantiate","module":0,"imports":[1]} => refused ImportType 0
{"do":"instantiate","module":0,"imports":[2]} => ok instance 1
{"do":"instantiate","module":0,"imports":[3]} => ok instance 2
{"do":"instantiate","module":1,"imports":[0]} => refused ImportType 0
{"do":"instantiate","module":1,"imports":[1]} => refused ImportType 0
{"do":"instantiate","module":1,"imports":[2]} => refused ImportType 0
{"do":"instantiate","module":1,"imports":[3]} => ok instance 3
{"do":"memory_grow","memory":1,"delta":1} => ok 1
{"do":"instantiate","module":0,"imports":[1]} => ok instance 4
{"do":"instantiate","module":1,"imports":[1]} => ok instance 5"#,
    ),
    (
        "a memory has pages of the same size",
        PAGES,
        r#"{"do":"memory_new","min":2,"max":5} => ok memory 0
{"do":"memory_new","min":2,"max":5,"page":0} => ok memory 1
{"do":"memory_new","min":131072,"max":131072,"page":0} => ok memory 2
{"do":"memory_new","min":1,"max":5,"page":0} => ok memory 3
{"do":"memory_new","min":2,"max":6,"page":0} => ok memory 4
{"do":"instantiate","module":0,"imports":[0]} => ok instance 0
{"do":"instantiate","module":0,"imports":[1]} => refused ImportType 0
{"do":"instantiate","module":0,"imports":[2]} => refused ImportType 0
{"do":"instantiate","module":1,"imports":[0]} => refused ImportType 0
{"do":"instantiate","module":1,"imports":[1]} => ok instance 1
{"do":"instantiate","module":1,"imports":[2]} => refused ImportType 0
{"do":"instantiate","module":1,"imports":[3]} => refused ImportType 0
{"do":"instantiate","module":1,"imports":[4]} => refused ImportType 0
{"do":"memory_grow","memory":3,"delta":1} => ok 1
{"do":"instantiate","module":1,"imports":[3]} => ok instance 2"#,
    ),
    (
        "a global is as variable and of a type that fits",
        GLOBALS,
        r#"{"do":"global_new","val":"i32","init":{"i32":0}} => ok global 0
{"do":"global_new","val":"i32","mut":true,"init":{"i32":0}} => ok global 1
{"do":"global_new","val":"i64","init":{"i64":0}} => ok global 2
{"do":"global_new","val":"funcref","init":{"func":null}} => ok global 3
{"do":"global_new","val":"funcref","mut":true,"init":{"func":null}} => ok global 4
{"do":"global_new","val":{"ref":0},"init":{"func":null}} => ok global 5
{"do":"global_new","val":{"ref":0},"mut":true,"init":{"func":null}} => ok global 6
{"do":"func_new","type":0,"body":0} => ok func 0
{"do":"global_new","val":{"ref":0,"null":false},"init":{"name":7}} => ok global 7
{"do":"instantiate","module":0,"imports":[0]} => ok instance 0
{"do":"instantiate","module":0,"imports":[1]} => refused ImportType 0
{"do":"instantiate","module":0,"imports":[2]} => refused ImportType 0
{"do":"instantiate","module":1,"imports":[0]} => refused ImportType 0
{"do":"instantiate","module":1,"imports":[1]} => ok instance 1
{"do":"instantiate","module":2,"imports":[3]} => ok instance 2
{"do":"instantiate","module":2,"imports":[4]} => refused ImportType 0
{"do":"instantiate","module":2,"imports":[5]} => ok instance 3
{"do":"instantiate","module":2,"imports":[8]} => ok instance 4
{"do":"instantiate","module":3,"imports":[3]} => refused ImportType 0
{"do":"instantiate","module":3,"imports":[4]} => ok instance 5
{"do":"instantiate","module":3,"imports":[6]} => refused ImportType 0
{"do":"instantiate","module":4,"imports":[3]} => refused ImportType 0
{"do":"instantiate","module":4,"imports":[5]} => refused ImportType 0
{"do":"instantiate","module":4,"imports":[8]} => ok instance 6
{"do":"instantiate","module":0,"imports":[7]} => refused ImportType 0"#,
    ),
    (
        "a tag is of the very type",
        TAGS,
        r#"{"do":"tag_new","type":0} => ok tag 0
{"do":"tag_new","type":1} => ok tag 1
{"do":"tag_new","type":2} => ok tag 2
{"do":"func_new","type":0,"body":0} => ok func 0
{"do":"instantiate","module":0,"imports":[0]} => ok instance 0
{"do":"instantiate","module":0,"imports":[1]} => refused ImportType 0
{"do":"instantiate","module":0,"imports":[2]} => ok instance 1
{"do":"instantiate","module":0,"imports":[3]} => refused ImportType 0"#,
    ),
    (
        "the first import that does not fit is told",
        THREE,
        r#"{"do":"memory_new","min":1} => ok memory 0
{"do":"table_new","ref":"funcref","min":1,"init":{"func":null}} => ok table 0
{"do":"global_new","val":"i32","init":{"i32":7}} => ok global 0
{"do":"instantiate","module":0,"imports":[0,1,2]} => ok instance 0
{"do":"instantiate","module":0,"imports":[0,1,0]} => refused ImportType 2
{"do":"instantiate","module":0,"imports":[0,0,0]} => refused ImportType 1
{"do":"instantiate","module":0,"imports":[1,0,2]} => refused ImportType 0
{"do":"instantiate","module":0,"imports":[1,0]} => refused ImportCount
{"do":"instantiate","module":0,"imports":[0,1,2,2]} => refused ImportCount
{"do":"instantiate","module":0,"imports":[1,0,11]} => refused NoReply
{"do":"instantiate","module":1} => ok instance 1
{"do":"get_export","instance":10,"name":"f"} => ok func 0
{"do":"table_set","table":1,"at":0,"value":{"name":11}} => ok
{"do":"table_get","table":1,"at":0} => ok values funcref:0
{"do":"instantiate","module":2,"imports":[{"value":[13,0]}]} => ok instance 2
{"do":"instantiate","module":2,"imports":[{"value":[13,1]}]} => refused NoReply
{"do":"instantiate","module":2,"imports":[12]} => refused NoReply"#,
    ),
];

#[test]
fn imports_are_matched_as_is_said(rt: HostRuntime) {
    check_sessions(&rt, rt.alloc(), &SESSIONS);
}
