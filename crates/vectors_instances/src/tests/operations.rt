//! Operations that bodies of the host ask for: each of them, done and refused, and the names that they speak by. The
//! lines are those of an executor of its own.

use crate::tests::hosts::guest;
use crate::tests::{append, check_session};
use std::alloc::Global;
use std::process::Abort;

/// The member `host` of one body, which begins with these actions and then does these operations, a line each, in which
/// the number of its reply stands first. The body notes the number and the line of each reply.
fn body(rt: &impl Abort, alloc: Global, begin: &str, operations: &str) -> String {
    let mut text = String::new(alloc);
    append(rt, &mut text, "\"host\":[[");
    append(rt, &mut text, begin);
    for row in operations.lines() {
        append_operation(rt, &mut text, row);
    }
    append(rt, &mut text, "{\"return\":[]}]]");
    text
}

fn append_operation(rt: &impl Abort, text: &mut String, row: &str) {
    let (number, operation) = row.split_once(" ").expect(rt, "a number and an operation");
    append(rt, text, "{\"do\":");
    append(rt, text, operation);
    append(rt, text, "},{\"note\":[\"");
    append(rt, text, number);
    append(rt, text, " \",{\"last\":true}]},");
}

/// A guest with an object of each kind, which calls the host.
const EACH_KIND: &str = r#""memories":[{"min":1,"max":2}],
"tables":[{"ref":"funcref","min":3,"max":5}],
"globals":[{"val":"i32","mut":true,"init":["i32.const",40]},{"val":"i64","init":["i64.const",-9]}],
"tags":[0],
"functions":[{"type":0,"code":[["call",0]]},{"type":2,"code":[["local.get",0],["i32.const",2],["i32.mul"]]},
{"type":0,"code":[["unreachable"]]}],
"exports":[{"name":"go","func":1},{"name":"twice","func":2},{"name":"bad","func":3},{"name":"m","memory":0},
{"name":"t","table":0},{"name":"g","global":0},{"name":"c","global":1},{"name":"e","tag":0},
{"name":"h","func":0}]"#;

/// The members of a session whose guest calls a body of the host that does these operations.
fn operating(rt: &impl Abort, alloc: Global, operations: &str) -> String {
    let types = r#"{},{"params":["i32","i64","funcref","externref","anyref"],"results":[]},
{"params":["i32"],"results":["i32"]}"#;
    let host = body(rt, alloc, "", operations);
    let others = [
        host.as_str(),
        r#""engine":{"fuel":true,"epochs":true}"#,
        r#""data":{"number":-17}"#,
    ];
    guest(rt, alloc, types, EACH_KIND, &others)
}

/// Each operation, each of which is done.
const OPERATIONS: &str = r#"0 {"do":"memory_new","min":1,"max":3}
1 {"do":"memory_read","memory":0,"at":65530,"len":6}
2 {"do":"memory_write","memory":0,"at":3,"bytes":"0aFF"}
3 {"do":"memory_read","memory":0,"at":0,"len":8}
4 {"do":"memory_size","memory":0}
5 {"do":"memory_grow","memory":0,"delta":2}
6 {"do":"table_new","ref":"externref","min":2,"max":4,"init":{"extern":7}}
7 {"do":"table_get","table":6,"at":1}
8 {"do":"table_set","table":6,"at":0,"value":{"extern":8}}
9 {"do":"table_size","table":6}
10 {"do":"table_grow","table":6,"delta":2,"value":{"extern":null}}
11 {"do":"table_copy","dst":6,"dst_at":1,"src":6,"src_at":0,"len":3}
12 {"do":"table_fill","table":6,"at":3,"value":{"name":{"value":[7,0]}},"len":1}
13 {"do":"global_new","val":"i64","mut":true,"init":{"i64":-2}}
14 {"do":"global_get","global":13}
15 {"do":"global_set","global":13,"value":{"name":{"value":[14,0]}}}
16 {"do":"tag_new","type":2}
17 {"do":"get_export","instance":{"caller":true},"name":"twice"}
18 {"do":"get_fuel"}
19 {"do":"set_fuel","fuel":500}
20 {"do":"yield_interval","interval":3}
21 {"do":"yield_interval","interval":null}
22 {"do":"set_epoch_deadline","ticks":1000}
23 {"do":"call","func":17,"args":[{"i32":21}]}
24 {"do":"call","func":17,"args":[{"name":{"value":[23,0]}}],"results":1}
25 {"do":"get_export","instance":{"caller":true},"name":"m"}
26 {"do":"memory_write","memory":25,"at":0,"bytes":"01020304"}
27 {"do":"get_export","instance":{"caller":true},"name":"t"}
28 {"do":"table_set","table":27,"at":2,"value":{"name":17}}
29 {"do":"get_export","instance":{"caller":true},"name":"g"}
30 {"do":"global_set","global":29,"value":{"i32":41}}
31 {"do":"table_grow","table":27,"delta":1,"value":{"name":17}}
32 {"do":"memory_grow","memory":25,"delta":1}
33 {"do":"get_export","instance":{"caller":true},"name":"e"}
34 {"do":"get_export","instance":{"caller":true},"name":"h"}
35 {"do":"get_fuel"}"#;

#[test]
fn each_operation_is_asked_for(rt: HostRuntime) {
    let members = operating(&rt, rt.alloc(), OPERATIONS);
    check_session(
        &rt,
        rt.alloc(),
        members.as_str(),
        r#"{"do":"func_new","type":0,"body":0} => ok func 0
{"do":"instantiate","module":0,"imports":[0]} => ok instance 0
{"do":"get_export","instance":1,"name":"go"} => ok func 1
{"do":"set_fuel","fuel":1000} => ok
{"do":"set_epoch_deadline","ticks":100} => ok
note 0 ok memory 1
note 1 ok bytes 000000000000
note 2 ok
note 3 ok bytes 0000000aff000000
note 4 ok 1
note 5 ok 1
note 6 ok table 1
note 7 ok values externref:7
note 8 ok
note 9 ok 2
note 10 ok 2
note 11 ok
note 12 ok
note 13 ok global 2
note 14 ok values i64:-2
note 15 ok
note 16 ok tag 1
note 17 ok func 2
note 18 ok 999
note 19 ok
note 20 ok
note 21 ok
note 22 ok
note 23 ok values i32:42
note 24 ok values i32:84
note 25 ok memory 0
note 26 ok
note 27 ok table 0
note 28 ok
note 29 ok global 0
note 30 ok
note 31 ok 3
note 32 ok 1
note 33 ok tag 0
note 34 ok func 0
note 35 ok 494
{"do":"call","func":2} => ok values
{"do":"get_export","instance":1,"name":"m"} => ok memory 0
{"do":"get_export","instance":1,"name":"t"} => ok table 0
{"do":"get_export","instance":1,"name":"g"} => ok global 0
{"do":"memory_size","memory":6} => ok 2
{"do":"memory_read","memory":6,"at":0,"len":8} => ok bytes 0102030400000000
{"do":"table_size","table":7} => ok 4
{"do":"table_get","table":7,"at":0} => ok values funcref:null
{"do":"table_get","table":7,"at":1} => ok values funcref:null
{"do":"table_get","table":7,"at":2} => ok values funcref:2
{"do":"table_get","table":7,"at":3} => ok values funcref:2
{"do":"table_get","table":7,"at":4} => ok none
{"do":"global_get","global":8} => ok values i32:41
{"do":"get_fuel"} => ok 494"#,
    );
}

/// Operations, of which most are refused.
const REFUSED_OPERATIONS: &str = r#"0 {"do":"memory_new","min":1}
1 {"do":"table_new","ref":"externref","min":1,"max":1,"init":{"extern":null}}
2 {"do":"global_new","val":"i32","init":{"i32":5}}
3 {"do":"get_export","instance":{"caller":true},"name":"twice"}
4 {"do":"table_new","ref":"funcref","min":1,"init":{"name":3}}
5 {"do":"memory_read","memory":0,"at":65536,"len":1}
6 {"do":"memory_read","memory":1,"at":0,"len":0}
7 {"do":"memory_write","memory":0,"at":65537,"bytes":""}
8 {"do":"memory_write","memory":99,"at":0,"bytes":""}
9 {"do":"memory_size","memory":3}
10 {"do":"memory_grow","memory":0,"delta":65536}
11 {"do":"memory_grow","memory":{"caller":true},"delta":0}
12 {"do":"table_new","ref":"externref","min":1,"init":{"any":null}}
13 {"do":"table_new","ref":"funcref","min":1,"init":{"name":1}}
14 {"do":"table_get","table":0,"at":0}
15 {"do":"table_get","table":1,"at":1}
16 {"do":"table_set","table":1,"at":1,"value":{"extern":1}}
17 {"do":"table_set","table":1,"at":1,"value":{"i32":1}}
18 {"do":"table_size","table":{"arg":0}}
19 {"do":"table_grow","table":1,"delta":1,"value":{"extern":1}}
20 {"do":"table_grow","table":1,"delta":0,"value":{"func":null}}
21 {"do":"table_copy","dst":1,"dst_at":0,"src":4,"src_at":0,"len":1}
22 {"do":"table_copy","dst":1,"dst_at":2,"src":4,"src_at":0,"len":0}
23 {"do":"table_fill","table":1,"at":1,"value":{"extern":1},"len":1}
24 {"do":"table_fill","table":1,"at":0,"value":{"extern":1},"len":18446744073709551615}
25 {"do":"global_new","val":"i32","init":{"i64":5}}
26 {"do":"global_get","global":0}
27 {"do":"global_set","global":2,"value":{"i64":1}}
28 {"do":"tag_new","type":0}
29 {"do":"get_export","instance":{"caller":true},"name":"none"}
30 {"do":"get_export","instance":0,"name":"m"}
31 {"do":"get_fuel"}
32 {"do":"yield_interval","interval":0}
33 {"do":"set_fuel","fuel":18446744073709551615}
34 {"do":"set_epoch_deadline","ticks":18446744073709551615}
35 {"do":"call","func":3}
36 {"do":"call","func":3,"args":[{"i32":1}],"results":0}
37 {"do":"call","func":3,"args":[{"i64":1}]}
38 {"do":"call","func":{"caller":true}}
39 {"do":"call","func":{"stored":0}}
40 {"do":"call","func":{"value":[3,0]}}
41 {"do":"call","func":{"value":[15,0]}}
42 {"do":"memory_new","min":0,"max":0,"page":0}
43 {"do":"table_grow","table":4,"delta":4294967295,"value":{"func":null}}
44 {"do":"get_export","instance":{"caller":true},"name":"m"}
45 {"do":"memory_grow","memory":44,"delta":2}
46 {"do":"memory_grow","memory":44,"delta":18446744073709551615}
47 {"do":"get_export","instance":{"caller":true},"name":"t"}
48 {"do":"table_grow","table":47,"delta":3,"value":{"func":null}}
49 {"do":"table_set","table":47,"at":0,"value":{"extern":4}}
50 {"do":"get_export","instance":{"caller":true},"name":"bad"}
51 {"do":"call","func":50}
52 {"do":"get_export","instance":{"caller":true},"name":"c"}
53 {"do":"global_set","global":52,"value":{"i64":1}}"#;

#[test]
fn each_operation_is_refused(rt: HostRuntime) {
    let members = operating(&rt, rt.alloc(), REFUSED_OPERATIONS);
    check_session(
        &rt,
        rt.alloc(),
        members.as_str(),
        r#"{"do":"func_new","type":0,"body":0} => ok func 0
{"do":"instantiate","module":0,"imports":[0]} => ok instance 0
{"do":"get_export","instance":1,"name":"go"} => ok func 1
{"do":"set_fuel","fuel":1000} => ok
{"do":"set_epoch_deadline","ticks":100} => ok
note 0 ok memory 1
note 1 ok table 1
note 2 ok global 2
note 3 ok func 2
note 4 ok table 2
note 5 refused MemoryAccessError
note 6 refused NoReply
note 7 refused MemoryAccessError
note 8 refused NoReply
note 9 refused NoReply
note 10 refused GrowFailed
note 11 refused NoReply
note 12 refused TypeMismatch
note 13 refused NoReply
note 14 refused NoReply
note 15 ok none
note 16 trap TableOutOfBounds
note 17 refused TypeMismatch
note 18 refused NoReply
note 19 refused GrowFailed
note 20 refused TypeMismatch
note 21 refused TypeMismatch
note 22 trap TableOutOfBounds
note 23 trap TableOutOfBounds
note 24 trap TableOutOfBounds
note 25 refused TypeMismatch
note 26 refused NoReply
note 27 refused ImmutableGlobal
note 28 ok tag 1
note 29 refused NoExport
note 30 refused NoReply
note 31 ok 999
note 32 refused FuelInterval
note 33 ok
note 34 ok
note 35 refused ArgumentCount
note 36 refused ResultCount
note 37 refused TypeMismatch
note 38 refused NoReply
note 39 refused NoReply
note 40 refused NoReply
note 41 refused NoReply
note 42 ok memory 2
note 43 refused GrowFailed
note 44 ok memory 0
note 45 refused GrowFailed
note 46 refused GrowFailed
note 47 ok table 0
note 48 refused GrowFailed
note 49 refused TypeMismatch
note 50 ok func 3
note 51 trap UnreachableCodeReached
note 52 ok global 1
note 53 refused ImmutableGlobal
{"do":"call","func":2} => ok values
{"do":"get_export","instance":1,"name":"m"} => ok memory 0
{"do":"get_export","instance":1,"name":"t"} => ok table 0
{"do":"get_export","instance":1,"name":"g"} => ok global 0
{"do":"memory_size","memory":6} => ok 1
{"do":"memory_read","memory":6,"at":0,"len":8} => ok bytes 0000000000000000
{"do":"table_size","table":7} => ok 3
{"do":"table_get","table":7,"at":0} => ok values funcref:null
{"do":"table_get","table":7,"at":1} => ok values funcref:null
{"do":"table_get","table":7,"at":2} => ok values funcref:null
{"do":"table_get","table":7,"at":3} => ok none
{"do":"table_get","table":7,"at":4} => ok none
{"do":"global_get","global":8} => ok values i32:40
{"do":"get_fuel"} => ok 18446744073709551614"#,
    );
}

/// A module that imports nothing, with the types of a body of eight arguments.
const UNLINKED: &str =
    r#""types":[{"params":["i32","i64","funcref","externref","anyref","f32","f64","v128"]},{},{"params":["i32"],
"results":["i32"]}],
"modules":[{"functions":[{"type":2,"code":[["local.get",0],["i32.const",1],["i32.add"]]}],
"memories":[{"min":1}],"exports":[{"name":"inc","func":0},{"name":"m","memory":0}]}]"#;

/// What the body notes of its arguments.
const NOTE_OF_ARGUMENTS: &str =
    r#"{"note":["args ",{"arg":0}," ",{"arg":1}," ",{"arg":2}," ",{"arg":3}," ",{"arg":5}," ",{"arg":8}," ",
{"arg":18446744073709551615},"|",{"last":true}]},"#;

/// Operations that name its arguments, its replies and what is stored.
const NAMING: &str = r#"0 {"do":"call","func":{"arg":2},"args":[{"name":{"arg":0}}]}
1 {"do":"call","func":{"stored":0},"args":[{"i32":8}]}
2 {"do":"memory_read","memory":{"stored":1},"at":0,"len":2}
3 {"do":"table_get","table":{"stored":2},"at":0}
4 {"do":"global_get","global":{"stored":3}}
5 {"do":"table_set","table":{"stored":2},"at":0,"value":{"name":{"arg":2}}}
6 {"do":"table_get","table":{"stored":2},"at":0}
7 {"do":"call","func":{"value":[6,0]},"args":[{"i32":100}]}
8 {"do":"global_set","global":{"stored":3},"value":{"name":{"arg":1}}}
9 {"do":"global_get","global":{"stored":3}}
10 {"do":"global_new","val":"externref","init":{"name":{"arg":3}}}
11 {"do":"global_get","global":10}
12 {"do":"global_new","val":"anyref","init":{"name":{"arg":4}}}
13 {"do":"global_get","global":12}
14 {"do":"global_new","val":"f32","init":{"name":{"arg":5}}}
15 {"do":"global_get","global":14}
16 {"do":"global_new","val":"f64","init":{"name":{"arg":6}}}
17 {"do":"global_get","global":16}
18 {"do":"global_new","val":"v128","init":{"name":{"arg":7}}}
19 {"do":"global_get","global":18}
20 {"do":"global_new","val":"funcref","init":{"name":{"stored":0}}}
21 {"do":"global_get","global":20}
22 {"do":"memory_size","memory":{"arg":2}}
23 {"do":"memory_size","memory":{"stored":0}}
24 {"do":"memory_size","memory":{"stored":9}}
25 {"do":"global_new","val":"funcref","init":{"name":{"stored":1}}}
26 {"do":"global_new","val":"i32","init":{"name":{"arg":9}}}
27 {"do":"global_new","val":"i32","init":{"name":{"caller":true}}}
28 {"do":"get_export","instance":{"stored":0},"name":"m"}
29 {"do":"get_export","instance":{"caller":true},"name":"m"}
30 {"do":"tag_new","type":0}
31 {"do":"call","func":30}
32 {"do":"call","func":{"stored":4}}
33 {"do":"call","func":{"arg":3}}
34 {"do":"call","func":{"value":[18446744073709551615,0]}}
35 {"do":"call","func":{"value":[6,18446744073709551615]}}
36 {"do":"call","func":18446744073709551615}
37 {"do":"call","func":{"arg":18446744073709551615}}
38 {"do":"call","func":{"stored":18446744073709551615}}"#;

#[test]
fn names_speak_of_the_activation(rt: HostRuntime) {
    let alloc = rt.alloc();
    let host = body(&rt, alloc, NOTE_OF_ARGUMENTS, NAMING);
    let mut members = String::new(alloc);
    append(&rt, &mut members, UNLINKED);
    append(&rt, &mut members, ",");
    append(&rt, &mut members, host.as_str());
    check_session(
        &rt,
        alloc,
        members.as_str(),
        r#"{"do":"instantiate","module":0} => ok instance 0
{"do":"get_export","instance":0,"name":"inc"} => ok func 0
{"do":"memory_new","min":1} => ok memory 1
{"do":"table_new","ref":"funcref","min":1,"init":{"func":null}} => ok table 0
{"do":"global_new","val":"i64","mut":true,"init":{"i64":3}} => ok global 0
{"do":"tag_new","type":0} => ok tag 0
{"do":"func_new","type":0,"body":0,"stored":[1,2,3,4,5]} => ok func 1
note args -1 -2     |
note 0 ok values i32:0
note 1 ok values i32:9
note 2 ok bytes 0000
note 3 ok values funcref:null
note 4 ok values i64:3
note 5 ok
note 6 ok values funcref:0
note 7 ok values i32:101
note 8 ok
note 9 ok values i64:-2
note 10 ok global 1
note 11 ok values externref:9
note 12 ok global 2
note 13 ok values anyref:5
note 14 ok global 3
note 15 ok values f32:ffffffff
note 16 ok global 4
note 17 ok values f64:0000000000000001
note 18 ok global 5
note 19 ok values v128:0000000000000000000000000000000f
note 20 ok global 6
note 21 ok values funcref:0
note 22 refused NoReply
note 23 refused NoReply
note 24 refused NoReply
note 25 refused NoReply
note 26 refused NoReply
note 27 refused NoReply
note 28 refused NoReply
note 29 refused NoReply
note 30 ok tag 1
note 31 refused NoReply
note 32 refused NoReply
note 33 refused NoReply
note 34 refused NoReply
note 35 refused NoReply
note 36 refused NoReply
note 37 refused NoReply
note 38 refused NoReply
{"do":"call","func":6,"args":[{"i32":-1},{"i64":-2},{"name":1},{"extern":9},{"any":5},
{"f32":4294967295},{"f64":1},{"v128":"0000000000000000000000000000000F"}]} => ok values
note args -1 -1     |
note 0 refused NoReply
note 1 ok values i32:9
note 2 ok bytes 0000
note 3 ok values funcref:0
note 4 ok values i64:-2
note 5 ok
note 6 ok values funcref:null
note 7 refused NoReply
note 8 ok
note 9 ok values i64:-1
note 10 ok global 7
note 11 ok values externref:null
note 12 ok global 8
note 13 ok values anyref:null
note 14 ok global 9
note 15 ok values f32:00000000
note 16 ok global 10
note 17 ok values f64:0000000000000000
note 18 ok global 11
note 19 ok values v128:aaaaaaaaaaaaaaaaaaaaaaaaaaaaaaaa
note 20 ok global 12
note 21 ok values funcref:0
note 22 refused NoReply
note 23 refused NoReply
note 24 refused NoReply
note 25 refused NoReply
note 26 refused NoReply
note 27 refused NoReply
note 28 refused NoReply
note 29 refused NoReply
note 30 ok tag 2
note 31 refused NoReply
note 32 refused NoReply
note 33 refused NoReply
note 34 refused NoReply
note 35 refused NoReply
note 36 refused NoReply
note 37 refused NoReply
note 38 refused NoReply
{"do":"call","func":6,"args":[{"i32":4294967295},{"i64":18446744073709551615},{"func":null},{"extern":null},
{"any":null},{"f32":0},{"f64":0},{"v128":"aaaaaaaaaaaaaaaaaaaaaaaaaaaaaaaa"}]} => ok values
{"do":"table_get","table":3,"at":0} => ok values funcref:null
{"do":"global_get","global":4} => ok values i64:-1
{"do":"func_new","type":1,"body":0,"stored":[0]} => refused NoReply
{"do":"func_new","type":1,"body":0,"stored":[{"value":[9,0]},{"arg":0}]} => refused NoReply
{"do":"func_new","type":1,"body":0,"stored":[{"value":[9,0]}]} => refused NoReply
{"do":"call","func":13} => refused NoReply"#,
    );
}
