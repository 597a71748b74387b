//! Commands on objects in sessions, each kind of command at least once.

use crate::sessions::check_lines;

/// Sessions with their lines: copies and fills, what is made and grows, and names of replies.
const ROWS: [(&str, &str); 7] = [
    (
        r#"{"commands":[{"do":"table_new","ref":"externref","min":4,"init":{"extern":null}},{"do":"table_set","table":0,"at":0,"value":{"extern":10}},{"do":"table_set","table":0,"at":1,"value":{"extern":11}},{"do":"table_set","table":0,"at":2,"value":{"extern":12}},{"do":"table_copy","dst":0,"dst_at":1,"src":0,"src_at":0,"len":3},{"do":"table_get","table":0,"at":0},{"do":"table_get","table":0,"at":1},{"do":"table_get","table":0,"at":2},{"do":"table_get","table":0,"at":3},{"do":"table_new","ref":"funcref","min":4,"init":{"func":null}},{"do":"table_copy","dst":9,"dst_at":0,"src":0,"src_at":5,"len":0},{"do":"table_copy","dst":9,"dst_at":0,"src":0,"src_at":4,"len":0}]}"#,
        "ok table 0\nok\nok\nok\nok\nok values externref:10\nok values externref:10\nok values externref:11\nok values externref:12\nok table 1\ntrap TableOutOfBounds\nrefused TypeMismatch\n",
    ),
    (
        r#"{"commands":[{"do":"table_new","ref":"externref","min":4,"init":{"extern":null}},{"do":"table_set","table":0,"at":0,"value":{"extern":10}},{"do":"table_set","table":0,"at":1,"value":{"extern":11}},{"do":"table_set","table":0,"at":2,"value":{"extern":12}},{"do":"table_copy","dst":0,"dst_at":0,"src":0,"src_at":1,"len":3},{"do":"table_copy","dst":0,"dst_at":18446744073709551615,"src":0,"src_at":0,"len":2},{"do":"table_copy","dst":0,"dst_at":0,"src":0,"src_at":18446744073709551615,"len":2},{"do":"table_get","table":0,"at":0},{"do":"table_get","table":0,"at":1},{"do":"table_get","table":0,"at":2},{"do":"table_get","table":0,"at":3},{"do":"memory_new","min":1},{"do":"memory_read","memory":11,"at":18446744073709551615,"len":0},{"do":"memory_write","memory":11,"at":18446744073709551615,"bytes":""}]}"#,
        "ok table 0\nok\nok\nok\nok\ntrap TableOutOfBounds\ntrap TableOutOfBounds\nok values externref:11\nok values externref:12\nok values externref:null\nok values externref:null\nok memory 0\nrefused MemoryAccessError\nrefused MemoryAccessError\n",
    ),
    (
        r#"{"commands":[{"do":"table_new","ref":"externref","min":4,"init":{"extern":7}},{"do":"table_fill","table":0,"at":3,"len":9,"value":{"any":null}},{"do":"table_fill","table":0,"at":3,"len":9,"value":{"extern":1}},{"do":"table_get","table":0,"at":3},{"do":"table_get","table":0,"at":4},{"do":"table_size","table":0}]}"#,
        "ok table 0\nrefused TypeMismatch\ntrap TableOutOfBounds\nok values externref:7\nok none\nok 4\n",
    ),
    (
        r#"{"commands":[{"do":"memory_new","min":1},{"do":"memory_grow","memory":0,"delta":1},{"do":"memory_size","memory":0},{"do":"table_new","ref":"funcref","min":4,"init":{"func":null}},{"do":"table_grow","table":3,"delta":2,"value":{"func":null}},{"do":"table_size","table":3}]}"#,
        "ok memory 0\nok 1\nok 2\nok table 0\nok 4\nok 6\n",
    ),
    (
        r#"{"types":[{"params":["i32"]}],"commands":[{"do":"tag_new","type":0},{"do":"global_new","val":"i32","init":{"i32":5}},{"do":"global_set","global":1,"value":{"i32":6}},{"do":"global_get","global":1}]}"#,
        "ok tag 0\nok global 0\nrefused ImmutableGlobal\nok values i32:5\n",
    ),
    (
        r#"{"types":[{}],"commands":[{"do":"func_new","type":0,"body":0},{"do":"global_new","val":"funcref","init":{"name":0}},{"do":"global_get","global":1},{"do":"func_new","type":0,"body":1,"stored":[{"value":[2,0]}]},{"do":"global_get","global":{"value":[2,0]}},{"do":"func_new","type":0,"body":2,"stored":[{"value":[2,1]}]}]}"#,
        "ok func 0\nok global 0\nok values funcref:0\nok func 1\nrefused NoReply\nrefused NoReply\n",
    ),
    (
        r#"{"types":[{}],"commands":[{"do":"memory_size","memory":{"arg":0}},{"do":"memory_size","memory":{"stored":0}},{"do":"memory_size","memory":{"caller":true}},{"do":"global_new","val":"funcref","init":{"func":null}},{"do":"global_get","global":3},{"do":"func_new","type":0,"body":0,"stored":[{"value":[4,0]}]}]}"#,
        "refused NoReply\nrefused NoReply\nrefused NoReply\nok global 0\nok values funcref:null\nrefused NoReply\n",
    ),
];

#[test]
fn commands_on_objects_give_their_lines(rt: HostRuntime) {
    check_lines(&rt, rt.alloc(), &ROWS);
}
