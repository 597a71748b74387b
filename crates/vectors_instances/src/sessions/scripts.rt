use crate::sessions::calls::{append, run_list, run_text, times};
use crate::sessions::{check_ended, check_statuses, nothing_came};
use std::alloc::Global;
use std::process::Abort;
use wasm_run::Status;

const TEXT_THAT_IS_NO_JSON: [(&str, Status); 10] = [
    ("", Status::BadJson),
    (r#"{"commands":["#, Status::BadJson),
    (r#"{"commands":[]} x"#, Status::BadJson),
    (r#"{"commands":[]}{}"#, Status::BadJson),
    (r#"{"commands":[],}"#, Status::BadJson),
    ("\u{feff}{\"commands\":[]}", Status::BadJson),
    ("{'commands':[]}", Status::BadJson),
    ("1e400", Status::BadJson),
    ("01", Status::BadJson),
    ("\t\r\n {\"commands\" : [ ] }\r\n", Status::Done),
];

fn check_no_text(rt: &impl Abort, alloc: Global, bytes: &[u8]) {
    let run = run_text(rt, alloc, bytes);
    check_ended(rt, run.status, Status::BadJson, &bytes);
    nothing_came(rt, &run, "no text");
}

#[test]
fn bytes_that_are_no_text(rt: HostRuntime) {
    let table: [&[u8]; 4] = [
        b"\xff",
        b"{\"commands\":[]}\x80",
        b"{\"commands\":[{\"do\":\"\xc3\x28\"}]}",
        b"{\"commands\":[{\"do\":\"\xed\xa0\x80\"}]}",
    ];
    for bytes in table {
        check_no_text(&rt, rt.alloc(), bytes);
    }
}

const JSON_THAT_IS_NO_SCRIPT: [(&str, Status); 17] = [
    ("{}", Status::BadScript),
    ("[]", Status::BadScript),
    ("null", Status::BadScript),
    ("3", Status::BadScript),
    (r#"{"Commands":[]}"#, Status::BadScript),
    (r#"{"commands":{}}"#, Status::BadScript),
    (r#"{"commands":null}"#, Status::BadScript),
    (r#"{"commands":[],"other":1}"#, Status::BadScript),
    (r#"{"commands":[3]}"#, Status::BadScript),
    (r#"{"commands":[[]]}"#, Status::BadScript),
    (r#"{"commands":[{}]}"#, Status::BadScript),
    (r#"{"commands":[{"do":"fly"}]}"#, Status::BadScript),
    (
        r#"{"commands":[{"do":"Memory_new","min":1}]}"#,
        Status::BadScript,
    ),
    (r#"{"commands":[{"do":null,"min":1}]}"#, Status::BadScript),
    (r#"{"commands":[{"min":1}]}"#, Status::BadScript),
    (r#"{"commands":3,"commands":[]}"#, Status::Done),
    (r#"{"commands":[],"commands":3}"#, Status::BadScript),
];

const KEYS_OF_MEMORY_NEW: [(&str, Status); 14] = [
    (r#"{"commands":[{"do":"memory_new"}]}"#, Status::BadScript),
    (
        r#"{"commands":[{"do":"memory_new","min":0}]}"#,
        Status::Done,
    ),
    (
        r#"{"commands":[{"min":0,"do":"memory_new"}]}"#,
        Status::Done,
    ),
    (
        r#"{"commands":[{"do":"memory_\u006eew","min":0}]}"#,
        Status::Done,
    ),
    (
        r#"{"commands":[{"do":"memory_new","min":0,"max":null}]}"#,
        Status::BadScript,
    ),
    (
        r#"{"commands":[{"do":"memory_new","min":0,"max":1}]}"#,
        Status::Done,
    ),
    (
        r#"{"commands":[{"do":"memory_new","min":0,"page":16}]}"#,
        Status::Done,
    ),
    (
        r#"{"commands":[{"do":"memory_new","min":65537}]}"#,
        Status::BadScript,
    ),
    (
        r#"{"commands":[{"do":"memory_new","min":4294967296}]}"#,
        Status::BadScript,
    ),
    (
        r#"{"commands":[{"do":"memory_new","min":-1}]}"#,
        Status::BadScript,
    ),
    (
        r#"{"commands":[{"do":"memory_new","min":null}]}"#,
        Status::BadScript,
    ),
    (
        r#"{"commands":[{"do":"memory_new","min":"1"}]}"#,
        Status::BadScript,
    ),
    (
        r#"{"commands":[{"do":"memory_new","min":65537,"min":1}]}"#,
        Status::Done,
    ),
    (
        r#"{"commands":[{"do":"memory_new","min":1,"min":65537}]}"#,
        Status::BadScript,
    ),
];

const KEYS_OF_MEMORY_READ: [(&str, Status); 8] = [
    (
        r#"{"commands":[{"do":"memory_read","memory":0,"at":0,"len":0}]}"#,
        Status::Done,
    ),
    (
        r#"{"commands":[{"do":"memory_read","memory":0,"at":0}]}"#,
        Status::BadScript,
    ),
    (
        r#"{"commands":[{"do":"memory_read","memory":0,"len":0}]}"#,
        Status::BadScript,
    ),
    (
        r#"{"commands":[{"do":"memory_read","at":0,"len":0}]}"#,
        Status::BadScript,
    ),
    (
        r#"{"commands":[{"do":"memory_read","memory":0,"at":0,"len":0,"bytes":""}]}"#,
        Status::BadScript,
    ),
    (
        r#"{"commands":[{"do":"memory_read","memory":"0","at":0,"len":0}]}"#,
        Status::BadScript,
    ),
    (
        r#"{"commands":[{"do":"memory_read","memory":-1,"at":0,"len":0}]}"#,
        Status::BadScript,
    ),
    (
        r#"{"commands":[{"do":"memory_read","memory":{},"at":0,"len":0}]}"#,
        Status::BadScript,
    ),
];

const WHOLE_NUMBERS_ARE_WRITTEN_AS_INTEGERS: [(&str, Status); 10] = [
    (
        r#"{"commands":[{"do":"memory_read","memory":0,"at":18446744073709551615,"len":0}]}"#,
        Status::Done,
    ),
    (
        r#"{"commands":[{"do":"memory_read","memory":0,"at":18446744073709551616,"len":0}]}"#,
        Status::BadScript,
    ),
    (
        r#"{"commands":[{"do":"memory_read","memory":0,"at":-0,"len":0}]}"#,
        Status::BadScript,
    ),
    (
        r#"{"commands":[{"do":"memory_read","memory":0,"at":1.0,"len":0}]}"#,
        Status::BadScript,
    ),
    (
        r#"{"commands":[{"do":"memory_read","memory":0,"at":1e3,"len":0}]}"#,
        Status::BadScript,
    ),
    (
        r#"{"commands":[{"do":"memory_read","memory":0,"at":0,"len":-0}]}"#,
        Status::BadScript,
    ),
    (
        r#"{"commands":[{"do":"memory_read","memory":0.0,"at":0,"len":0}]}"#,
        Status::BadScript,
    ),
    (
        r#"{"commands":[{"do":"memory_new","min":1.0}]}"#,
        Status::BadScript,
    ),
    (
        r#"{"commands":[{"do":"memory_new","min":-0}]}"#,
        Status::BadScript,
    ),
    (
        r#"{"commands":[{"do":"memory_new","min":1e400}]}"#,
        Status::BadJson,
    ),
];

const BYTES_ARE_PAIRS_OF_HEXADECIMAL_DIGITS: [(&str, Status); 13] = [
    (
        r#"{"commands":[{"do":"memory_write","memory":0,"at":0,"bytes":""}]}"#,
        Status::Done,
    ),
    (
        r#"{"commands":[{"do":"memory_write","memory":0,"at":0,"bytes":"0aF9"}]}"#,
        Status::Done,
    ),
    (
        r#"{"commands":[{"do":"memory_write","memory":0,"at":0,"bytes":"0aF"}]}"#,
        Status::BadScript,
    ),
    (
        r#"{"commands":[{"do":"memory_write","memory":0,"at":0,"bytes":"0g"}]}"#,
        Status::BadScript,
    ),
    (
        r#"{"commands":[{"do":"memory_write","memory":0,"at":0,"bytes":"0 "}]}"#,
        Status::BadScript,
    ),
    (
        r#"{"commands":[{"do":"memory_write","memory":0,"at":0,"bytes":"0x"}]}"#,
        Status::BadScript,
    ),
    (
        r#"{"commands":[{"do":"memory_write","memory":0,"at":0,"bytes":"é"}]}"#,
        Status::BadScript,
    ),
    (
        r#"{"commands":[{"do":"memory_write","memory":0,"at":0,"bytes":10}]}"#,
        Status::BadScript,
    ),
    (
        r#"{"commands":[{"do":"memory_write","memory":0,"at":0,"bytes":[10]}]}"#,
        Status::BadScript,
    ),
    (
        r#"{"commands":[{"do":"memory_write","memory":0,"at":0}]}"#,
        Status::BadScript,
    ),
    (
        r#"{"commands":[{"do":"memory_write","memory":0,"bytes":""}]}"#,
        Status::BadScript,
    ),
    (
        r#"{"commands":[{"do":"memory_write","at":0,"bytes":""}]}"#,
        Status::BadScript,
    ),
    (
        r#"{"commands":[{"do":"memory_write","memory":0,"at":0,"bytes":"","len":0}]}"#,
        Status::BadScript,
    ),
];

fn check_nested(rt: &impl Abort, alloc: Global, depth: usize, status: Status) {
    let mut text = times(rt, alloc, b'[', depth);
    let ends = times(rt, alloc, b']', depth);
    append(rt, &mut text, ends.as_slice());
    let run = run_list(rt, alloc, text);
    check_ended(rt, run.status, status, &depth);
    nothing_came(rt, &run, "nested arrays");
}

#[test]
fn arrays_nest_at_most_127_deep(rt: HostRuntime) {
    check_nested(&rt, rt.alloc(), 127, Status::BadScript);
    check_nested(&rt, rt.alloc(), 128, Status::BadJson);
}

const ENGINES_HAVE_THEIR_LIMITS: [(&str, Status); 15] = [
    (r#"{"engine":{},"commands":[]}"#, Status::Done),
    (
        r#"{"engine":{"frames":1,"turns":1},"commands":[]}"#,
        Status::Done,
    ),
    (
        r#"{"engine":{"frames":1024,"turns":1000000000},"commands":[]}"#,
        Status::Done,
    ),
    (
        r#"{"engine":{"frames":0},"commands":[]}"#,
        Status::BadScript,
    ),
    (
        r#"{"engine":{"frames":1025},"commands":[]}"#,
        Status::BadScript,
    ),
    (r#"{"engine":{"turns":0},"commands":[]}"#, Status::BadScript),
    (
        r#"{"engine":{"turns":1000000001},"commands":[]}"#,
        Status::BadScript,
    ),
    (
        r#"{"engine":{"turns":-1},"commands":[]}"#,
        Status::BadScript,
    ),
    (
        r#"{"engine":{"frames":1.0},"commands":[]}"#,
        Status::BadScript,
    ),
    (
        r#"{"engine":{"frames":null},"commands":[]}"#,
        Status::BadScript,
    ),
    (
        r#"{"engine":{"fuel":false,"epochs":true},"commands":[]}"#,
        Status::Done,
    ),
    (r#"{"engine":{"fuel":1},"commands":[]}"#, Status::BadScript),
    (
        r#"{"engine":{"epochs":null},"commands":[]}"#,
        Status::BadScript,
    ),
    (r#"{"engine":null,"commands":[]}"#, Status::BadScript),
    (r#"{"engine":[],"commands":[]}"#, Status::BadScript),
];

const THE_ANSWERS_OF_A_HOST_HAVE_THEIR_WORDS: [(&str, Status); 8] = [
    (r#"{"data":{},"commands":[]}"#, Status::Done),
    (
        r#"{"data":{"limiter":{},"deadline":[0,"interrupt","fault"]},"commands":[]}"#,
        Status::Done,
    ),
    (r#"{"data":null,"commands":[]}"#, Status::BadScript),
    (r#"{"data":{"hooks":[]},"commands":[]}"#, Status::BadScript),
    (
        r#"{"data":{"hook":["ok","no"]},"commands":[]}"#,
        Status::BadScript,
    ),
    (
        r#"{"data":{"deadline":["ok"]},"commands":[]}"#,
        Status::BadScript,
    ),
    (
        r#"{"data":{"limiter":{"answers":["yes","ok"]}},"commands":[]}"#,
        Status::BadScript,
    ),
    (
        r#"{"data":{"limiter":{"memory":1}},"commands":[]}"#,
        Status::BadScript,
    ),
];

const MODULES_HAVE_THEIR_KEYS: [(&str, Status); 12] = [
    (r#"{"modules":[],"commands":[]}"#, Status::Done),
    (
        r#"{"modules":[{"functions":[],"tables":[],"memories":[],"globals":[],"tags":[],"exports":[]}],"commands":[]}"#,
        Status::Done,
    ),
    (
        r#"{"modules":[{"imports":[],"elements":[],"datas":[]}],"commands":[]}"#,
        Status::Done,
    ),
    (r#"{"modules":{},"commands":[]}"#, Status::BadScript),
    (r#"{"modules":[[]],"commands":[]}"#, Status::BadScript),
    (r#"{"modules":[null],"commands":[]}"#, Status::BadScript),
    (
        r#"{"modules":[{"imports":{}}],"commands":[]}"#,
        Status::BadScript,
    ),
    (
        r#"{"modules":[{"elements":0}],"commands":[]}"#,
        Status::BadScript,
    ),
    (
        r#"{"modules":[{"datas":null}],"commands":[]}"#,
        Status::BadScript,
    ),
    (
        r#"{"modules":[{"start":[0]}],"commands":[]}"#,
        Status::BadScript,
    ),
    (
        r#"{"modules":[{"types":[]}],"commands":[]}"#,
        Status::BadScript,
    ),
    (
        r#"{"modules":[{"functions":null}],"commands":[]}"#,
        Status::BadScript,
    ),
];

const COMMANDS_ON_INSTANCES_HAVE_THEIR_KEYS: [(&str, Status); 12] = [
    (r#"{"commands":[{"do":"instantiate"}]}"#, Status::BadScript),
    (
        r#"{"commands":[{"do":"instantiate","module":-1}]}"#,
        Status::BadScript,
    ),
    (
        r#"{"commands":[{"do":"instantiate","module":0,"imports":{}}]}"#,
        Status::BadScript,
    ),
    (
        r#"{"commands":[{"do":"get_export","instance":0}]}"#,
        Status::BadScript,
    ),
    (
        r#"{"commands":[{"do":"get_export","name":"f"}]}"#,
        Status::BadScript,
    ),
    (
        r#"{"commands":[{"do":"get_export","instance":0,"name":5}]}"#,
        Status::BadScript,
    ),
    (
        r#"{"commands":[{"do":"get_export","instance":0,"name":"a\rb"}]}"#,
        Status::BadScript,
    ),
    (r#"{"commands":[{"do":"call"}]}"#, Status::BadScript),
    (
        r#"{"commands":[{"do":"call","func":0,"args":{}}]}"#,
        Status::BadScript,
    ),
    (
        r#"{"commands":[{"do":"call","func":0,"args":[0]}]}"#,
        Status::BadScript,
    ),
    (
        r#"{"commands":[{"do":"call","func":0,"results":null}]}"#,
        Status::BadScript,
    ),
    (
        r#"{"commands":[{"do":"call","func":0,"results":18446744073709551616}]}"#,
        Status::BadScript,
    ),
];

const MODULES_ARE_JUDGED_AFTER_THE_WHOLE_SCRIPT: [(&str, Status); 3] = [
    (
        r#"{"types":[{}],"modules":[{"tags":[1]}],"commands":[{"do":"fly"}]}"#,
        Status::BadScript,
    ),
    (
        r#"{"types":[{}],"modules":[{"tags":[1]},{"types":[]}],"commands":[]}"#,
        Status::BadScript,
    ),
    (
        r#"{"types":[{}],"modules":[{"tags":[0]}],"commands":[]}"#,
        Status::Done,
    ),
];

#[test]
fn texts_are_scripts_or_are_none(rt: HostRuntime) {
    let alloc = rt.alloc();
    check_statuses(&rt, alloc, &TEXT_THAT_IS_NO_JSON);
    check_statuses(&rt, alloc, &JSON_THAT_IS_NO_SCRIPT);
    check_statuses(&rt, alloc, &KEYS_OF_MEMORY_NEW);
    check_statuses(&rt, alloc, &KEYS_OF_MEMORY_READ);
    check_statuses(&rt, alloc, &WHOLE_NUMBERS_ARE_WRITTEN_AS_INTEGERS);
    check_statuses(&rt, alloc, &BYTES_ARE_PAIRS_OF_HEXADECIMAL_DIGITS);
    check_statuses(&rt, alloc, &ENGINES_HAVE_THEIR_LIMITS);
    check_statuses(&rt, alloc, &THE_ANSWERS_OF_A_HOST_HAVE_THEIR_WORDS);
    check_statuses(&rt, alloc, &MODULES_HAVE_THEIR_KEYS);
    check_statuses(&rt, alloc, &COMMANDS_ON_INSTANCES_HAVE_THEIR_KEYS);
    check_statuses(&rt, alloc, &MODULES_ARE_JUDGED_AFTER_THE_WHOLE_SCRIPT);
}
