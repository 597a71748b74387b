use crate::tests::{check_same, export, lengths, valid};
use wasm_module::EntityIndex;

/// Sessions' types and one module each that is valid, with an export of it and what is exported.
const MODULES: [(&str, &str, EntityIndex); 11] = [
    (
        r#"{"types":[{"params":["i32"]},{}],"modules":[{"imports":[{"module":"host","name":"host_func","func":0}],"functions":[{"type":1,"code":[["i32.const",3],["call",0]]}],"exports":[{"name":"hello","func":1}]}]}"#,
        "hello",
        EntityIndex::Func(1),
    ),
    (
        r#"{"types":[{"results":["i32"],"final":false},{"results":["i32"],"super":0},{"params":["i32"],"results":["i32"]},{}],"modules":[{"functions":[{"type":1,"code":[["i32.const",7]]},{"type":3,"code":[]},{"type":2,"code":[["local.get",0],["call_indirect",0,0]]}],"tables":[{"ref":"funcref","min":4}],"elements":[{"ref":"funcref","table":0,"offset":["i32.const",0],"items":[["ref.func",0],["ref.func",1]]}],"exports":[{"name":"f","func":2}]}]}"#,
        "f",
        EntityIndex::Func(2),
    ),
    (
        r#"{"types":[{}],"modules":[{"imports":[{"module":"h","name":"h","func":0}],"functions":[{"type":0,"code":[["call",0]]},{"type":0,"code":[["unreachable"]]}],"exports":[{"name":"go","func":1},{"name":"bad","func":2}]}]}"#,
        "bad",
        EntityIndex::Func(2),
    ),
    (
        r#"{"types":[{}],"modules":[{"memories":[{"min":1}],"functions":[{"type":0,"code":[["i32.const",0],["i32.const",255],["i32.store8",0,0],["call",0]]}],"exports":[{"name":"f","func":0},{"name":"m","memory":0}]}]}"#,
        "m",
        EntityIndex::Memory(0),
    ),
    (
        r#"{"types":[{"params":["i32"],"results":["i32"]}],"modules":[{"memories":[{"min":1,"max":3}],"functions":[{"type":0,"code":[["local.get",0],["memory.grow",0]]}],"exports":[{"name":"f","func":0}]}]}"#,
        "f",
        EntityIndex::Func(0),
    ),
    (
        r#"{"types":[{"params":["i32","i32"],"results":["i32"]}],"modules":[{"functions":[{"type":0,"code":[["local.get",0],["local.get",1],["i32.div_s"]]},{"type":0,"code":[["local.get",0],["local.get",1],["i32.rem_s"]]}],"exports":[{"name":"rem","func":1}]}]}"#,
        "rem",
        EntityIndex::Func(1),
    ),
    (
        r#"{"types":[{},{"params":["i32"],"results":["i32"]}],"modules":[{"functions":[{"type":1,"code":[["block",0,[["block",0,[["local.get",0],["br_table",[0],1]]],["i32.const",10],["return"]]],["i32.const",20]]}],"exports":[{"name":"f","func":0}]}]}"#,
        "f",
        EntityIndex::Func(0),
    ),
    (
        r#"{"types":[{}],"modules":[{"globals":[{"val":"i32","mut":true,"init":["i32.const",0]}],"functions":[{"type":0,"code":[["loop",0,[["global.get",0],["i32.const",1],["i32.add"],["global.set",0],["br",0]]]]}],"exports":[{"name":"f","func":0},{"name":"g","global":0}]}]}"#,
        "g",
        EntityIndex::Global(0),
    ),
    (
        r#"{"types":[{"params":["i32"],"results":["i32"]}],"modules":[{"memories":[{"min":1}],"globals":[{"val":"i32","mut":true,"init":["i32.const",0]}],"functions":[{"type":0,"code":[["global.get",0],["local.get",0],["i32.add"],["global.set",0],["local.get",0],["i32.const",4],["i32.mul"],["global.get",0],["i32.store",0,0],["global.get",0]]}],"exports":[{"name":"f","func":0},{"name":"m","memory":0}]}]}"#,
        "f",
        EntityIndex::Func(0),
    ),
    (
        r#"{"types":[{}],"modules":[{"functions":[{"type":0,"code":[["loop",0,[["br",0]]]]}],"exports":[{"name":"spin","func":0}]}]}"#,
        "spin",
        EntityIndex::Func(0),
    ),
    (
        r#"{"modules":[{"imports":[{"module":"h","name":"m","memory":{"min":2}}],"exports":[{"name":"m","memory":0}]}]}"#,
        "m",
        EntityIndex::Memory(0),
    ),
];

#[test]
fn modules_are_read_and_valid(rt: HostRuntime) {
    for (text, name, entity) in MODULES {
        let module = valid(&rt, rt.alloc(), text);
        check_same(&rt, export(&module, name) == Some(entity), true, text);
    }
}

// The second segment of elements passes the end of its table, which shows when the module is instantiated.
const UNNAMED: &str =
    r#"{"types":[{"results":["i32"]}],"modules":[{"imports":[{"module":"h","name":"t","table":{"ref":"funcref","min":2}}],"memories":[{"min":1}],"functions":[{"type":0,"code":[["i32.const",0],["i32.load8_u",0,0]]}],"elements":[{"ref":"funcref","table":0,"offset":["i32.const",0],"items":[["ref.func",0]]},{"ref":"funcref","table":0,"offset":["i32.const",5],"items":[["ref.func",0]]}],"datas":[{"bytes":"ff","memory":0,"offset":["i32.const",0]}]}]}"#;

#[test]
fn module_without_an_export(rt: HostRuntime) {
    let module = valid(&rt, rt.alloc(), UNNAMED);
    check_same(&rt, lengths(&module), [2, 1, 1], UNNAMED);
}
