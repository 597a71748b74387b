//! Functions that instances export, and that keep their types.
use crate::tests::{Answer, calls, check_same, done, new_store, valid};
use wasm_typed::TypedFunc;
use wasm_values::{Func, Refusal, StoreIds};

/// A function that adds its number to a sum, keeps the sum in a memory and gives it.
const SUMS: &str = r#"{
  "types": [{"params": ["i32"], "results": ["i32"]}],
  "module": {
    "memories": [{"min": 1}],
    "globals": [{"val": "i32", "mut": true, "init": ["i32.const", 0]}],
    "functions": [{"type": 0, "code": [
      ["global.get", 0], ["local.get", 0], ["i32.add"], ["global.set", 0],
      ["local.get", 0], ["i32.const", 4], ["i32.mul"], ["global.get", 0], ["i32.store", 0, 0],
      ["global.get", 0]
    ]}],
    "exports": [{"name": "f", "func": 0}, {"name": "m", "memory": 0}]
  }
}"#;

#[test]
fn an_export_is_called_by_its_types(rt: HostRuntime) {
    let alloc = rt.alloc();
    let store = new_store(&rt, alloc, &mut StoreIds::new());
    let sums = valid(&rt, alloc, SUMS);
    let instance = done(&rt, calls::instance_new(store, &sums, &[]));
    let sum: TypedFunc<i32, i32> = done(&rt, calls::typed_export(store, instance, "f"));
    check_same(&rt, calls::call(store, &sum, 5), Ok(5));
    check_same(&rt, calls::call(store, &sum, 6), Ok(11));
    let same: TypedFunc<i32, i32> = calls::copy(&sum).expect(&rt, "there is memory");
    assert!(rt; calls::handle(&same) == calls::handle(&sum));
    check_same(&rt, calls::call(store, &same, 1), Ok(12));
    let unsigned: TypedFunc<(u32,), (u32,)> = done(&rt, calls::typed_export(store, instance, "f"));
    check_same(&rt, calls::call(store, &unsigned, (2,)), Ok((14,)));
}

#[test]
fn exports_that_are_no_such_function(rt: HostRuntime) {
    let alloc = rt.alloc();
    let mut ids = StoreIds::new();
    let store = new_store(&rt, alloc, &mut ids);
    let other = new_store(&rt, alloc, &mut ids);
    let sums = valid(&rt, alloc, SUMS);
    let instance = done(&rt, calls::instance_new(store, &sums, &[]));
    check_same(
        &rt,
        calls::no_export::<(), ()>(other, instance, "g"),
        Some(Refusal::WrongStore),
    );
    let rows = [
        (
            calls::no_export::<(), ()>(store, instance, "g"),
            Some(Refusal::NoExport),
        ),
        (
            calls::no_export::<(), ()>(store, instance, "m"),
            Some(Refusal::NoExport),
        ),
        (
            calls::no_export::<i64, i32>(store, instance, "f"),
            Some(Refusal::TypeMismatch),
        ),
        (calls::no_export::<i32, i32>(store, instance, "f"), None),
    ];
    for (told, due) in rows {
        check_same(&rt, told, due);
    }
}

#[test]
fn a_function_of_another_store(rt: HostRuntime) {
    let alloc = rt.alloc();
    let mut ids = StoreIds::new();
    let store = new_store(&rt, alloc, &mut ids);
    let other_id = new_store(&rt, alloc, &mut ids);
    let same_id = new_store(&rt, alloc, &mut StoreIds::new());
    let func = done(&rt, calls::wrap::<(), ()>(store, 0));
    done(&rt, calls::wrap::<(i32,), ()>(same_id, 0));
    let func: TypedFunc<(), ()> = done(&rt, calls::typed(store, func));
    let called: Answer<()> = calls::call(other_id, &func, ());
    check_same(&rt, called, Err(Refusal::WrongStore));
    let called: Answer<()> = calls::call(same_id, &func, ());
    check_same(&rt, called, Err(Refusal::TypeMismatch));
    let called: Answer<()> = calls::call(store, &func, ());
    check_same(&rt, called, Err(Refusal::NoHostBody));
}

#[test]
fn an_argument_of_another_store_is_told_before_the_type(rt: HostRuntime) {
    let alloc = rt.alloc();
    let mut ids = StoreIds::new();
    let store = new_store(&rt, alloc, &mut ids);
    let other_id = new_store(&rt, alloc, &mut ids);
    let same_id = new_store(&rt, alloc, &mut StoreIds::new());
    let takes = done(&rt, calls::wrap::<(Option<Func>,), ()>(store, 0));
    done(&rt, calls::wrap::<(i32,), ()>(same_id, 0));
    let strange = done(&rt, calls::wrap::<(), ()>(other_id, 0));
    let takes: TypedFunc<Option<Func>, ()> = done(&rt, calls::typed(store, takes));
    let called: Answer<()> = calls::call(same_id, &takes, Some(strange));
    check_same(&rt, called, Err(Refusal::WrongStore));
    let called: Answer<()> = calls::call(same_id, &takes, None);
    check_same(&rt, called, Err(Refusal::TypeMismatch));
}
