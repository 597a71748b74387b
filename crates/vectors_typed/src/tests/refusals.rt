//! Static types that do not fit those of a function.
use crate::tests::{calls, check_same, done, new_store, valid};
use wasm_values::{Func, NoFunc, Refusal, StoreIds};

#[test]
fn the_first_pair_is_told_and_then_the_number(rt: HostRuntime) {
    let mut ids = StoreIds::new();
    let store = new_store(&rt, rt.alloc(), &mut ids);
    let other = new_store(&rt, rt.alloc(), &mut ids);
    let func = done(&rt, calls::wrap::<(i64,), (i32, i64)>(store, 0));
    check_same(
        &rt,
        calls::misfit::<(i32, i32), i64>(other, func),
        Some(Refusal::WrongStore),
    );
    let rows = [
        (
            calls::misfit::<(i32, i32), i64>(store, func),
            Some(Refusal::TypeMismatch),
        ),
        (
            calls::misfit::<(i64, i64), i64>(store, func),
            Some(Refusal::ArgumentCount),
        ),
        (
            calls::misfit::<(), i64>(store, func),
            Some(Refusal::ArgumentCount),
        ),
        (
            calls::misfit::<i64, i64>(store, func),
            Some(Refusal::TypeMismatch),
        ),
        (
            calls::misfit::<i64, (i32, i32)>(store, func),
            Some(Refusal::TypeMismatch),
        ),
        (
            calls::misfit::<i64, i32>(store, func),
            Some(Refusal::ResultCount),
        ),
        (
            calls::misfit::<(i64,), ()>(store, func),
            Some(Refusal::ResultCount),
        ),
        (calls::misfit::<u64, (u32, u64)>(store, func), None),
    ];
    for (told, due) in rows {
        check_same(&rt, told, due);
    }
}

#[test]
fn a_null_is_no_func(rt: HostRuntime) {
    let store = new_store(&rt, rt.alloc(), &mut StoreIds::new());
    let takes = done(&rt, calls::wrap::<(Func,), Option<Func>>(store, 0));
    let takes_null = done(&rt, calls::wrap::<(Option<Func>,), Func>(store, 0));
    let rows = [
        // a null may come where a function is asked for
        (
            calls::misfit::<Func, Func>(store, takes),
            Some(Refusal::TypeMismatch),
        ),
        (
            calls::misfit::<Func, Option<NoFunc>>(store, takes),
            Some(Refusal::TypeMismatch),
        ),
        // a null may be handed where a function is taken
        (
            calls::misfit::<Option<Func>, Option<Func>>(store, takes),
            Some(Refusal::TypeMismatch),
        ),
        (
            calls::misfit::<Option<NoFunc>, Option<Func>>(store, takes),
            Some(Refusal::TypeMismatch),
        ),
        (calls::misfit::<Func, Option<Func>>(store, takes), None),
        (calls::misfit::<Func, Func>(store, takes_null), None),
        (
            calls::misfit::<Option<NoFunc>, Option<Func>>(store, takes_null),
            None,
        ),
    ];
    for (told, due) in rows {
        check_same(&rt, told, due);
    }
}

/// A function, and one that takes a function of its type.
const TAKER: &str = r#"{
  "types": [{}, {"params": [{"ref": 0, "null": false}]}],
  "module": {
    "functions": [{"type": 0, "code": []}, {"type": 1, "code": []}],
    "exports": [{"name": "nothing", "func": 0}, {"name": "takes", "func": 1}]
  }
}"#;

#[test]
fn functions_of_one_type_are_told_apart_at_each_call(rt: HostRuntime) {
    let alloc = rt.alloc();
    let store = new_store(&rt, alloc, &mut StoreIds::new());
    let taker = valid(&rt, alloc, TAKER);
    let instance = done(&rt, calls::instance_new(store, &taker, &[]));
    let nothing = done(&rt, calls::export(store, instance, "nothing")).expect(&rt, "an export");
    let takes = done(&rt, calls::export(store, instance, "takes")).expect(&rt, "an export");
    let func = done(&rt, calls::typed::<Func, ()>(store, takes));
    check_same(&rt, calls::call(store, &func, nothing), Ok(()));
    check_same(
        &rt,
        calls::call(store, &func, takes),
        Err(Refusal::TypeMismatch),
    );
    let func = done(&rt, calls::typed::<Option<Func>, ()>(store, takes));
    check_same(&rt, calls::call(store, &func, Some(nothing)), Ok(()));
    check_same(
        &rt,
        calls::call(store, &func, None),
        Err(Refusal::TypeMismatch),
    );
}
