//! Closures as functions of the host: what a guest gets of them, and how they fail.
use crate::tests::{Answer, calls, check_same, done, new_store, valid};
use typed_closures::HostFailed;
use wasm_typed::Wrap;
use wasm_types::ValType;
use wasm_values::{Extern, Refusal, StoreIds};

/// A function that has the one that it imports work on two numbers.
const ADDS: &str = r#"{
  "types": [{"params": ["i32", "i32"], "results": ["i32"]}, {"results": ["i32"]}],
  "module": {
    "imports": [{"module": "host", "name": "add", "func": 0}],
    "functions": [{"type": 1, "code": [["i32.const", 40], ["i32.const", 2], ["call", 0]]}],
    "exports": [{"name": "run", "func": 1}]
  }
}"#;

#[test]
fn a_guest_calls_a_closure(rt: HostRuntime) {
    let alloc = rt.alloc();
    let store = new_store(&rt, alloc, &mut StoreIds::new());
    let add = done(&rt, calls::wrap::<(i32, i32), i32>(store, 0));
    let ty = done(&rt, calls::func_type(store, add));
    assert!(rt; ty.params() == [ValType::I32, ValType::I32].as_slice());
    assert!(rt; ty.results() == [ValType::I32].as_slice());
    let adds = valid(&rt, alloc, ADDS);
    let instance = done(&rt, calls::instance_new(store, &adds, &[Extern::Func(add)]));
    let run = done(&rt, calls::export(store, instance, "run")).expect(&rt, "an export");
    let mut host = Wrap::new(|_data: &mut (), pair: (i32, i32)| -> i32 {
        pair.0.wrapping_add(pair.1)
    });
    let sum: Answer<i32> = calls::hosted_call(store, &mut host, run, ());
    check_same(&rt, sum, Ok(42));
}

#[test]
fn a_closure_fails(rt: HostRuntime) {
    let store = new_store(&rt, rt.alloc(), &mut StoreIds::new());
    let half = done(
        &rt,
        calls::wrap::<(i32,), Result<i32, HostFailed>>(store, 0),
    );
    let mut host = Wrap::new(|_data: &mut (), number: (i32,)| -> Result<i32, HostFailed> {
        if number.0 > 0 {
            Ok(number.0 / 2)
        } else {
            Err(HostFailed)
        }
    });
    let even: Answer<i32> = calls::hosted_call(store, &mut host, half, 6);
    check_same(&rt, even, Ok(3));
    check_same(&rt, host.faults, 0);
    let failed: Answer<i32> = calls::hosted_call(store, &mut host, half, -1);
    check_same(&rt, failed, Err(Refusal::HostFault));
    check_same(&rt, host.faults, 1);
}

#[test]
fn a_closure_is_the_body_zero_alone(rt: HostRuntime) {
    let store = new_store(&rt, rt.alloc(), &mut StoreIds::new());
    let other_body = done(&rt, calls::wrap::<(i32,), ()>(store, 1));
    let other_type = done(&rt, calls::wrap::<(i64,), ()>(store, 0));
    let mut host = Wrap::new(|_data: &mut (), _number: (i32,)| -> () { () });
    let missing: Answer<()> = calls::hosted_call(store, &mut host, other_body, 1);
    check_same(&rt, missing, Err(Refusal::NoHostBody));
    check_same(&rt, host.faults, 0);
    let mistaken: Answer<()> = calls::hosted_call(store, &mut host, other_type, 1_i64);
    check_same(&rt, mistaken, Err(Refusal::HostFault));
    check_same(&rt, host.faults, 1);
}

#[test]
fn a_closure_gives_nothing(rt: HostRuntime) {
    let store = new_store(&rt, rt.alloc(), &mut StoreIds::new());
    let takes = done(&rt, calls::wrap::<(i64,), ()>(store, 0));
    let mut host = Wrap::new(|_data: &mut (), _number: (i64,)| -> () { () });
    let given: Answer<()> = calls::hosted_call(store, &mut host, takes, 7_i64);
    check_same(&rt, given, Ok(()));
    check_same(&rt, host.faults, 0);
}
