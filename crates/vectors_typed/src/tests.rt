mod bodies;
mod calls;
mod closures;
mod exports;
mod refusals;
mod sources;
mod tuples;
mod values;

use std::alloc::Global as Heap;
use std::fmt::Debug;
use std::process::Abort;
use wasm_embedding::{ENGINE, module_from_json};
use wasm_module::Module;
use wasm_store::{Engine, Store};
use wasm_values::{Refusal, StoreIds};

/// The stores of these tests.
type TestStore = Store<()>;

/// What a call on a store answers.
type Answer<A> = Result<A, Refusal>;

/// A store without objects, lent for good: each test runs in a process of its own.
fn new_store<'a>(rt: &impl Abort, alloc: Heap, ids: &mut StoreIds) -> &'a mut TestStore {
    let engine = Engine::new(ENGINE, false, false, 1_024, 1_000_000).expect(rt, "an engine");
    match Store::try_new(alloc, ids, engine, ()) {
        Ok(store) => lent(rt, alloc, store),
        Err(_) => panic!(rt; "there is no id"),
    }
}

fn lent<'a>(rt: &impl Abort, alloc: Heap, store: TestStore) -> &'a mut TestStore {
    match Box::new(alloc, store) {
        Ok(store) => Box::leak(store),
        Err(_) => panic!(rt; "there is no memory"),
    }
}

fn valid(rt: &impl Abort, alloc: Heap, text: &str) -> Module {
    match module_from_json(alloc, 0, text) {
        Ok(module) => module,
        Err(_) => panic!(rt; "a module that is not valid"),
    }
}

/// What was got is what was expected.
fn check_same<A: PartialEq + Debug + Drop>(rt: &impl Abort, got: A, expected: A) {
    assert_eq!(rt; got, expected);
}

/// A call was not refused.
fn done<A: Drop>(rt: &impl Abort, got: Answer<A>) -> A {
    got.expect(rt, "the call is not refused")
}
