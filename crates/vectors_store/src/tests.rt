mod calls;
mod laws;
mod links;
mod meters;
mod objects;
mod replacements;
mod stores;
mod strangers;
mod typed;
mod types;

use std::alloc::Global as Heap;
use std::fmt::Debug;
use std::process::Abort;
use wasm_meter::{Answers, ListedBehaviour, ListedData, ListedHook};
use wasm_store::{Engine, Store};
use wasm_types::EngineId;
use wasm_values::{Func, Refusal, StoreIds};

/// The stores of these tests. A hook and a deadline behaviour are asked where a test sets them.
type TestStore = Store<ListedData, ListedHook, ListedBehaviour>;

/// What a call on a store answers.
type Answer<A> = Result<A, Refusal>;

const DONE: Answer<()> = Ok(());

const FAILED: Refusal = Refusal::GrowFailed;

/// The engine of the stores of these tests.
const ENGINE: EngineId = EngineId(1);

/// Host data whose limiter says yes to all.
fn host_data(alloc: Heap) -> ListedData {
    ListedData {
        instances: 10_000,
        tables: 10_000,
        memories: 10_000,
        growths: Answers::new(Vec::new(alloc)),
        denials: 0,
        limiter_faults: 0,
        hooks: Answers::new(Vec::new(alloc)),
        hook_faults: 0,
        behaviours: Answers::new(Vec::new(alloc)),
        behaviour_faults: 0,
    }
}

/// The engine of 1,024 frames and 1,000 turns.
fn new_engine(rt: &impl Abort) -> Engine {
    engine_with(rt, false, false)
}

/// The same, which consumes fuel and reads epochs or not.
fn engine_with(rt: &impl Abort, fuel: bool, epochs: bool) -> Engine {
    Engine::new(ENGINE, fuel, epochs, 1024, 1000).expect(rt, "an engine")
}

/// A store of the next id, with this host data.
fn store_of(rt: &impl Abort, alloc: Heap, ids: &mut StoreIds, data: ListedData) -> TestStore {
    store_for(rt, alloc, ids, new_engine(rt), data)
}

/// The same for an engine.
fn store_for(
    rt: &impl Abort,
    alloc: Heap,
    ids: &mut StoreIds,
    engine: Engine,
    data: ListedData,
) -> TestStore {
    match Store::try_new(alloc, ids, engine, data) {
        Ok(store) => store,
        Err(_) => panic!(rt; "there is no id"),
    }
}

/// A store, lent for good: each test runs in a process of its own.
fn lent<'a>(rt: &impl Abort, alloc: Heap, store: TestStore) -> &'a mut TestStore {
    match Box::new(alloc, store) {
        Ok(store) => Box::leak(store),
        Err(_) => panic!(rt; "there is no memory"),
    }
}

/// A store of the id 1.
fn new_store<'a>(rt: &impl Abort, alloc: Heap) -> &'a mut TestStore {
    lent(
        rt,
        alloc,
        store_of(rt, alloc, &mut StoreIds::new(), host_data(alloc)),
    )
}

/// A new function of the host.
fn new_func(rt: &impl Abort, alloc: Heap, store: &mut TestStore) -> Func {
    let ty = types::func(rt, alloc);
    done(rt, calls::func_new(store, ty, 0, &[]))
}

/// What was got is what was expected.
fn check_same<A: PartialEq + Debug + Drop>(rt: &impl Abort, got: A, expected: A) {
    assert_eq!(rt; got, expected);
}

/// A type was got.
fn check_type<A: PartialEq + Drop>(rt: &impl Abort, got: Answer<A>, ty: A) {
    assert!(rt; got == Ok(ty));
}

/// A call was not refused.
fn done<A: Drop>(rt: &impl Abort, got: Answer<A>) -> A {
    got.expect(rt, "the call is not refused")
}
