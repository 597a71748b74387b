mod calls;
mod commands;
mod exports;
mod functions;
mod handed_out;
mod hosts;
mod laws;
mod links;
mod meters;
mod modules;
mod prepared;
mod tables;

use std::alloc::Global as Heap;
use std::fmt::Debug;
use std::process::Abort;
use wasm_meter::{Answers, EpochAnswer, ListedBehaviour, ListedData, ListedEpochs, ListedHook};
use wasm_store::{Engine, Store};
use wasm_types::EngineId;
use wasm_values::{Refusal, StoreIds, Trap};

/// The stores of these tests. A hook and a deadline behaviour are asked where a test sets them.
type TestStore = Store<ListedData, ListedHook, ListedBehaviour>;

/// What a call on a store answers.
type Answer<A> = Result<A, Refusal>;

const DONE: Answer<()> = Ok(());

/// The engine of the stores of these tests.
const ENGINE: EngineId = EngineId(1);

/// What an engine looks at while a guest runs, besides turns.
#[derive(Clone, Copy)]
enum Meter {
    Nothing,
    Fuel,
    Epochs,
}

/// Host data whose limiter says yes to all.
fn host_data(alloc: Heap) -> ListedData {
    ListedData {
        instances: 10_000,
        tables: 10_000,
        memories: 10_000,
        growths: Answers::new(Vec::new(alloc)),
        denials: 0,
        limiter_faults: 0,
        hooks: Answers::new(Vec::new(alloc)),
        hook_faults: 0,
        behaviours: Answers::new(Vec::new(alloc)),
        behaviour_faults: 0,
    }
}

/// The engine of 1,024 frames and 10,000,000 turns.
fn new_engine(rt: &impl Abort, meter: Meter) -> Engine {
    let fuel = matches!(meter, Meter::Fuel);
    let epochs = matches!(meter, Meter::Epochs);
    Engine::new(ENGINE, fuel, epochs, 1_024, 10_000_000).expect(rt, "an engine")
}

/// A store of the id 1 with this host data, lent for good: each test runs in a process of its own.
fn store_with<'a>(
    rt: &impl Abort,
    alloc: Heap,
    meter: Meter,
    data: ListedData,
) -> &'a mut TestStore {
    match Store::try_new(alloc, &mut StoreIds::new(), new_engine(rt, meter), data) {
        Ok(store) => lent(rt, alloc, store),
        Err(_) => panic!(rt; "there is no id"),
    }
}

fn lent<'a>(rt: &impl Abort, alloc: Heap, store: TestStore) -> &'a mut TestStore {
    match Box::new(alloc, store) {
        Ok(store) => Box::leak(store),
        Err(_) => panic!(rt; "there is no memory"),
    }
}

/// The same whose limiter says yes to all.
fn new_store<'a>(rt: &impl Abort, alloc: Heap, meter: Meter) -> &'a mut TestStore {
    store_with(rt, alloc, meter, host_data(alloc))
}

/// An epoch source of these answers.
fn epochs_of(rt: &impl Abort, alloc: Heap, answers: &[EpochAnswer]) -> ListedEpochs {
    match Vec::from_slice(alloc, answers) {
        Ok(list) => ListedEpochs {
            answers: Answers::new(list),
            last: 0,
            faults: 0,
        },
        Err(_) => panic!(rt; "there is no memory"),
    }
}

/// An epoch source for stores whose engine reads none.
fn no_epochs(rt: &impl Abort, alloc: Heap) -> ListedEpochs {
    epochs_of(rt, alloc, &[])
}

/// A call that ended in this trap.
fn trapped(trap: Trap) -> Answer<()> {
    Err(Refusal::Trap(trap))
}

/// What was got is what was expected.
fn check_same<A: PartialEq + Debug + Drop>(rt: &impl Abort, got: A, expected: A) {
    assert_eq!(rt; got, expected);
}

/// A call was not refused.
fn done<A: Drop>(rt: &impl Abort, got: Answer<A>) -> A {
    got.expect(rt, "the call is not refused")
}

/// An export is there.
fn found<A: Drop>(rt: &impl Abort, got: Answer<Option<A>>) -> A {
    done(rt, got).expect(rt, "an export")
}
