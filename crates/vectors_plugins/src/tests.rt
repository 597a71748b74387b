mod bounds;
mod calls;
mod graphs;
mod handed_over;
mod hosts;
mod keeper;
mod loads;
mod many;
mod meetings;
mod modules;

use std::alloc::Global as Heap;
use std::fmt::Debug;
use std::process::Abort;
use wasm_embedding::{ENGINE, module_from_json};
use wasm_meter::{Answers, ListedData};
use wasm_module::Module;
use wasm_plugins::{PluginFault, Plugins};
use wasm_store::{Engine, Store};
use wasm_types::{FuncType, ValType};
use wasm_values::{Extern, Func, Memory, StoreIds};

/// The stores of these tests, and guests in one.
type TestStore = Store<ListedData>;

type TestPlugins = Plugins<ListedData>;

/// What a call on guests answers.
type Answer<A> = Result<A, PluginFault>;

const DONE: Answer<()> = Ok(());

/// Host data whose limiter says yes to all.
fn host_data(alloc: Heap) -> ListedData {
    ListedData {
        instances: 10_000,
        tables: 10_000,
        memories: 10_000,
        growths: Answers::new(Vec::new(alloc)),
        denials: 0,
        limiter_faults: 0,
        hooks: Answers::new(Vec::new(alloc)),
        hook_faults: 0,
        behaviours: Answers::new(Vec::new(alloc)),
        behaviour_faults: 0,
    }
}

/// A store of the next id and an engine that consumes fuel or reads epochs, or neither.
fn store_of(
    rt: &impl Abort,
    alloc: Heap,
    ids: &mut StoreIds,
    consume_fuel: bool,
    epoch_interruption: bool,
) -> TestStore {
    let engine = Engine::new(ENGINE, consume_fuel, epoch_interruption, 1_024, 1_000_000).expect(
        rt,
        "an engine",
    );
    match Store::try_new(alloc, ids, engine, host_data(alloc)) {
        Ok(store) => store,
        Err(_) => panic!(rt; "there is no id"),
    }
}

/// A store of the next id.
fn new_store(rt: &impl Abort, alloc: Heap, ids: &mut StoreIds) -> TestStore {
    store_of(rt, alloc, ids, false, false)
}

/// A store without guests, lent for good: each test runs in a process of its own.
fn guests_in<'a>(rt: &impl Abort, alloc: Heap, store: TestStore) -> &'a mut TestPlugins {
    match Box::new(alloc, Plugins::new(alloc, store)) {
        Ok(plugins) => Box::leak(plugins),
        Err(_) => panic!(rt; "there is no memory"),
    }
}

/// The same of a new store.
fn no_guests<'a>(rt: &impl Abort, alloc: Heap) -> &'a mut TestPlugins {
    guests_in(rt, alloc, new_store(rt, alloc, &mut StoreIds::new()))
}

fn valid(rt: &impl Abort, alloc: Heap, text: &str) -> Module {
    match module_from_json(alloc, 0, text) {
        Ok(module) => module,
        Err(_) => panic!(rt; "a module that is not valid"),
    }
}

/// A function of the host, with these objects stored.
fn host_function(
    rt: &impl Abort,
    alloc: Heap,
    store: &mut TestStore,
    body: usize,
    params: &[ValType],
    results: &[ValType],
    stored: &[Extern],
) -> Func {
    let Ok(ty) = FuncType::try_new(alloc, ENGINE, params, results) else {
        panic!(rt; "a type");
    };
    match calls::func_new(store, ty, body, stored) {
        Ok(func) => func,
        Err(_) => panic!(rt; "a function"),
    }
}

/// A function of the host that takes and gives nothing, with nothing stored.
fn plain_function(rt: &impl Abort, alloc: Heap, store: &mut TestStore) -> Func {
    host_function(rt, alloc, store, 0, &[], &[], &[])
}

/// What a guest exports under a name.
fn exported(rt: &impl Abort, plugins: &TestPlugins, guest: usize, name: &str) -> Extern {
    match calls::export(plugins, guest, name) {
        Some(object) => object,
        None => panic!(rt; "no such export"),
    }
}

/// The memory that a guest exports as `m`.
fn memory_of(rt: &impl Abort, plugins: &TestPlugins, guest: usize) -> Memory {
    match exported(rt, plugins, guest, "m") {
        Extern::Memory(memory) => memory,
        _ => panic!(rt; "no memory"),
    }
}

/// The first byte of that memory.
fn first_byte(rt: &impl Abort, plugins: &TestPlugins, guest: usize) -> u8 {
    match calls::first_byte(plugins, memory_of(rt, plugins, guest)) {
        Some(byte) => byte,
        None => panic!(rt; "a memory without a byte"),
    }
}

/// What was got is what was expected.
fn check_same<A: PartialEq + Debug + Drop>(rt: &impl Abort, got: A, expected: A) {
    assert_eq!(rt; got, expected);
}
