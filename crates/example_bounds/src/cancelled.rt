//! A host that cancels a call: it sets a deadline of one tick, and the epoch stays where it is until somebody raises it.
//! The store is as the guest left it, and works on.

use std::alloc::Global as Heap;
use wasm_embedding::{
    ENGINE, Engine, Fault, Instance, InstanceCalls, InstanceTyped, ListEpochs, Module, NoHost,
    Refusal, Store, StoreIds, TypedFunc, module_from_json,
};

/// A function that counts in a global and never ends, and one that gives the count.
const COUNTER: &str = r#"{
  "types": [{}, {"results": ["i32"]}],
  "module": {
    "globals": [{"val": "i32", "mut": true, "init": ["i32.const", 0]}],
    "functions": [
      {"type": 0, "code": [
        ["loop", 0, [["global.get", 0], ["i32.const", 1], ["i32.add"], ["global.set", 0], ["br", 0]]]
      ]},
      {"type": 1, "code": [["global.get", 0]]}
    ],
    "exports": [{"name": "forever", "func": 0}, {"name": "count", "func": 1}]
  }
}"#;

/// The epochs that a source of this host gives: 0 until the call is cancelled, before its third round, and 1 from then on.
/// Another source reads a clock, or a number that another part of the host raises.
fn epochs(alloc: Heap) -> Result<ListEpochs, Fault> {
    let readings = vec![in alloc; 0, 0, 0, 0, 1]?;
    Ok(ListEpochs::new(readings, Vec::new(alloc)))
}

/// What the host saw.
#[derive(Debug, Drop)]
struct Seen {
    cancelled: Result<(), Refusal>,
    still: Result<i32, Refusal>,
    count: i32,
}

/// The epoch is read as a deadline is set, as a function is entered and before each round of a loop.
fn work(
    store: &mut Store<()>,
    epochs: &mut ListEpochs,
    forever: &TypedFunc<(), ()>,
    count: &TypedFunc<(), i32>,
) -> Result<Seen, Fault> {
    store.set_epoch_deadline(epochs, 1)?;
    let cancelled = forever.call(store, &mut NoHost, epochs, ());
    // The deadline has passed, so that no other function runs either until the host sets a new one.
    let still = count.call(store, &mut NoHost, epochs, ());
    store.set_epoch_deadline(epochs, 1)?;
    Ok(Seen {
        cancelled,
        still,
        count: count.call(store, &mut NoHost, epochs, ())?,
    })
}

/// Makes an instance, and calls its functions.
fn see(alloc: Heap, store: &mut Store<()>, counter_module: &Module) -> Result<Seen, Fault> {
    let mut epochs = epochs(alloc)?;
    let instance = Instance::new(store, counter_module, &[], &mut NoHost, &mut epochs)?;
    let forever: TypedFunc<(), ()> = instance.get_typed_func(store, "forever")?;
    let count: TypedFunc<(), i32> = instance.get_typed_func(store, "count")?;
    work(store, &mut epochs, &forever, &count)
}

/// Makes a store of an engine that reads epochs, and works in it. A call gives the store up in the end: a crate that drops one
/// itself checks the destructors of all its parts.
fn run(alloc: Heap, counter_module: &Module) -> Result<Seen, Fault> {
    let engine = Engine::new(ENGINE, false, true, 1_024, 1_000_000).unwrap();
    let mut store = Store::try_new(alloc, &mut StoreIds::new(), engine, ())?;
    let seen = see(alloc, &mut store, counter_module);
    store.into_data();
    seen
}

pub(crate) fn show(rt: &impl Print, alloc: Heap) -> Result<(), Fault> {
    let seen = run(alloc, &module_from_json(alloc, 0, COUNTER)?)?;
    println!(rt; "cancelled\n{seen:?}")?;
    Ok(())
}
