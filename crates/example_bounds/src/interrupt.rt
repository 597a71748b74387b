//! A host that interrupts a guest: its code is stopped at a deadline, unless a behaviour of the host moves that.

use std::alloc::Global as Heap;
use wasm_embedding::{
    Answers, BehaviourAnswer, CountEpochs, ENGINE, Engine, Fault, Global, GlobalCalls, Instance,
    InstanceCalls, InstanceTyped, ListedBehaviour, ListedData, Module, NoHook, NoHost, Refusal,
    Store, StoreIds, TypedFunc, module_from_json,
};

/// A store that may have a deadline behaviour: the one that answers by a list in the host's data.
type HostStore = Store<ListedData, NoHook, ListedBehaviour>;

/// A function that counts in a global, and never ends.
const COUNTER: &str = r#"{
  "types": [{}],
  "module": {
    "globals": [{"val": "i32", "mut": true, "init": ["i32.const", 0]}],
    "functions": [
      {"type": 0, "code": [
        ["loop", 0, [["global.get", 0], ["i32.const", 1], ["i32.add"], ["global.set", 0], ["br", 0]]]
      ]}
    ],
    "exports": [{"name": "forever", "func": 0}, {"name": "rounds", "global": 0}]
  }
}"#;

/// What the host saw.
#[derive(Debug, Drop)]
struct Seen {
    interrupted: Result<(), Refusal>,
    rounds: Option<i32>,
    extended: Result<(), Refusal>,
    rounds_then: Option<i32>,
}

/// The epoch is read as a function is entered and before each round of a loop.
fn work(
    store: &mut HostStore,
    epochs: &mut CountEpochs,
    forever: &TypedFunc<(), ()>,
    rounds: Global,
) -> Result<Seen, Fault> {
    store.set_epoch_deadline(epochs, 5)?;
    let interrupted = forever.call(store, &mut NoHost, epochs, ());
    let first = rounds.get(store)?.i32();
    // From now on the host is asked at the deadline: its list says once to go on for three ticks, and then to
    // interrupt.
    store.epoch_deadline_callback(ListedBehaviour);
    let extended = forever.call(store, &mut NoHost, epochs, ());
    Ok(Seen {
        interrupted,
        rounds: first,
        extended,
        rounds_then: rounds.get(store)?.i32(),
    })
}

/// Host data whose behaviour once lets a guest go on for three ticks.
fn host_data(alloc: Heap) -> Result<ListedData, Fault> {
    let behaviours = vec![in alloc; BehaviourAnswer::Continue(3)]?;
    Ok(ListedData {
        instances: 10_000,
        tables: 10_000,
        memories: 10_000,
        growths: Answers::new(Vec::new(alloc)),
        denials: 0,
        limiter_faults: 0,
        hooks: Answers::new(Vec::new(alloc)),
        hook_faults: 0,
        behaviours: Answers::new(behaviours),
        behaviour_faults: 0,
    })
}

/// Makes an instance, and calls its function. A clock would do as the source of epochs; this one counts how often it is
/// read.
fn see(store: &mut HostStore, counter_module: &Module) -> Result<Seen, Fault> {
    let mut epochs = CountEpochs::new();
    let instance = Instance::new(store, counter_module, &[], &mut NoHost, &mut epochs)?;
    let forever: TypedFunc<(), ()> = instance.get_typed_func(store, "forever")?;
    let rounds = instance
        .get_global(store, "rounds")?
        .ok_or(Refusal::NoExport)?;
    work(store, &mut epochs, &forever, rounds)
}

/// Makes a store of an engine that reads epochs, and works in it. A call gives the store up in the end: a crate that drops one
/// itself checks the destructors of all its parts.
fn run(alloc: Heap, counter_module: &Module) -> Result<Seen, Fault> {
    let engine = Engine::new(ENGINE, false, true, 1_024, 1_000_000).unwrap();
    let mut store = Store::try_new(alloc, &mut StoreIds::new(), engine, host_data(alloc)?)?;
    let seen = see(&mut store, counter_module);
    store.into_data();
    seen
}

pub(crate) fn show(rt: &impl Print, alloc: Heap) -> Result<(), Fault> {
    let seen = run(alloc, &module_from_json(alloc, 0, COUNTER)?)?;
    println!(rt; "interrupt\n{seen:?}")?;
    Ok(())
}
