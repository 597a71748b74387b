//! A host that gives a guest fuel: a call takes of it what its code costs, and ends by a trap where none is left.

use std::alloc::Global as Heap;
use wasm_embedding::{
    CountEpochs, ENGINE, Engine, Fault, Instance, InstanceCalls, InstanceTyped, Module, NoHost,
    Refusal, Store, StoreIds, TypedFunc, module_from_json,
};

/// A function that adds the numbers from its argument down to 1. Each instruction costs one unit: nine in each round of
/// the loop, one for the loop, and one behind it.
const SUM: &str = r#"{
  "types": [{"params": ["i32"], "results": ["i32"]}, {}],
  "module": {
    "functions": [
      {"type": 0, "locals": ["i32"], "code": [
        ["loop", 1, [
          ["local.get", 1], ["local.get", 0], ["i32.add"], ["local.set", 1],
          ["local.get", 0], ["i32.const", 1], ["i32.sub"], ["local.tee", 0], ["br_if", 0]
        ]],
        ["local.get", 1]
      ]}
    ],
    "exports": [{"name": "sum", "func": 0}]
  }
}"#;

/// The sum of the numbers up to ten. The engine reads no epochs, so that any source of them will do.
fn sum_to_ten(store: &mut Store<()>, sum: &TypedFunc<i32, i32>) -> Result<i32, Refusal> {
    sum.call(store, &mut NoHost, &mut CountEpochs::new(), 10)
}

/// What the host saw.
#[derive(Debug, Drop)]
struct Seen {
    sum: i32,
    left: u64,
    again: Result<i32, Refusal>,
    left_then: u64,
    refilled: Result<i32, Refusal>,
}

fn work(store: &mut Store<()>, sum: &TypedFunc<i32, i32>) -> Result<Seen, Fault> {
    store.set_fuel(100)?;
    let first = sum_to_ten(store, sum)?;
    let left = store.get_fuel()?;
    // Too little is left for the same again: the loop is stopped before a round for which there is no fuel.
    let again = sum_to_ten(store, sum);
    let left_then = store.get_fuel()?;
    // One unit must be there as the last round begins, behind nine rounds and the loop itself.
    store.set_fuel(83)?;
    Ok(Seen {
        sum: first,
        left,
        again,
        left_then,
        refilled: sum_to_ten(store, sum),
    })
}

/// Makes an instance, and calls its function.
fn see(store: &mut Store<()>, sum_module: &Module) -> Result<Seen, Fault> {
    let instance = Instance::new(store, sum_module, &[], &mut NoHost, &mut CountEpochs::new())?;
    let sum: TypedFunc<i32, i32> = instance.get_typed_func(store, "sum")?;
    work(store, &sum)
}

/// Makes a store, and works in it. The engine consumes fuel, and the store begins without any. A call gives the store up in
/// the end: a crate that drops one itself checks the destructors of all its parts.
fn run(alloc: Heap, sum_module: &Module) -> Result<Seen, Fault> {
    let engine = Engine::new(ENGINE, true, false, 1_024, 1_000_000).unwrap();
    let mut store = Store::try_new(alloc, &mut StoreIds::new(), engine, ())?;
    let seen = see(&mut store, sum_module);
    store.into_data();
    seen
}

pub(crate) fn show(rt: &impl Print, alloc: Heap) -> Result<(), Fault> {
    let seen = run(alloc, &module_from_json(alloc, 0, SUM)?)?;
    println!(rt; "fuel\n{seen:?}")?;
    Ok(())
}
