//! A host that makes instances of one module over the same imports: it keeps the two together, checked once.

use crate::guests::call;
use std::alloc::Global as Heap;
use wasm_embedding::{
    CountEpochs, Extern, Fault, Global, GlobalCalls, GlobalType, InstancePre, InstanceTyped,
    Module, Mutability, NoHost, Store, StoreIds, TypedFunc, Val, ValType, module_from_json,
    plain_store,
};

/// A function that counts in a global of its own and in one that it imports, and gives the first count.
const COUNTER: &str = r#"{
  "types": [{"results": ["i32"]}],
  "module": {
    "imports": [{"module": "host", "name": "total", "global": {"val": "i32", "mut": true}}],
    "globals": [{"val": "i32", "mut": true, "init": ["i32.const", 0]}],
    "functions": [
      {"type": 0, "code": [
        ["global.get", 0], ["i32.const", 1], ["i32.add"], ["global.set", 0],
        ["global.get", 1], ["i32.const", 1], ["i32.add"], ["global.set", 1],
        ["global.get", 1]
      ]}
    ],
    "exports": [{"name": "count", "func": 0}]
  }
}"#;

/// The function of one more instance.
fn next_counter(
    store: &mut Store<()>,
    prepared: &InstancePre<()>,
) -> Result<TypedFunc<(), i32>, Fault> {
    let instance = prepared.instantiate(store, &mut NoHost, &mut CountEpochs::new())?;
    Ok(instance.get_typed_func(store, "count")?)
}

/// What the host saw.
#[derive(Debug, Drop)]
struct Seen {
    first: [i32; 2],
    second: i32,
    total: Option<i32>,
}

/// Prepares instances over a global of the host, at 0, makes two, and calls the function of each.
fn see(alloc: Heap, store: &mut Store<()>, counter_module: &Module) -> Result<Seen, Fault> {
    let kind = GlobalType::new(ValType::I32, Mutability::Var);
    let total = Global::new(store, kind, Val::I32(0))?;
    let prepared = InstancePre::new(alloc, store, counter_module, &[Extern::Global(total)])?;
    let first = next_counter(store, &prepared)?;
    let second = next_counter(store, &prepared)?;
    let once = call(store, &first, ())?;
    let twice = call(store, &first, ())?;
    Ok(Seen {
        first: [once, twice],
        second: call(store, &second, ())?,
        total: total.get(store)?.i32(),
    })
}

/// Makes a store, and works in it. A call gives the store up in the end: a crate that drops one itself checks the
/// destructors of all its parts.
fn run(alloc: Heap, counter_module: &Module) -> Result<Seen, Fault> {
    let mut store = plain_store(alloc, &mut StoreIds::new(), ());
    let seen = see(alloc, &mut store, counter_module);
    store.into_data();
    seen
}

pub(crate) fn show(rt: &impl Print, alloc: Heap) -> Result<(), Fault> {
    let seen = run(alloc, &module_from_json(alloc, 0, COUNTER)?)?;
    println!(rt; "prepared\n{seen:?}")?;
    Ok(())
}
