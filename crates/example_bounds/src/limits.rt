//! A host that bounds how large the memories of its guests grow, and how many instances there are.

use std::alloc::Global as Heap;
use wasm_embedding::{
    CountEpochs, Fault, Instance, InstanceCalls, InstanceTyped, MemoryCalls, Module, NoHost,
    Refusal, Store, StoreIds, StoreLimits, TypedFunc, module_from_json, plain_store,
};

/// A function that makes the memory larger by so many pages, and gives how many there were before, or -1.
const GROWER: &str = r#"{
  "types": [{"params": ["i32"], "results": ["i32"]}],
  "module": {
    "memories": [{"min": 1}],
    "functions": [{"type": 0, "code": [["local.get", 0], ["memory.grow", 0]]}],
    "exports": [{"name": "grow", "func": 0}, {"name": "memory", "memory": 0}]
  }
}"#;

/// A new instance. The engine reads no epochs, so that any source of them will do.
fn instantiate(
    store: &mut Store<StoreLimits>,
    grower_module: &Module,
) -> Result<Instance, Refusal> {
    Instance::new(
        store,
        grower_module,
        &[],
        &mut NoHost,
        &mut CountEpochs::new(),
    )
}

/// What the guest gets where it grows its memory by a page.
fn grow_by_guest(
    store: &mut Store<StoreLimits>,
    grow: &TypedFunc<i32, i32>,
) -> Result<i32, Refusal> {
    grow.call(store, &mut NoHost, &mut CountEpochs::new(), 1)
}

/// What the host saw.
#[derive(Debug, Drop)]
struct Seen {
    granted: i32,
    denied: i32,
    denied_host: Result<u64, Refusal>,
    bytes: usize,
    denials: u64,
    third_instance: Option<Refusal>,
}

/// Makes an instance, and calls its function; then makes two more, of which one is too many.
fn see(store: &mut Store<StoreLimits>, grower_module: &Module) -> Result<Seen, Fault> {
    let instance = instantiate(store, grower_module)?;
    let grow: TypedFunc<i32, i32> = instance.get_typed_func(store, "grow")?;
    let memory = instance
        .get_memory(store, "memory")?
        .ok_or(Refusal::NoExport)?;
    let granted = grow_by_guest(store, &grow)?;
    // A third page passes the bound: to the guest that is -1, to the host a refusal.
    let denied = grow_by_guest(store, &grow)?;
    let denied_host = memory.grow(store, 1);
    let _second = instantiate(store, grower_module)?;
    Ok(Seen {
        granted,
        denied,
        denied_host,
        bytes: memory.data_size(store)?,
        denials: store.data().denials,
        third_instance: instantiate(store, grower_module).err(),
    })
}

/// At most two pages of 64 KiB in each memory, and at most two instances.
fn limits() -> StoreLimits {
    let mut limits = StoreLimits::new();
    limits.memory_size = Some(131_072);
    limits.instances = 2;
    limits
}

/// Makes a store that asks its limiter, which is the host's data, and works in it. A call gives the store up in the end: a
/// crate that drops one itself checks the destructors of all its parts.
fn run(alloc: Heap, grower_module: &Module) -> Result<Seen, Fault> {
    let mut store = plain_store(alloc, &mut StoreIds::new(), limits());
    store.limiter();
    let seen = see(&mut store, grower_module);
    store.into_data();
    seen
}

pub(crate) fn show(rt: &impl Print, alloc: Heap) -> Result<(), Fault> {
    let seen = run(alloc, &module_from_json(alloc, 0, GROWER)?)?;
    println!(rt; "limits\n{seen:?}")?;
    Ok(())
}
