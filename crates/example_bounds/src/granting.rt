//! A host whose data decide what may grow, by a rule of their own: a guest that the host trusts may have more.

use std::alloc::Global as Heap;
use wasm_embedding::{
    CountEpochs, Fault, Granting, Grants, Instance, InstanceCalls, InstanceTyped, Module, NoHost,
    Refusal, Store, StoreIds, TypedFunc, module_from_json, plain_store,
};

/// A function that makes the memory larger by so many pages, and gives how many there were before, or -1.
const GROWER: &str = r#"{
  "types": [{"params": ["i32"], "results": ["i32"]}],
  "module": {
    "memories": [{"min": 1}],
    "functions": [{"type": 0, "code": [["local.get", 0], ["memory.grow", 0]]}],
    "exports": [{"name": "grow", "func": 0}]
  }
}"#;

/// A page of a memory.
const PAGE: usize = 65_536;

/// What this host keeps: whether it trusts its guest, and how many bytes it was last asked for.
#[derive(Drop)]
struct Trust {
    is_given: bool,
    asked: usize,
}

impl Grants for Trust {
    /// A guest that is trusted may have a hundred pages, and another one two.
    fn memory_grows(&mut self, _current: usize, desired: usize, _maximum: Option<usize>) -> bool {
        self.asked = desired;
        let most = if self.is_given { 100 * PAGE } else { 2 * PAGE };
        desired <= most
    }

    /// No table is made or grows.
    fn table_grows(&mut self, _current: usize, _desired: usize, _maximum: Option<usize>) -> bool {
        false
    }
}

type HostStore = Store<Granting<Trust>>;

/// What the guest gets where it grows its memory. The engine reads no epochs, so that any source of them will do.
fn grow(store: &mut HostStore, grow: &TypedFunc<i32, i32>, pages: i32) -> Result<i32, Refusal> {
    grow.call(store, &mut NoHost, &mut CountEpochs::new(), pages)
}

/// What the host saw.
#[derive(Debug, Drop)]
struct Seen {
    granted: i32,
    denied: i32,
    asked: usize,
    trusted: i32,
    denials: u64,
}

/// Makes an instance, and has its function grow the memory.
fn see(store: &mut HostStore, grower_module: &Module) -> Result<Seen, Fault> {
    let mut epochs = CountEpochs::new();
    let instance = Instance::new(store, grower_module, &[], &mut NoHost, &mut epochs)?;
    let grower: TypedFunc<i32, i32> = instance.get_typed_func(store, "grow")?;
    let granted = grow(store, &grower, 1)?;
    let denied = grow(store, &grower, 1)?;
    let asked = store.data().own.asked;
    store.data_mut().own.is_given = true;
    Ok(Seen {
        granted,
        denied,
        asked,
        trusted: grow(store, &grower, 98)?,
        denials: store.data().denials,
    })
}

/// Makes a store that asks its limiter, which is the host's data, and works in it. A call gives the store up in the end: a
/// crate that drops one itself checks the destructors of all its parts.
fn run(alloc: Heap, grower_module: &Module) -> Result<Seen, Fault> {
    let host_data = Granting::new(Trust {
        is_given: false,
        asked: 0,
    });
    let mut store = plain_store(alloc, &mut StoreIds::new(), host_data);
    store.limiter();
    let seen = see(&mut store, grower_module);
    store.into_data();
    seen
}

pub(crate) fn show(rt: &impl Print, alloc: Heap) -> Result<(), Fault> {
    let seen = run(alloc, &module_from_json(alloc, 0, GROWER)?)?;
    println!(rt; "granting\n{seen:?}")?;
    Ok(())
}
