//! A host that keeps data of its own in a store, beside ready limits: a body of it tells the guest what is there, and the
//! host changes it between calls.

use std::alloc::Global as Heap;
use wasm_embedding::{
    Answer, Caller, CountEpochs, ENGINE, Event, Extern, Fault, Func, FuncCalls, FuncType, Harmless,
    HarmlessBody, Instance, InstanceCalls, InstanceTyped, Limited, Module, OutOfMemory, Refusal,
    Store, StoreIds, StoreLimits, TypedFunc, Val, ValList, ValType, module_from_json, plain_store,
};

/// A function that asks the host for whom it works, and one that makes the memory larger by a page.
const WORKER: &str = r#"{
  "types": [{"results": ["i32"]}],
  "module": {
    "imports": [{"module": "host", "name": "tenant", "func": 0}],
    "memories": [{"min": 1}],
    "functions": [
      {"type": 0, "code": [["call", 0]]},
      {"type": 0, "code": [["i32.const", 1], ["memory.grow", 0]]}
    ],
    "exports": [{"name": "whose", "func": 1}, {"name": "grow", "func": 2}]
  }
}"#;

/// What this host keeps: the number of the one for whom a guest works.
#[derive(Drop)]
struct Tenant {
    number: i32,
}

type HostStore = Store<Limited<Tenant>>;

/// The body of `tenant`: it gives the number in the host's data.
#[derive(Clone, Copy, Drop)]
struct TellsTenant;

impl HarmlessBody<Limited<Tenant>> for TellsTenant {
    fn step(
        &mut self,
        alloc: Heap,
        _body: usize,
        caller: &Caller<'_, Limited<Tenant>>,
        _state: &mut u64,
        _event: Event,
    ) -> Result<Answer, OutOfMemory> {
        let number = caller.data().own.number;
        Ok(Answer::Return(ValList(vec![in alloc; Val::I32(number)]?)))
    }
}

/// The host: one body, with the number 0.
fn host() -> Harmless<TellsTenant> {
    Harmless {
        count: 1,
        bodies: TellsTenant,
    }
}

/// What a function of the guest gives.
fn call(store: &mut HostStore, func: &TypedFunc<(), i32>) -> Result<i32, Refusal> {
    func.call(store, &mut host(), &mut CountEpochs::new(), ())
}

/// An instance over the host's function.
fn instantiate(
    alloc: Heap,
    store: &mut HostStore,
    worker_module: &Module,
) -> Result<Instance, Fault> {
    let ty = FuncType::try_new(alloc, ENGINE, &[], &[ValType::I32])?;
    let imports = [Extern::Func(Func::try_new(store, ty, 0, &[])?)];
    let mut epochs = CountEpochs::new();
    Ok(Instance::new(store, worker_module, &imports, &mut host(), &mut epochs)?)
}

/// What the host saw.
#[derive(Debug, Drop)]
struct Seen {
    tenant: i32,
    next_tenant: i32,
    granted: i32,
    denied: i32,
    denials: u64,
}

/// Has the guest work for one tenant, and then for another.
fn see(alloc: Heap, store: &mut HostStore, worker_module: &Module) -> Result<Seen, Fault> {
    let instance = instantiate(alloc, store, worker_module)?;
    let whose: TypedFunc<(), i32> = instance.get_typed_func(store, "whose")?;
    let grow: TypedFunc<(), i32> = instance.get_typed_func(store, "grow")?;
    let first = call(store, &whose)?;
    store.data_mut().own.number = 8;
    Ok(Seen {
        tenant: first,
        next_tenant: call(store, &whose)?,
        granted: call(store, &grow)?,
        denied: call(store, &grow)?,
        denials: store.data().limits.denials,
    })
}

/// Data of tenant 7, whose memories hold two pages of 64 KiB at most.
fn host_data() -> Limited<Tenant> {
    let mut limits = StoreLimits::new();
    limits.memory_size = Some(131_072);
    Limited {
        own: Tenant { number: 7 },
        limits,
    }
}

/// Makes a store that asks its limiter, and works in it. A call gives the store up in the end: a crate that drops one
/// itself checks the destructors of all its parts.
fn run(alloc: Heap, worker_module: &Module) -> Result<Seen, Fault> {
    let mut store = plain_store(alloc, &mut StoreIds::new(), host_data());
    store.limiter();
    let seen = see(alloc, &mut store, worker_module);
    store.into_data();
    seen
}

pub(crate) fn show(rt: &impl Print, alloc: Heap) -> Result<(), Fault> {
    let seen = run(alloc, &module_from_json(alloc, 0, WORKER)?)?;
    println!(rt; "own_data\n{seen:?}")?;
    Ok(())
}
