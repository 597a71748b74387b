//! A host that names its own types: it calls a guest's function as one of Rust's, and the guest calls a closure over the
//! host's data.
#![tactic(auto)]

use std::alloc::Global as Heap;
use wasm_embedding::{
    CountEpochs, Extern, Fault, Func, FuncTyped, HostBody, HostFailed, Instance, InstanceCalls,
    InstanceTyped, Limited, Module, Refusal, Store, StoreIds, StoreLimits, TypedFunc, Wrap,
    module_from_json, plain_store,
};

/// A function that adds the squares of two numbers: it asks the function that it imports for each of them.
const SQUARES: &str = r#"{
  "types": [{"params": ["i32"], "results": ["i32"]}, {"params": ["i32", "i32"], "results": ["i32"]}],
  "module": {
    "imports": [{"module": "host", "name": "square", "func": 0}],
    "functions": [{"type": 1, "code": [
      ["local.get", 0], ["call", 0], ["local.get", 1], ["call", 0], ["i32.add"]
    ]}],
    "exports": [{"name": "sum_of_squares", "func": 1}]
  }
}"#;

/// What this host keeps: how many squares it was asked for.
#[derive(Drop)]
struct Asked {
    squares: u32,
}

type Kept = Limited<Asked>;

/// The square of a number, where it is below 2^31.
fn square(number: i32) -> Result<i32, HostFailed> {
    number.checked_mul(number).ok_or(HostFailed)
}

/// What the host saw.
#[derive(Debug, Drop)]
struct Seen {
    sum: Result<i32, Refusal>,
    too_large: Result<i32, Refusal>,
    as_other_types: Option<Refusal>,
    as_one_number: Option<Refusal>,
    squares: u32,
}

/// An instance over the closure's function: the closure is the body of number 0.
fn instance_of<H: HostBody<Kept>>(
    store: &mut Store<Kept>,
    host: &mut H,
    squares: &Module,
) -> Result<Instance, Fault>
    requires { H.ready host.old }
    ensures { H.ready host.new }
{
    let square = Func::try_wrap::<(i32,), Result<i32, HostFailed>>(store, 0)?;
    let imports = [Extern::Func(square)];
    Ok(Instance::new(store, squares, &imports, host, &mut CountEpochs::new())?)
}

/// Calls the exported function by its types, and asks for others. The plain engine reads no epochs, so that any source of
/// them will do.
fn work<H: HostBody<Kept>>(
    store: &mut Store<Kept>,
    host: &mut H,
    instance: Instance,
) -> Result<Seen, Fault>
    requires { H.ready host.old }
{
    let sum: TypedFunc<(i32, i32), i32> = instance.get_typed_func(store, "sum_of_squares")?;
    let mut epochs = CountEpochs::new();
    Ok(Seen {
        sum: sum.call(store, host, &mut epochs, (3, 4)),
        // The closure fails, and so does the call.
        too_large: sum.call(store, host, &mut epochs, (3, 46_341)),
        // Types that do not fit are refused before any call.
        as_other_types: sum.func().typed::<(i64, i64), i32>(store).err(),
        as_one_number: sum.func().typed::<i32, i32>(store).err(),
        squares: store.data().own.squares,
    })
}

/// The host is a closure over its data.
fn see(store: &mut Store<Kept>, squares: &Module) -> Result<Seen, Fault> {
    let mut host = Wrap::new(|kept: &mut Kept, number: (i32,)| -> Result<i32, HostFailed> {
        kept.own.squares = kept.own.squares.saturating_add(1);
        square(number.0)
    });
    let instance = instance_of(store, &mut host, squares)?;
    work(store, &mut host, instance)
}

/// Makes a store, and works in it. A call gives the store up in the end: a crate that drops one itself checks the
/// destructors of all its parts.
fn run(alloc: Heap) -> Result<Seen, Fault> {
    let squares = module_from_json(alloc, 0, SQUARES)?;
    let host_data = Limited {
        own: Asked { squares: 0 },
        limits: StoreLimits::new(),
    };
    let mut store = plain_store(alloc, &mut StoreIds::new(), host_data);
    let seen = see(&mut store, &squares);
    store.into_data();
    seen
}

fn main(rt: HostRuntime) -> Result<(), Fault> {
    let seen = run(rt.alloc())?;
    println!(rt; "{seen:?}")?;
    Ok(())
}
