//! A host that links by names: it defines a function of its own, which is a closure over its data, instantiates a module that
//! imports it, and then a second module over what the first one exports. It bounds what a call takes by fuel, and goes on
//! behind a call that trapped and one that spent the fuel.
#![tactic(auto)]

use std::alloc::Global as Heap;
use wasm_embedding::{
    CountEpochs, ENGINE, Engine, Extern, Fault, Func, FuncTyped, HostBody, Instance, InstanceTyped,
    Limited, Linker, Module, Refusal, Store, StoreIds, StoreLimits, Trap, TypedFunc, Wrap,
    module_from_json,
};

/// A function that adds to a sum, tells the host's function the sum, and gives it.
const COUNTER: &str = r#"{
  "types": [{"params": ["i32"]}, {"params": ["i32"], "results": ["i32"]}],
  "module": {
    "imports": [{"module": "host", "name": "say", "func": 0}],
    "globals": [{"val": "i32", "mut": true, "init": ["i32.const", 0]}],
    "functions": [
      {"type": 1, "code": [
        ["global.get", 0], ["local.get", 0], ["i32.add"], ["global.set", 0],
        ["global.get", 0], ["call", 0], ["global.get", 0]
      ]}
    ],
    "exports": [{"name": "add", "func": 1}]
  }
}"#;

/// A function that adds a number as often as it is told by the function that it imports, and gives the sum; it traps where
/// that is no time at all.
const ADDER: &str = r#"{
  "types": [{"params": ["i32"], "results": ["i32"]}, {"params": ["i32", "i32"], "results": ["i32"]}, {}],
  "module": {
    "imports": [{"module": "counter", "name": "add", "func": 0}],
    "functions": [
      {"type": 1, "locals": ["i32"], "code": [
        ["local.get", 1], ["i32.eqz"], ["if", 2, [["unreachable"]], []],
        ["loop", 2, [
          ["local.get", 0], ["call", 0], ["local.set", 2],
          ["local.get", 1], ["i32.const", 1], ["i32.sub"], ["local.tee", 1], ["br_if", 0]
        ]],
        ["local.get", 2]
      ]}
    ],
    "exports": [{"name": "add_times", "func": 1}]
  }
}"#;

/// What this host keeps: the last sum that it was told.
#[derive(Drop)]
struct Told {
    sum: i32,
}

type Kept = Limited<Told>;

/// How much fuel there is for a call.
const FUEL: u64 = 1_000;

/// How a call ended.
#[derive(Debug, Clone, Copy)]
enum Ended {
    Gave(i32),
    Trapped(Trap),
    SpentFuel,
}

/// Each end of a call that this host expects; any other refusal ends the program.
fn expected_end(answer: Result<i32, Refusal>) -> Result<Ended, Fault> {
    match answer {
        Ok(sum) => Ok(Ended::Gave(sum)),
        Err(Refusal::Trap(Trap::OutOfFuel)) => Ok(Ended::SpentFuel),
        Err(Refusal::Trap(trap)) => Ok(Ended::Trapped(trap)),
        Err(why) => Err(why.into()),
    }
}

/// An instance of each module: the first over the host's function, the second over what the first exports.
fn link<H: HostBody<Kept>>(
    alloc: Heap,
    store: &mut Store<Kept>,
    host: &mut H,
    counter: &Module,
    adder: &Module,
) -> Result<Instance, Fault>
    requires { H.ready host.old }
    ensures { H.ready host.new }
{
    // The engine reads no epochs, so that any source of them will do.
    let mut epochs = CountEpochs::new();
    let mut linker = Linker::new(alloc);
    let say = Func::try_wrap::<(i32,), ()>(store, 0)?;
    linker.define(store, "host", "say", Extern::Func(say))?;
    let first = linker.instantiate(store, counter, host, &mut epochs)?;
    linker.instance(store, "counter", first)?;
    Ok(linker.instantiate(store, adder, host, &mut epochs)?)
}

/// Calls the function of an instance with fresh fuel.
fn add_times<H: HostBody<Kept>>(
    store: &mut Store<Kept>,
    host: &mut H,
    add: &TypedFunc<(i32, i32), i32>,
    times: i32,
) -> Result<Ended, Fault>
    requires { H.ready host.old }
    ensures { H.ready host.new }
{
    store.set_fuel(FUEL)?;
    expected_end(add.call(store, host, &mut CountEpochs::new(), (7, times)))
}

/// What the host saw.
#[derive(Debug, Drop)]
struct Seen {
    six_times: Ended,
    no_time: Ended,
    too_often: Ended,
    once_more: Ended,
    told: i32,
}

/// Links the modules, and calls the function of the second.
fn see(
    alloc: Heap,
    store: &mut Store<Kept>,
    counter: &Module,
    adder: &Module,
) -> Result<Seen, Fault> {
    let mut host = Wrap::new(|kept: &mut Kept, sum: (i32,)| -> () {
        kept.own.sum = sum.0;
    });
    let second = link(alloc, store, &mut host, counter, adder)?;
    let add: TypedFunc<(i32, i32), i32> = second.get_typed_func(store, "add_times")?;
    Ok(Seen {
        six_times: add_times(store, &mut host, &add, 6)?,
        no_time: add_times(store, &mut host, &add, 0)?,
        too_often: add_times(store, &mut host, &add, 1_000_000)?,
        once_more: add_times(store, &mut host, &add, 1)?,
        told: store.data().own.sum,
    })
}

/// Makes a store whose engine consumes fuel, and works in it. A call gives the store up in the end: a crate that drops one
/// itself checks the destructors of all its parts.
fn run(alloc: Heap) -> Result<Seen, Fault> {
    let counter = module_from_json(alloc, 0, COUNTER)?;
    let adder = module_from_json(alloc, 1, ADDER)?;
    let engine = Engine::new(ENGINE, true, false, 256, 1_000_000).unwrap();
    let host_data = Limited {
        own: Told { sum: 0 },
        limits: StoreLimits::new(),
    };
    let mut store = Store::try_new(alloc, &mut StoreIds::new(), engine, host_data)?;
    let seen = see(alloc, &mut store, &counter, &adder);
    store.into_data();
    seen
}

fn main(rt: HostRuntime) -> Result<(), Fault> {
    let seen = run(rt.alloc())?;
    println!(rt; "{seen:?}")?;
    Ok(())
}
