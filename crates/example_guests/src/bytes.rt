//! A host that reads a compiled module from a file: the guest buys memory out of a pool that all guests share, and pays by a
//! closure that changes the host's data. `data/tally.c` is its source, compiled as the modules of `examples/wasm`.

use std::alloc::Global as Heap;
use std::fs;
use std::rt::Files;
use wasm_embedding::{
    CountEpochs, ENGINE, Extern, Fault, Func, FuncTyped, HostBody, Instance, InstanceCalls,
    InstanceTyped, Module, Pooled, Refusal, Store, StoreIds, TypedFunc, Wrap, module_from_bytes,
    plain_store,
};

/// What this host keeps: how much it charged.
#[derive(Drop)]
struct Account {
    charged: u32,
}

type Kept = Pooled<Account>;

/// A page of a memory.
const PAGE: usize = 65_536;

/// What the host saw.
#[derive(Debug, Drop)]
struct Seen {
    bought: i32,
    charged: u32,
    left: usize,
    second_instance: Option<Refusal>,
}

/// An instance of the module, which imports the closure's function: the closure is the body of number 0.
fn instance_of<H: HostBody<Kept>>(
    store: &mut Store<Kept>,
    host: &mut H,
    tally: &Module,
) -> Result<Instance, Refusal>
    requires { H.ready host.old }
    ensures { H.ready host.new }
{
    let charge = Func::try_wrap::<(u32,), u32>(store, 0)?;
    let imports = [Extern::Func(charge)];
    Instance::new(store, tally, &imports, host, &mut CountEpochs::new())
}

/// Has the guest buy three pages, and then asks for another guest.
fn work<H: HostBody<Kept>>(
    store: &mut Store<Kept>,
    host: &mut H,
    tally: &Module,
) -> Result<Seen, Fault>
    requires { H.ready host.old }
{
    let instance = instance_of(store, host, tally)?;
    let buy: TypedFunc<i32, i32> = instance.get_typed_func(store, "buy")?;
    let bought = buy.call(store, host, &mut CountEpochs::new(), 3)?;
    Ok(Seen {
        bought,
        charged: store.data().own.charged,
        left: store.data().bytes_left,
        second_instance: instance_of(store, host, tally).err(),
    })
}

/// The host is a closure over its data.
fn see(store: &mut Store<Kept>, tally: &Module) -> Result<Seen, Fault> {
    let mut host = Wrap::new(|kept: &mut Kept, units: (u32,)| -> u32 {
        kept.own.charged = kept.own.charged.saturating_add(units.0);
        kept.own.charged
    });
    work(store, &mut host, tally)
}

/// Makes a store whose memories have three pages together, one of which the guest begins with, and works in it.
fn run(alloc: Heap, tally: &Module) -> Result<Seen, Fault> {
    let host_data = Pooled::new(Account { charged: 0 }, 3 * PAGE);
    let mut store = plain_store(alloc, &mut StoreIds::new(), host_data);
    store.limiter();
    let seen = see(&mut store, tally);
    store.into_data();
    seen
}

pub(crate) fn show(rt: &(impl Print + Files + Alloc), alloc: Heap) -> Result<(), Fault> {
    let bytes = fs::read(rt, "tally.wasm")?;
    let tally = module_from_bytes(alloc, ENGINE, 0, bytes.as_slice())?;
    let seen = run(alloc, &tally)?;
    println!(rt; "bytes\n{seen:?}")?;
    // A file that is cut off behind its first four bytes: a fault is shown as a sentence.
    if let Err(fault) = module_from_bytes(alloc, ENGINE, 1, &[0x00, 0x61, 0x73, 0x6d]) {
        println!(rt; "{fault}")?;
    }
    Ok(())
}
