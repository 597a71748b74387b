//! A host that makes a memory, a table and a global in a store, and works on them: by calls, and on bytes that it is lent.
#![tactic(auto)]

use wasm_embedding::{
    ExternRef, Fault, Global, GlobalCalls, GlobalType, HeapType, Memory, MemoryCalls, MemoryType,
    Mutability, Ref, RefType, Refusal, Store, StoreIds, Table, TableCalls, TableType, Val, ValType,
    plain_store,
};

/// What the host saw in its store.
#[derive(Debug, Drop)]
struct Seen {
    pages: u64,
    bytes: [u8; 4],
    denied: Result<u64, Refusal>,
    sum: u64,
    element: Option<u64>,
    counter: Option<i32>,
}

/// The number of the host to which an element of a table refers.
fn number_of(element: Option<Ref>) -> Option<u64> {
    match element {
        Some(Ref::Extern(Some(ExternRef(number)))) => Some(number),
        _ => None,
    }
}

/// Fills the first bytes of a memory in place with 1, 2, 3 and so on, and adds up all its bytes. Before it lends them to be
/// written, a call tells that the memory is this store's.
fn fill(store: &mut Store<()>, memory: Memory, count: u8) -> Result<u64, Fault> {
    memory.data(store)?;
    let lent = store.memory_data_mut(memory);
    for (place, number) in lent.iter_mut().zip(1..=count) {
        *place = number;
    }
    let mut sum: u64 = 0;
    for byte in memory.data(store)? {
        sum = sum.saturating_add(u64::from(*byte));
    }
    Ok(sum)
}

fn work(store: &mut Store<()>) -> Result<Seen, Fault> {
    // A memory of one page of 64 KiB, which may grow to three.
    let memory = Memory::new(store, MemoryType::new(1, Some(3), 16)?)?;
    memory.grow(store, 1)?;
    memory.write(store, 65_535, &[0xca, 0xfe])?;
    let mut bytes = [0; 4];
    memory.read(store, 65_534, &mut bytes)?;
    // Two pages more would be too many: the call says so, and changes nothing.
    let denied = memory.grow(store, 2);

    // A table of four references to values of the host, and a global that may be set.
    let kind = TableType::new(RefType::new(true, HeapType::Extern), 4, None)?;
    let table = Table::new(store, kind, Ref::Extern(None))?;
    table.fill(store, 1, Ref::Extern(Some(ExternRef(7))), 2)?;
    let kind = GlobalType::new(ValType::I32, Mutability::Var);
    let counter = Global::new(store, kind, Val::I32(41))?;
    counter.set(store, Val::I32(42))?;

    Ok(Seen {
        pages: memory.size(store)?,
        bytes,
        denied,
        sum: fill(store, memory, 4)?,
        element: number_of(table.get(store, 2)?),
        counter: counter.get(store)?.i32(),
    })
}

/// A store of a plain engine, with no data of the host's. A call gives it up in the end: a crate that drops one itself
/// checks the destructors of all its parts.
fn main(rt: HostRuntime) -> Result<(), Fault> {
    let mut store = plain_store(rt.alloc(), &mut StoreIds::new(), ());
    let seen = work(&mut store);
    store.into_data();
    println!(rt; "{:?}", seen?)?;
    Ok(())
}
