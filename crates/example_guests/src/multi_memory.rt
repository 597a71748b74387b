//! A guest with two memories: what the host writes into one it copies into the other, and each grows by itself.

use crate::guests::{call, instance_of};
use std::alloc::Global as Heap;
use wasm_embedding::{
    Fault, InstanceCalls, InstanceTyped, Memory, MemoryCalls, Module, Refusal, Store, StoreIds,
    TypedFunc, module_from_json, plain_store,
};

/// An inbox of a page, an outbox of a page that may grow to two, and a function that copies so many bytes from the start
/// of the inbox to a place of the outbox.
const MAILBOX: &str = r#"{
  "types": [{"params": ["i32", "i32"]}],
  "module": {
    "memories": [{"min": 1, "max": 1}, {"min": 1, "max": 2}],
    "functions": [
      {"type": 0, "code": [["local.get", 0], ["i32.const", 0], ["local.get", 1], ["memory.copy", 1, 0]]}
    ],
    "exports": [
      {"name": "inbox", "memory": 0},
      {"name": "outbox", "memory": 1},
      {"name": "send", "func": 0}
    ]
  }
}"#;

/// The four bytes at this place of a memory.
fn four_bytes(store: &Store<()>, memory: Memory, place: usize) -> Result<[u8; 4], Refusal> {
    let mut bytes = [0; 4];
    memory.read(store, place, &mut bytes)?;
    Ok(bytes)
}

/// What the host saw.
#[derive(Debug, Drop)]
struct Seen {
    sent: [u8; 4],
    past_end: Option<Refusal>,
    grown_from: u64,
    sent_behind: [u8; 4],
    pages: [u64; 2],
}

/// Makes an instance, and has the guest copy four bytes from its inbox to places of its outbox.
fn see(store: &mut Store<()>, mailbox_module: &Module) -> Result<Seen, Fault> {
    let instance = instance_of(store, mailbox_module, &[])?;
    let inbox = instance
        .get_memory(store, "inbox")?
        .ok_or(Refusal::NoExport)?;
    let outbox = instance
        .get_memory(store, "outbox")?
        .ok_or(Refusal::NoExport)?;
    let send: TypedFunc<(i32, i32), ()> = instance.get_typed_func(store, "send")?;
    inbox.write(store, 0, &[0xca, 0xfe, 0x00, 0x01])?;
    call(store, &send, (65_532, 4))?;
    let sent = four_bytes(store, outbox, 65_532)?;
    // The outbox has no place for it, until the host lets it grow.
    let past_end = call(store, &send, (65_536, 4)).err();
    let grown_from = outbox.grow(store, 1)?;
    call(store, &send, (65_536, 4))?;
    Ok(Seen {
        sent,
        past_end,
        grown_from,
        sent_behind: four_bytes(store, outbox, 65_536)?,
        pages: [inbox.size(store)?, outbox.size(store)?],
    })
}

/// Makes a store, and works in it. A call gives the store up in the end: a crate that drops one itself checks the
/// destructors of all its parts.
fn run(alloc: Heap, mailbox_module: &Module) -> Result<Seen, Fault> {
    let mut store = plain_store(alloc, &mut StoreIds::new(), ());
    let seen = see(&mut store, mailbox_module);
    store.into_data();
    seen
}

pub(crate) fn show(rt: &impl Print, alloc: Heap) -> Result<(), Fault> {
    let seen = run(alloc, &module_from_json(alloc, 0, MAILBOX)?)?;
    println!(rt; "multi_memory\n{seen:?}")?;
    Ok(())
}
