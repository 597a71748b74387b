//! A host that gives a guest references to what it has itself, and gets them back: a cloakroom, which can neither read
//! nor make the numbers that it keeps.

use crate::guests::instance_of;
use std::alloc::Global as Heap;
use wasm_embedding::{
    CountEpochs, ExternRef, Fault, Func, FuncRun, Global, GlobalCalls, Instance, InstanceCalls,
    Module, NoHost, Refusal, Store, StoreIds, Val, module_from_json, plain_store,
};

/// A function that keeps a reference at the end of its table and gives its ticket, the place, and one that gives back
/// what is kept at a place, where it leaves a null. A global has the reference that came last.
const CLOAKROOM: &str = r#"{
  "types": [
    {"params": ["externref"], "results": ["i32"]},
    {"params": ["i32"], "results": ["externref"]}
  ],
  "module": {
    "tables": [{"ref": "externref", "min": 0}],
    "globals": [{"val": "externref", "mut": true, "init": ["ref.null", "extern"]}],
    "functions": [
      {"type": 0, "code": [
        ["local.get", 0], ["global.set", 0],
        ["local.get", 0], ["i32.const", 1], ["table.grow", 0]
      ]},
      {"type": 1, "code": [
        ["local.get", 0], ["table.get", 0],
        ["local.get", 0], ["ref.null", "extern"], ["table.set", 0]
      ]}
    ],
    "exports": [{"name": "keep", "func": 0}, {"name": "give_back", "func": 1}, {"name": "latest", "global": 0}]
  }
}"#;

/// What the host holds of an instance.
#[derive(Clone, Copy)]
struct Cloakroom {
    keep: Func,
    give_back: Func,
    latest: Global,
}

fn exported(store: &Store<()>, instance: Instance) -> Result<Cloakroom, Refusal> {
    Ok(Cloakroom {
        keep: instance.get_func(store, "keep")?.ok_or(Refusal::NoExport)?,
        give_back: instance
            .get_func(store, "give_back")?
            .ok_or(Refusal::NoExport)?,
        latest: instance
            .get_global(store, "latest")?
            .ok_or(Refusal::NoExport)?,
    })
}

/// The number of the host to which a value refers; a null refers to none.
fn number_of(value: Val) -> Option<u64> {
    match value {
        Val::ExternRef(Some(ExternRef(number))) => Some(number),
        _ => None,
    }
}

/// What a function gives for a value: a place for its one result. References have no type of the host's, so that these calls
/// are of values.
fn call(store: &mut Store<()>, func: Func, param: Val, place: Val) -> Result<Val, Refusal> {
    let mut results = [place];
    func.call(
        store,
        &mut NoHost,
        &mut CountEpochs::new(),
        &[param],
        &mut results,
    )?;
    Ok(results[0])
}

/// The ticket for a number of the host, or for a null.
fn keep(store: &mut Store<()>, keep: Func, number: Option<u64>) -> Result<Option<i32>, Refusal> {
    Ok(call(
        store,
        keep,
        Val::ExternRef(number.map(ExternRef)),
        Val::I32(0),
    )?
    .i32())
}

/// The number for a ticket.
fn give_back(store: &mut Store<()>, give_back: Func, ticket: i32) -> Result<Option<u64>, Refusal> {
    Ok(number_of(call(store, give_back, Val::I32(ticket), Val::null_extern_ref())?))
}

/// The number that the guest's global refers to.
fn latest(store: &Store<()>, latest: Global) -> Result<Option<u64>, Refusal> {
    Ok(number_of(latest.get(store)?))
}

/// What the host saw.
#[derive(Debug, Drop)]
struct Seen {
    tickets: [Option<i32>; 2],
    latest: Option<u64>,
    given_back: Option<u64>,
    given_back_again: Option<u64>,
    no_ticket: Option<Refusal>,
    ticket_of_null: Option<i32>,
    latest_then: Option<u64>,
}

/// Makes an instance, and works with it.
fn see(store: &mut Store<()>, cloakroom_module: &Module) -> Result<Seen, Fault> {
    let instance = instance_of(store, cloakroom_module, &[])?;
    let cloakroom = exported(store, instance)?;
    let coat = keep(store, cloakroom.keep, Some(1_001))?;
    let hat = keep(store, cloakroom.keep, Some(1_002))?;
    Ok(Seen {
        tickets: [coat, hat],
        latest: latest(store, cloakroom.latest)?,
        given_back: give_back(store, cloakroom.give_back, 0)?,
        given_back_again: give_back(store, cloakroom.give_back, 0)?,
        // The table has two elements: a third place is past its end.
        no_ticket: give_back(store, cloakroom.give_back, 2).err(),
        ticket_of_null: keep(store, cloakroom.keep, None)?,
        latest_then: latest(store, cloakroom.latest)?,
    })
}

/// Makes a store, and works in it. A call gives the store up in the end: a crate that drops one itself checks the
/// destructors of all its parts.
fn run(alloc: Heap, cloakroom_module: &Module) -> Result<Seen, Fault> {
    let mut store = plain_store(alloc, &mut StoreIds::new(), ());
    let seen = see(&mut store, cloakroom_module);
    store.into_data();
    seen
}

pub(crate) fn show(rt: &impl Print, alloc: Heap) -> Result<(), Fault> {
    let seen = run(alloc, &module_from_json(alloc, 0, CLOAKROOM)?)?;
    println!(rt; "externref\n{seen:?}")?;
    Ok(())
}
