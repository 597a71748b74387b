//! A host that reads and writes a table of functions of its guest, which the guest calls through.

use crate::guests::{call, instance_of};
use std::alloc::Global as Heap;
use wasm_embedding::{
    Fault, FuncTyped, InstanceCalls, InstanceTyped, Module, Ref, Refusal, Store, StoreIds, Table,
    TableCalls, TypedFunc, module_from_json, plain_store,
};

/// A table of a sum, a difference and a null, and a function that applies the element at a place to two numbers.
const CALCULATOR: &str = r#"{
  "types": [
    {"params": ["i32", "i32"], "results": ["i32"]},
    {"params": ["i32", "i32", "i32"], "results": ["i32"]}
  ],
  "module": {
    "tables": [{"ref": "funcref", "min": 3}],
    "functions": [
      {"type": 0, "code": [["local.get", 0], ["local.get", 1], ["i32.add"]]},
      {"type": 0, "code": [["local.get", 0], ["local.get", 1], ["i32.sub"]]},
      {"type": 1, "code": [
        ["local.get", 1], ["local.get", 2], ["local.get", 0], ["call_indirect", 0, 0]
      ]}
    ],
    "elements": [
      {"ref": "funcref", "table": 0, "offset": ["i32.const", 0], "items": [["ref.func", 0], ["ref.func", 1]]}
    ],
    "exports": [{"name": "operations", "table": 0}, {"name": "apply", "func": 2}]
  }
}"#;

/// What the host itself gets of an element: it reads the function, and calls it. A null is no function to call, and
/// past the end there is no element.
fn call_element(
    store: &mut Store<()>,
    operations: Table,
    index: u64,
) -> Result<Option<i32>, Refusal> {
    let Some(Ref::Func(Some(operation))) = operations.get(store, index)? else {
        return Ok(None);
    };
    let operation = operation.typed::<(i32, i32), i32>(store)?;
    Ok(Some(call(store, &operation, (20, 22))?))
}

/// Swaps the first two elements.
fn swap(store: &mut Store<()>, operations: Table) -> Result<(), Refusal> {
    let first = operations.get(store, 0)?;
    let second = operations.get(store, 1)?;
    if let (Some(first), Some(second)) = (first, second) {
        operations.set(store, 0, second)?;
        operations.set(store, 1, first)?;
    }
    Ok(())
}

/// What the host saw.
#[derive(Debug, Drop)]
struct Seen {
    by_host: Option<i32>,
    by_guest: i32,
    swapped_by_host: Option<i32>,
    swapped_by_guest: i32,
    null_by_host: Option<i32>,
    null_by_guest: Option<Refusal>,
    past_end_by_host: Option<Refusal>,
    past_end_by_guest: Option<Refusal>,
}

/// Makes an instance, and works on its table, as the guest does by its function.
fn see(store: &mut Store<()>, calculator_module: &Module) -> Result<Seen, Fault> {
    let instance = instance_of(store, calculator_module, &[])?;
    let operations = instance
        .get_table(store, "operations")?
        .ok_or(Refusal::NoExport)?;
    let apply: TypedFunc<(i32, i32, i32), i32> = instance.get_typed_func(store, "apply")?;
    let by_host = call_element(store, operations, 0)?;
    let by_guest = call(store, &apply, (0, 20, 22))?;
    swap(store, operations)?;
    Ok(Seen {
        by_host,
        by_guest,
        swapped_by_host: call_element(store, operations, 0)?,
        swapped_by_guest: call(store, &apply, (0, 20, 22))?,
        null_by_host: call_element(store, operations, 2)?,
        null_by_guest: call(store, &apply, (2, 20, 22)).err(),
        past_end_by_host: operations.set(store, 3, Ref::Func(None)).err(),
        past_end_by_guest: call(store, &apply, (3, 20, 22)).err(),
    })
}

/// Makes a store, and works in it. A call gives the store up in the end: a crate that drops one itself checks the
/// destructors of all its parts.
fn run(alloc: Heap, calculator_module: &Module) -> Result<Seen, Fault> {
    let mut store = plain_store(alloc, &mut StoreIds::new(), ());
    let seen = see(&mut store, calculator_module);
    store.into_data();
    seen
}

pub(crate) fn show(rt: &impl Print, alloc: Heap) -> Result<(), Fault> {
    let seen = run(alloc, &module_from_json(alloc, 0, CALCULATOR)?)?;
    println!(rt; "tables\n{seen:?}")?;
    Ok(())
}
