//! A host that links two modules: the second works on a memory of the first, and calls a function of it.

use crate::guests::{call, instance_of};
use std::alloc::Global as Heap;
use wasm_embedding::{
    Extern, Fault, InstanceCalls, InstanceTyped, MemoryCalls, Module, Refusal, Store, StoreIds,
    TypedFunc, module_from_json, plain_store,
};

/// A memory, and a function that appends a byte to the text in it.
const PRINTER: &str = r#"{
  "types": [{"params": ["i32"]}],
  "module": {
    "memories": [{"min": 1}],
    "globals": [{"val": "i32", "mut": true, "init": ["i32.const", 0]}],
    "functions": [
      {"type": 0, "code": [
        ["global.get", 0], ["local.get", 0], ["i32.store8", 0, 0],
        ["global.get", 0], ["i32.const", 1], ["i32.add"], ["global.set", 0]
      ]}
    ],
    "exports": [{"name": "put", "func": 0}, {"name": "text", "memory": 0}]
  }
}"#;

/// A function that appends two bytes by the function that it imports, and gives the first byte of the memory.
const GREETER: &str = r#"{
  "types": [{"params": ["i32"]}, {"results": ["i32"]}],
  "module": {
    "imports": [
      {"module": "printer", "name": "put", "func": 0},
      {"module": "printer", "name": "text", "memory": {"min": 1}}
    ],
    "functions": [
      {"type": 1, "code": [
        ["i32.const", 72], ["call", 0], ["i32.const", 105], ["call", 0], ["i32.const", 0], ["i32.load8_u", 0, 0]
      ]}
    ],
    "exports": [{"name": "greet", "func": 1}]
  }
}"#;

/// What the host saw.
#[derive(Debug, Drop)]
struct Seen {
    first: i32,
    bytes: [u8; 4],
    unlinked: Option<Refusal>,
}

/// Makes an instance of each module, the second over the memory and the function of the first, and calls the function of the
/// second.
fn see(
    store: &mut Store<()>,
    printer_module: &Module,
    greeter_module: &Module,
) -> Result<Seen, Fault> {
    let printer = instance_of(store, printer_module, &[])?;
    let put = printer.get_func(store, "put")?.ok_or(Refusal::NoExport)?;
    let text = printer.get_memory(store, "text")?.ok_or(Refusal::NoExport)?;
    let imports = [Extern::Func(put), Extern::Memory(text)];
    let greeter = instance_of(store, greeter_module, &imports)?;
    let greet: TypedFunc<(), i32> = greeter.get_typed_func(store, "greet")?;
    let first = call(store, &greet, ())?;
    let mut bytes = [0; 4];
    text.read(store, 0, &mut bytes)?;
    Ok(Seen {
        first,
        bytes,
        // Without what it imports, there is no instance.
        unlinked: instance_of(store, greeter_module, &[]).err(),
    })
}

/// Makes a store, and works in it. A call gives the store up in the end: a crate that drops one itself checks the
/// destructors of all its parts.
fn run(alloc: Heap) -> Result<Seen, Fault> {
    let printer = module_from_json(alloc, 0, PRINTER)?;
    let greeter = module_from_json(alloc, 1, GREETER)?;
    let mut store = plain_store(alloc, &mut StoreIds::new(), ());
    let seen = see(&mut store, &printer, &greeter);
    store.into_data();
    seen
}

pub(crate) fn show(rt: &impl Print, alloc: Heap) -> Result<(), Fault> {
    let seen = run(alloc)?;
    println!(rt; "linking\n{seen:?}")?;
    Ok(())
}
