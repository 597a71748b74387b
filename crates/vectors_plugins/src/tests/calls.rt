//! Calls on guests and on a store, each once for the stores of these tests.
use crate::tests::keeper::Keeper;
use crate::tests::{Answer, TestPlugins, TestStore};
use std::alloc::Global as Heap;
use wasm_instance::InstanceCalls;
use wasm_meter::{CountEpochs, ListEpochs};
use wasm_module::Module;
use wasm_plugins::{Node, NodeSet, Shown, reach_of};
use wasm_store::{FuncCalls, GlobalCalls, MemoryCalls, TableCalls};
use wasm_types::{FuncType, GlobalType, MemoryType, OutOfMemory, TableType};
use wasm_values::{Extern, Func, Global, Memory, Ref, Refusal, Table, Val};

pub fn load_with(
    plugins: &mut TestPlugins,
    host: &mut Shown<Keeper>,
    module: &Module,
    imports: &[Extern],
) -> Answer<usize> {
    plugins.load(module, imports, host, &mut CountEpochs::new())
}

/// The same with a host that has kept nothing.
pub fn load(plugins: &mut TestPlugins, module: &Module, imports: &[Extern]) -> Answer<usize> {
    load_with(
        plugins,
        &mut Shown::new(Keeper { kept: None }),
        module,
        imports,
    )
}

pub fn call_with(
    plugins: &mut TestPlugins,
    host: &mut Shown<Keeper>,
    guest: usize,
    name: &str,
    params: &[Val],
    results: &mut [Val],
) -> Answer<()> {
    plugins.call(guest, name, host, &mut CountEpochs::new(), params, results)
}

/// The same with a host that has kept nothing.
pub fn call(
    plugins: &mut TestPlugins,
    guest: usize,
    name: &str,
    params: &[Val],
    results: &mut [Val],
) -> Answer<()> {
    call_with(
        plugins,
        &mut Shown::new(Keeper { kept: None }),
        guest,
        name,
        params,
        results,
    )
}

/// The same by these epochs, of a function that takes and gives nothing.
pub fn call_by(
    plugins: &mut TestPlugins,
    epochs: &mut ListEpochs,
    guest: usize,
    name: &str,
) -> Answer<()> {
    let mut host = Shown::new(Keeper { kept: None });
    plugins.call(guest, name, &mut host, epochs, &[], &mut [])
}

pub fn set_deadline(
    plugins: &mut TestPlugins,
    epochs: &mut ListEpochs,
    ticks: u64,
) -> Result<(), Refusal> {
    plugins.set_epoch_deadline(epochs, ticks)
}

pub fn export(plugins: &TestPlugins, guest: usize, name: &str) -> Option<Extern> {
    let instance = plugins.instance(guest)?;
    match instance.get_export(plugins.store(), name) {
        Ok(found) => found,
        Err(_) => None,
    }
}

pub fn first_byte(plugins: &TestPlugins, memory: Memory) -> Option<u8> {
    let mut bytes = [7];
    match memory.read(plugins.store(), 0, &mut bytes) {
        Ok(()) => Some(bytes[0]),
        Err(_) => None,
    }
}

pub fn reach(alloc: Heap, store: &TestStore, roots: &[Node]) -> Result<NodeSet, OutOfMemory> {
    reach_of(alloc, store, roots)
}

pub fn func_new(
    store: &mut TestStore,
    ty: FuncType,
    body: usize,
    stored: &[Extern],
) -> Result<Func, Refusal> {
    <Func as FuncCalls>::try_new(store, ty, body, stored)
}

pub fn memory_new(store: &mut TestStore, ty: MemoryType) -> Result<Memory, Refusal> {
    <Memory as MemoryCalls>::new(store, ty)
}

pub fn global_new(store: &mut TestStore, ty: GlobalType, val: Val) -> Result<Global, Refusal> {
    <Global as GlobalCalls>::new(store, ty, val)
}

pub fn global_set(store: &mut TestStore, global: Global, val: Val) -> Result<(), Refusal> {
    global.set(store, val)
}

pub fn table_new(store: &mut TestStore, ty: TableType, init: Ref) -> Result<Table, Refusal> {
    <Table as TableCalls>::new(store, ty, init)
}

pub fn table_set(store: &mut TestStore, table: Table, index: u64, val: Ref) -> Result<(), Refusal> {
    table.set(store, index, val)
}
