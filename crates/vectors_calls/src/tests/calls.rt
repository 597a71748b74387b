//! The calls on a store as tests make them: each passes on one call, and says nothing of it. So a test is about what it
//! compares, and its proof carries no clause of the calls that it makes.
use crate::tests::{Answer, TestStore};
use spec_machine::Command;
use std::alloc::Global as Heap;
use std::process::Abort;
use std::slice;
use wasm_call::{FuncRun, HostBody, NoHost};
use wasm_instance::{InstanceCalls, InstancePre};
use wasm_meter::{ListedBehaviour, ListedData, ListedEpochs};
use wasm_module::{Module, ModuleExport};
use wasm_session::{Replies, Unfinished, run_commands};
use wasm_store::{FuncCalls, GlobalCalls, MemoryCalls, Node, TableCalls};
use wasm_types::{ExternType, FuncType, OutOfMemory};
use wasm_values::{Extern, Func, Global, Instance, Memory, Ref, Table, Tag, Val};

pub fn instance_new(
    store: &mut TestStore,
    epochs: &mut ListedEpochs,
    module: &Module,
) -> Answer<Instance> {
    instance_over(store, &mut NoHost, epochs, module, &[])
}

pub fn func_call(
    store: &mut TestStore,
    epochs: &mut ListedEpochs,
    func: Func,
    params: &[Val],
    results: &mut [Val],
) -> Answer<()> {
    hosted_call(store, &mut NoHost, epochs, func, params, results)
}

/// A function of the host, by the body 0.
pub fn func_new(store: &mut TestStore, ty: FuncType, stored: &[Extern]) -> Answer<Func> {
    <Func as FuncCalls>::try_new(store, ty, 0, stored)
}

/// An instance with a host, and a call of a function with one.
pub fn instance_over<H: HostBody<ListedData>>(
    store: &mut TestStore,
    host: &mut H,
    epochs: &mut ListedEpochs,
    module: &Module,
    imports: &[Extern],
) -> Answer<Instance>
    requires { H.ready host.old }
{
    <Instance as InstanceCalls>::new(store, module, imports, host, epochs)
}

pub fn hosted_call<H: HostBody<ListedData>>(
    store: &mut TestStore,
    host: &mut H,
    epochs: &mut ListedEpochs,
    func: Func,
    params: &[Val],
    results: &mut [Val],
) -> Answer<()>
    requires { H.ready host.old }
{
    func.call(store, host, epochs, params, results)
}

/// The number of the module that an instance is made of.
pub fn module_number(store: &TestStore, instance: Instance) -> Answer<u64> {
    let module = instance.module(store)?;
    Ok(module.number())
}

pub fn get_export(store: &TestStore, instance: Instance, name: &str) -> Answer<Option<Extern>> {
    instance.get_export(store, name)
}

pub fn get_func(store: &TestStore, instance: Instance, name: &str) -> Answer<Option<Func>> {
    instance.get_func(store, name)
}

pub fn get_table(store: &TestStore, instance: Instance, name: &str) -> Answer<Option<Table>> {
    instance.get_table(store, name)
}

pub fn get_memory(store: &TestStore, instance: Instance, name: &str) -> Answer<Option<Memory>> {
    instance.get_memory(store, name)
}

pub fn get_global(store: &TestStore, instance: Instance, name: &str) -> Answer<Option<Global>> {
    instance.get_global(store, name)
}

pub fn get_tag(store: &TestStore, instance: Instance, name: &str) -> Answer<Option<Tag>> {
    instance.get_tag(store, name)
}

/// The first byte of a memory.
pub fn first_byte(store: &TestStore, memory: Memory) -> Answer<u8> {
    let mut piece = [0];
    memory.read(store, 0, &mut piece)?;
    Ok(piece[0])
}

pub fn link_count(store: &TestStore, node: Node) -> usize {
    store.link_count(node)
}

pub fn link(store: &TestStore, node: Node, place: usize) -> Option<Node> {
    store.link(node, place)
}

pub fn global_get(store: &TestStore, global: Global) -> Answer<Val> {
    global.get(store)
}

/// The element of a table at a place.
pub fn table_get(store: &mut TestStore, table: Table, at: u64) -> Answer<Option<Ref>> {
    table.get(store, at)
}

pub fn table_filled(store: &TestStore, table: Table) -> Answer<usize> {
    table.filled(store)
}

pub fn set_fuel(store: &mut TestStore, fuel: u64) -> Answer<()> {
    store.set_fuel(fuel)
}

pub fn set_epoch_deadline(
    store: &mut TestStore,
    epochs: &mut ListedEpochs,
    ticks: u64,
) -> Answer<()> {
    store.set_epoch_deadline(epochs, ticks)
}

pub fn set_behaviour(store: &mut TestStore) {
    store.epoch_deadline_callback(ListedBehaviour);
}

/// A module with the objects that are given for its imports.
pub fn prepare(
    alloc: Heap,
    store: &TestStore,
    module: &Module,
    items: &[Extern],
) -> Answer<InstancePre<ListedData>> {
    InstancePre::new(alloc, store, module, items)
}

pub fn instantiate(
    store: &mut TestStore,
    epochs: &mut ListedEpochs,
    prepared: &InstancePre<ListedData>,
) -> Answer<Instance> {
    prepared.instantiate(store, &mut NoHost, epochs)
}

/// The same once more.
pub fn again(prepared: &InstancePre<ListedData>) -> Result<InstancePre<ListedData>, OutOfMemory> {
    prepared.clone()
}

/// The token of an export of an instance's module, and the object that the instance has for it.
pub fn get_module_export(
    store: &TestStore,
    instance: Instance,
    export: &ModuleExport,
) -> Answer<Option<Extern>> {
    instance.get_module_export(store, export)
}

/// How many exports an instance has.
pub fn export_count(store: &TestStore, instance: Instance) -> Answer<usize> {
    let exports = instance.exports(store)?;
    Ok(exports.len())
}

/// The type of the first export of an instance.
pub fn first_type(store: &TestStore, instance: Instance) -> Answer<Option<ExternType>> {
    let mut exports = instance.exports(store)?;
    match exports.next() {
        Some(export) => Ok(Some(export.ty(store)?)),
        None => Ok(None),
    }
}

/// Commands in a session of one module.
pub fn commands(
    rt: &impl Abort,
    store: &mut TestStore,
    epochs: &mut ListedEpochs,
    module: &Module,
    commands: &[Command],
    replies: &mut Replies,
) -> Result<(), Unfinished> {
    run_commands(
        store,
        slice::from_ref(module),
        &mut NoHost,
        epochs,
        commands,
        replies,
    )
}
