//! The calls on a store as tests make them: each passes on one call, and says nothing of it. So a test is about what it
//! compares, and its proof carries no clause of the calls that it makes; with them it would take half a minute.
use crate::tests::TestStore;
use wasm_meter::{
    BehaviourFailed, CallHook, EpochSource, HookFailed, ListedBehaviour, ListedData, ListedHook,
    UpdateDeadline,
};
use wasm_store::{
    ExternCalls, FuncCalls, GlobalCalls, MemoryCalls, Node, RefCalls, TableCalls, TagCalls,
    ValCalls, parts,
};
use wasm_types::{
    ExternType, FuncType, GlobalType, MemoryType, RefType, TableType, TagType, ValType,
};
use wasm_values::{Extern, Func, Global, Memory, Ref, Refusal, Table, Tag, Val};

pub fn memory_new(store: &mut TestStore, ty: MemoryType) -> Result<Memory, Refusal> {
    <Memory as MemoryCalls>::new(store, ty)
}

pub fn memory_ty(store: &TestStore, memory: Memory) -> Result<MemoryType, Refusal> {
    memory.ty(store)
}

pub fn memory_data_size(store: &TestStore, memory: Memory) -> Result<usize, Refusal> {
    memory.data_size(store)
}

pub fn memory_size(store: &TestStore, memory: Memory) -> Result<u64, Refusal> {
    memory.size(store)
}

pub fn memory_page_size(store: &TestStore, memory: Memory) -> Result<u64, Refusal> {
    memory.page_size(store)
}

pub fn memory_page_size_log2(store: &TestStore, memory: Memory) -> Result<u8, Refusal> {
    memory.page_size_log2(store)
}

pub fn memory_read(
    store: &TestStore,
    memory: Memory,
    at: usize,
    buffer: &mut [u8],
) -> Result<(), Refusal> {
    memory.read(store, at, buffer)
}

pub fn memory_write(
    store: &mut TestStore,
    memory: Memory,
    at: usize,
    bytes: &[u8],
) -> Result<(), Refusal> {
    memory.write(store, at, bytes)
}

pub fn memory_data(store: &TestStore, memory: Memory) -> Result<&[u8], Refusal> {
    memory.data(store)
}

/// Writes a first byte and a count into a memory and the host's data, which are lent one after the other.
pub fn memory_lent(
    store: &mut TestStore,
    memory: Memory,
    byte: u8,
    count: usize,
) -> Result<(), Refusal> {
    memory.data(store)?;
    let bytes = store.memory_data_mut(memory);
    if !bytes.is_empty() {
        bytes[0] = byte;
    }
    store.data_mut().instances = count;
    Ok(())
}

/// The same by a closure, which is lent both at once and answers the byte that was there.
pub fn memory_and_data(
    store: &mut TestStore,
    memory: Memory,
    byte: u8,
    count: usize,
) -> Result<Option<u8>, Refusal> {
    memory.data_and_store_mut(store, |bytes: &mut [u8], data: &mut ListedData| {
        data.instances = count;
        if bytes.is_empty() {
            return None;
        }
        let before = bytes[0];
        bytes[0] = byte;
        Some(before)
    })
}

pub fn memory_grow(store: &mut TestStore, memory: Memory, delta: u64) -> Result<u64, Refusal> {
    memory.grow(store, delta)
}

pub fn table_new(store: &mut TestStore, ty: TableType, init: Ref) -> Result<Table, Refusal> {
    <Table as TableCalls>::new(store, ty, init)
}

pub fn table_ty(store: &TestStore, table: Table) -> Result<TableType, Refusal> {
    table.ty(store)
}

pub fn table_size(store: &TestStore, table: Table) -> Result<u64, Refusal> {
    table.size(store)
}

pub fn table_get(store: &mut TestStore, table: Table, at: u64) -> Result<Option<Ref>, Refusal> {
    table.get(store, at)
}

pub fn table_set(store: &mut TestStore, table: Table, at: u64, value: Ref) -> Result<(), Refusal> {
    table.set(store, at, value)
}

pub fn table_fill(
    store: &mut TestStore,
    table: Table,
    at: u64,
    value: Ref,
    len: u64,
) -> Result<(), Refusal> {
    table.fill(store, at, value, len)
}

pub fn table_grow(
    store: &mut TestStore,
    table: Table,
    delta: u64,
    init: Ref,
) -> Result<u64, Refusal> {
    table.grow(store, delta, init)
}

pub fn table_copy(
    store: &mut TestStore,
    to: (Table, u64),
    from: (Table, u64),
    len: u64,
) -> Result<(), Refusal> {
    <Table as TableCalls>::copy(store, &to.0, to.1, &from.0, from.1, len)
}

pub fn global_new(store: &mut TestStore, ty: GlobalType, value: Val) -> Result<Global, Refusal> {
    <Global as GlobalCalls>::new(store, ty, value)
}

pub fn global_ty(store: &TestStore, global: Global) -> Result<GlobalType, Refusal> {
    global.ty(store)
}

pub fn global_get(store: &TestStore, global: Global) -> Result<Val, Refusal> {
    global.get(store)
}

pub fn global_set(store: &mut TestStore, global: Global, value: Val) -> Result<(), Refusal> {
    global.set(store, value)
}

pub fn tag_new(store: &mut TestStore, ty: &TagType) -> Result<Tag, Refusal> {
    <Tag as TagCalls>::new(store, ty)
}

pub fn tag_ty(store: &TestStore, tag: Tag) -> Result<TagType, Refusal> {
    tag.ty(store)
}

pub fn tag_eq(store: &TestStore, a: Tag, b: Tag) -> Result<bool, Refusal> {
    <Tag as TagCalls>::eq(&a, &b, store)
}

pub fn func_new(
    store: &mut TestStore,
    ty: FuncType,
    body: usize,
    stored: &[Extern],
) -> Result<Func, Refusal> {
    <Func as FuncCalls>::try_new(store, ty, body, stored)
}

pub fn func_ty(store: &TestStore, func: Func) -> Result<FuncType, Refusal> {
    func.ty(store)
}

pub fn func_matches_ty(store: &TestStore, func: Func, ty: &FuncType) -> Result<bool, Refusal> {
    func.matches_ty(store, ty)
}

pub fn val_ty(store: &TestStore, value: Val) -> Result<ValType, Refusal> {
    value.ty(store)
}

pub fn val_matches_ty(store: &TestStore, value: Val, ty: &ValType) -> Result<bool, Refusal> {
    value.matches_ty(store, ty)
}

pub fn ref_ty(store: &TestStore, reference: Ref) -> Result<RefType, Refusal> {
    reference.ty(store)
}

pub fn ref_matches_ty(store: &TestStore, reference: Ref, ty: &RefType) -> Result<bool, Refusal> {
    reference.matches_ty(store, ty)
}

pub fn extern_ty(store: &TestStore, object: Extern) -> Result<ExternType, Refusal> {
    object.ty(store)
}

pub fn link_count(store: &TestStore, node: Node) -> usize {
    store.link_count(node)
}

pub fn link(store: &TestStore, node: Node, place: usize) -> Option<Node> {
    store.link(node, place)
}

pub fn get_fuel(store: &TestStore) -> Result<u64, Refusal> {
    store.get_fuel()
}

pub fn set_fuel(store: &mut TestStore, fuel: u64) -> Result<(), Refusal> {
    store.set_fuel(fuel)
}

pub fn yield_interval(store: &mut TestStore, interval: Option<u64>) -> Result<(), Refusal> {
    store.fuel_async_yield_interval(interval)
}

pub fn set_epoch_deadline<E: EpochSource>(
    store: &mut TestStore,
    epochs: &mut E,
    ticks: u64,
) -> Result<(), Refusal> {
    store.set_epoch_deadline(epochs, ticks)
}

pub fn set_limiter(store: &mut TestStore) {
    store.limiter();
}

pub fn set_hook(store: &mut TestStore) {
    store.call_hook(ListedHook);
}

pub fn set_behaviour(store: &mut TestStore) {
    store.epoch_deadline_callback(ListedBehaviour);
}

pub fn remove_behaviour(store: &mut TestStore) {
    store.epoch_deadline_trap();
}

pub fn ask_hook(store: &mut TestStore, event: CallHook) -> Result<(), HookFailed> {
    parts::ask_hook(store, event)
}

pub fn ask_behaviour(store: &mut TestStore) -> Result<UpdateDeadline, BehaviourFailed> {
    parts::ask_behaviour(store)
}
