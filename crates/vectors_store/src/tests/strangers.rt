//! Handles, values and references of another store, whose objects have the same numbers: each call refuses them, and the
//! store is as it was.
use crate::tests::{
    Answer, DONE, TestStore, calls, check_same, done, host_data, lent, new_func, store_of, types,
};
use std::alloc::Global as Heap;
use std::process::Abort;
use wasm_types::{
    FuncType, GlobalType, HeapType, Mutability, RefType, TableType, TagType, ValType,
};
use wasm_values::{Extern, Func, Global, Memory, Ref, Refusal, StoreIds, Table, Tag, Val};

/// An object of each kind, the first of its store.
#[derive(Clone, Copy)]
struct Objects {
    func: Func,
    memory: Memory,
    table: Table,
    global: Global,
    tag: Tag,
}

/// What a call of each row is refused for.
const STRANGER: Option<Refusal> = Some(Refusal::WrongStore);

fn funcref() -> RefType {
    RefType::new(true, HeapType::Func)
}

/// The type of tables of one to three references to functions.
fn table_type(rt: &impl Abort) -> TableType {
    types::table(rt, funcref(), (1, Some(3)))
}

fn global_type() -> GlobalType {
    GlobalType::new(ValType::Ref(funcref()), Mutability::Var)
}

fn make_objects(rt: &impl Abort, alloc: Heap, store: &mut TestStore) -> Objects {
    let func = new_func(rt, alloc, store);
    let ty = types::memory(rt, (1, Some(3)), 0);
    let memory = done(rt, calls::memory_new(store, ty));
    let table = done(rt, calls::table_new(store, table_type(rt), Ref::Func(None)));
    let global = done(
        rt,
        calls::global_new(store, global_type(), Val::FuncRef(None)),
    );
    let tag = done(
        rt,
        calls::tag_new(store, &TagType::new(types::func(rt, alloc))),
    );
    Objects {
        func,
        memory,
        table,
        global,
        tag,
    }
}

/// Each call on a memory.
fn memory_calls(store: &mut TestStore, memory: Memory) -> [Option<Refusal>; 11] {
    [
        calls::memory_ty(store, memory).err(),
        calls::memory_size(store, memory).err(),
        calls::memory_data_size(store, memory).err(),
        calls::memory_page_size(store, memory).err(),
        calls::memory_page_size_log2(store, memory).err(),
        calls::memory_read(store, memory, 0, &mut [0]).err(),
        calls::memory_write(store, memory, 0, &[7]).err(),
        calls::memory_data(store, memory).err(),
        calls::memory_lent(store, memory, 7, 0).err(),
        calls::memory_and_data(store, memory, 7, 0).err(),
        calls::memory_grow(store, memory, 1).err(),
    ]
}

/// Each call on a table, and those that take a reference beside a table of the store's own.
fn table_calls(store: &mut TestStore, own: Table, other: Objects) -> [Option<Refusal>; 11] {
    let (table, func) = (other.table, Ref::Func(Some(other.func)));
    [
        calls::table_ty(store, table).err(),
        calls::table_size(store, table).err(),
        calls::table_get(store, table, 0).err(),
        calls::table_set(store, table, 0, Ref::Func(None)).err(),
        calls::table_fill(store, table, 0, Ref::Func(None), 1).err(),
        calls::table_grow(store, table, 1, Ref::Func(None)).err(),
        calls::table_copy(store, (table, 0), (own, 0), 1).err(),
        calls::table_copy(store, (own, 0), (table, 0), 1).err(),
        calls::table_set(store, own, 0, func).err(),
        calls::table_fill(store, own, 0, func, 1).err(),
        calls::table_grow(store, own, 1, func).err(),
    ]
}

/// Each call on a global and on a tag, and those that take a value beside a global of the store's own.
fn global_calls(store: &mut TestStore, own: Objects, other: Objects) -> [Option<Refusal>; 8] {
    let func = Val::FuncRef(Some(other.func));
    [
        calls::global_ty(store, other.global).err(),
        calls::global_get(store, other.global).err(),
        calls::global_set(store, other.global, Val::FuncRef(None)).err(),
        calls::global_set(store, own.global, func).err(),
        calls::global_new(store, global_type(), func).err(),
        calls::tag_ty(store, other.tag).err(),
        calls::tag_eq(store, own.tag, other.tag).err(),
        calls::tag_eq(store, other.tag, own.tag).err(),
    ]
}

/// Each call on a function, on a value, on a reference and on an object of each kind.
fn value_calls(store: &TestStore, other: Objects, ty: &FuncType) -> [Option<Refusal>; 11] {
    let (value, reference) = (Val::FuncRef(Some(other.func)), Ref::Func(Some(other.func)));
    let value_type = ValType::Ref(funcref());
    [
        calls::func_ty(store, other.func).err(),
        calls::func_matches_ty(store, other.func, ty).err(),
        calls::val_ty(store, value).err(),
        calls::val_matches_ty(store, value, &value_type).err(),
        calls::ref_ty(store, reference).err(),
        calls::ref_matches_ty(store, reference, &funcref()).err(),
        calls::extern_ty(store, Extern::Func(other.func)).err(),
        calls::extern_ty(store, Extern::Memory(other.memory)).err(),
        calls::extern_ty(store, Extern::Table(other.table)).err(),
        calls::extern_ty(store, Extern::Global(other.global)).err(),
        calls::extern_ty(store, Extern::Tag(other.tag)).err(),
    ]
}

/// A function of the host with this object stored, and a table of elements that begin as this function.
fn new_calls(
    rt: &impl Abort,
    alloc: Heap,
    store: &mut TestStore,
    other: Objects,
) -> [Option<Refusal>; 2] {
    let stored = [Extern::Memory(other.memory)];
    let func = Ref::Func(Some(other.func));
    [
        calls::func_new(store, types::func(rt, alloc), 0, &stored).err(),
        calls::table_new(store, table_type(rt), func).err(),
    ]
}

/// The size and the first byte of a memory, the size of a table, and whether its first element and a global are null.
type Contents = (Answer<u64>, u8, Answer<u64>, bool, bool);

fn contents_of(rt: &impl Abort, store: &mut TestStore, own: Objects) -> Contents {
    let mut piece = [9];
    check_same(
        rt,
        calls::memory_read(store, own.memory, 0, &mut piece),
        DONE,
    );
    let element = done(rt, calls::table_get(store, own.table, 0));
    let value = done(rt, calls::global_get(store, own.global));
    (
        calls::memory_size(store, own.memory),
        piece[0],
        calls::table_size(store, own.table),
        matches!(element, Some(Ref::Func(None))),
        matches!(value, Val::FuncRef(None)),
    )
}

#[test]
fn what_is_of_another_store_is_refused(rt: HostRuntime) {
    let alloc = rt.alloc();
    let mut ids = StoreIds::new();
    let store = lent(&rt, alloc, store_of(&rt, alloc, &mut ids, host_data(alloc)));
    let another = lent(&rt, alloc, store_of(&rt, alloc, &mut ids, host_data(alloc)));
    let own = make_objects(&rt, alloc, store);
    let other = make_objects(&rt, alloc, another);
    let ty = types::func(&rt, alloc);
    check_same(&rt, memory_calls(store, other.memory), [STRANGER; 11]);
    check_same(&rt, table_calls(store, own.table, other), [STRANGER; 11]);
    check_same(&rt, global_calls(store, own, other), [STRANGER; 8]);
    check_same(&rt, value_calls(store, other, &ty), [STRANGER; 11]);
    check_same(&rt, new_calls(&rt, alloc, store, other), [STRANGER; 2]);
    let unchanged = (Ok(1), 0, Ok(1), true, true);
    check_same(&rt, contents_of(&rt, store, own), unchanged);
}
