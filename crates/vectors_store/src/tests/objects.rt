//! Each call on an object, once, where there is memory. What it answers in each case, and leaves, is in its clauses.
use crate::tests::{DONE, TestStore, calls, check_same, check_type, done, new_store, types};
use std::process::Abort;
use wasm_types::{GlobalType, HeapType, Mutability, RefType, TableType, ValType};
use wasm_values::{ExternRef, Memory, Ref, Table, Val};

#[test]
fn a_memory_is_made_and_used_and_grows(rt: HostRuntime) {
    let store = new_store(&rt, rt.alloc());
    let ty = types::memory(&rt, (1, Some(3)), 16);
    let memory = done(&rt, calls::memory_new(store, ty));
    let ty = types::memory(&rt, (1, Some(3)), 16);
    check_type(&rt, calls::memory_ty(store, memory), ty);
    check_same(&rt, calls::memory_page_size(store, memory), Ok(65_536));
    check_same(&rt, calls::memory_page_size_log2(store, memory), Ok(16));
    let written = calls::memory_write(store, memory, 65_534, &[7, 8]);
    check_same(&rt, written, DONE);
    check_same(&rt, calls::memory_grow(store, memory, 2), Ok(1));
    check_same(&rt, calls::memory_size(store, memory), Ok(3));
    check_same(&rt, calls::memory_data_size(store, memory), Ok(196_608));
    let mut piece = [9; 3];
    let read = calls::memory_read(store, memory, 65_534, &mut piece);
    check_same(&rt, read, DONE);
    check_same(&rt, piece, [7, 8, 0]);
}

/// The first byte of a memory, as it is lent and as it is read, and a count of the host's data.
fn first_of(store: &TestStore, memory: Memory) -> (Option<u8>, [u8; 1], usize) {
    let lent = match calls::memory_data(store, memory) {
        Ok(bytes) => bytes.get(0).copied(),
        Err(_) => None,
    };
    let mut piece = [9];
    let _read = calls::memory_read(store, memory, 0, &mut piece);
    (lent, piece, store.data().instances)
}

#[test]
fn a_memory_is_lent(rt: HostRuntime) {
    let store = new_store(&rt, rt.alloc());
    let ty = types::memory(&rt, (1, None), 16);
    let memory = done(&rt, calls::memory_new(store, ty));
    check_same(&rt, first_of(store, memory), (Some(0), [0], 10_000));
    check_same(&rt, calls::memory_lent(store, memory, 7, 5), DONE);
    check_same(&rt, first_of(store, memory), (Some(7), [7], 5));
    let before = calls::memory_and_data(store, memory, 8, 6);
    check_same(&rt, before, Ok(Some(7)));
    check_same(&rt, first_of(store, memory), (Some(8), [8], 6));
    check_same(&rt, calls::memory_size(store, memory), Ok(1));
}

/// A reference to this number of the host.
fn host(number: u64) -> Ref {
    Ref::Extern(Some(ExternRef(number)))
}

/// The number of the host to which an element refers.
fn number_at(store: &mut TestStore, table: Table, at: u64) -> Option<u64> {
    match calls::table_get(store, table, at) {
        Ok(Some(Ref::Extern(Some(host)))) => Some(host.0),
        _ => None,
    }
}

/// The type of tables of three to five references to numbers of the host.
fn three(rt: &impl Abort) -> TableType {
    types::table(rt, RefType::new(true, HeapType::Extern), (3, Some(5)))
}

#[test]
fn a_table_is_made_and_used_and_grows(rt: HostRuntime) {
    let store = new_store(&rt, rt.alloc());
    let table = done(&rt, calls::table_new(store, three(&rt), host(6)));
    let other = done(&rt, calls::table_new(store, three(&rt), host(1)));
    check_same(&rt, calls::table_set(store, table, 0, host(7)), DONE);
    check_same(&rt, calls::table_fill(store, table, 1, host(8), 1), DONE);
    check_same(&rt, calls::table_grow(store, table, 2, host(9)), Ok(3));
    check_same(
        &rt,
        calls::table_copy(store, (table, 3), (other, 1), 1),
        DONE,
    );
    check_same(&rt, calls::table_size(store, table), Ok(5));
    check_same(&rt, number_at(store, table, 0), Some(7));
    check_same(&rt, number_at(store, table, 1), Some(8));
    check_same(&rt, number_at(store, table, 2), Some(6));
    check_same(&rt, number_at(store, table, 3), Some(1));
    check_same(&rt, number_at(store, table, 4), Some(9));
}

#[test]
fn a_global_holds_what_is_set(rt: HostRuntime) {
    let store = new_store(&rt, rt.alloc());
    let ty = GlobalType::new(ValType::I32, Mutability::Var);
    let global = done(&rt, calls::global_new(store, ty, Val::I32(5)));
    let value = done(&rt, calls::global_get(store, global));
    check_same(&rt, value.i32(), Some(5));
    check_same(&rt, calls::global_set(store, global, Val::I32(-6)), DONE);
    let value = done(&rt, calls::global_get(store, global));
    check_same(&rt, value.i32(), Some(-6));
}
