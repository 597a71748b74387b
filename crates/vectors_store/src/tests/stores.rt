use crate::tests::{TestStore, check_same, host_data, new_store, store_of};
use wasm_values::StoreIds;

/// The number of the engine, and of the tables that the host data names, by a store and by its context.
fn seen(store: &TestStore) -> [u64; 4] {
    let context = store.as_context();
    let named = store.data().tables as u64;
    let seen = context.data().tables as u64;
    [store.engine().id().0, context.engine().id().0, named, seen]
}

/// The same by a context that may change the store.
fn seen_to_change(store: &mut TestStore) -> [u64; 2] {
    let context = store.as_context_mut();
    [context.engine().id().0, context.data().tables as u64]
}

/// Has the host data name so many tables.
fn name_tables(store: &mut TestStore, tables: usize) {
    store.data_mut().tables = tables;
}

/// The same by a context.
fn name_by_context(store: &mut TestStore, tables: usize) {
    store.as_context_mut().data_mut().tables = tables;
}

#[test]
fn a_store_has_its_engine_and_the_data_of_its_host(rt: HostRuntime) {
    let store = new_store(&rt, rt.alloc());
    check_same(&rt, store.id().as_raw().get(), 1);
    check_same(&rt, seen(store), [1, 1, 10_000, 10_000]);
    name_tables(store, 78);
    check_same(&rt, seen(store), [1, 1, 78, 78]);
    check_same(&rt, seen_to_change(store), [1, 78]);
    name_by_context(store, 79);
    check_same(&rt, seen(store), [1, 1, 79, 79]);
}

#[test]
fn the_data_of_the_host_is_handed_back(rt: HostRuntime) {
    let mut data = host_data(rt.alloc());
    data.tables = 80;
    let store = store_of(&rt, rt.alloc(), &mut StoreIds::new(), data);
    check_same(&rt, store.into_data().tables, 80);
}
