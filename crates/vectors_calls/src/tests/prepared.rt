//! Modules with the objects that are given for their imports (`InstancePre`), and exports one by one.
use crate::tests::functions::function;
use crate::tests::modules::{OBJECTS, ROUNDS, STARTS, module_in, plain_type};
use crate::tests::{Meter, TestStore, calls, check_same, done, found, new_store, no_epochs};
use std::alloc::Global as Heap;
use std::process::Abort;
use wasm_instance::InstancePre;
use wasm_meter::ListedData;
use wasm_types::ExternType;
use wasm_values::{Extern, Instance};

/// A prepared module whose start function is that of another instance.
fn prepared(rt: &impl Abort, alloc: Heap, store: &mut TestStore) -> InstancePre<ListedData> {
    let first = function(rt, alloc, store, &module_in(rt, alloc, ROUNDS));
    let module = module_in(rt, alloc, STARTS);
    done(
        rt,
        calls::prepare(alloc, store, &module, &[Extern::Func(first)]),
    )
}

/// A new instance of a prepared module: a turn makes it, and its start function calls the imported one in another.
fn made(
    rt: &impl Abort,
    alloc: Heap,
    store: &mut TestStore,
    prepared: &InstancePre<ListedData>,
) -> Instance {
    let mut epochs = no_epochs(rt, alloc);
    done(rt, calls::instantiate(store, &mut epochs, prepared))
}

#[test]
fn a_prepared_module_makes_instances(rt: HostRuntime) {
    let alloc = rt.alloc();
    let store = new_store(&rt, alloc, Meter::Nothing);
    let prepared = prepared(&rt, alloc, store);
    let again = calls::again(&prepared).expect(&rt, "memory for the same again");
    let one = made(&rt, alloc, store, &prepared);
    check_same(&rt, store.turns(), 2);
    let other = made(&rt, alloc, store, &again);
    check_same(&rt, (one.index(), other.index()), (1, 2));
    check_same(&rt, prepared.module().number(), 7);
    check_same(&rt, calls::export_count(store, other), Ok(2));
}

#[test]
fn an_instance_has_the_exports_of_its_module(rt: HostRuntime) {
    let alloc = rt.alloc();
    let store = new_store(&rt, alloc, Meter::Nothing);
    let module = module_in(&rt, alloc, OBJECTS);
    let mut epochs = no_epochs(&rt, alloc);
    let instance = done(&rt, calls::instance_new(store, &mut epochs, &module));
    let token = module
        .get_export_index("m")
        .expect(&rt, "an export of the module");
    let by_token = found(&rt, calls::get_module_export(store, instance, &token));
    let by_name = found(&rt, calls::get_memory(store, instance, "m"));
    check_same(&rt, by_token.into_memory() == Some(by_name), true);
    check_same(&rt, calls::export_count(store, instance), Ok(5));
    let ty = found(&rt, calls::first_type(store, instance));
    assert!(rt; ty == ExternType::Func(plain_type(&rt, alloc)));
}
