//! Instances and what they export.
use crate::tests::modules::{OBJECTS, module_in};
use crate::tests::{Answer, Meter, TestStore, calls, check_same, done, new_store, no_epochs};
use wasm_values::Instance;

/// What the calls for one kind of export answer: a function, a table, a memory, a global, a tag; and the one for all.
fn kinds(store: &TestStore, instance: Instance, name: &str) -> Answer<[bool; 6]> {
    Ok([
        calls::get_func(store, instance, name)?.is_some(),
        calls::get_table(store, instance, name)?.is_some(),
        calls::get_memory(store, instance, name)?.is_some(),
        calls::get_global(store, instance, name)?.is_some(),
        calls::get_tag(store, instance, name)?.is_some(),
        calls::get_export(store, instance, name)?.is_some(),
    ])
}

/// Names, and which of these calls find them.
const KINDS: [(&str, [bool; 6]); 6] = [
    ("f", [true, false, false, false, false, true]),
    ("t", [false, true, false, false, false, true]),
    ("m", [false, false, true, false, false, true]),
    ("g", [false, false, false, true, false, true]),
    ("e", [false, false, false, false, true, true]),
    ("F", [false; 6]),
];

#[test]
fn an_export_is_of_its_kind(rt: HostRuntime) {
    let store = new_store(&rt, rt.alloc(), Meter::Nothing);
    let module = module_in(&rt, rt.alloc(), OBJECTS);
    let mut epochs = no_epochs(&rt, rt.alloc());
    let instance = done(&rt, calls::instance_new(store, &mut epochs, &module));
    check_same(&rt, store.turns(), 1);
    check_same(&rt, calls::module_number(store, instance), Ok(7));
    for (name, expected) in &KINDS {
        check_same(&rt, kinds(store, instance, name), Ok(*expected));
    }
}
