//! The laws of instances that are calls: each once with ample memory. And the laws of what a hook hears and of refusals,
//! which have nothing to run.
use crate::tests::functions::function;
use crate::tests::modules::{OBJECTS, TWICE, module_in};
use crate::tests::{DONE, Meter, TestStore, calls, check_same, done, found, new_store, no_epochs};
use law_causes::laws::law_refusals_have_causes;
use law_hooks::laws::law_hook_events_are_bracketed;
use law_instances::laws::{
    law_exports_from_both_ends, law_exports_in_order, law_exports_in_reverse,
    law_func_calls_keep_objects, law_look_ups_agree,
};
use std::alloc::Global as Heap;
use std::process::Abort;
use wasm_call::NoHost;
use wasm_call::laws::law_failures_are_counted;
use wasm_instance::{Export, Exports, InstanceCalls};
use wasm_meter::{ListedBehaviour, ListedData, ListedEpochs, ListedHook};
use wasm_types::OutOfMemory;
use wasm_values::{Extern, Instance, Val};

/// An instance of an object of each kind, whose exports are named f, g, t, m and e.
fn instance(rt: &impl Abort, alloc: Heap, store: &mut TestStore) -> Instance {
    let module = module_in(rt, alloc, OBJECTS);
    done(
        rt,
        calls::instance_new(store, &mut no_epochs(rt, alloc), &module),
    )
}

/// The exports of the instance.
fn exports_of<'a>(rt: &impl Abort, store: &'a TestStore, instance: Instance) -> Exports<'a> {
    done(rt, instance.exports(store))
}

/// What was made, where there is memory.
fn made<A: Drop>(rt: &impl Abort, got: Result<A, OutOfMemory>) -> A {
    got.expect(rt, "ample memory")
}

/// The exports have these names, in this order.
fn check_names(rt: &impl Abort, exports: &[Export<'_>], names: &[&str]) {
    check_same(rt, exports.len(), names.len());
    for place in 0..names.len() {
        let export = exports.get(place).expect(rt, "an export");
        check_same(rt, export.name(), names[place]);
    }
}

#[test]
fn exports_come_in_order(rt: HostRuntime) {
    let store = new_store(&rt, rt.alloc(), Meter::Nothing);
    let one = instance(&rt, rt.alloc(), store);
    let all = made(
        &rt,
        law_exports_in_order(rt.alloc(), exports_of(&rt, store, one)),
    );
    check_names(&rt, all.as_slice(), &["f", "g", "t", "m", "e"]);
}

#[test]
fn exports_come_in_reverse(rt: HostRuntime) {
    let store = new_store(&rt, rt.alloc(), Meter::Nothing);
    let one = instance(&rt, rt.alloc(), store);
    let all = made(
        &rt,
        law_exports_in_reverse(rt.alloc(), exports_of(&rt, store, one)),
    );
    check_names(&rt, all.as_slice(), &["e", "m", "t", "g", "f"]);
}

#[test]
fn exports_come_from_both_ends(rt: HostRuntime) {
    let store = new_store(&rt, rt.alloc(), Meter::Nothing);
    let one = instance(&rt, rt.alloc(), store);
    let (front, back) = made(
        &rt,
        law_exports_from_both_ends(rt.alloc(), exports_of(&rt, store, one), 2),
    );
    check_names(&rt, front.as_slice(), &["f", "g"]);
    check_names(&rt, back.as_slice(), &["e", "m", "t"]);
}

/// The number of the table, where the object is one.
fn table_number(object: Extern) -> Option<usize> {
    match object {
        Extern::Table(table) => Some(table.index()),
        _ => None,
    }
}

#[test]
fn two_look_ups_agree(rt: HostRuntime) {
    let store = new_store(&rt, rt.alloc(), Meter::Nothing);
    let one = instance(&rt, rt.alloc(), store);
    let (first, second) = law_look_ups_agree(store, one, "t");
    check_same(&rt, table_number(found(&rt, first)), Some(0));
    check_same(&rt, table_number(found(&rt, second)), Some(0));
}

#[test]
fn a_call_that_keeps_objects_returns(rt: HostRuntime) {
    let store = new_store(&rt, rt.alloc(), Meter::Nothing);
    let func = function(&rt, rt.alloc(), store, &module_in(&rt, rt.alloc(), TWICE));
    let mut epochs = no_epochs(&rt, rt.alloc());
    let mut results = [Val::I32(8); 2];
    let params = [Val::I32(3)];
    let answer = law_func_calls_keep_objects(
        store,
        &mut NoHost,
        &mut epochs,
        func,
        &params,
        &mut results,
    );
    check_same(&rt, answer, DONE);
    check_same(&rt, results[1].i32(), Some(3));
}

/// That they can be called at all, and one of them at concrete types: they run no code, so there is nothing to compare.
#[test]
fn laws_that_run_nothing_are_called() {
    law_hook_events_are_bracketed();
    law_refusals_have_causes();
    law_failures_are_counted::<ListedData, ListedHook, ListedBehaviour, NoHost, ListedEpochs>();
}
