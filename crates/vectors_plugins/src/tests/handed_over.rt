//! Functions that are handed to a guest as arguments, and guests and exports that are not there.
use crate::tests::keeper::{GIVE, KEEP};
use crate::tests::modules::{GIVES, TAKES};
use crate::tests::{
    Answer, DONE, TestPlugins, TestStore, calls, check_same, guests_in, host_function, new_store,
    plain_function, valid,
};
use std::alloc::Global as Heap;
use std::process::Abort;
use wasm_plugins::PluginFault;
use wasm_types::ValType;
use wasm_values::{Extern, Func, Refusal, StoreIds, Val};

fn refused(why: Refusal) -> Answer<()> {
    Err(PluginFault::Refused(why))
}

/// A function of the host that keeps its argument, and one that gives what was kept.
fn keeping(rt: &impl Abort, alloc: Heap, store: &mut TestStore) -> Func {
    let references = [ValType::funcref()];
    host_function(rt, alloc, store, KEEP, &references, &[], &[])
}

fn giving(rt: &impl Abort, alloc: Heap, store: &mut TestStore) -> Func {
    let references = [ValType::funcref()];
    host_function(rt, alloc, store, GIVE, &[], &references, &[])
}

/// Loads a guest that returns its function, and one that takes functions.
fn load_two(rt: &impl Abort, alloc: Heap, plugins: &mut TestPlugins, keep: Func, give: Func) {
    let gives = valid(rt, alloc, GIVES);
    let takes = valid(rt, alloc, TAKES);
    let loaded = calls::load(plugins, &gives, &[Extern::Func(keep)]);
    check_same(rt, loaded, Ok(0));
    let loaded = calls::load(plugins, &takes, &[Extern::Func(give)]);
    check_same(rt, loaded, Ok(1));
}

#[test]
fn a_function_of_another_guest_is_foreign(rt: HostRuntime) {
    let alloc = rt.alloc();
    let mut store = new_store(&rt, alloc, &mut StoreIds::new());
    let keep = keeping(&rt, alloc, &mut store);
    let give = giving(&rt, alloc, &mut store);
    let plugins = guests_in(&rt, alloc, store);
    load_two(&rt, alloc, plugins, keep, give);
    let mut own = [Val::I32(0)];
    check_same(&rt, calls::call(plugins, 0, "own", &[], &mut own), DONE);
    let foreign = own[0];
    check_same(
        &rt,
        calls::call(plugins, 1, "take", &[foreign], &mut []),
        Err(PluginFault::Foreign(0)),
    );
    check_same(
        &rt,
        calls::call(plugins, 1, "take_second", &[Val::I32(5), foreign], &mut []),
        Err(PluginFault::Foreign(1)),
    );
    check_same(
        &rt,
        calls::call(plugins, 1, "take_second", &[foreign, foreign], &mut []),
        Err(PluginFault::Foreign(0)),
    );
    let null = [Val::FuncRef(None)];
    check_same(&rt, calls::call(plugins, 1, "take", &null, &mut []), DONE);
    // What is left is refused as a call of the function refuses it.
    check_same(
        &rt,
        calls::call(plugins, 1, "take", &[], &mut []),
        refused(Refusal::ArgumentCount),
    );
}

#[test]
fn an_argument_of_another_store_is_told_before_a_foreign_one(rt: HostRuntime) {
    let alloc = rt.alloc();
    let mut ids = StoreIds::new();
    let mut store = new_store(&rt, alloc, &mut ids);
    let keep = keeping(&rt, alloc, &mut store);
    let give = giving(&rt, alloc, &mut store);
    let plugins = guests_in(&rt, alloc, store);
    load_two(&rt, alloc, plugins, keep, give);
    let mut other = new_store(&rt, alloc, &mut ids);
    let strange = Val::FuncRef(Some(plain_function(&rt, alloc, &mut other)));
    let mut own = [Val::I32(0)];
    check_same(&rt, calls::call(plugins, 0, "own", &[], &mut own), DONE);
    check_same(
        &rt,
        calls::call(plugins, 1, "take", &[strange], &mut []),
        refused(Refusal::WrongStore),
    );
    check_same(
        &rt,
        calls::call(plugins, 1, "take_second", &[own[0], strange], &mut []),
        refused(Refusal::WrongStore),
    );
}

#[test]
fn a_guest_and_its_export_are_looked_up_first(rt: HostRuntime) {
    let alloc = rt.alloc();
    let mut store = new_store(&rt, alloc, &mut StoreIds::new());
    let keep = keeping(&rt, alloc, &mut store);
    let give = giving(&rt, alloc, &mut store);
    let plugins = guests_in(&rt, alloc, store);
    load_two(&rt, alloc, plugins, keep, give);
    let params = [Val::I32(0)];
    check_same(
        &rt,
        calls::call(plugins, 2, "go", &params, &mut []),
        Err(PluginFault::NoGuest),
    );
    check_same(
        &rt,
        calls::call(plugins, 0, "missing", &params, &mut []),
        refused(Refusal::NoExport),
    );
    // A memory.
    check_same(
        &rt,
        calls::call(plugins, 0, "m", &params, &mut []),
        refused(Refusal::NoExport),
    );
}
