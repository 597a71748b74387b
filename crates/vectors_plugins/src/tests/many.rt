//! A thousand guests in one store.
use crate::tests::modules::COUNTS;
use crate::tests::{
    DONE, TestPlugins, calls, check_same, guests_in, new_store, plain_function, valid,
};
use std::process::Abort;
use wasm_values::{Extern, StoreIds, Val};

const GUESTS: usize = 1_000;

fn is_number(val: Val, number: i32) -> bool {
    match val {
        Val::I32(seen) => seen == number,
        _ => false,
    }
}

/// A guest is called, and has been called so often then.
fn call_one(rt: &impl Abort, plugins: &mut TestPlugins, guest: usize, times: i32) {
    let mut count = [Val::I32(0)];
    let called = calls::call(plugins, guest, "count", &[], &mut count);
    check_same(rt, called, DONE);
    check_same(rt, is_number(count[0], times), true);
}

fn call_each(rt: &impl Abort, plugins: &mut TestPlugins, times: i32) {
    for guest in 0..GUESTS {
        call_one(rt, plugins, guest, times);
    }
}

#[test]
fn a_thousand_guests_are_called_in_turn(rt: HostRuntime) {
    let alloc = rt.alloc();
    let mut store = new_store(&rt, alloc, &mut StoreIds::new());
    let func = [Extern::Func(plain_function(&rt, alloc, &mut store))];
    let plugins = guests_in(&rt, alloc, store);
    let module = valid(&rt, alloc, COUNTS);
    for guest in 0..GUESTS {
        check_same(&rt, calls::load(plugins, &module, &func), Ok(guest));
    }
    call_each(&rt, plugins, 1);
    call_each(&rt, plugins, 2);
}
