//! Hosts that hand out a function which their body was not shown, and one that hands out what it was shown.
use crate::tests::keeper::{ECHO, GIVE, KEEP, Keeper, STORE};
use crate::tests::modules::{ECHOES, GIVES, OVER_FUNCTION, TAKES};
use crate::tests::{
    Answer, DONE, calls, check_same, first_byte, guests_in, host_function, new_store, valid,
};
use wasm_plugins::{PluginFault, Shown};
use wasm_types::ValType;
use wasm_values::{Extern, Refusal, StoreIds, Val};

const HOST_FAULT: Answer<()> = Err(PluginFault::Refused(Refusal::HostFault));

#[test]
fn a_host_that_keeps_a_function_fails_where_it_hands_it_out(rt: HostRuntime) {
    let alloc = rt.alloc();
    let mut store = new_store(&rt, alloc, &mut StoreIds::new());
    let references = [ValType::funcref()];
    let keep = host_function(&rt, alloc, &mut store, KEEP, &references, &[], &[]);
    let give = host_function(&rt, alloc, &mut store, GIVE, &[], &references, &[]);
    let make = host_function(&rt, alloc, &mut store, STORE, &[], &[], &[]);
    let plugins = guests_in(&rt, alloc, store);
    let host = &mut Shown::new(Keeper { kept: None });
    let gives = valid(&rt, alloc, GIVES);
    let takes = valid(&rt, alloc, TAKES);
    let over_function = valid(&rt, alloc, OVER_FUNCTION);
    let loaded = calls::load_with(plugins, host, &gives, &[Extern::Func(keep)]);
    check_same(&rt, loaded, Ok(0));
    let loaded = calls::load_with(plugins, host, &takes, &[Extern::Func(give)]);
    check_same(&rt, loaded, Ok(1));
    let loaded = calls::load_with(plugins, host, &over_function, &[Extern::Func(make)]);
    check_same(&rt, loaded, Ok(2));
    // Nothing was kept yet: a global of a null is made.
    let called = calls::call_with(plugins, host, 2, "f", &[], &mut []);
    check_same(&rt, called, DONE);
    let called = calls::call_with(plugins, host, 0, "go", &[], &mut []);
    check_same(&rt, called, DONE);
    // As a returned value, and as a literal operand.
    let called = calls::call_with(plugins, host, 1, "go", &[], &mut []);
    check_same(&rt, called, HOST_FAULT);
    let called = calls::call_with(plugins, host, 2, "f", &[], &mut []);
    check_same(&rt, called, HOST_FAULT);
    check_same(&rt, first_byte(&rt, plugins, 0), 0);
}

#[test]
fn a_host_may_hand_out_an_argument(rt: HostRuntime) {
    let alloc = rt.alloc();
    let mut store = new_store(&rt, alloc, &mut StoreIds::new());
    let references = [ValType::funcref()];
    let echo = host_function(&rt, alloc, &mut store, ECHO, &references, &references, &[]);
    let plugins = guests_in(&rt, alloc, store);
    let module = valid(&rt, alloc, ECHOES);
    check_same(
        &rt,
        calls::load(plugins, &module, &[Extern::Func(echo)]),
        Ok(0),
    );
    let mut echoed = [Val::I32(0)];
    check_same(&rt, calls::call(plugins, 0, "go", &[], &mut echoed), DONE);
    check_same(&rt, calls::call(plugins, 0, "take", &echoed, &mut []), DONE);
}
