//! Loads that are refused, or that do not come to their end: they add no guest, and what comes behind is as without
//! them.
use crate::tests::modules::{ENDLESS, OVER_BOTH, OVER_FUNCTION, TRAPS_OVER_BOTH};
use crate::tests::{
    Answer, calls, check_same, first_byte, guests_in, memory_of, new_store, no_guests,
    plain_function, valid,
};
use wasm_meter::{Answers, GrowthAnswer};
use wasm_plugins::PluginFault;
use wasm_types::MemoryType;
use wasm_values::{Extern, Refusal, StoreIds, Trap};

fn refused(why: Refusal) -> Answer<usize> {
    Err(PluginFault::Refused(why))
}

#[test]
fn an_import_of_another_store_is_told_before_all_else(rt: HostRuntime) {
    let alloc = rt.alloc();
    let mut ids = StoreIds::new();
    let plugins = no_guests(&rt, alloc);
    let _own = new_store(&rt, alloc, &mut ids);
    let mut other = new_store(&rt, alloc, &mut ids);
    let strange = Extern::Func(plain_function(&rt, alloc, &mut other));
    let endless = valid(&rt, alloc, ENDLESS);
    let over_function = valid(&rt, alloc, OVER_FUNCTION);
    check_same(&rt, calls::load(plugins, &endless, &[]), Ok(0));
    check_same(
        &rt,
        calls::load(plugins, &over_function, &[strange]),
        refused(Refusal::WrongStore),
    );
    // Also where another import leads to what a guest reaches.
    let memory = Extern::Memory(memory_of(&rt, plugins, 0));
    check_same(
        &rt,
        calls::load(plugins, &over_function, &[memory, strange]),
        refused(Refusal::WrongStore),
    );
    check_same(
        &rt,
        calls::load(plugins, &over_function, &[]),
        refused(Refusal::ImportCount),
    );
    check_same(&rt, plugins.guest_count(), 1);
}

#[test]
fn a_guest_whose_start_function_trapped_is_none(rt: HostRuntime) {
    let alloc = rt.alloc();
    let mut store = new_store(&rt, alloc, &mut StoreIds::new());
    let func = plain_function(&rt, alloc, &mut store);
    let Ok(ty) = MemoryType::new(1, None, 16) else {
        panic!(rt; "a type");
    };
    let Ok(memory) = calls::memory_new(&mut store, ty) else {
        panic!(rt; "a memory");
    };
    let imports = [Extern::Func(func), Extern::Memory(memory)];
    let plugins = guests_in(&rt, alloc, store);
    let traps = valid(&rt, alloc, TRAPS_OVER_BOTH);
    let over_both = valid(&rt, alloc, OVER_BOTH);
    check_same(
        &rt,
        calls::load(plugins, &traps, &imports),
        refused(Refusal::Trap(Trap::UnreachableCodeReached)),
    );
    check_same(&rt, plugins.guest_count(), 0);
    // Its instance is there, and nobody's.
    check_same(&rt, calls::load(plugins, &over_both, &imports), Ok(0));
    check_same(
        &rt,
        plugins.instance(0).map(|instance| instance.index()),
        Some(1),
    );
}

#[test]
fn a_load_that_the_limiter_stops_adds_no_guest(rt: HostRuntime) {
    let alloc = rt.alloc();
    let mut store = new_store(&rt, alloc, &mut StoreIds::new());
    store.limiter();
    let plugins = guests_in(&rt, alloc, store);
    let Ok(answers) = Vec::from_slice(alloc, &[GrowthAnswer::No, GrowthAnswer::Yes]) else {
        panic!(rt; "there is no memory");
    };
    plugins.data_mut().growths = Answers::new(answers);
    let endless = valid(&rt, alloc, ENDLESS);
    check_same(
        &rt,
        calls::load(plugins, &endless, &[]),
        refused(Refusal::GrowFailed),
    );
    check_same(&rt, plugins.guest_count(), 0);
    check_same(&rt, calls::load(plugins, &endless, &[]), Ok(0));
    check_same(&rt, first_byte(&rt, plugins, 0), 0);
}
