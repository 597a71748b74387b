//! What a host gives to whichever guest runs next: fuel, and a deadline.
use crate::tests::modules::LOOPS;
use crate::tests::{
    Answer, DONE, TestPlugins, calls, check_same, guests_in, no_guests, store_of, valid,
};
use std::alloc::Global as Heap;
use std::process::Abort;
use wasm_meter::ListEpochs;
use wasm_plugins::PluginFault;
use wasm_values::{Refusal, StoreIds, Trap};

fn trapped(trap: Trap) -> Answer<()> {
    Err(PluginFault::Refused(Refusal::Trap(trap)))
}

fn load_two(rt: &impl Abort, alloc: Heap, plugins: &mut TestPlugins) {
    let loops = valid(rt, alloc, LOOPS);
    check_same(rt, calls::load(plugins, &loops, &[]), Ok(0));
    check_same(rt, calls::load(plugins, &loops, &[]), Ok(1));
}

/// A source of these readings, whose calls of these numbers fail.
fn source_of(rt: &impl Abort, alloc: Heap, readings: &[u64], fails: &[u64]) -> ListEpochs {
    let readings = Vec::from_slice(alloc, readings);
    let fails = Vec::from_slice(alloc, fails);
    match (readings, fails) {
        (Ok(readings), Ok(fails)) => ListEpochs::new(readings, fails),
        _ => panic!(rt; "there is no memory"),
    }
}

#[test]
fn fuel_is_for_whichever_guest_runs_next(rt: HostRuntime) {
    let alloc = rt.alloc();
    let store = store_of(&rt, alloc, &mut StoreIds::new(), true, false);
    let plugins = guests_in(&rt, alloc, store);
    load_two(&rt, alloc, plugins);
    check_same(&rt, plugins.set_fuel(100), Ok(()));
    check_same(
        &rt,
        calls::call(plugins, 0, "forever", &[], &mut []),
        trapped(Trap::OutOfFuel),
    );
    // Nothing is left for the other guest.
    check_same(
        &rt,
        calls::call(plugins, 1, "once", &[], &mut []),
        trapped(Trap::OutOfFuel),
    );
    check_same(&rt, plugins.set_fuel(100), Ok(()));
    check_same(&rt, calls::call(plugins, 1, "once", &[], &mut []), DONE);
}

#[test]
fn a_store_without_fuel_is_given_none(rt: HostRuntime) {
    let alloc = rt.alloc();
    let plugins = no_guests(&rt, alloc);
    check_same(&rt, plugins.set_fuel(100), Err(Refusal::FuelNotConfigured));
}

#[test]
fn a_deadline_is_for_whichever_guest_runs_next(rt: HostRuntime) {
    let alloc = rt.alloc();
    let store = store_of(&rt, alloc, &mut StoreIds::new(), false, true);
    let plugins = guests_in(&rt, alloc, store);
    load_two(&rt, alloc, plugins);
    // Read as the deadline is set, as the function is entered, and before each round of its loop.
    let epochs = &mut source_of(&rt, alloc, &[0, 0, 0, 1], &[]);
    check_same(&rt, calls::set_deadline(plugins, epochs, 1), Ok(()));
    check_same(
        &rt,
        calls::call_by(plugins, epochs, 0, "forever"),
        trapped(Trap::Interrupt),
    );
    // It has passed for the other guest too.
    check_same(
        &rt,
        calls::call_by(plugins, epochs, 1, "once"),
        trapped(Trap::Interrupt),
    );
    check_same(&rt, calls::set_deadline(plugins, epochs, 1), Ok(()));
    check_same(&rt, calls::call_by(plugins, epochs, 1, "once"), DONE);
}

#[test]
fn a_deadline_stands_where_the_epoch_was_not_read(rt: HostRuntime) {
    let alloc = rt.alloc();
    let store = store_of(&rt, alloc, &mut StoreIds::new(), false, true);
    let plugins = guests_in(&rt, alloc, store);
    load_two(&rt, alloc, plugins);
    let epochs = &mut source_of(&rt, alloc, &[0], &[1]);
    check_same(&rt, calls::set_deadline(plugins, epochs, 5), Ok(()));
    check_same(
        &rt,
        calls::set_deadline(plugins, epochs, 0),
        Err(Refusal::EpochFault),
    );
    check_same(&rt, calls::call_by(plugins, epochs, 1, "once"), DONE);
}
