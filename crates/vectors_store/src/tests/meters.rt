//! What bounds a guest, as a host sets it: fuel, the deadline, the limiter, the hook and the deadline behaviour.
use crate::tests::{
    Answer, DONE, FAILED, TestStore, calls, check_same, engine_with, host_data, lent, new_store,
    store_for, store_of, types,
};
use std::alloc::Global as Heap;
use std::process::Abort;
use wasm_meter::{
    Answers, BehaviourAnswer, BehaviourFailed, CallHook, GrowthAnswer, HookAnswer, HookFailed,
    ListEpochs, ListedData, UpdateDeadline,
};
use wasm_values::{Refusal, StoreIds};

/// A store whose engine consumes fuel and reads epochs.
fn metered_store<'a>(rt: &impl Abort, alloc: Heap) -> &'a mut TestStore {
    let engine = engine_with(rt, true, true);
    let store = store_for(rt, alloc, &mut StoreIds::new(), engine, host_data(alloc));
    lent(rt, alloc, store)
}

fn set_by_context(store: &mut TestStore, fuel: u64) -> Answer<()> {
    store.as_context_mut().set_fuel(fuel)
}

fn interval_by_context(store: &mut TestStore, interval: Option<u64>) -> Answer<()> {
    store.as_context_mut().fuel_async_yield_interval(interval)
}

/// The fuel that a context tells, and one that may change the store.
fn fuel_by_contexts(store: &mut TestStore) -> [Answer<u64>; 2] {
    let told = store.as_context().get_fuel();
    [told, store.as_context_mut().get_fuel()]
}

fn trap_by_context(store: &mut TestStore) {
    store.as_context_mut().epoch_deadline_trap();
}

#[test]
fn fuel_is_set_and_told_by_a_store_and_by_contexts(rt: HostRuntime) {
    let store = metered_store(&rt, rt.alloc());
    check_same(&rt, calls::set_fuel(store, 9), DONE);
    check_same(&rt, calls::yield_interval(store, Some(3)), DONE);
    check_same(&rt, calls::get_fuel(store), Ok(9));
    check_same(&rt, set_by_context(store, 7), DONE);
    check_same(&rt, fuel_by_contexts(store), [Ok(7), Ok(7)]);
    check_same(&rt, interval_by_context(store, Some(2)), DONE);
    let refused = interval_by_context(store, Some(0));
    check_same(&rt, refused, Err(Refusal::FuelInterval));
    trap_by_context(store);
    check_same(&rt, fuel_by_contexts(store), [Ok(7), Ok(7)]);
}

/// A source of these readings, whose calls of these numbers fail.
fn list_epochs(rt: &impl Abort, alloc: Heap, readings: &[u64], fails: &[u64]) -> ListEpochs {
    let readings = Vec::from_slice(alloc, readings).expect(rt, "memory for readings");
    let fails = Vec::from_slice(alloc, fails).expect(rt, "memory for numbers");
    ListEpochs::new(readings, fails)
}

/// The deadline by a context.
fn deadline_by_context(store: &mut TestStore, epochs: &mut ListEpochs, ticks: u64) -> Answer<()> {
    store.as_context_mut().set_epoch_deadline(epochs, ticks)
}

#[test]
fn a_deadline_needs_a_reading(rt: HostRuntime) {
    let store = new_store(&rt, rt.alloc());
    let mut epochs = list_epochs(&rt, rt.alloc(), &[3, u64::MAX], &[1]);
    let fault = Err(Refusal::EpochFault);
    check_same(&rt, calls::set_epoch_deadline(store, &mut epochs, 2), DONE);
    check_same(&rt, calls::set_epoch_deadline(store, &mut epochs, 2), fault);
    check_same(&rt, deadline_by_context(store, &mut epochs, u64::MAX), DONE);
    check_same(&rt, store.turns(), 0);
}

/// A store of this host data.
fn store_with<'a>(rt: &impl Abort, alloc: Heap, data: ListedData) -> &'a mut TestStore {
    lent(rt, alloc, store_of(rt, alloc, &mut StoreIds::new(), data))
}

/// A store whose limiter says no, then fails, and then says yes; it is not set yet.
fn limited_store<'a>(rt: &impl Abort, alloc: Heap) -> &'a mut TestStore {
    let items = [GrowthAnswer::No, GrowthAnswer::Fault];
    let mut data = host_data(alloc);
    data.growths = Answers::new(Vec::from_array(alloc, items).expect(rt, "there is memory"));
    store_with(rt, alloc, data)
}

/// Why a memory of so many pages of one byte was not made.
fn new_memory(rt: &impl Abort, store: &mut TestStore, pages: u32) -> Option<Refusal> {
    calls::memory_new(store, types::memory(rt, (pages, None), 0)).err()
}

#[test]
fn a_limiter_that_was_set_is_asked_of_memories(rt: HostRuntime) {
    let store = limited_store(&rt, rt.alloc());
    check_same(&rt, new_memory(&rt, store, 1), None);
    calls::set_limiter(store);
    check_same(&rt, new_memory(&rt, store, 0), None);
    check_same(&rt, new_memory(&rt, store, 1), Some(FAILED));
    check_same(&rt, new_memory(&rt, store, 1), Some(Refusal::LimiterFault));
    check_same(&rt, new_memory(&rt, store, 1), None);
    check_same(&rt, store.data().denials, 1);
    check_same(&rt, store.data().limiter_faults, 1);
}

/// A store whose hook lets the first call go on and fails then.
fn hooked_store<'a>(rt: &impl Abort, alloc: Heap) -> &'a mut TestStore {
    let items = [HookAnswer::Done, HookAnswer::Fault];
    let mut data = host_data(alloc);
    data.hooks = Answers::new(Vec::from_array(alloc, items).expect(rt, "there is memory"));
    store_with(rt, alloc, data)
}

#[test]
fn the_hook_that_was_set_is_told(rt: HostRuntime) {
    let store = hooked_store(&rt, rt.alloc());
    calls::set_hook(store);
    let told = calls::ask_hook(store, CallHook::CallingWasm);
    check_same(&rt, told, Ok(()));
    let told = calls::ask_hook(store, CallHook::ReturningFromWasm);
    check_same(&rt, told, Err(HookFailed));
    check_same(&rt, store.data().hook_faults, 1);
}

/// A store whose behaviour goes on for three ticks, then fails, and then interrupts.
fn behaving_store<'a>(rt: &impl Abort, alloc: Heap) -> &'a mut TestStore {
    let items = [BehaviourAnswer::Continue(3), BehaviourAnswer::Fault];
    let mut data = host_data(alloc);
    data.behaviours = Answers::new(Vec::from_array(alloc, items).expect(rt, "there is memory"));
    store_with(rt, alloc, data)
}

/// An answer of the behaviour: the ticks for which the guest goes on, and none where it is interrupted.
fn ticks_of(
    answer: Result<UpdateDeadline, BehaviourFailed>,
) -> Result<Option<u64>, BehaviourFailed> {
    match answer {
        Ok(UpdateDeadline::Continue(ticks)) => Ok(Some(ticks)),
        Ok(UpdateDeadline::Interrupt) => Ok(None),
        Err(fault) => Err(fault),
    }
}

#[test]
fn the_behaviour_that_was_set_is_asked(rt: HostRuntime) {
    let store = behaving_store(&rt, rt.alloc());
    calls::set_behaviour(store);
    check_same(&rt, ticks_of(calls::ask_behaviour(store)), Ok(Some(3)));
    let failed = ticks_of(calls::ask_behaviour(store));
    check_same(&rt, failed, Err(BehaviourFailed));
    check_same(&rt, ticks_of(calls::ask_behaviour(store)), Ok(None));
    check_same(&rt, store.data().behaviour_faults, 1);
    calls::remove_behaviour(store);
}
