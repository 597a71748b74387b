//! A hook and a deadline behaviour that are set a second time: the second one takes the place of the first. No clause
//! says so, since the relation of a kind is that of all its values; so here are two kinds whose values differ.
use crate::tests::{check_same, engine_with, host_data};
use std::alloc::Global as Heap;
use std::process::Abort;
use wasm_meter::{
    BehaviourFailed, CallHook, CallHooks, DeadlineBehaviour, HookFailed, ListedData, UpdateDeadline,
};
use wasm_store::{Store, parts};
use wasm_values::StoreIds;

/// A hook that fails each time, or never.
#[derive(Clone, Copy)]
struct ConstantHook {
    fails: bool,
}

impl CallHooks<ListedData> for ConstantHook {
    ghost use Rattle.std.specs.Prelude.{OnErr};
    ghost use Rattle.wasm_meter.specs.Counting.{Rose};
    ghost use Rattle.wasm_meter.specs.Lists.{Keeps};

    ghost hooks = { λ s event answer t. Keeps s t × OnErr answer (Rose s.hook_faults t.hook_faults) };

    ghost hooks_keep_all = { λ s t event answer h. h.0 };

    ghost hooks_fail = { λ s t event fault h. h.1 };

    fn ask_hook(&self, host_data: &mut ListedData, _event: CallHook) -> Result<(), HookFailed> {
        if self.fails {
            host_data.hook_faults = host_data.hook_faults.saturating_add(1);
            return Err(HookFailed);
        }
        Ok(())
    }
}

/// A deadline behaviour that goes on for so many ticks each time.
#[derive(Clone, Copy)]
struct ConstantBehaviour {
    ticks: u64,
}

impl DeadlineBehaviour<ListedData> for ConstantBehaviour {
    ghost use Rattle.std.proofs.Common.{true≢false};
    ghost use Rattle.std.specs.Prelude.{◌≡◌, is_err, false};
    ghost use Rattle.wasm_meter.specs.Lists.{Keeps};

    ghost behaves = { λ s answer t. Keeps s t × (is_err answer ≡ false) };

    ghost behaves_keep_all = { λ s t answer h. h.0 };

    ghost behaves_fail = { λ s t fault h. absurd (true≢false h.1) };

    fn ask_behaviour(
        &self,
        _host_data: &mut ListedData,
    ) -> Result<UpdateDeadline, BehaviourFailed> {
        Ok(UpdateDeadline::Continue(self.ticks))
    }
}

type ConstantStore = Store<ListedData, ConstantHook, ConstantBehaviour>;

/// A store with neither of the two yet, lent for good.
fn new_store<'a>(rt: &impl Abort, alloc: Heap) -> &'a mut ConstantStore {
    let engine = engine_with(rt, false, true);
    match Store::try_new(alloc, &mut StoreIds::new(), engine, host_data(alloc)) {
        Ok(store) => Box::leak(Box::new(alloc, store).expect(rt, "memory for a store")),
        Err(_) => panic!(rt; "there is no id"),
    }
}

fn set_hook(store: &mut ConstantStore, fails: bool) {
    store.call_hook(ConstantHook { fails });
}

fn ask_hook(store: &mut ConstantStore) -> Result<(), HookFailed> {
    parts::ask_hook(store, CallHook::CallingWasm)
}

#[test]
fn a_second_hook_takes_the_place_of_the_first(rt: HostRuntime) {
    let store = new_store(&rt, rt.alloc());
    set_hook(store, true);
    set_hook(store, false);
    check_same(&rt, ask_hook(store), Ok(()));
    set_hook(store, true);
    check_same(&rt, ask_hook(store), Err(HookFailed));
    check_same(&rt, store.data().hook_faults, 1);
}

fn set_behaviour(store: &mut ConstantStore, ticks: u64) {
    store.epoch_deadline_callback(ConstantBehaviour { ticks });
}

/// For how many ticks the behaviour goes on; `None` where it interrupts.
fn ask_behaviour(store: &mut ConstantStore) -> Option<u64> {
    match parts::ask_behaviour(store) {
        Ok(UpdateDeadline::Continue(ticks)) => Some(ticks),
        Ok(UpdateDeadline::Interrupt) | Err(_) => None,
    }
}

#[test]
fn a_second_behaviour_takes_the_place_of_the_first(rt: HostRuntime) {
    let store = new_store(&rt, rt.alloc());
    set_behaviour(store, 3);
    set_behaviour(store, 9);
    check_same(&rt, ask_behaviour(store), Some(9));
    set_behaviour(store, 3);
    check_same(&rt, ask_behaviour(store), Some(3));
}
