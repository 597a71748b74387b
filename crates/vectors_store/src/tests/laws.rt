//! That a host can use the laws: each function here promises what follows from the laws of the calls that it makes, and
//! from nothing else.
ghost use Rattle.std.specs.Prelude.{◌≡◌, ◌+◌, Ok, IfOk};
ghost use Rattle.spec_machine.specs.MemoryCalls.{memory_size};
ghost use Rattle.law_store.specs.Laws.{KeepsObjects};

use crate::tests::{Answer, calls, check_same, done, new_store, types};
use std::process::Abort;
use wasm_meter::{CallHooks, DeadlineBehaviour, HostData};
use wasm_store::laws::{law_calls_keep_objects, law_growths, law_growths_keep_objects};
use wasm_store::{MemoryCalls, Store};
use wasm_values::Memory;

/// Grows a memory, and knows its size before and after.
fn grow<T: HostData, K: CallHooks<T>, B: DeadlineBehaviour<T>>(
    store: &mut Store<T, K, B>,
    memory: &Memory,
    delta: u64,
) -> Answer<u64>
    ensures before { IfOk result (λ pages. memory_size store.old.machine memory.now ≡ Ok pages) }
    ensures after { IfOk result (λ pages. memory_size store.new.machine memory.now ≡ Ok (pages + delta)) }
    ensures kept { KeepsObjects store.old.machine store.new.machine }
{
    store.keeps_well_formed();
    law_growths::<T>();
    law_growths_keep_objects::<T>();
    memory.grow(store, delta)
}

/// Writes into a memory, and knows that every object stays.
fn write<T: HostData, K: CallHooks<T>, B: DeadlineBehaviour<T>>(
    store: &mut Store<T, K, B>,
    memory: &Memory,
    bytes: &[u8],
) -> Answer<()>
    ensures kept { KeepsObjects store.old.machine store.new.machine }
{
    law_calls_keep_objects();
    memory.write(store, 0, bytes)
}

#[test]
fn a_host_knows_what_a_growth_and_a_write_keep(rt: HostRuntime) {
    let store = new_store(&rt, rt.alloc());
    let memory = done(
        &rt,
        calls::memory_new(store, types::memory(&rt, (1, Some(3)), 16)),
    );
    check_same(&rt, grow(store, &memory, 2), Ok(1));
    check_same(&rt, write(store, &memory, &[7, 8]), Ok(()));
    check_same(&rt, memory.size(store), Ok(3));
}
