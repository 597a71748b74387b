//! Calls of functions by a host.
use crate::tests::modules::{TWICE, module_in, nested_module};
use crate::tests::{
    DONE, Meter, TestStore, calls, check_same, done, found, new_store, no_epochs, trapped,
};
use std::alloc::Global as Heap;
use std::process::Abort;
use wasm_module::Module;
use wasm_values::{Func, Trap, Val};

/// The function `f` of a new instance.
pub fn function(rt: &impl Abort, alloc: Heap, store: &mut TestStore, module: &Module) -> Func {
    let made = calls::instance_new(store, &mut no_epochs(rt, alloc), module);
    found(rt, calls::get_func(store, done(rt, made), "f"))
}

/// The number in a place for a result.
fn integer(rt: &impl Abort, value: Val) -> i32 {
    value.i32().expect(rt, "an integer")
}

#[test]
fn results_are_written_where_a_call_returns(rt: HostRuntime) {
    let store = new_store(&rt, rt.alloc(), Meter::Nothing);
    let func = function(&rt, rt.alloc(), store, &module_in(&rt, rt.alloc(), TWICE));
    let mut epochs = no_epochs(&rt, rt.alloc());
    let mut results = [Val::I32(8); 2];
    let answer = calls::func_call(store, &mut epochs, func, &[Val::I32(-5)], &mut results);
    check_same(&rt, answer, DONE);
    check_same(
        &rt,
        [integer(&rt, results[0]), integer(&rt, results[1])],
        [-5, -5],
    );
}

#[test]
fn blocks_and_calls_are_as_deep_as_the_engine_says(rt: HostRuntime) {
    let store = new_store(&rt, rt.alloc(), Meter::Nothing);
    let func = function(&rt, rt.alloc(), store, &nested_module(&rt, rt.alloc()));
    let mut epochs = no_epochs(&rt, rt.alloc());
    let answer = calls::func_call(store, &mut epochs, func, &[], &mut []);
    check_same(&rt, answer, trapped(Trap::StackOverflow));
    check_same(&rt, store.turns(), 262_144);
}
