//! What imports lead to that a guest reaches, and what guests may have in common.
use crate::tests::modules::{
    ENDLESS, HAS_ALL, HOLDS, OVER_BOTH, OVER_CONSTANT, OVER_FUNCTION, OVER_HELD, OVER_MEMORY,
    OVER_VARIABLE,
};
use crate::tests::{
    Answer, TestStore, calls, check_same, exported, first_byte, guests_in, host_function,
    memory_of, new_store, no_guests, plain_function, valid,
};
use std::process::Abort;
use wasm_plugins::{Node, PluginFault};
use wasm_types::{GlobalType, MemoryType, Mutability, ValType};
use wasm_values::{Extern, Global, Memory, Refusal, StoreIds, Trap, Val};

/// The imports lead to this object, which this guest reaches.
fn meets(guest: usize, node: Node) -> Answer<usize> {
    Err(PluginFault::Meets { guest, node })
}

fn global_of(rt: &impl Abort, store: &mut TestStore, mutability: Mutability) -> Global {
    match calls::global_new(
        store,
        GlobalType::new(ValType::I32, mutability),
        Val::I32(7),
    ) {
        Ok(global) => global,
        Err(_) => panic!(rt; "a global"),
    }
}

fn memory_in(rt: &impl Abort, store: &mut TestStore) -> Memory {
    let Ok(ty) = MemoryType::new(1, None, 16) else {
        panic!(rt; "a type");
    };
    match calls::memory_new(store, ty) {
        Ok(memory) => memory,
        Err(_) => panic!(rt; "a memory"),
    }
}

#[test]
fn one_guest_runs_into_its_end_and_the_other_is_untouched(rt: HostRuntime) {
    let alloc = rt.alloc();
    let plugins = no_guests(&rt, alloc);
    let endless = valid(&rt, alloc, ENDLESS);
    check_same(&rt, calls::load(plugins, &endless, &[]), Ok(0));
    check_same(&rt, calls::load(plugins, &endless, &[]), Ok(1));
    check_same(
        &rt,
        calls::call(plugins, 0, "f", &[], &mut []),
        Err(PluginFault::Refused(Refusal::Trap(Trap::StackOverflow))),
    );
    check_same(&rt, first_byte(&rt, plugins, 0), 255);
    check_same(&rt, first_byte(&rt, plugins, 1), 0);
    let Ok(set) = calls::reach(alloc, plugins.store(), &[Node::Instance(0)]) else {
        panic!(rt; "there is no memory");
    };
    check_same(&rt, set.contains(Node::Memory(0)), true);
    check_same(&rt, set.contains(Node::Memory(1)), false);
    // Its instance, its function and its memory.
    check_same(&rt, set.member(2).is_some(), true);
    check_same(&rt, set.member(3), None);
}

#[test]
fn the_first_guest_and_the_first_object_are_named(rt: HostRuntime) {
    let alloc = rt.alloc();
    let plugins = no_guests(&rt, alloc);
    let endless = valid(&rt, alloc, ENDLESS);
    let over_memory = valid(&rt, alloc, OVER_MEMORY);
    let over_function = valid(&rt, alloc, OVER_FUNCTION);
    let over_both = valid(&rt, alloc, OVER_BOTH);
    check_same(&rt, calls::load(plugins, &endless, &[]), Ok(0));
    check_same(&rt, calls::load(plugins, &endless, &[]), Ok(1));
    let memory = Extern::Memory(memory_of(&rt, plugins, 0));
    let own = exported(&rt, plugins, 0, "f");
    let other = exported(&rt, plugins, 1, "f");
    check_same(
        &rt,
        calls::load(plugins, &over_memory, &[memory]),
        meets(0, Node::Memory(0)),
    );
    check_same(
        &rt,
        calls::load(plugins, &over_function, &[other]),
        meets(1, Node::Instance(1)),
    );
    check_same(
        &rt,
        calls::load(plugins, &over_both, &[own, memory]),
        meets(0, Node::Instance(0)),
    );
    check_same(
        &rt,
        calls::load(plugins, &over_both, &[other, memory]),
        meets(0, Node::Memory(0)),
    );
    check_same(&rt, plugins.guest_count(), 2);
}

#[test]
fn memories_are_named_first_then_tables_then_globals(rt: HostRuntime) {
    let alloc = rt.alloc();
    let plugins = no_guests(&rt, alloc);
    let module = valid(&rt, alloc, HAS_ALL);
    check_same(&rt, calls::load(plugins, &module, &[]), Ok(0));
    let first = exported(&rt, plugins, 0, "m");
    let second = exported(&rt, plugins, 0, "n");
    let table = exported(&rt, plugins, 0, "t");
    let global = exported(&rt, plugins, 0, "g");
    // The module imports nothing, which is told after what the imports lead to.
    check_same(
        &rt,
        calls::load(plugins, &module, &[global, table, second, first]),
        meets(0, Node::Memory(0)),
    );
    check_same(
        &rt,
        calls::load(plugins, &module, &[global, table, second]),
        meets(0, Node::Memory(1)),
    );
    check_same(
        &rt,
        calls::load(plugins, &module, &[global, table]),
        meets(0, Node::Table(0)),
    );
    check_same(
        &rt,
        calls::load(plugins, &module, &[global]),
        meets(0, Node::Global(0)),
    );
}

#[test]
fn guests_have_a_function_of_the_host_in_common(rt: HostRuntime) {
    let alloc = rt.alloc();
    let mut store = new_store(&rt, alloc, &mut StoreIds::new());
    let func = [Extern::Func(plain_function(&rt, alloc, &mut store))];
    let plugins = guests_in(&rt, alloc, store);
    let module = valid(&rt, alloc, OVER_FUNCTION);
    check_same(&rt, calls::load(plugins, &module, &func), Ok(0));
    check_same(&rt, calls::load(plugins, &module, &func), Ok(1));
    check_same(&rt, calls::call(plugins, 1, "f", &[], &mut []), Ok(()));
}

#[test]
fn a_function_of_the_host_leads_to_what_is_stored_with_it(rt: HostRuntime) {
    let alloc = rt.alloc();
    let mut store = new_store(&rt, alloc, &mut StoreIds::new());
    let stored = [Extern::Memory(memory_in(&rt, &mut store))];
    let func = [Extern::Func(host_function(&rt, alloc, &mut store, 0, &[], &[], &stored))];
    let plugins = guests_in(&rt, alloc, store);
    let module = valid(&rt, alloc, OVER_FUNCTION);
    check_same(&rt, calls::load(plugins, &module, &func), Ok(0));
    check_same(
        &rt,
        calls::load(plugins, &module, &func),
        meets(0, Node::Memory(0)),
    );
}

#[test]
fn constant_globals_may_be_common_and_variable_ones_not(rt: HostRuntime) {
    let alloc = rt.alloc();
    let mut store = new_store(&rt, alloc, &mut StoreIds::new());
    let constant = [Extern::Global(global_of(&rt, &mut store, Mutability::Const))];
    let variable = [Extern::Global(global_of(&rt, &mut store, Mutability::Var))];
    let plugins = guests_in(&rt, alloc, store);
    let over_constant = valid(&rt, alloc, OVER_CONSTANT);
    let over_variable = valid(&rt, alloc, OVER_VARIABLE);
    check_same(&rt, calls::load(plugins, &over_constant, &constant), Ok(0));
    check_same(&rt, calls::load(plugins, &over_constant, &constant), Ok(1));
    check_same(&rt, calls::load(plugins, &over_variable, &variable), Ok(2));
    check_same(
        &rt,
        calls::load(plugins, &over_variable, &variable),
        meets(2, Node::Global(1)),
    );
    let holds = valid(&rt, alloc, HOLDS);
    check_same(&rt, calls::load(plugins, &holds, &[]), Ok(3));
    let held = [exported(&rt, plugins, 3, "g")];
    check_same(
        &rt,
        calls::load(plugins, &valid(&rt, alloc, OVER_HELD), &held),
        meets(3, Node::Instance(3)),
    );
}
