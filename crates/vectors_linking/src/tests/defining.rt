//! What pairs of names mean.
use crate::tests::{
    ONE_TWO, THREE_FOUR, calls, check_same, done, function_named, host_function, instance_of,
    new_store,
};
use std::alloc::Global as Heap;
use std::process::Abort;
use wasm_linker::{LinkFault, Linker};
use wasm_values::{Func, Refusal, StoreIds};

#[test]
fn a_pair_is_defined_again_under_shadowing_alone(rt: HostRuntime) {
    let alloc = rt.alloc();
    let store = new_store(&rt, alloc, &mut StoreIds::new());
    let first = host_function(&rt, alloc, store);
    let second = host_function(&rt, alloc, store);
    let mut linker = Linker::new(alloc);
    done(&rt, calls::define(&mut linker, store, "host", "f", first));
    let again = calls::define(&mut linker, store, "host", "f", second);
    check_same(&rt, again, Err(LinkFault::AlreadyDefined));
    assert!(rt; function_named(&rt, &linker, "host", "f") == first);
    linker.allow_shadowing(true);
    done(&rt, calls::define(&mut linker, store, "host", "f", second));
    assert!(rt; function_named(&rt, &linker, "host", "f") == second);
}

#[test]
fn the_store_is_looked_at_before_the_names(rt: HostRuntime) {
    let alloc = rt.alloc();
    let mut ids = StoreIds::new();
    let store = new_store(&rt, alloc, &mut ids);
    let other = new_store(&rt, alloc, &mut ids);
    let func = host_function(&rt, alloc, store);
    let mut linker = Linker::new(alloc);
    done(&rt, calls::define(&mut linker, store, "", "", func));
    let refused = calls::define(&mut linker, other, "", "", func);
    check_same(&rt, refused, Err(LinkFault::Refused(Refusal::WrongStore)));
    let unknown = calls::alias(&mut linker, "", "f", "", "");
    check_same(&rt, unknown, Err(LinkFault::UnknownName));
    let itself = calls::alias(&mut linker, "", "", "", "");
    check_same(&rt, itself, Err(LinkFault::AlreadyDefined));
}

/// What the two names of an instance that is defined as `env` mean.
fn pair_of_functions(rt: &impl Abort, linker: &Linker) -> (Func, Func) {
    let f = function_named(rt, linker, "env", "f");
    (f, function_named(rt, linker, "env", "g"))
}

#[test]
fn an_instance_is_shadowed_whole_or_not_at_all(rt: HostRuntime) {
    let alloc = rt.alloc();
    let store = new_store(&rt, alloc, &mut StoreIds::new());
    let mut linker = Linker::new(alloc);
    let first = instance_of(&rt, alloc, &linker, store, ONE_TWO);
    let second = instance_of(&rt, alloc, &linker, store, THREE_FOUR);
    let own = host_function(&rt, alloc, store);
    done(&rt, calls::define(&mut linker, store, "env", "g", own));
    let refused = calls::instance(&mut linker, store, "env", first);
    check_same(&rt, refused, Err(LinkFault::AlreadyDefined));
    check_same(&rt, calls::get(&linker, "env", "f").is_none(), true);
    linker.allow_shadowing(true);
    done(&rt, calls::instance(&mut linker, store, "env", first));
    done(&rt, calls::instance(&mut linker, store, "env", second));
    let (f, g) = pair_of_functions(&rt, &linker);
    check_same(&rt, calls::number(store, f), Some(3));
    check_same(&rt, calls::number(store, g), Some(4));
}

/// Gives the function so many names, and asks for each.
fn define_many(rt: &impl Abort, alloc: Heap, linker: &mut Linker, func: Func, count: u32) -> u32 {
    let mut seen = 0u32;
    for number in 0..count {
        let name = format!(in alloc; "name {number}").expect(rt, "memory for a name");
        done(rt, calls::alias(linker, "env", "f", "env", name.as_str()));
        if function_named(rt, linker, "env", name.as_str()) == func {
            seen = seen.saturating_add(1);
        }
    }
    seen
}

#[test]
fn ten_thousand_names_are_defined(rt: HostRuntime) {
    let alloc = rt.alloc();
    let store = new_store(&rt, alloc, &mut StoreIds::new());
    let func = host_function(&rt, alloc, store);
    let mut linker = Linker::new(alloc);
    done(&rt, calls::define(&mut linker, store, "env", "f", func));
    let seen = define_many(&rt, alloc, &mut linker, func, 10_000);
    check_same(&rt, seen, 10_000);
}
