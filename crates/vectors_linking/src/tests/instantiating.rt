//! Modules over what their imports name.
use crate::tests::notes::Notes;
use crate::tests::{
    BOTH, DIGITS, FIVE, HELLO, NAMELESS, ONE_TWO, TestStore, calls, check_same, done,
    function_named, host_function, instance_of, new_store, valid,
};
use std::alloc::Global as Heap;
use std::process::Abort;
use wasm_linker::{LinkFault, Linker};
use wasm_module::Module;
use wasm_values::{Func, Instance, Refusal, StoreIds};

fn note(rt: &impl Abort, notes: &Notes, place: usize, expected: &str) {
    match notes.taken.get(place) {
        Some(text) => assert_eq!(rt; text.as_str(), expected),
        None => panic!(rt; "no such note"),
    }
}

fn exported(rt: &impl Abort, store: &TestStore, instance: Instance, name: &str) -> Func {
    calls::export(store, instance, name).expect(rt, "a function")
}

/// A linker in which the host's function has its names.
fn linker_with_host(rt: &impl Abort, alloc: Heap, store: &mut TestStore) -> Linker {
    let func = host_function(rt, alloc, store);
    let mut linker = Linker::new(alloc);
    done(
        rt,
        calls::define(&mut linker, store, "host", "host_func", func),
    );
    linker
}

/// What the linker answers of a module, but for an instance.
fn check_unlinked(rt: &impl Abort, linker: &Linker, store: &TestStore, module: &Module) {
    let resolved = calls::resolve(linker, module);
    check_same(rt, resolved.err(), Some(LinkFault::UnknownImport(0)));
    let prepared = calls::prepare(linker, store, module);
    check_same(rt, prepared.err(), Some(LinkFault::UnknownImport(0)));
}

#[test]
fn a_guest_calls_the_host_by_names(rt: HostRuntime) {
    let alloc = rt.alloc();
    let store = new_store(&rt, alloc, &mut StoreIds::new());
    let hello = valid(&rt, alloc, HELLO);
    let mut notes = Notes {
        taken: Vec::new(alloc),
        state: 4,
    };
    let unlinked = calls::instantiate(&Linker::new(alloc), store, &mut notes, &hello);
    check_same(&rt, unlinked.err(), Some(LinkFault::UnknownImport(0)));
    check_unlinked(&rt, &Linker::new(alloc), store, &hello);
    let linker = linker_with_host(&rt, alloc, store);
    let instance = done(&rt, calls::instantiate(&linker, store, &mut notes, &hello));
    let func = exported(&rt, store, instance, "hello");
    check_same(&rt, calls::call(store, &mut notes, func), Ok(()));
    check_same(&rt, notes.taken.len(), 2);
    note(&rt, &notes, 0, "Got 3 from WebAssembly");
    note(&rt, &notes, 1, "my host state is: 4");
}

#[test]
fn an_instance_and_an_alias_mean_one_function(rt: HostRuntime) {
    let alloc = rt.alloc();
    let store = new_store(&rt, alloc, &mut StoreIds::new());
    let hello = valid(&rt, alloc, HELLO);
    let mut linker = linker_with_host(&rt, alloc, store);
    let resolved = done(&rt, calls::resolve(&linker, &hello));
    check_same(&rt, resolved.len(), 1);
    let prepared = calls::prepare(&linker, store, &hello);
    check_same(&rt, prepared.err(), None);
    let instance = done(&rt, calls::instantiate_alone(&linker, store, &hello));
    done(&rt, calls::instance(&mut linker, store, "p", instance));
    done(&rt, calls::alias(&mut linker, "p", "hello", "q", "hello"));
    let first = function_named(&rt, &linker, "p", "hello");
    assert!(rt; first == function_named(&rt, &linker, "q", "hello"));
    assert!(rt; first == exported(&rt, store, instance, "hello"));
}

/// What the function `run` of a new instance gives.
fn run_number(
    rt: &impl Abort,
    alloc: Heap,
    linker: &Linker,
    store: &mut TestStore,
    text: &str,
) -> Option<i32> {
    let instance = instance_of(rt, alloc, linker, store, text);
    let func = exported(rt, store, instance, "run");
    calls::number(store, func)
}

#[test]
fn imports_come_in_their_own_order(rt: HostRuntime) {
    let alloc = rt.alloc();
    let store = new_store(&rt, alloc, &mut StoreIds::new());
    let mut linker = Linker::new(alloc);
    let first = instance_of(&rt, alloc, &linker, store, ONE_TWO);
    let second = instance_of(&rt, alloc, &linker, store, FIVE);
    done(&rt, calls::instance(&mut linker, store, "env", first));
    done(&rt, calls::instance(&mut linker, store, "env", second));
    check_same(
        &rt,
        run_number(&rt, alloc, &linker, store, DIGITS),
        Some(212),
    );
    check_same(&rt, run_number(&rt, alloc, &linker, store, BOTH), Some(51));
    done(&rt, calls::alias(&mut linker, "env", "h", "", ""));
    check_same(
        &rt,
        run_number(&rt, alloc, &linker, store, NAMELESS),
        Some(5),
    );
}

#[test]
fn the_first_unknown_import_is_named_before_all_else(rt: HostRuntime) {
    let alloc = rt.alloc();
    let mut ids = StoreIds::new();
    let store = new_store(&rt, alloc, &mut ids);
    let other = new_store(&rt, alloc, &mut ids);
    let mut linker = Linker::new(alloc);
    let func = host_function(&rt, alloc, other);
    done(&rt, calls::define(&mut linker, other, "env", "g", func));
    let digits = valid(&rt, alloc, DIGITS);
    let unknown = calls::instantiate_alone(&linker, store, &digits);
    check_same(&rt, unknown.err(), Some(LinkFault::UnknownImport(1)));
    done(&rt, calls::alias(&mut linker, "env", "g", "env", "f"));
    let refused = calls::instantiate_alone(&linker, store, &digits);
    check_same(
        &rt,
        refused.err(),
        Some(LinkFault::Refused(Refusal::WrongStore)),
    );
}
