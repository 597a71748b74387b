mod calls;
mod defining;
mod instantiating;
mod notes;

use std::alloc::Global as Heap;
use std::fmt::Debug;
use std::process::Abort;
use wasm_embedding::{ENGINE, module_from_json};
use wasm_linker::{LinkFault, Linker};
use wasm_module::Module;
use wasm_store::{Engine, Store};
use wasm_types::{FuncType, ValType};
use wasm_values::{Extern, Func, Instance, StoreIds};

/// The stores of these tests.
type TestStore = Store<()>;

/// What a call on a linker answers.
type Answer<A> = Result<A, LinkFault>;

/// A function that hands a number to the one that it imports.
const HELLO: &str =
    r#"{"types":[{"params":["i32"]},{}],"module":{"imports":[{"module":"host","name":"host_func","func":0}],"functions":[{"type":1,"code":[["i32.const",3],["call",0]]}],"exports":[{"name":"hello","func":1}]}}"#;

/// Two functions of one number each, `f` and `g`.
const ONE_TWO: &str =
    r#"{"types":[{"results":["i32"]}],"module":{"functions":[{"type":0,"code":[["i32.const",1]]},{"type":0,"code":[["i32.const",2]]}],"exports":[{"name":"f","func":0},{"name":"g","func":1}]}}"#;

/// The same of other numbers.
const THREE_FOUR: &str =
    r#"{"types":[{"results":["i32"]}],"module":{"functions":[{"type":0,"code":[["i32.const",3]]},{"type":0,"code":[["i32.const",4]]}],"exports":[{"name":"f","func":0},{"name":"g","func":1}]}}"#;

/// A function of one number, `h`.
const FIVE: &str =
    r#"{"types":[{"results":["i32"]}],"module":{"functions":[{"type":0,"code":[["i32.const",5]]}],"exports":[{"name":"h","func":0}]}}"#;

/// The number that its three imports give as digits: the last export of two, the first, and the last once more.
const DIGITS: &str =
    r#"{"types":[{"results":["i32"]}],"module":{"imports":[{"module":"env","name":"g","func":0},{"module":"env","name":"f","func":0},{"module":"env","name":"g","func":0}],"functions":[{"type":0,"code":[["call",0],["i32.const",10],["i32.mul"],["call",1],["i32.add"],["i32.const",10],["i32.mul"],["call",2],["i32.add"]]}],"exports":[{"name":"run","func":3}]}}"#;

/// What two names of one space give, from two instances.
const BOTH: &str =
    r#"{"types":[{"results":["i32"]}],"module":{"imports":[{"module":"env","name":"h","func":0},{"module":"env","name":"f","func":0}],"functions":[{"type":0,"code":[["call",0],["i32.const",10],["i32.mul"],["call",1],["i32.add"]]}],"exports":[{"name":"run","func":2}]}}"#;

/// What a function of empty names gives.
const NAMELESS: &str =
    r#"{"types":[{"results":["i32"]}],"module":{"imports":[{"module":"","name":"","func":0}],"functions":[{"type":0,"code":[["call",0]]}],"exports":[{"name":"run","func":1}]}}"#;

/// A store without objects, lent for good: each test runs in a process of its own.
fn new_store<'a>(rt: &impl Abort, alloc: Heap, ids: &mut StoreIds) -> &'a mut TestStore {
    let engine = Engine::new(ENGINE, false, false, 1_024, 1_000_000).expect(rt, "an engine");
    match Store::try_new(alloc, ids, engine, ()) {
        Ok(store) => lent(rt, alloc, store),
        Err(_) => panic!(rt; "there is no id"),
    }
}

fn lent<'a>(rt: &impl Abort, alloc: Heap, store: TestStore) -> &'a mut TestStore {
    match Box::new(alloc, store) {
        Ok(store) => Box::leak(store),
        Err(_) => panic!(rt; "there is no memory"),
    }
}

fn valid(rt: &impl Abort, alloc: Heap, text: &str) -> Module {
    match module_from_json(alloc, 0, text) {
        Ok(module) => module,
        Err(_) => panic!(rt; "a module that is not valid"),
    }
}

/// A new instance of a module that imports what the linker has, with a host without functions.
fn instance_of(
    rt: &impl Abort,
    alloc: Heap,
    linker: &Linker,
    store: &mut TestStore,
    text: &str,
) -> Instance {
    done(
        rt,
        calls::instantiate_alone(linker, store, &valid(rt, alloc, text)),
    )
}

/// A function of the host that takes a number, by the body 0.
fn host_function(rt: &impl Abort, alloc: Heap, store: &mut TestStore) -> Func {
    let Ok(ty) = FuncType::try_new(alloc, ENGINE, &[ValType::I32], &[]) else {
        panic!(rt; "a type");
    };
    match calls::func_new(store, ty) {
        Ok(func) => func,
        Err(_) => panic!(rt; "a function"),
    }
}

/// The function that the pair of names means.
fn function_named(rt: &impl Abort, linker: &Linker, module: &str, name: &str) -> Func {
    match calls::get(linker, module, name) {
        Some(Extern::Func(func)) => func,
        _ => panic!(rt; "no function of these names"),
    }
}

/// What was got is what was expected.
fn check_same<A: PartialEq + Debug + Drop>(rt: &impl Abort, got: A, expected: A) {
    assert_eq!(rt; got, expected);
}

/// A call was not refused.
fn done<A: Drop>(rt: &impl Abort, got: Answer<A>) -> A {
    got.expect(rt, "the call is not refused")
}
