//! The calls on a linker and its store as tests make them: each passes on one call, and says nothing of it. So a test is
//! about what it compares, and its proof carries no clause of the calls that it makes.
use crate::tests::notes::Notes;
use crate::tests::{Answer, TestStore};
use wasm_call::{FuncRun, NoHost};
use wasm_instance::{InstanceCalls, InstancePre};
use wasm_linker::{ExternList, Linker};
use wasm_meter::CountEpochs;
use wasm_module::Module;
use wasm_store::FuncCalls;
use wasm_types::FuncType;
use wasm_values::{Extern, Func, Instance, Refusal, Val};

pub fn func_new(store: &mut TestStore, ty: FuncType) -> Result<Func, Refusal> {
    <Func as FuncCalls>::try_new(store, ty, 0, &[])
}

pub fn define(
    linker: &mut Linker,
    store: &TestStore,
    module: &str,
    name: &str,
    func: Func,
) -> Answer<()> {
    linker.define(store, module, name, Extern::Func(func))
}

pub fn alias(
    linker: &mut Linker,
    module: &str,
    name: &str,
    as_module: &str,
    as_name: &str,
) -> Answer<()> {
    linker.alias(module, name, as_module, as_name)
}

pub fn instance(
    linker: &mut Linker,
    store: &TestStore,
    module: &str,
    instance: Instance,
) -> Answer<()> {
    linker.instance(store, module, instance)
}

pub fn get(linker: &Linker, module: &str, name: &str) -> Option<Extern> {
    linker.get(module, name)
}

pub fn resolve(linker: &Linker, module: &Module) -> Answer<ExternList> {
    linker.resolve(module)
}

pub fn prepare(linker: &Linker, store: &TestStore, module: &Module) -> Answer<InstancePre<()>> {
    linker.instantiate_pre(store, module)
}

pub fn instantiate(
    linker: &Linker,
    store: &mut TestStore,
    host: &mut Notes,
    module: &Module,
) -> Answer<Instance> {
    linker.instantiate(store, module, host, &mut CountEpochs::new())
}

pub fn instantiate_alone(
    linker: &Linker,
    store: &mut TestStore,
    module: &Module,
) -> Answer<Instance> {
    linker.instantiate(store, module, &mut NoHost, &mut CountEpochs::new())
}

/// The function that an instance exports under a name.
pub fn export(store: &TestStore, instance: Instance, name: &str) -> Option<Func> {
    match instance.get_func(store, name) {
        Ok(found) => found,
        Err(_) => None,
    }
}

/// Calls a function without arguments and results.
pub fn call(store: &mut TestStore, host: &mut Notes, func: Func) -> Result<(), Refusal> {
    func.call(store, host, &mut CountEpochs::new(), &[], &mut [])
}

/// The number that a function without arguments gives.
pub fn number(store: &mut TestStore, func: Func) -> Option<i32> {
    let mut results = [Val::I32(0)];
    match func.call(
        store,
        &mut NoHost,
        &mut CountEpochs::new(),
        &[],
        &mut results,
    ) {
        Ok(()) => results[0].i32(),
        Err(_) => None,
    }
}
