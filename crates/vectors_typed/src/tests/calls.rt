//! The calls by static types as tests make them: each passes on a few calls, and says nothing of them. So a test is about
//! what it compares, and its proof carries no clause of the calls that it makes.
ghost use Rattle.wasm_meter.specs.Counting.{NoneFell};
ghost use Rattle.wasm_typed.specs.Wraps.{KeepsCounts};

use crate::tests::{Answer, TestStore};
use typed_closures::{WasmRet, WasmTyList};
use typed_values::{WasmParams, WasmResults, WasmTy};
use wasm_call::{HostBody, NoHost};
use wasm_instance::InstanceCalls;
use wasm_meter::{CountEpochs, HostData};
use wasm_module::Module;
use wasm_store::{FuncCalls, Store};
use wasm_typed::{FuncTyped, InstanceTyped, TypedFunc, Wrap};
use wasm_types::{FuncType, OutOfMemory};
use wasm_values::{Extern, Func, Instance, Refusal};

pub fn instance_new(
    store: &mut TestStore,
    module: &Module,
    imports: &[Extern],
) -> Answer<Instance> {
    Instance::new(store, module, imports, &mut NoHost, &mut CountEpochs::new())
}

pub fn export(store: &TestStore, instance: Instance, name: &str) -> Answer<Option<Func>> {
    instance.get_func(store, name)
}

pub fn typed_export<P: WasmParams, R: WasmResults>(
    store: &TestStore,
    instance: Instance,
    name: &str,
) -> Answer<TypedFunc<P, R>> {
    instance.get_typed_func::<P, R>(store, name)
}

pub fn typed<P: WasmParams, R: WasmResults>(
    store: &TestStore,
    func: Func,
) -> Answer<TypedFunc<P, R>> {
    func.typed::<P, R>(store)
}

/// Why a function has not these types.
pub fn misfit<P: WasmParams, R: WasmResults>(store: &TestStore, func: Func) -> Option<Refusal> {
    func.typed::<P, R>(store).err()
}

/// Why an export is no function of these types.
pub fn no_export<P: WasmParams, R: WasmResults>(
    store: &TestStore,
    instance: Instance,
    name: &str,
) -> Option<Refusal> {
    instance.get_typed_func::<P, R>(store, name).err()
}

pub fn copy<P: WasmParams, R: WasmResults>(
    func: &TypedFunc<P, R>,
) -> Result<TypedFunc<P, R>, OutOfMemory> {
    func.clone()
}

pub fn handle<P: WasmParams, R: WasmResults>(func: &TypedFunc<P, R>) -> Func {
    *func.func()
}

/// A function of a guest.
pub fn call<P: WasmParams, R: WasmResults>(
    store: &mut TestStore,
    func: &TypedFunc<P, R>,
    params: P,
) -> Answer<R> {
    func.call(store, &mut NoHost, &mut CountEpochs::new(), params)
}

/// A function of a host with bodies, by static types.
pub fn hosted_call<H: HostBody<()>, P: WasmParams, R: WasmResults>(
    store: &mut TestStore,
    host: &mut H,
    func: Func,
    params: P,
) -> Answer<R>
    requires { H.ready host.old }
{
    let func = func.typed::<P, R>(store)?;
    func.call(store, host, &mut CountEpochs::new(), params)
}

pub fn wrap<P: WasmTyList, R: WasmRet>(store: &mut TestStore, body: usize) -> Answer<Func> {
    Func::try_wrap::<P, R>(store, body)
}

pub fn func_type(store: &TestStore, func: Func) -> Answer<FuncType> {
    func.ty(store)
}

/// What a closure gives as a function of the host.
pub fn through<
    T: HostData,
    F: Fn(&mut T, P) -> R + Drop,
    P: WasmTyList,
    R: WasmRet,
    A: WasmParams,
    B: WasmResults,
>(store: &mut Store<T>, closure: F, params: A) -> Answer<B>
    requires callable { F.IsAlwaysCallable closure }
    requires keeps { KeepsCounts (NoneFell T.denials T.limiter_faults T.hook_faults T.behaviour_faults)
        (λ x p r y. F.post closure x p r y) }
{
    let func = Func::try_wrap::<P, R>(store, 0)?.typed::<A, B>(store)?;
    func.call(
        store,
        &mut Wrap::new(closure),
        &mut CountEpochs::new(),
        params,
    )
}

/// What a closure gives that gives what it takes.
pub fn echo<P: WasmTyList + WasmRet + WasmParams + WasmResults>(
    store: &mut TestStore,
    params: P,
) -> Answer<P> {
    through(store, |_data: &mut (), params: P| -> P { params }, params)
}

/// The same, of a single type.
pub fn echo_one<A: WasmTy + WasmRet + WasmParams + WasmResults>(
    store: &mut TestStore,
    param: A,
) -> Answer<A> {
    through(store, |_data: &mut (), one: (A,)| -> A { one.0 }, param)
}
