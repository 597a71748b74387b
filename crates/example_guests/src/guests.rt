//! What the parts below do with a guest of a plain store. The plain engine reads no epochs, so that any source of them
//! will do, and these guests import no function of a host.

use wasm_embedding::{
    CountEpochs, Extern, Instance, InstanceCalls, Module, NoHost, Refusal, Store, TypedFunc,
    WasmParams, WasmResults,
};

/// A new instance of a module over these imports.
pub(crate) fn instance_of(
    store: &mut Store<()>,
    guest: &Module,
    imports: &[Extern],
) -> Result<Instance, Refusal> {
    Instance::new(store, guest, imports, &mut NoHost, &mut CountEpochs::new())
}

/// What a function gives for these arguments.
pub(crate) fn call<P: WasmParams, R: WasmResults>(
    store: &mut Store<()>,
    func: &TypedFunc<P, R>,
    params: P,
) -> Result<R, Refusal> {
    func.call(store, &mut NoHost, &mut CountEpochs::new(), params)
}
