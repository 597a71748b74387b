//! Calls of guests, and what is certain of each: the bytes of a guest's memories change in its own calls alone.
ghost use Rattle.std.specs.Prelude.{◌≡◌, ℕ, Some, slice_get};
ghost use Rattle.example_plugins.specs.Bytes.{KeepsBytes, OthersKeep};

use crate::board::{Guests, Kept};
use wasm_embedding::{
    CountEpochs, Extern, HostBody, InstanceCalls, Memory, MemoryCalls, Module, PluginFault, Shown,
    Val,
};

/// What each call may consume.
const FUEL: u64 = 35_000;

/// Loads a guest. The memories of each that was there are byte for byte as they were.
pub(crate) fn load<H: HostBody<Kept>>(
    plugins: &mut Guests,
    host: &mut Shown<H>,
    source: &Module,
    imports: &[Extern],
) -> Result<usize, PluginFault>
    requires ready { H.ready host.old.inner }
    ensures ready { H.ready host.new.inner }
    ensures kept { (i g : ℕ) → slice_get plugins.old.guests i ≡ Some g →
        KeepsBytes plugins.old.store.machine plugins.new.store.machine g }
{
    plugins.load(source, imports, host, &mut CountEpochs::new())
}

/// Fills the fuel for one call, whoever's it is.
fn fill(plugins: &mut Guests) -> Result<(), PluginFault>
    ensures { (own : ℕ) → OthersKeep plugins.old plugins.new own }
{
    match plugins.set_fuel(FUEL) {
        Ok(()) => Ok(()),
        Err(why) => Err(PluginFault::Refused(why)),
    }
}

/// Calls a function that a guest exports, with fuel of its own. However it ends, the memories of each other guest are
/// byte for byte as they were.
fn call<H: HostBody<Kept>>(
    plugins: &mut Guests,
    host: &mut Shown<H>,
    guest: usize,
    name: &str,
    params: &[Val],
    results: &mut [Val],
) -> Result<(), PluginFault>
    requires ready { H.ready host.old.inner }
    ensures ready { H.ready host.new.inner }
    ensures others { OthersKeep plugins.old plugins.new guest }
{
    fill(plugins)?;
    plugins.call(guest, name, host, &mut CountEpochs::new(), params, results)
}

/// Calls a function that gives nothing.
pub(crate) fn have<H: HostBody<Kept>>(
    plugins: &mut Guests,
    host: &mut Shown<H>,
    guest: usize,
    name: &str,
) -> Result<(), PluginFault>
    requires ready { H.ready host.old.inner }
    ensures ready { H.ready host.new.inner }
    ensures others { OthersKeep plugins.old plugins.new guest }
{
    call(plugins, host, guest, name, &[], &mut [])
}

/// The number that a function gives.
pub(crate) fn number_from<H: HostBody<Kept>>(
    plugins: &mut Guests,
    host: &mut Shown<H>,
    guest: usize,
    name: &str,
    params: &[Val],
) -> Result<Option<i32>, PluginFault>
    requires ready { H.ready host.old.inner }
    ensures ready { H.ready host.new.inner }
    ensures others { OthersKeep plugins.old plugins.new guest }
{
    let mut results = [Val::I32(0)];
    call(plugins, host, guest, name, params, &mut results)?;
    Ok(results[0].i32())
}

/// The function that a function without parameters gives.
pub(crate) fn function_from<H: HostBody<Kept>>(
    plugins: &mut Guests,
    host: &mut Shown<H>,
    guest: usize,
    name: &str,
) -> Result<Val, PluginFault>
    requires ready { H.ready host.old.inner }
    ensures ready { H.ready host.new.inner }
    ensures others { OthersKeep plugins.old plugins.new guest }
{
    let mut results = [Val::FuncRef(None)];
    call(plugins, host, guest, name, &[], &mut results)?;
    Ok(results[0])
}

/// The memory that a guest exports.
fn memory_of(plugins: &Guests, guest: usize) -> Option<Memory> {
    let instance = plugins.instance(guest)?;
    instance.get_memory(plugins.store(), "memory").ok()?
}

/// The first bytes of the memory that a guest exports.
pub(crate) fn bytes_of(plugins: &Guests, guest: usize) -> Option<[u8; 4]> {
    let memory = memory_of(plugins, guest)?;
    let mut bytes = [0; 4];
    memory.read(plugins.store(), 0, &mut bytes).ok()?;
    Some(bytes)
}
