ghost use Rattle.wasm_embedding.specs.Bytes.{module_in_bytes};
ghost use Rattle.wasm_embedding.specs.HostFaults.{Answers};

use crate::faults::Fault;
use std::alloc::Global;
use wasm_binary::read_module;
use wasm_module::Module;
use wasm_types::EngineId;

/// The module that the bytes spell in WebAssembly's binary format, of this engine and with this number, which the host
/// chooses.
///
/// `Unreadable` of the first fault of the bytes, exactly where they spell no module; then `Invalid` exactly where the module
/// breaks a rule. Memory may run out at any time, and does past 2^24 locals.
pub fn module_from_bytes(
    alloc: Global,
    engine: EngineId,
    number: u64,
    bytes: &[u8],
) -> Result<Module, Fault>
    ensures { Answers (module_in_bytes engine number bytes.now) result }
{
    let decl = read_module(alloc, engine, number, bytes)?;
    Ok(Module::validate(alloc, decl)?)
}
