//! The valid module that bytes spell.
ghost use Rattle.std.specs.Prelude.{◌≡◌, Ok, IfOk, IfErr};
ghost use Rattle.wasm_syntax.specs.FirstBroken.{first_broken};
ghost use Rattle.binary_run.specs.Calls.{module_in};
ghost use Rattle.binary_call.specs.Calls as forms;
ghost use Rattle.binary_call.specs.Calls.{IsDue};

use crate::faults::CallFault;
use std::alloc::Global;
use wasm_binary::read_module;
use wasm_module::{Module, ModuleFault};
use wasm_syntax::ModuleDecl;
use wasm_types::EngineId;

/// The engine of the module.
const ENGINE: EngineId = EngineId(1);

/// The number of the module.
const NUMBER: u64 = 0;

/// How many bytes a module may have.
const MOST_BYTES: usize = 16_777_216;

/// The module of a declaration.
fn unbroken(alloc: Global, decl: ModuleDecl) -> Result<Module, CallFault>
    ensures made { IfOk result (λ made. forms.unbroken decl (first_broken decl) ≡ Ok made) }
    ensures fault { IfErr result (λ fault. IsDue (forms.unbroken decl (first_broken decl)) fault) }
{
    match Module::validate(alloc, decl) {
        Ok(module) => Ok(module),
        Err(ModuleFault::InvalidModule { rule, place }) => {
            Err(CallFault::InvalidModule { rule, place })
        }
        Err(ModuleFault::OutOfMemory) => Err(CallFault::OutOfMemory),
    }
}

fn valid(alloc: Global, bytes: &[u8]) -> Result<Module, CallFault>
    ensures made { IfOk result (λ made. forms.valid (module_in bytes.now) ≡ Ok made) }
    ensures fault { IfErr result (λ fault. IsDue (forms.valid (module_in bytes.now)) fault) }
{
    match read_module(alloc, ENGINE, NUMBER, bytes) {
        Ok(decl) => unbroken(alloc, decl),
        Err(fault) => Err(CallFault::from(fault)),
    }
}

/// The valid module that bytes spell.
pub(crate) fn guest_in(alloc: Global, bytes: &[u8]) -> Result<Module, CallFault>
    ensures made { IfOk result (λ made. forms.guest_in bytes.now ≡ Ok made) }
    ensures fault { IfErr result (λ fault. IsDue (forms.guest_in bytes.now) fault) }
{
    if bytes.len() > MOST_BYTES {
        return Err(CallFault::TooLong);
    }
    valid(alloc, bytes)
}
