ghost use Rattle.std.specs.Prelude.{◌≡◌, IfOk, string_bytes};
ghost use Rattle.binary_program.specs.Lines as forms;

use binary_types::BinaryFault;
use std::alloc::{AllocError, Global};
use wasm_syntax::ModuleDecl;

/// The line of a module: how many entries four of its lists have.
pub(crate) fn module_line(alloc: Global, declaration: &ModuleDecl) -> Result<String, AllocError>
    ensures { IfOk result (λ line. string_bytes line ≡ forms.module_line declaration.now) }
{
    let (types, imports) = (declaration.types.len(), declaration.imports.len());
    let (functions, exports) = (declaration.functions.len(), declaration.exports.len());
    format!(in alloc;
        "module types {types} imports {imports} functions {functions} exports {exports}\n"
    )
}

/// The line of a fault; want of memory has none.
pub(crate) fn fault_line(alloc: Global, fault: BinaryFault) -> Result<String, AllocError>
    ensures { IfOk result (λ line. string_bytes line ≡ forms.fault_line fault) }
{
    match fault {
        BinaryFault::Malformed => format!(in alloc; "malformed\n"),
        BinaryFault::Unsupported { at, code } => format!(in alloc; "unsupported {at} {code}\n"),
        BinaryFault::Index { at } => format!(in alloc; "index {at}\n"),
        BinaryFault::Alignment { at } => format!(in alloc; "alignment {at}\n"),
        BinaryFault::Refused { at, .. } => format!(in alloc; "refused {at}\n"),
        BinaryFault::OutOfMemory => Ok(String::new(alloc)),
    }
}
