ghost use Rattle.std.specs.Prelude.{◌≡◌, None, IfOk, IfErr, OnOk};
ghost use Rattle.wasm_run.specs.ModuleFaults.{first_invalid, IsFaultOf};

use crate::status::Status;
use std::alloc::Global;
use wasm_module::{Module, ModuleFault};
use wasm_syntax::ModuleDecl;
use wasm_types::Items;

/// Validates modules in order: the modules of these declarations.
///
/// `InvalidModule` exactly where one breaks a rule, want of memory aside: it names the first such module. `OutOfMemory`
/// where memory ran out.
pub fn validate_all(alloc: Global, decls: Items<ModuleDecl>) -> Result<Vec<Module>, Status>
    ensures made { IfOk result (λ made. made.items ≡ decls) }
    ensures valid { OnOk result (first_invalid 0 decls ≡ None) }
    ensures fault { IfErr result (λ status. IsFaultOf decls status) }
{
    let mut modules = Vec::new(alloc);
    for decl in decls.into_vec() {
        let made = match Module::validate(alloc, decl) {
            Ok(made) => made,
            Err(ModuleFault::InvalidModule { rule, place }) => {
                return Err(Status::InvalidModule {
                    module: modules.len(),
                    rule,
                    place,
                });
            }
            Err(ModuleFault::OutOfMemory) => return Err(Status::OutOfMemory),
        };
        let Ok(()) = modules.push(made) else {
            return Err(Status::OutOfMemory);
        };
    }
    Ok(modules)
}
