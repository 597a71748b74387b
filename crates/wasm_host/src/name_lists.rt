ghost use Rattle.std.specs.Prelude.{◌≡◌, IfOk, option_map};
ghost use Rattle.spec_machine.specs.Names as names;
ghost use Rattle.wasm_host.specs.Scopes.{scope_of};

use crate::names::{Scope, named_object, operand_value};
use spec_machine::{Name, Operand};
use std::alloc::Global;
use wasm_types::OutOfMemory;
use wasm_values::{Extern, Val};

/// The objects that names stand for, where each gives one.
pub fn named_objects(
    alloc: Global,
    scope: &Scope<'_>,
    stored: &[Name],
) -> Result<Option<Vec<Extern>>, OutOfMemory>
    ensures { IfOk result (λ found.
        option_map (λ list. list.items) found ≡ names.named_objects (scope_of scope.now) stored.now) }
{
    let mut found = Vec::new(alloc);
    for name in stored {
        let Some(object) = named_object(scope, *name) else {
            return Ok(None);
        };
        found.push(object)?;
    }
    Ok(Some(found))
}

/// The values that operands give, where each gives one.
pub fn operand_values(
    alloc: Global,
    scope: &Scope<'_>,
    args: &[Operand],
) -> Result<Option<Vec<Val>>, OutOfMemory>
    ensures { IfOk result (λ found.
        option_map (λ list. list.items) found ≡ names.operand_values (scope_of scope.now) args.now) }
{
    let mut found = Vec::new(alloc);
    for arg in args {
        let Some(val) = operand_value(scope, arg) else {
            return Ok(None);
        };
        found.push(val)?;
    }
    Ok(Some(found))
}
