ghost use Rattle.std.specs.Prelude.{◌≡◌, map, IfOk};
ghost use Rattle.binary_call.specs.Arguments as forms;
ghost use Rattle.binary_call.specs.Calls.{operands_of};

use spec_machine::Operand;
use std::alloc::Global;
use wasm_types::{OutOfMemory, ValType};
use wasm_values::Val;

/// The least type of a value; `None` exactly for a reference that is not null.
fn type_of(value: Val) -> Option<ValType>
    ensures { result ≡ forms.type_of value }
{
    match value {
        Val::I32(_) => Some(ValType::I32),
        Val::I64(_) => Some(ValType::I64),
        Val::F32(_) => Some(ValType::F32),
        Val::F64(_) => Some(ValType::F64),
        Val::V128(_) => Some(ValType::V128),
        Val::FuncRef(None) => Some(ValType::nullfuncref()),
        Val::ExternRef(None) => Some(ValType::nullexternref()),
        Val::AnyRef(None) => Some(ValType::nullref()),
        Val::FuncRef(Some(_)) | Val::ExternRef(Some(_)) | Val::AnyRef(Some(_)) => None,
    }
}

fn fits(ty: &ValType, value: Val) -> bool
    ensures { result ≡ forms.is_below (forms.type_of value) ty.now }
{
    match type_of(value) {
        Some(least) => least.matches(ty),
        None => false,
    }
}

/// Whether there is one value for each type, which may stand where it is wanted.
pub(crate) fn all_fit(types: &[ValType], values: &[Val]) -> bool
    ensures { result ≡ forms.all_fit types.now values.now }
{
    let mut params = types;
    let mut rest = values;
    'params: while let [ty, other_params @ ..] = params {
        let [value, others @ ..] = rest else {
            return false;
        };
        if !fits(ty, *value) {
            return false;
        }
        params = other_params;
        rest = others;
    }
    rest.is_empty()
}

/// The values as a command is given them.
pub(crate) fn operands_of(alloc: Global, values: &[Val]) -> Result<Vec<Operand>, OutOfMemory>
    ensures { IfOk result (λ operands. operands.items ≡ operands_of values.now) }
{
    let mut operands = Vec::with_capacity(alloc, values.len())?;
    for value in values {
        operands.push(Operand::Val(*value))?;
    }
    Ok(operands)
}
