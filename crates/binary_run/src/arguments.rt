ghost use Rattle.std.specs.Prelude.{◌≡◌, map, string_bytes, IfOk, option_map};
ghost use Rattle.binary_run.specs.Calls as calls;

use crate::numbers::{integer_32, integer_64};
use spec_machine::Operand;
use std::alloc::Global;
use wasm_types::{OutOfMemory, ValType};
use wasm_values::Val;

fn argument(ty: &ValType, word: &str) -> Option<Operand>
    ensures { result ≡ calls.argument ty.now word.now }
{
    match ty {
        ValType::I32 => Some(Operand::Val(Val::I32(integer_32(word)?))),
        ValType::I64 => Some(Operand::Val(Val::I64(integer_64(word)?))),
        _ => None,
    }
}

/// The arguments that the words are by the types of the parameters, one for each; `None` exactly where they are none.
pub(crate) fn arguments(
    alloc: Global,
    types: &[ValType],
    words: &[String],
) -> Result<Option<Vec<Operand>>, OutOfMemory>
    ensures { IfOk result (λ read. option_map (λ operands. operands.items) read
        ≡ calls.arguments types.now (map string_bytes words.now)) }
{
    let mut operands = Vec::new(alloc);
    let mut params = types;
    let mut rest = words;
    'params: while let [ty, other_params @ ..] = params {
        let [word, other_words @ ..] = rest else {
            return Ok(None);
        };
        let Some(operand) = argument(ty, word.as_str()) else {
            return Ok(None);
        };
        operands.push(operand)?;
        params = other_params;
        rest = other_words;
    }
    if !rest.is_empty() {
        return Ok(None);
    }
    Ok(Some(operands))
}
