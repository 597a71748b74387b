ghost use Rattle.std.specs.Prelude.{true, ◌≢◌};
ghost use Rattle.binary_code.specs.BlockTypes as forms;
ghost use Rattle.binary_code.specs.BlockTypes.{ReadsIn};

use crate::code_types::{CodeTypes, block_key};
use crate::context::CodeContext;
use binary_types::{BinaryFault, byte, is_code, next_byte, signed_index, value_by};
use std::alloc::Global;
use wasm_leb::Cursor;
use wasm_types::ValType;

// The type of a block whose result is a reference type, behind the code that says whether it is nullable.
fn referenced(
    alloc: Global,
    context: CodeContext,
    at: usize,
    nullable: bool,
    types: &mut CodeTypes,
    input: &mut Cursor<'_>,
) -> Result<u32, BinaryFault>
    ensures { ReadsIn (forms.number_by_reference nullable context types.old at input.old) result types.new input.new }
{
    let mut key = block_key(alloc)?;
    let ty = types.reference(context.declared, nullable, &mut key, input)?;
    types.number_of(alloc, context, at, &[ValType::Ref(ty)], &key)
}

// The type of a block whose result is a value type of this code, behind which no heap type stands.
fn valued(
    alloc: Global,
    context: CodeContext,
    at: usize,
    code: u8,
    types: &mut CodeTypes,
    input: &mut Cursor<'_>,
) -> Result<u32, BinaryFault>
    requires nullable { code ≢ 0x63 }
    requires non_null { code ≢ 0x64 }
    ensures { ReadsIn (forms.number_by_value context types.old at code input.old) result types.new input.new }
{
    let ty = value_by(types.first(context.declared), at, code, input)?;
    types.plain_number(alloc, context, at, &[ty])
}

fn coded_type(
    alloc: Global,
    context: CodeContext,
    types: &mut CodeTypes,
    input: &mut Cursor<'_>,
) -> Result<u32, BinaryFault>
    ensures { ReadsIn (forms.block_if true context types.old input.old) result types.new input.new }
{
    let at = input.at();
    let code = byte(input)?;
    if code == 0x40 {
        return types.plain_number(alloc, context, at, &[]);
    }
    match code {
        0x63 => referenced(alloc, context, at, true, types, input),
        0x64 => referenced(alloc, context, at, false, types, input),
        _ => valued(alloc, context, at, code, types, input),
    }
}

/// The number of the type of a block, which is added where only a result is written and no type gives it.
pub(crate) fn block_type(
    alloc: Global,
    context: CodeContext,
    types: &mut CodeTypes,
    input: &mut Cursor<'_>,
) -> Result<u32, BinaryFault>
    ensures { ReadsIn (forms.block_type context types.old input.old) result types.new input.new }
{
    if is_code(next_byte(input)?) {
        coded_type(alloc, context, types, input)
    } else {
        signed_index(types.first(context.declared), input)
    }
}
