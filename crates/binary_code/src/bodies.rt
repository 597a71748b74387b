ghost use Rattle.std.specs.Prelude.{◌≡◌, ◌≤◌, IfOk, length};
ghost use Rattle.binary_types.specs.Reading.{Reads};
ghost use Rattle.binary_code.specs.Bodies as forms;

use crate::code::code_of;
use crate::code_types::CodeTypes;
use crate::context::CodeContext;
use crate::locals::locals_of;
use binary_types::{BinaryFault, whole_32};
use std::alloc::Global;
use wasm_leb::Cursor;
use wasm_syntax::FuncDecl;

/// A function, and the types behind it.
#[derive(Drop)]
pub(crate) struct FuncBody {
    pub(crate) function: FuncDecl,
    pub(crate) types: CodeTypes,
}

fn body(
    alloc: Global,
    context: CodeContext,
    ty: u32,
    types: CodeTypes,
    room: usize,
    input: &mut Cursor<'_>,
) -> Result<FuncBody, BinaryFault>
    ensures read { Reads (forms.body context ty types input.old) result input.new }
    ensures room { IfOk result (λ b. length b.function.locals ≤ room) }
{
    let groups = whole_32(input)?;
    let locals = locals_of(alloc, types.first(context.declared), groups, room, input)?;
    let parts = code_of(alloc, context, ty, types, input)?;
    let function = FuncDecl {
        ty,
        locals,
        blocks: parts.blocks,
        targets: parts.targets,
    };
    Ok(FuncBody {
        function,
        types: parts.types,
    })
}

/// The body of a function of this type, behind its size. There is room for so many locals.
pub(crate) fn sized_body(
    alloc: Global,
    context: CodeContext,
    ty: u32,
    types: CodeTypes,
    room: usize,
    input: &mut Cursor<'_>,
) -> Result<FuncBody, BinaryFault>
    ensures read { Reads (forms.sized_body context ty types input.old) result input.new }
    ensures room { IfOk result (λ b. length b.function.locals ≤ room) }
{
    let size = whole_32(input)?;
    let Some(mut part) = input.part(size as usize) else {
        return Err(BinaryFault::Malformed);
    };
    let body = body(alloc, context, ty, types, room, &mut part)?;
    if part.left().is_empty() {
        Ok(body)
    } else {
        Err(BinaryFault::Malformed)
    }
}
