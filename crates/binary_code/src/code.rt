ghost use Rattle.binary_types.specs.Reading.{Reads};
ghost use Rattle.binary_code.specs.Code as forms;

use crate::code_parts::CodeParts;
use crate::code_types::CodeTypes;
use crate::context::CodeContext;
use crate::nesting::Nesting;
use binary_types::{BinaryFault, byte};
use std::alloc::Global;
use wasm_leb::Cursor;

/// The code of a function of this type, without recursion: lists of instructions may nest without limit.
pub(crate) fn code_of(
    alloc: Global,
    context: CodeContext,
    ty: u32,
    types: CodeTypes,
    input: &mut Cursor<'_>,
) -> Result<CodeParts, BinaryFault>
    ensures { Reads (forms.code_of context ty types input.old) result input.new }
{
    let mut nesting = Nesting::new(alloc, ty, types)?;
    let most = input.left().len();
    for _ in 0..most {
        match nesting.go_on(alloc, context, input) {
            Ok(true) => return Ok(nesting.into_parts(ty)),
            Ok(false) => {}
            Err(fault) => return Err(fault),
        }
    }
    // Each turn takes a byte at least, so none is left here.
    match byte(input) {
        Ok(_) => Err(BinaryFault::OutOfMemory),
        Err(fault) => Err(fault),
    }
}
