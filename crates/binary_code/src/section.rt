ghost use Rattle.std.specs.Prelude.{◌≡◌, ◌≤◌, ◌^◌, IfOk};
ghost use Rattle.binary_types.specs.Reading.{Reads};
ghost use Rattle.binary_code.specs.Bodies as forms;

use crate::bodies::sized_body;
use crate::code_types::CodeTypes;
use crate::context::CodeContext;
use binary_index::IndexedTypes;
use binary_types::{BinaryFault, whole_32};
use std::alloc::Global;
use wasm_leb::Cursor;
use wasm_syntax::FuncDecl;
use wasm_types::Items;

/// The defined functions of a module, and its types: those of the type section, and behind them those that blocks added.
#[derive(Drop)]
pub struct Functions {
    pub functions: Items<FuncDecl>,
    pub types: IndexedTypes,
}

/// How many locals a module may have before the answer is want of memory.
const MOST_IN_MODULE: usize = 16777216;

fn bodies_of(
    alloc: Global,
    context: CodeContext,
    functions: &[u32],
    types: CodeTypes,
    input: &mut Cursor<'_>,
) -> Result<Functions, BinaryFault>
    ensures read { Reads (forms.bodies_of context functions.now types input.old) result input.new }
    ensures locals { IfOk result (λ r. forms.locals_in r.functions ≤ 2 ^ 24) }
{
    let mut bodies = Vec::new(alloc);
    let mut types = types;
    let mut room = MOST_IN_MODULE;
    for ty in functions {
        match sized_body(alloc, context, *ty, types, room, input) {
            Ok(body) => {
                types = body.types;
                room -= body.function.locals.len();
                if bodies.push(body.function).is_err() {
                    return Err(BinaryFault::OutOfMemory);
                }
            }
            Err(fault) => return Err(fault),
        }
    }
    Ok(Functions {
        functions: Items(bodies),
        types: types.into_types(),
    })
}

/// The content of the code section, for functions of these types in the module's list of types.
///
/// More than 2^24 locals in all are answered as want of memory, since five bytes can ask for a million.
pub fn code_section(
    alloc: Global,
    context: CodeContext,
    functions: &[u32],
    types: IndexedTypes,
    input: &mut Cursor<'_>,
) -> Result<Functions, BinaryFault>
    ensures read { Reads (forms.code_section context functions.now types input.old) result input.new }
    ensures locals { IfOk result (λ r. forms.locals_in r.functions ≤ 2 ^ 24) }
{
    let count = whole_32(input)?;
    if count as usize != functions.len() {
        return Err(BinaryFault::Malformed);
    }
    let types = CodeTypes::new(alloc, types)?;
    bodies_of(alloc, context, functions, types, input)
}
