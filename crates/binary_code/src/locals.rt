ghost use Rattle.std.specs.Prelude.{◌≡◌, ◌+◌, ◌≤◌, ◌++◌, IfErr, IfOk, length, replicate};
ghost use Rattle.binary_types.specs.Reading.{Reads};
ghost use Rattle.binary_code.specs.Bodies as forms;

use binary_types::{BinaryFault, value_type, whole_32};
use std::alloc::Global;
use wasm_leb::Cursor;
use wasm_types::{FuncType, Items, ValType};

/// How many locals a function may have.
const MOST_LOCALS: usize = 1000000;

/// So many locals of one type.
#[derive(Drop)]
pub(crate) struct LocalGroup {
    pub(crate) count: u32,
    pub(crate) ty: ValType,
}

// A group of locals, behind so many others.
fn local_group(
    types: &[FuncType],
    before: usize,
    input: &mut Cursor<'_>,
) -> Result<LocalGroup, BinaryFault>
    requires { before ≤ 1000000 }
    ensures read { Reads (forms.local_group types.now before input.old) result input.new }
    ensures bound { IfOk result (λ g. before + g.count ≤ 1000000) }
{
    let count = whole_32(input)?;
    if before + count as usize > MOST_LOCALS {
        return Err(BinaryFault::Malformed);
    }
    let ty = value_type(types, input)?;
    Ok(LocalGroup { count, ty })
}

fn add_locals(locals: &mut Items<ValType>, group: &LocalGroup) -> Result<(), BinaryFault>
    ensures ok { IfOk result (λ _. locals.new ≡ locals.old ++ replicate group.now.count group.now.ty) }
    ensures err { IfErr result (λ e. e ≡ BinaryFault.OutOfMemory) }
{
    for _ in 0..group.count {
        match group.ty.clone() {
            Ok(ty) => {
                if locals.0.push(ty).is_err() {
                    return Err(BinaryFault::OutOfMemory);
                }
            }
            Err(_) => return Err(BinaryFault::OutOfMemory),
        }
    }
    Ok(())
}

/// Groups of locals of one type each. Where they are more than there is room for, the answer is want of memory.
pub(crate) fn locals_of(
    alloc: Global,
    types: &[FuncType],
    groups: u32,
    room: usize,
    input: &mut Cursor<'_>,
) -> Result<Items<ValType>, BinaryFault>
    ensures read { Reads (forms.locals_behind types.now groups 0 input.old) result input.new }
    ensures room { IfOk result (λ locals. length locals ≤ room) }
{
    let mut locals = Items(Vec::new(alloc));
    for _ in 0..groups {
        match local_group(types, locals.len(), input) {
            Ok(group) => {
                if locals.len() + group.count as usize > room {
                    return Err(BinaryFault::OutOfMemory);
                }
                if add_locals(&mut locals, &group).is_err() {
                    return Err(BinaryFault::OutOfMemory);
                }
            }
            Err(fault) => return Err(fault),
        }
    }
    Ok(locals)
}
