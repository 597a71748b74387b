ghost use Rattle.std.specs.Prelude.{◌≡◌, ◌≤◌};
ghost use Rattle.binary_types.specs.Reading.{Reads};
ghost use Rattle.binary_code.specs.Instructions as forms;

use crate::access_codes::{Argument, load_width, store_width};
use crate::forms::{IndexedForm, LongForm, PairedForm, StraightForm};
use crate::instr_codes::{instr_of_one, instr_of_two, long_of};
use binary_types::{BinaryFault, heap_type, signed_32, signed_64, type_index, whole_32};
use wasm_leb::Cursor;
use wasm_syntax::{Instr, LoadOp, StoreOp};
use wasm_types::FuncType;

fn one_number(form: IndexedForm, input: &mut Cursor<'_>) -> Result<Instr, BinaryFault>
    ensures { Reads (forms.one_number form input.old) result input.new }
{
    let n = whole_32(input)?;
    Ok(instr_of_one(form, n))
}

fn two_numbers(form: PairedForm, input: &mut Cursor<'_>) -> Result<Instr, BinaryFault>
    ensures { Reads (forms.two_numbers form input.old) result input.new }
{
    let first = whole_32(input)?;
    let second = whole_32(input)?;
    Ok(instr_of_two(form, first, second))
}

fn is_aligned(width: u32, exponent: u32) -> bool
    requires { width ≤ 3 }
    ensures { result ≡ forms.is_aligned width exponent }
{
    exponent <= width || (64 <= exponent && exponent <= 64 + width)
}

fn memory_if(named: bool, input: &mut Cursor<'_>) -> Result<u32, BinaryFault>
    ensures { Reads (forms.memory_if named input.old) result input.new }
{
    if named { whole_32(input) } else { Ok(0) }
}

fn argument(width: u32, input: &mut Cursor<'_>) -> Result<Argument, BinaryFault>
    requires { width ≤ 3 }
    ensures { Reads (forms.argument width input.old) result input.new }
{
    let at = input.at();
    let exponent = whole_32(input)?;
    if !is_aligned(width, exponent) {
        return Err(BinaryFault::Alignment { at });
    }
    let memory = memory_if(64 <= exponent, input)?;
    let offset = whole_32(input)?;
    Ok(Argument { memory, offset })
}

fn load(op: LoadOp, input: &mut Cursor<'_>) -> Result<Instr, BinaryFault>
    ensures { Reads (forms.load op input.old) result input.new }
{
    let named = argument(load_width(op), input)?;
    Ok(Instr::Load {
        op,
        memory: named.memory,
        offset: named.offset,
    })
}

fn store(op: StoreOp, input: &mut Cursor<'_>) -> Result<Instr, BinaryFault>
    ensures { Reads (forms.store op input.old) result input.new }
{
    let named = argument(store_width(op), input)?;
    Ok(Instr::Store {
        op,
        memory: named.memory,
        offset: named.offset,
    })
}

fn call_indirect(types: &[FuncType], input: &mut Cursor<'_>) -> Result<Instr, BinaryFault>
    ensures { Reads (forms.call_indirect types.now input.old) result input.new }
{
    let ty = type_index(types, input)?;
    let table = whole_32(input)?;
    Ok(Instr::CallIndirect { ty, table })
}

fn null(types: &[FuncType], input: &mut Cursor<'_>) -> Result<Instr, BinaryFault>
    ensures { Reads (forms.null types.now input.old) result input.new }
{
    let ty = heap_type(types, input)?;
    Ok(Instr::RefNull(ty.top()))
}

fn is_counted(counted: bool, number: u32) -> bool
    ensures { result ≡ forms.is_counted counted number }
{
    counted || !(number == 8 || number == 9)
}

fn long_instr(counted: bool, input: &mut Cursor<'_>) -> Result<Instr, BinaryFault>
    ensures { Reads (forms.long_instr counted input.old) result input.new }
{
    let at = input.at();
    let number = whole_32(input)?;
    let Some(form) = long_of(number) else {
        return Err(BinaryFault::Unsupported {
            at,
            code: 64512 + u64::from(number),
        });
    };
    if !is_counted(counted, number) {
        return Err(BinaryFault::Malformed);
    }
    match form {
        LongForm::Indexed(form) => one_number(form, input),
        LongForm::Paired(form) => two_numbers(form, input),
    }
}

/// What follows the code of a straight instruction, which may name one of these types; `counted` is whether the data
/// segments were counted before.
pub(crate) fn straight(
    types: &[FuncType],
    counted: bool,
    form: StraightForm,
    input: &mut Cursor<'_>,
) -> Result<Instr, BinaryFault>
    ensures { Reads (forms.straight types.now counted form input.old) result input.new }
{
    match form {
        StraightForm::Plain(instr) => Ok(instr),
        StraightForm::Indexed(form) => one_number(form, input),
        StraightForm::Load(op) => load(op, input),
        StraightForm::Store(op) => store(op, input),
        StraightForm::Const32 => Ok(Instr::Const32(signed_32(input)?)),
        StraightForm::Const64 => Ok(Instr::Const64(signed_64(input)?)),
        StraightForm::RefNull => null(types, input),
        StraightForm::CallIndirect => call_indirect(types, input),
        StraightForm::Long => long_instr(counted, input),
    }
}
