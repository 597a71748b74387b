ghost use Rattle.std.specs.Prelude.{◌≡◌};
ghost use Rattle.binary_code.specs.InstrCodes as codes;

use crate::access_codes::{load_of, store_of};
use crate::forms::{Form, IndexedForm, LongForm, Opener, PairedForm, StraightForm};
use crate::operator_codes::{binary_32_of, binary_64_of, unary_of};
use wasm_syntax::Instr;

// The instruction of this code that nothing follows and that is no operator.
fn plain_of(code: u8) -> Option<Instr>
    ensures { result ≡ codes.plain_of code }
{
    match code {
        0x00 => Some(Instr::Unreachable),
        0x01 => Some(Instr::Nop),
        0x0f => Some(Instr::Return),
        0x1a => Some(Instr::Drop),
        0x1b => Some(Instr::Select),
        0xd1 => Some(Instr::RefIsNull),
        _ => None,
    }
}

fn operator_of(code: u8) -> Option<Instr>
    ensures { result ≡ codes.operator_of code }
{
    if let Some(op) = binary_32_of(code) {
        return Some(Instr::Binary(op));
    }
    if let Some(op) = binary_64_of(code) {
        return Some(Instr::Binary(op));
    }
    match unary_of(code) {
        Some(op) => Some(Instr::Unary(op)),
        None => None,
    }
}

fn indexed_of(code: u8) -> Option<IndexedForm>
    ensures { result ≡ codes.indexed_of code }
{
    match code {
        0x0c => Some(IndexedForm::Br),
        0x0d => Some(IndexedForm::BrIf),
        0x10 => Some(IndexedForm::Call),
        0x20 => Some(IndexedForm::LocalGet),
        0x21 => Some(IndexedForm::LocalSet),
        0x22 => Some(IndexedForm::LocalTee),
        0x23 => Some(IndexedForm::GlobalGet),
        0x24 => Some(IndexedForm::GlobalSet),
        0x25 => Some(IndexedForm::TableGet),
        0x26 => Some(IndexedForm::TableSet),
        0x3f => Some(IndexedForm::MemorySize),
        0x40 => Some(IndexedForm::MemoryGrow),
        0xd2 => Some(IndexedForm::RefFunc),
        _ => None,
    }
}

fn opener_of(code: u8) -> Option<Opener>
    ensures { result ≡ codes.opener_of code }
{
    match code {
        0x02 => Some(Opener::Block),
        0x03 => Some(Opener::Loop),
        0x04 => Some(Opener::If),
        _ => None,
    }
}

fn immediate_of(code: u8) -> Option<StraightForm>
    ensures { result ≡ codes.immediate_of code }
{
    match code {
        0x41 => Some(StraightForm::Const32),
        0x42 => Some(StraightForm::Const64),
        0xd0 => Some(StraightForm::RefNull),
        0x11 => Some(StraightForm::CallIndirect),
        0xfc => Some(StraightForm::Long),
        _ => None,
    }
}

fn border_of(code: u8) -> Option<Form>
    ensures { result ≡ codes.border_of code }
{
    match code {
        0x0e => Some(Form::BrTable),
        0x05 => Some(Form::Else),
        0x0b => Some(Form::End),
        _ => None,
    }
}

fn access_of(code: u8) -> Option<StraightForm>
    ensures { result ≡ codes.access_of code }
{
    if let Some(op) = load_of(code) {
        return Some(StraightForm::Load(op));
    }
    match store_of(code) {
        Some(op) => Some(StraightForm::Store(op)),
        None => None,
    }
}

fn straight_of(code: u8) -> Option<StraightForm>
    ensures { result ≡ codes.straight_of code }
{
    if let Some(form) = indexed_of(code) {
        return Some(StraightForm::Indexed(form));
    }
    if let Some(form) = immediate_of(code) {
        return Some(form);
    }
    if let Some(instr) = operator_of(code) {
        return Some(StraightForm::Plain(instr));
    }
    if let Some(form) = access_of(code) {
        return Some(form);
    }
    match plain_of(code) {
        Some(instr) => Some(StraightForm::Plain(instr)),
        None => None,
    }
}

/// What this code begins.
pub(crate) fn form_of(code: u8) -> Option<Form>
    ensures { result ≡ codes.form_of code }
{
    if let Some(form) = straight_of(code) {
        return Some(Form::Straight(form));
    }
    if let Some(form) = border_of(code) {
        return Some(form);
    }
    match opener_of(code) {
        Some(opener) => Some(Form::Opens(opener)),
        None => None,
    }
}

fn long_indexed_of(code: u32) -> Option<IndexedForm>
    ensures { result ≡ codes.long_indexed_of code }
{
    match code {
        9 => Some(IndexedForm::DataDrop),
        11 => Some(IndexedForm::MemoryFill),
        13 => Some(IndexedForm::ElemDrop),
        15 => Some(IndexedForm::TableGrow),
        16 => Some(IndexedForm::TableSize),
        17 => Some(IndexedForm::TableFill),
        _ => None,
    }
}

fn long_paired_of(code: u32) -> Option<PairedForm>
    ensures { result ≡ codes.long_paired_of code }
{
    match code {
        8 => Some(PairedForm::MemoryInit),
        10 => Some(PairedForm::MemoryCopy),
        12 => Some(PairedForm::TableInit),
        14 => Some(PairedForm::TableCopy),
        _ => None,
    }
}

/// What this number behind the code `fc` begins.
pub(crate) fn long_of(number: u32) -> Option<LongForm>
    ensures { result ≡ codes.long_of number }
{
    if let Some(form) = long_indexed_of(number) {
        return Some(LongForm::Indexed(form));
    }
    match long_paired_of(number) {
        Some(form) => Some(LongForm::Paired(form)),
        None => None,
    }
}

/// The instruction of this form and number.
pub(crate) fn instr_of_one(form: IndexedForm, n: u32) -> Instr
    ensures { result ≡ codes.instr_of_one form n }
{
    match form {
        IndexedForm::Br => Instr::Br(n),
        IndexedForm::BrIf => Instr::BrIf(n),
        IndexedForm::Call => Instr::Call(n),
        IndexedForm::LocalGet => Instr::LocalGet(n),
        IndexedForm::LocalSet => Instr::LocalSet(n),
        IndexedForm::LocalTee => Instr::LocalTee(n),
        IndexedForm::GlobalGet => Instr::GlobalGet(n),
        IndexedForm::GlobalSet => Instr::GlobalSet(n),
        IndexedForm::TableGet => Instr::TableGet(n),
        IndexedForm::TableSet => Instr::TableSet(n),
        IndexedForm::MemorySize => Instr::MemorySize(n),
        IndexedForm::MemoryGrow => Instr::MemoryGrow(n),
        IndexedForm::RefFunc => Instr::RefFunc(n),
        IndexedForm::DataDrop => Instr::DataDrop(n),
        IndexedForm::MemoryFill => Instr::MemoryFill(n),
        IndexedForm::ElemDrop => Instr::ElemDrop(n),
        IndexedForm::TableGrow => Instr::TableGrow(n),
        IndexedForm::TableSize => Instr::TableSize(n),
        IndexedForm::TableFill => Instr::TableFill(n),
    }
}

/// The instruction of this form and these two numbers, in the order in which the format has them.
pub(crate) fn instr_of_two(form: PairedForm, first: u32, second: u32) -> Instr
    ensures { result ≡ codes.instr_of_two form first second }
{
    match form {
        PairedForm::MemoryInit => Instr::MemoryInit {
            memory: second,
            segment: first,
        },
        PairedForm::MemoryCopy => Instr::MemoryCopy {
            dst: first,
            src: second,
        },
        PairedForm::TableInit => Instr::TableInit {
            table: second,
            segment: first,
        },
        PairedForm::TableCopy => Instr::TableCopy {
            dst: first,
            src: second,
        },
    }
}
