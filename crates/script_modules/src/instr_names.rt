ghost use Rattle.std.specs.Prelude.{◌≡◌};
ghost use Rattle.script_json.specs.Fields.{Reads};
ghost use Rattle.script_modules.specs.InstrNames as names;

use crate::access_names::{load_named, store_named};
use crate::operator_names::{binary_32_named, binary_64_named, unary_named};
use script_json::ScriptFault;
use wasm_syntax::{Instr, LoadOp, StoreOp};

/// What an instruction is called by the first item of its list.
#[derive(Clone, Copy)]
pub(crate) enum InstrName {
    Straight(StraightName),
    Structured(StructuredName),
}

/// An instruction that names no block or target list of its function, by what its immediates are.
#[derive(Clone, Copy)]
pub(crate) enum StraightName {
    /// It has none.
    Plain(Instr),
    /// One index or label.
    Indexed(IndexedName),
    /// Two indices.
    Paired(PairedName),
    /// A memory and an offset.
    Load(LoadOp),
    /// A memory and an offset.
    Store(StoreOp),
    /// An integer of 32 bits.
    Const32,
    /// An integer of 64 bits.
    Const64,
    /// A heap type that no other is above.
    RefNull,
}

/// An instruction with one index or label.
#[derive(Clone, Copy)]
pub(crate) enum IndexedName {
    Br,
    BrIf,
    Call,
    LocalGet,
    LocalSet,
    LocalTee,
    GlobalGet,
    GlobalSet,
    MemorySize,
    MemoryGrow,
    MemoryFill,
    DataDrop,
    RefFunc,
    TableGet,
    TableSet,
    TableSize,
    TableGrow,
    TableFill,
    ElemDrop,
}

/// An instruction with two indices.
#[derive(Clone, Copy)]
pub(crate) enum PairedName {
    CallIndirect,
    MemoryCopy,
    MemoryInit,
    TableCopy,
    TableInit,
}

/// An instruction whose list holds code or labels.
#[derive(Clone, Copy)]
pub(crate) enum StructuredName {
    Block,
    Loop,
    If,
    BrTable,
}

/// The instruction of this name, where it has no immediate and is no operator.
fn plain_named(name: &str) -> Option<Instr>
    ensures { result ≡ names.plain_of name.now }
{
    match name {
        "unreachable" => Some(Instr::Unreachable),
        "nop" => Some(Instr::Nop),
        "return" => Some(Instr::Return),
        "drop" => Some(Instr::Drop),
        "select" => Some(Instr::Select),
        "ref.is_null" => Some(Instr::RefIsNull),
        _ => None,
    }
}

/// The instruction of this name with one index or label.
fn indexed_named(name: &str) -> Option<IndexedName>
    ensures { result ≡ names.indexed_of name.now }
{
    match name {
        "br" => Some(IndexedName::Br),
        "br_if" => Some(IndexedName::BrIf),
        "call" => Some(IndexedName::Call),
        "local.get" => Some(IndexedName::LocalGet),
        "local.set" => Some(IndexedName::LocalSet),
        "local.tee" => Some(IndexedName::LocalTee),
        "global.get" => Some(IndexedName::GlobalGet),
        "global.set" => Some(IndexedName::GlobalSet),
        "memory.size" => Some(IndexedName::MemorySize),
        "memory.grow" => Some(IndexedName::MemoryGrow),
        "memory.fill" => Some(IndexedName::MemoryFill),
        "data.drop" => Some(IndexedName::DataDrop),
        "ref.func" => Some(IndexedName::RefFunc),
        "table.get" => Some(IndexedName::TableGet),
        "table.set" => Some(IndexedName::TableSet),
        "table.size" => Some(IndexedName::TableSize),
        "table.grow" => Some(IndexedName::TableGrow),
        "table.fill" => Some(IndexedName::TableFill),
        "elem.drop" => Some(IndexedName::ElemDrop),
        _ => None,
    }
}

/// The instruction of this name with two indices.
fn paired_named(name: &str) -> Option<PairedName>
    ensures { result ≡ names.paired_of name.now }
{
    match name {
        "call_indirect" => Some(PairedName::CallIndirect),
        "memory.copy" => Some(PairedName::MemoryCopy),
        "memory.init" => Some(PairedName::MemoryInit),
        "table.copy" => Some(PairedName::TableCopy),
        "table.init" => Some(PairedName::TableInit),
        _ => None,
    }
}

/// The instruction of this name whose list holds code or labels.
fn structured_named(name: &str) -> Option<StructuredName>
    ensures { result ≡ names.structured_of name.now }
{
    match name {
        "block" => Some(StructuredName::Block),
        "loop" => Some(StructuredName::Loop),
        "if" => Some(StructuredName::If),
        "br_table" => Some(StructuredName::BrTable),
        _ => None,
    }
}

/// The instruction of this name with a number or a heap type.
fn immediate_named(name: &str) -> Option<StraightName>
    ensures { result ≡ names.immediate_of name.now }
{
    match name {
        "i32.const" => Some(StraightName::Const32),
        "i64.const" => Some(StraightName::Const64),
        "ref.null" => Some(StraightName::RefNull),
        _ => None,
    }
}

fn operator_named(name: &str) -> Option<Instr>
    ensures { result ≡ names.operator_of name.now }
{
    if let Some(op) = binary_32_named(name) {
        return Some(Instr::Binary(op));
    }
    if let Some(op) = binary_64_named(name) {
        return Some(Instr::Binary(op));
    }
    match unary_named(name) {
        Some(op) => Some(Instr::Unary(op)),
        None => None,
    }
}

fn access_named(name: &str) -> Option<StraightName>
    ensures { result ≡ names.access_of name.now }
{
    if let Some(op) = load_named(name) {
        return Some(StraightName::Load(op));
    }
    match store_named(name) {
        Some(op) => Some(StraightName::Store(op)),
        None => None,
    }
}

fn straight_named(name: &str) -> Option<StraightName>
    ensures { result ≡ names.straight_of name.now }
{
    if let Some(form) = indexed_named(name) {
        return Some(StraightName::Indexed(form));
    }
    if let Some(form) = immediate_named(name) {
        return Some(form);
    }
    if let Some(instr) = plain_named(name) {
        return Some(StraightName::Plain(instr));
    }
    if let Some(instr) = operator_named(name) {
        return Some(StraightName::Plain(instr));
    }
    if let Some(form) = access_named(name) {
        return Some(form);
    }
    match paired_named(name) {
        Some(form) => Some(StraightName::Paired(form)),
        None => None,
    }
}

/// The instruction of this name.
///
/// `NotScript` exactly where there is none.
#[tactic(auto, unfolding(crate::specs::InstrNames::name_of))]
pub(crate) fn instr_named(name: &str) -> Result<InstrName, ScriptFault>
    ensures { Reads (names.name_of name.now) result }
{
    if let Some(form) = structured_named(name) {
        return Ok(InstrName::Structured(form));
    }
    match straight_named(name) {
        Some(form) => Ok(InstrName::Straight(form)),
        None => Err(ScriptFault::NotScript),
    }
}
