ghost use Rattle.std.specs.Prelude.{◌≡◌};
ghost use Rattle.serde_json.specs.View.{view};
ghost use Rattle.script_json.specs.Fields.{Reads};
ghost use Rattle.script_modules.specs.Instructions as instructions;

use crate::constants::heap_top;
use crate::immediates::{no_immediate, one_immediate, two_immediates};
use crate::instr_names::{IndexedName, PairedName, StraightName};
use script_json::{ScriptFault, signed_32, signed_64};
use script_types::whole_32;
use serde_json::Value;
use wasm_syntax::Instr;

fn indexed(name: IndexedName, index: u32) -> Instr
    ensures { result ≡ instructions.indexed name index }
{
    match name {
        IndexedName::Br => Instr::Br(index),
        IndexedName::BrIf => Instr::BrIf(index),
        IndexedName::Call => Instr::Call(index),
        IndexedName::LocalGet => Instr::LocalGet(index),
        IndexedName::LocalSet => Instr::LocalSet(index),
        IndexedName::LocalTee => Instr::LocalTee(index),
        IndexedName::GlobalGet => Instr::GlobalGet(index),
        IndexedName::GlobalSet => Instr::GlobalSet(index),
        IndexedName::MemorySize => Instr::MemorySize(index),
        IndexedName::MemoryGrow => Instr::MemoryGrow(index),
        IndexedName::MemoryFill => Instr::MemoryFill(index),
        IndexedName::DataDrop => Instr::DataDrop(index),
        IndexedName::RefFunc => Instr::RefFunc(index),
        IndexedName::TableGet => Instr::TableGet(index),
        IndexedName::TableSet => Instr::TableSet(index),
        IndexedName::TableSize => Instr::TableSize(index),
        IndexedName::TableGrow => Instr::TableGrow(index),
        IndexedName::TableFill => Instr::TableFill(index),
        IndexedName::ElemDrop => Instr::ElemDrop(index),
    }
}

fn paired(name: PairedName, first: u32, second: u32) -> Instr
    ensures { result ≡ instructions.paired name first second }
{
    match name {
        PairedName::CallIndirect => Instr::CallIndirect {
            ty: first,
            table: second,
        },
        PairedName::MemoryCopy => Instr::MemoryCopy {
            dst: first,
            src: second,
        },
        PairedName::MemoryInit => Instr::MemoryInit {
            memory: first,
            segment: second,
        },
        PairedName::TableCopy => Instr::TableCopy {
            dst: first,
            src: second,
        },
        PairedName::TableInit => Instr::TableInit {
            table: first,
            segment: second,
        },
    }
}

fn one_index(json: &Value) -> Result<u32, ScriptFault>
    ensures { Reads (instructions.one_index (view json.now)) result }
{
    whole_32(one_immediate(json)?)
}

fn two_indices(json: &Value) -> Result<(u32, u32), ScriptFault>
    ensures { Reads (instructions.two_indices (view json.now)) result }
{
    let (first, second) = two_immediates(json)?;
    let first = whole_32(first)?;
    let second = whole_32(second)?;
    Ok((first, second))
}

/// The instruction of this name with the immediates that stand behind the head.
///
/// `NotScript` exactly where they are others.
pub(crate) fn straight(json: &Value, name: StraightName) -> Result<Instr, ScriptFault>
    ensures { Reads (instructions.straight_by (view json.now) name) result }
{
    match name {
        StraightName::Plain(instr) => {
            no_immediate(json)?;
            Ok(instr)
        }
        StraightName::Indexed(name) => Ok(indexed(name, one_index(json)?)),
        StraightName::Paired(name) => {
            let (first, second) = two_indices(json)?;
            Ok(paired(name, first, second))
        }
        StraightName::Load(op) => {
            let (memory, offset) = two_indices(json)?;
            Ok(Instr::Load { op, memory, offset })
        }
        StraightName::Store(op) => {
            let (memory, offset) = two_indices(json)?;
            Ok(Instr::Store { op, memory, offset })
        }
        StraightName::Const32 => Ok(Instr::Const32(signed_32(one_immediate(json)?)?)),
        StraightName::Const64 => Ok(Instr::Const64(signed_64(one_immediate(json)?)?)),
        StraightName::RefNull => Ok(Instr::RefNull(heap_top(one_immediate(json)?)?)),
    }
}
