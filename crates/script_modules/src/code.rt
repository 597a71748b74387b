ghost use Rattle.std.specs.Prelude.{◌≡◌, ◌≤◌, length};
ghost use Rattle.serde_json.specs.View.{view};
ghost use Rattle.script_json.specs.Fields.{Reads};
ghost use Rattle.script_modules.specs.Code as code;
ghost use Rattle.script_modules.specs.Code.{code_to};
ghost use Rattle.script_modules.specs.CodeParts.{ReadsIn};

use crate::code_parts::{CodeParts, add_targets, begin_block, end_block};
use crate::immediates::{head, three_immediates, two_immediates};
use crate::indices::IndexReader;
use crate::instr_names::{InstrName, StructuredName, instr_named};
use crate::instructions::straight;
use script_json::{ScriptFault, list_of};
use script_types::whole_32;
use serde_json::Value;
use std::alloc::Global;
use wasm_syntax::{Instr, TargetList};
use wasm_types::Items;

/// The labels of a branch table, the last of which stands apart.
fn target_list(alloc: Global, front: &Value, last: &Value) -> Result<TargetList, ScriptFault>
    ensures { Reads (code.target_list_of (view front.now) (view last.now)) result }
{
    let mut labels = list_of(alloc, front, &IndexReader)?.into_vec();
    let last = whole_32(last)?;
    match labels.push(last) {
        Ok(()) => Ok(TargetList(labels)),
        Err(_) => Err(ScriptFault::OutOfMemory),
    }
}

fn branch_table(alloc: Global, json: &Value, parts: &mut CodeParts) -> Result<Instr, ScriptFault>
    ensures reads { ReadsIn (code.branch_table_of (view json.now) parts.old) result parts.new }
    ensures grows { length parts.old.blocks ≤ length parts.new.blocks }
{
    let (front, last) = two_immediates(json)?;
    let targets = target_list(alloc, front, last)?;
    Ok(Instr::BrTable(add_targets(targets, parts)?))
}

/// A block of this type, whose code nests at most so deep. Its number is answered.
#[cycle(code)]
pub(crate) fn block(
    alloc: Global,
    depth: u32,
    ty: u32,
    json: &Value,
    parts: &mut CodeParts,
) -> Result<u32, ScriptFault>
    ensures reads { ReadsIn (code.block_of (code_to depth) ty (view json.now) parts.old) result parts.new }
    ensures grows { length parts.old.blocks ≤ length parts.new.blocks }
{
    let number = begin_block(alloc, ty, parts)?;
    let instrs = code_within(alloc, depth, json, parts)?;
    end_block(number, ty, instrs, parts);
    Ok(number)
}

#[cycle(code)]
fn choice(
    alloc: Global,
    depth: u32,
    json: &Value,
    parts: &mut CodeParts,
) -> Result<Instr, ScriptFault>
    ensures reads { ReadsIn (code.choice_of (code_to depth) (view json.now) parts.old) result parts.new }
    ensures grows { length parts.old.blocks ≤ length parts.new.blocks }
{
    let (ty, then_code, else_code) = three_immediates(json)?;
    let ty = whole_32(ty)?;
    let first = block(alloc, depth, ty, then_code, parts)?;
    let second = block(alloc, depth, ty, else_code, parts)?;
    Ok(Instr::If(first, second))
}

#[cycle(code)]
fn one_block(
    alloc: Global,
    depth: u32,
    json: &Value,
    parts: &mut CodeParts,
) -> Result<u32, ScriptFault>
    ensures reads { ReadsIn (code.one_block_of (code_to depth) (view json.now) parts.old) result parts.new }
    ensures grows { length parts.old.blocks ≤ length parts.new.blocks }
{
    let (ty, inner) = two_immediates(json)?;
    let ty = whole_32(ty)?;
    let number = block(alloc, depth, ty, inner, parts)?;
    Ok(number)
}

#[cycle(code)]
fn structured(
    alloc: Global,
    depth: u32,
    json: &Value,
    name: StructuredName,
    parts: &mut CodeParts,
) -> Result<Instr, ScriptFault>
    ensures reads { ReadsIn
        (code.structured_by (code_to depth) (view json.now) name parts.old) result parts.new }
    ensures grows { length parts.old.blocks ≤ length parts.new.blocks }
{
    match name {
        StructuredName::Block => Ok(Instr::Block(one_block(alloc, depth, json, parts)?)),
        StructuredName::Loop => Ok(Instr::Loop(one_block(alloc, depth, json, parts)?)),
        StructuredName::If => choice(alloc, depth, json, parts),
        StructuredName::BrTable => branch_table(alloc, json, parts),
    }
}

#[cycle(code)]
fn instruction(
    alloc: Global,
    depth: u32,
    json: &Value,
    parts: &mut CodeParts,
) -> Result<Instr, ScriptFault>
    ensures reads { ReadsIn (code.instr_of (code_to depth) (view json.now) parts.old) result parts.new }
    ensures grows { length parts.old.blocks ≤ length parts.new.blocks }
{
    match instr_named(head(json)?)? {
        InstrName::Straight(name) => straight(json, name),
        InstrName::Structured(name) => structured(alloc, depth, json, name, parts),
    }
}

#[cycle(code)]
fn instructions(
    alloc: Global,
    depth: u32,
    json: &Value,
    parts: &mut CodeParts,
) -> Result<Items<Instr>, ScriptFault>
    ensures reads { ReadsIn (code.list_by (code_to depth) (view json.now) parts.old) result parts.new }
    ensures grows { length parts.old.blocks ≤ length parts.new.blocks }
{
    let Some(list) = json.as_array() else {
        return Err(ScriptFault::NotScript);
    };
    let mut instrs = Vec::new(alloc);
    for item in list {
        let instr = instruction(alloc, depth, item, parts)?;
        if instrs.push(instr).is_err() {
            return Err(ScriptFault::OutOfMemory);
        }
    }
    Ok(Items(instrs))
}

/// Instructions that nest at most so deep. The blocks and target lists within are added.
#[cycle(code)]
fn code_within(
    alloc: Global,
    depth: u32,
    json: &Value,
    parts: &mut CodeParts,
) -> Result<Items<Instr>, ScriptFault>
    ensures reads { ReadsIn (code_to depth (view json.now) parts.old) result parts.new }
    ensures grows { length parts.old.blocks ≤ length parts.new.blocks }
{
    if depth == 0 {
        return Err(ScriptFault::NotScript);
    }
    match instructions(alloc, depth - 1, json, parts) {
        Ok(instrs) => Ok(instrs),
        Err(fault) => Err(fault),
    }
}
