ghost use Rattle.std.specs.Prelude.{◌≡◌};
ghost use Rattle.serde_json.specs.View.{view};
ghost use Rattle.script_json.specs.Fields.{Reads, null_or};
ghost use Rattle.spec_machine.specs.Values.{any_of};
ghost use Rattle.script_commands.specs.Operands as operands;
ghost use Rattle.tape_values.specs.OperandsRead as tapes;

use crate::name_reader::name;
use crate::store_numbers::store_id;
use script_json::{
    JsonReader, ScriptFault, hex_vector, null_or_whole, one_member, signed_32, signed_64,
    two_items, whole,
};
use script_types::whole_32;
use serde_json::Value;
use spec_machine::Operand;
use std::alloc::Global;
use wasm_values::{AnyRef, ExternRef, Func, V128, Val};

fn handle(json: &Value) -> Result<Func, ScriptFault>
    ensures { Reads (tapes.handle_in (view json.now)) result }
{
    let (id, index) = two_items(json)?;
    let store = store_id(whole(id)?)?;
    let place = whole(index)?;
    Ok(Func::from_parts(store, place as usize))
}

fn handle_or_null(json: &Value) -> Result<Option<Func>, ScriptFault>
    ensures { Reads (null_or tapes.handle_in (view json.now)) result }
{
    if json.is_null() {
        return Ok(None);
    }
    Ok(Some(handle(json)?))
}

fn vector(json: &Value) -> Result<V128, ScriptFault>
    ensures { Reads (operands.vector_of (view json.now)) result }
{
    Ok(V128(hex_vector(json)?))
}

fn extern_ref(json: &Value) -> Result<Val, ScriptFault>
    ensures { Reads (operands.extern_val_of (view json.now)) result }
{
    match null_or_whole(json)? {
        Some(number) => Ok(Val::ExternRef(Some(ExternRef(number)))),
        None => Ok(Val::ExternRef(None)),
    }
}

#[tactic(auto, using(script_commands::proofs::References::any_refused))]
fn any_numbered(number: u64) -> Result<AnyRef, ScriptFault>
    ensures { Reads (any_of number) result }
{
    if number >= 1 << 31 {
        return Err(ScriptFault::NotScript);
    }
    match AnyRef::from_i31(number as u32) {
        Some(reference) => Ok(reference),
        None => Err(ScriptFault::NotScript),
    }
}

fn any_ref(json: &Value) -> Result<AnyRef, ScriptFault>
    ensures { Reads (operands.any_ref_of (view json.now)) result }
{
    any_numbered(whole(json)?)
}

fn any_ref_or_null(json: &Value) -> Result<Option<AnyRef>, ScriptFault>
    ensures { Reads (null_or operands.any_ref_of (view json.now)) result }
{
    if json.is_null() {
        return Ok(None);
    }
    Ok(Some(any_ref(json)?))
}

fn operand_named(kind: &str, json: &Value) -> Result<Operand, ScriptFault>
    ensures { Reads (tapes.operand_named kind.now (view json.now)) result }
{
    match kind {
        "func" => Ok(Operand::Val(Val::FuncRef(handle_or_null(json)?))),
        "i32" => Ok(Operand::Val(Val::I32(signed_32(json)?))),
        "i64" => Ok(Operand::Val(Val::I64(signed_64(json)?))),
        "f32" => Ok(Operand::Val(Val::F32(whole_32(json)?))),
        "f64" => Ok(Operand::Val(Val::F64(whole(json)?))),
        "v128" => Ok(Operand::Val(Val::V128(vector(json)?))),
        "extern" => Ok(Operand::Val(extern_ref(json)?)),
        "any" => Ok(Operand::Val(Val::AnyRef(any_ref_or_null(json)?))),
        "name" => Ok(Operand::Named(name(json)?)),
        _ => Err(ScriptFault::NotScript),
    }
}

/// An operand, as a script has it, or the handle of a function.
///
/// `NotScript` exactly where the value spells none.
pub fn operand(json: &Value) -> Result<Operand, ScriptFault>
    ensures { Reads (tapes.operand_in (view json.now)) result }
{
    let (kind, member) = one_member(json)?;
    operand_named(kind, member)
}

/// Reads an operand, as an item of a list.
pub struct OperandReader;

impl JsonReader for OperandReader {
    ghost use Rattle.tape_values.specs.OperandsRead.{operand_in};

    type Item = Operand;

    ghost meaning = { λ _ json. operand_in json };

    fn read(&self, _alloc: Global, json: &Value) -> Result<Operand, ScriptFault> {
        operand(json)
    }
}

/// Reads a value, as an item of a list: an operand that is no name.
pub struct ValReader;

impl JsonReader for ValReader {
    ghost use Rattle.tape_values.specs.OperandsRead.{val_in};

    type Item = Val;

    ghost meaning = { λ _ json. val_in json };

    fn read(&self, _alloc: Global, json: &Value) -> Result<Val, ScriptFault> {
        match operand(json)? {
            Operand::Val(val) => Ok(val),
            Operand::Named(_) => Err(ScriptFault::NotScript),
        }
    }
}
