ghost use Rattle.std.specs.Prelude.{◌≡◌};
ghost use Rattle.serde_json.specs.View.{view};
ghost use Rattle.script_json.specs.Fields.{Reads, null_or};
ghost use Rattle.spec_machine.specs.Values.{any_of};
ghost use Rattle.script_commands.specs.Operands as operands;

use crate::names::name;
use script_json::{
    JsonReader, ScriptFault, hex_vector, null, null_or_whole, one_member, signed_32, signed_64,
    whole,
};
use script_types::whole_32;
use serde_json::Value;
use spec_machine::Operand;
use std::alloc::Global;
use wasm_values::{AnyRef, ExternRef, V128, Val};

/// What an operand is called by the key of its only member.
#[derive(Clone, Copy)]
enum OperandKind {
    I32,
    I64,
    F32,
    F64,
    V128,
    Func,
    Extern,
    Any,
    Name,
}

fn operand_kind(key: &str) -> Result<OperandKind, ScriptFault>
    ensures { Reads (operands.operand_kind_of key.now) result }
{
    match key {
        "i32" => Ok(OperandKind::I32),
        "i64" => Ok(OperandKind::I64),
        "f32" => Ok(OperandKind::F32),
        "f64" => Ok(OperandKind::F64),
        "v128" => Ok(OperandKind::V128),
        "func" => Ok(OperandKind::Func),
        "extern" => Ok(OperandKind::Extern),
        "any" => Ok(OperandKind::Any),
        "name" => Ok(OperandKind::Name),
        _ => Err(ScriptFault::NotScript),
    }
}

fn vector(json: &Value) -> Result<V128, ScriptFault>
    ensures { Reads (operands.vector_of (view json.now)) result }
{
    Ok(V128(hex_vector(json)?))
}

/// A reference to data of the host, or null.
fn extern_ref(json: &Value) -> Result<Val, ScriptFault>
    ensures { Reads (operands.extern_val_of (view json.now)) result }
{
    match null_or_whole(json)? {
        Some(number) => Ok(Val::ExternRef(Some(ExternRef(number)))),
        None => Ok(Val::ExternRef(None)),
    }
}

#[tactic(auto, using(crate::proofs::References::any_refused))]
fn any_numbered(number: u64) -> Result<AnyRef, ScriptFault>
    ensures { Reads (any_of number) result }
{
    if number >= 1 << 31 {
        return Err(ScriptFault::NotScript);
    }
    match AnyRef::from_i31(number as u32) {
        Some(reference) => Ok(reference),
        None => Err(ScriptFault::NotScript),
    }
}

fn any_ref(json: &Value) -> Result<AnyRef, ScriptFault>
    ensures { Reads (operands.any_ref_of (view json.now)) result }
{
    any_numbered(whole(json)?)
}

fn any_ref_or_null(json: &Value) -> Result<Option<AnyRef>, ScriptFault>
    ensures { Reads (null_or operands.any_ref_of (view json.now)) result }
{
    if json.is_null() {
        return Ok(None);
    }
    Ok(Some(any_ref(json)?))
}

fn operand_by(json: &Value, kind: OperandKind) -> Result<Operand, ScriptFault>
    ensures { Reads (operands.operand_by (view json.now) kind) result }
{
    match kind {
        OperandKind::I32 => Ok(Operand::Val(Val::I32(signed_32(json)?))),
        OperandKind::I64 => Ok(Operand::Val(Val::I64(signed_64(json)?))),
        OperandKind::F32 => Ok(Operand::Val(Val::F32(whole_32(json)?))),
        OperandKind::F64 => Ok(Operand::Val(Val::F64(whole(json)?))),
        OperandKind::V128 => Ok(Operand::Val(Val::V128(vector(json)?))),
        OperandKind::Func => {
            null(json)?;
            Ok(Operand::Val(Val::FuncRef(None)))
        }
        OperandKind::Extern => Ok(Operand::Val(extern_ref(json)?)),
        OperandKind::Any => Ok(Operand::Val(Val::AnyRef(any_ref_or_null(json)?))),
        OperandKind::Name => Ok(Operand::Named(name(json)?)),
    }
}

/// Reads an operand.
pub(crate) fn operand(json: &Value) -> Result<Operand, ScriptFault>
    ensures { Reads (operands.operand_of (view json.now)) result }
{
    let (key, member) = one_member(json)?;
    operand_by(member, operand_kind(key)?)
}

/// Reads an operand, as an item of a list.
pub(crate) struct OperandReader;

impl JsonReader for OperandReader {
    ghost use Rattle.script_commands.specs.Operands.{operand_of};

    type Item = Operand;

    ghost meaning = { λ _ json. operand_of json };

    fn read(&self, alloc: Global, json: &Value) -> Result<Operand, ScriptFault> {
        operand(json)
    }
}
