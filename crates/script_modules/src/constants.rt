ghost use Rattle.std.specs.Prelude.{◌≡◌};
ghost use Rattle.serde_json.specs.View.{view};
ghost use Rattle.script_json.specs.Fields.{Reads};
ghost use Rattle.script_modules.specs.Constants as constants;

use crate::immediates::{head, one_immediate};
use script_json::{JsonReader, ScriptFault, hex_vector, signed_32, signed_64, text, whole};
use script_types::whole_32;
use serde_json::Value;
use std::alloc::Global;
use wasm_syntax::ConstExpr;
use wasm_types::HeapTopType;

/// What a constant is called by the name at its head.
#[derive(Clone, Copy)]
enum ConstantName {
    I32,
    I64,
    F32,
    F64,
    V128,
    RefNull,
    RefFunc,
    GlobalGet,
}

fn constant_named(name: &str) -> Result<ConstantName, ScriptFault>
    ensures { Reads (constants.name_of name.now) result }
{
    match name {
        "i32.const" => Ok(ConstantName::I32),
        "i64.const" => Ok(ConstantName::I64),
        "f32.bits" => Ok(ConstantName::F32),
        "f64.bits" => Ok(ConstantName::F64),
        "v128.hex" => Ok(ConstantName::V128),
        "ref.null" => Ok(ConstantName::RefNull),
        "ref.func" => Ok(ConstantName::RefFunc),
        "global.get" => Ok(ConstantName::GlobalGet),
        _ => Err(ScriptFault::NotScript),
    }
}

/// The heap type of this name that no other is above.
///
/// `NotScript` exactly where the value is no name of one.
pub(crate) fn heap_top(json: &Value) -> Result<HeapTopType, ScriptFault>
    ensures { Reads (constants.heap_top_of (view json.now)) result }
{
    match text(json)? {
        "func" => Ok(HeapTopType::Func),
        "extern" => Ok(HeapTopType::Extern),
        "any" => Ok(HeapTopType::Any),
        _ => Err(ScriptFault::NotScript),
    }
}

fn constant_by(json: &Value, name: ConstantName) -> Result<ConstExpr, ScriptFault>
    ensures { Reads (constants.constant_by (view json.now) name) result }
{
    match name {
        ConstantName::I32 => Ok(ConstExpr::I32(signed_32(json)?)),
        ConstantName::I64 => Ok(ConstExpr::I64(signed_64(json)?)),
        ConstantName::F32 => Ok(ConstExpr::F32(whole_32(json)?)),
        ConstantName::F64 => Ok(ConstExpr::F64(whole(json)?)),
        ConstantName::V128 => Ok(ConstExpr::V128(hex_vector(json)?)),
        ConstantName::RefNull => Ok(ConstExpr::RefNull(heap_top(json)?)),
        ConstantName::RefFunc => Ok(ConstExpr::RefFunc(whole_32(json)?)),
        ConstantName::GlobalGet => Ok(ConstExpr::GlobalGet(whole_32(json)?)),
    }
}

/// A constant expression.
///
/// `NotScript` exactly where the value spells none.
pub(crate) fn constant(json: &Value) -> Result<ConstExpr, ScriptFault>
    ensures { Reads (constants.constant_of (view json.now)) result }
{
    let name = constant_named(head(json)?)?;
    constant_by(one_immediate(json)?, name)
}

/// Reads a constant expression, as an item of a list.
pub(crate) struct ConstantReader;

impl JsonReader for ConstantReader {
    ghost use Rattle.script_modules.specs.Constants.{constant_of};

    type Item = ConstExpr;

    ghost meaning = { λ _ json. constant_of json };

    fn read(&self, alloc: Global, json: &Value) -> Result<ConstExpr, ScriptFault> {
        constant(json)
    }
}
