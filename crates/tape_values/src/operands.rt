ghost use Rattle.std.specs.Prelude.{◌≡◌, IfOk};
ghost use Rattle.std.specs.Prelude.{◌<◌, ◌^◌, codes, FitsSigned};
ghost use Rattle.std.specs.Int.{w32, w64};
ghost use Rattle.hex.specs.Hex.{IsBytes, encode_lower};
ghost use Rattle.serde_json.specs.View.{view};
ghost use Rattle.tape_values.specs.Operands.{name_data, vector_data, handle_data, func_data, extern_data, any_data, val_data, operand_data, ValInRange, OperandInRange};
ghost use Rattle.tape_values.specs.Writing.{whole_data, integer_data, text_data, one_data};

use serde_json::{Value, json};
use spec_machine::{Name, Operand};
use std::alloc::{AllocError, Global};
use wasm_values::{AnyRef, ExternRef, Func, V128, Val};

/// A name, as a script has it.
pub fn name_value(alloc: Global, name: Name) -> Result<Value, AllocError>
    ensures { IfOk result (λ value. view value ≡ name_data name) }
{
    match name {
        Name::Reply(place) => Ok(Value::from(place)),
        Name::Value(place, index) => json!(in alloc; {"value": [place, index]}),
        Name::Arg(place) => json!(in alloc; {"arg": place}),
        Name::Stored(place) => json!(in alloc; {"stored": place}),
        Name::Caller => json!(in alloc; {"caller": true}),
    }
}

/// Bytes as a text of hexadecimal digits, two a byte and the high one first. Each byte is one (`within`).
pub fn bytes_value(alloc: Global, bytes: &[u8]) -> Result<Value, AllocError>
    ensures written { IfOk result (λ value. view value ≡ text_data (encode_lower bytes.now)) }
    ensures within { IsBytes bytes.now }
{
    let digits = hex::encode(alloc, bytes)?;
    Ok(Value::String(digits))
}

/// The 128 bits of a vector as a text of 32 hexadecimal digits, the highest first.
fn vector_value(alloc: Global, vector: V128) -> Result<Value, AllocError>
    ensures written { IfOk result (λ value. view value ≡ vector_data vector) }
    ensures within { vector.0 < 2 ^ 128 }
{
    let V128(bits) = vector;
    let bytes = bits.to_be_bytes();
    bytes_value(alloc, &bytes)
}

fn handle_value(alloc: Global, func: Func) -> Result<Value, AllocError>
    ensures { IfOk result (λ value. view value ≡ handle_data func) }
{
    let store = func.store_id().as_raw().get();
    let place = func.index();
    json!(in alloc; [store, place])
}

fn func_value(alloc: Global, func: Option<Func>) -> Result<Value, AllocError>
    ensures { IfOk result (λ value. view value ≡ func_data func) }
{
    match func {
        Some(func) => handle_value(alloc, func),
        None => Ok(Value::Null),
    }
}

fn extern_value(reference: Option<ExternRef>) -> Value
    ensures { view result ≡ extern_data reference }
{
    match reference {
        Some(ExternRef(number)) => Value::from(number),
        None => Value::Null,
    }
}

fn any_value(reference: Option<AnyRef>) -> Value
    ensures { view result ≡ any_data reference }
{
    match reference {
        Some(reference) => Value::from(reference.i31()),
        None => Value::Null,
    }
}

fn i32_value(alloc: Global, number: i32) -> Result<Value, AllocError>
    ensures written { IfOk result (λ value. view value ≡ one_data (codes "i32") (integer_data number)) }
    ensures within { FitsSigned w32 number }
{
    json!(in alloc; {"i32": number})
}

fn i64_value(alloc: Global, number: i64) -> Result<Value, AllocError>
    ensures written { IfOk result (λ value. view value ≡ one_data (codes "i64") (integer_data number)) }
    ensures within { FitsSigned w64 number }
{
    json!(in alloc; {"i64": number})
}

fn f32_value(alloc: Global, bits: u32) -> Result<Value, AllocError>
    ensures written { IfOk result (λ value. view value ≡ one_data (codes "f32") (whole_data bits)) }
    ensures within { bits < 2 ^ 32 }
{
    json!(in alloc; {"f32": bits})
}

fn v128_value(alloc: Global, vector: V128) -> Result<Value, AllocError>
    ensures written { IfOk result (λ value. view value ≡ one_data (codes "v128") (vector_data vector)) }
    ensures within { vector.0 < 2 ^ 128 }
{
    let digits = vector_value(alloc, vector)?;
    json!(in alloc; {"v128": digits})
}

fn func_ref_value(alloc: Global, func: Option<Func>) -> Result<Value, AllocError>
    ensures { IfOk result (λ value. view value ≡ one_data (codes "func") (func_data func)) }
{
    let func = func_value(alloc, func)?;
    json!(in alloc; {"func": func})
}

/// A value: a number, the bits of a float or of a vector, null or the number of a reference, or the handle of a function. Each
/// number in the value is one of its type (`within`).
pub fn val_value(alloc: Global, val: Val) -> Result<Value, AllocError>
    ensures written { IfOk result (λ value. view value ≡ val_data val) }
    ensures within { IfOk result (λ _. ValInRange val) }
{
    match val {
        Val::I32(number) => i32_value(alloc, number),
        Val::I64(number) => i64_value(alloc, number),
        Val::F32(bits) => f32_value(alloc, bits),
        Val::F64(bits) => json!(in alloc; {"f64": bits}),
        Val::V128(vector) => v128_value(alloc, vector),
        Val::FuncRef(func) => func_ref_value(alloc, func),
        Val::ExternRef(reference) => json!(in alloc; {"extern": extern_value(reference)}),
        Val::AnyRef(reference) => json!(in alloc; {"any": any_value(reference)}),
    }
}

/// An operand: a value or a name. Each number in the value is one of its type (`within`).
pub fn operand_value(alloc: Global, operand: Operand) -> Result<Value, AllocError>
    ensures written { IfOk result (λ value. view value ≡ operand_data operand) }
    ensures within { IfOk result (λ _. OperandInRange operand) }
{
    match operand {
        Operand::Val(val) => val_value(alloc, val),
        Operand::Named(name) => {
            let name = name_value(alloc, name)?;
            json!(in alloc; {"name": name})
        }
    }
}
