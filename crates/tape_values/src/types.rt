ghost use Rattle.std.specs.Prelude.{◌≡◌, Some};
ghost use Rattle.serde_json.specs.View.{view};
ghost use Rattle.tape_values.specs.Types as forms;
ghost use Rattle.tape_values.specs.Writing.{Writes, text_data};

use crate::faults::WriteFault;
use serde_json::{Value, json};
use std::alloc::Global;
use wasm_types::{FuncType, HeapType, RefType, ValType};

/// The place of the first type that is equal.
fn number_of(types: &[FuncType], ty: &FuncType) -> Option<usize>
    ensures { result ≡ forms.number_of types.now ty.now }
{
    for number in 0..types.len() {
        if types[number] == *ty {
            return Some(number);
        }
    }
    None
}

/// The number of a function type among these types: the place of the first one that is equal, from 0.
///
/// `UnknownType` exactly where none is equal.
pub fn type_value(types: &[FuncType], ty: &FuncType) -> Result<Value, WriteFault>
    ensures { Writes (forms.type_data types.now ty.now) result }
{
    match number_of(types, ty) {
        Some(number) => Ok(Value::from(number)),
        None => Err(WriteFault::UnknownType),
    }
}

fn named(alloc: Global, name: &str) -> Result<Value, WriteFault>
    ensures { Writes (Some (text_data name.now)) result }
{
    Ok(Value::try_from_str(alloc, name)?)
}

fn heap_type_value(alloc: Global, types: &[FuncType], ty: &HeapType) -> Result<Value, WriteFault>
    ensures { Writes (forms.heap_data types.now ty.now) result }
{
    match ty {
        HeapType::Func => named(alloc, "func"),
        HeapType::NoFunc => named(alloc, "nofunc"),
        HeapType::Extern => named(alloc, "extern"),
        HeapType::NoExtern => named(alloc, "noextern"),
        HeapType::Any => named(alloc, "any"),
        HeapType::Eq => named(alloc, "eq"),
        HeapType::I31 => named(alloc, "i31"),
        HeapType::None => named(alloc, "none"),
        HeapType::ConcreteFunc(ty) => type_value(types, ty),
    }
}

/// A reference type, in which a function type is its number among these types.
///
/// `UnknownType` exactly where it has none.
pub fn ref_type_value(alloc: Global, types: &[FuncType], ty: &RefType) -> Result<Value, WriteFault>
    ensures { Writes (forms.reference_data types.now ty.now) result }
{
    let heap_type = heap_type_value(alloc, types, ty.heap_type())?;
    let nullable = ty.is_nullable();
    Ok(json!(in alloc; {"null": nullable, "ref": heap_type})?)
}

/// A value type, in which a function type is its number among these types.
///
/// `UnknownType` exactly where it has none.
pub fn val_type_value(alloc: Global, types: &[FuncType], ty: &ValType) -> Result<Value, WriteFault>
    ensures { Writes (forms.val_type_data types.now ty.now) result }
{
    match ty {
        ValType::I32 => named(alloc, "i32"),
        ValType::I64 => named(alloc, "i64"),
        ValType::F32 => named(alloc, "f32"),
        ValType::F64 => named(alloc, "f64"),
        ValType::V128 => named(alloc, "v128"),
        ValType::Ref(ty) => ref_type_value(alloc, types, ty),
    }
}
