ghost use Rattle.std.specs.Prelude.{◌≡◌, ℕ, List, [], IfOk};
ghost use Rattle.spec_execution.specs.Allocation.{value_of, reference_of, offset_of, values_from};

use wasm_module::{ConstExpr, GlobalDecl};
use wasm_objects::{RawRef, RawVal};
use wasm_types::OutOfMemory;

// A reference to the function under an index, of these numbers in the store.
fn function_reference(functions: &[usize], index: u32) -> RawRef
    ensures { result ≡ reference_of functions.now [] (ConstExpr.RefFunc index) }
{
    match functions.get(index as usize) {
        Some(number) => RawRef::Func(*number),
        None => RawRef::Null,
    }
}

// The value of the global under an index, of these.
fn global_value(globals: &[RawVal], index: u32) -> RawVal
    ensures { result ≡ value_of [] globals.now (ConstExpr.GlobalGet index) }
{
    match globals.get(index as usize) {
        Some(value) => *value,
        None => RawVal::Reference(RawRef::Null),
    }
}

/// The value of a constant expression, over the numbers of the functions and the values of the globals. What it names
/// is there in a valid module.
pub(crate) fn value_of(functions: &[usize], globals: &[RawVal], expression: &ConstExpr) -> RawVal
    ensures { result ≡ value_of functions.now globals.now expression.now }
{
    match expression {
        ConstExpr::I32(number) => RawVal::I32(*number),
        ConstExpr::I64(number) => RawVal::I64(*number),
        ConstExpr::F32(bits) => RawVal::F32(*bits),
        ConstExpr::F64(bits) => RawVal::F64(*bits),
        ConstExpr::V128(bits) => RawVal::V128(*bits),
        ConstExpr::RefNull(_) => RawVal::Reference(RawRef::Null),
        ConstExpr::RefFunc(index) => RawVal::Reference(function_reference(functions, *index)),
        ConstExpr::GlobalGet(index) => global_value(globals, *index),
    }
}

/// The same of an expression that gives a reference, as it does in a valid module.
pub(crate) fn reference_of(
    functions: &[usize],
    globals: &[RawVal],
    expression: &ConstExpr,
) -> RawRef
    ensures { result ≡ reference_of functions.now globals.now expression.now }
{
    match value_of(functions, globals, expression) {
        RawVal::Reference(reference) => reference,
        _ => RawRef::Null,
    }
}

/// The offset at which an active segment is written, over the values of the globals. It is an integer in a valid
/// module.
pub(crate) fn offset_of(globals: &[RawVal], expression: &ConstExpr) -> usize
    ensures { (functions : List ℕ) → result ≡ offset_of functions globals.now expression.now }
{
    match value_of(&[], globals, expression) {
        RawVal::I32(number) => number.cast_unsigned() as usize,
        _ => 0,
    }
}

/// The values of all globals: behind those of the imported ones the value of each of these in order, over those before
/// it.
pub(crate) fn global_values(
    functions: &[usize],
    imported: Vec<RawVal>,
    globals: &[GlobalDecl],
) -> Result<Vec<RawVal>, OutOfMemory>
    ensures { IfOk result (λ values. values.items ≡ values_from functions.now imported.items globals.now) }
{
    let mut values = imported;
    let mut rest = globals;
    'globals: while let [global, tail @ ..] = rest {
        let value = value_of(functions, values.as_slice(), &global.init);
        values.push(value)?;
        rest = tail;
    }
    Ok(values)
}
