mod calls;
mod extern_types;
mod function_types;
mod heap_types;
mod meters;
mod objects;

use std::alloc::{AllocError, Global};
use std::fmt::{Debug, Display};
use std::process::Abort;
use wasm_types::{EngineId, Finality, FuncType, TypeFault, ValType};

/// The engine of the types of these tests.
const ENGINE: EngineId = EngineId(1);

/// The non-final type `() -> (i32)`.
fn open_type(alloc: Global) -> Result<FuncType, TypeFault> {
    let results = [ValType::I32];
    calls::func_type_below(alloc, ENGINE, Finality::NonFinal, None, &[], &results)
}

/// The non-final type `() -> ()` below another.
fn next_in_chain(alloc: Global, supertype: Option<&FuncType>) -> Result<FuncType, TypeFault> {
    calls::func_type_below(alloc, ENGINE, Finality::NonFinal, supertype, &[], &[])
}

/// As many times `i32`.
fn numbers(alloc: Global, count: usize) -> Result<Vec<ValType>, AllocError> {
    let mut types = Vec::with_capacity(alloc, count)?;
    for _ in 0..count {
        types.push(ValType::I32)?;
    }
    Ok(types)
}

/// What was got is what is expected; else the test fails by the name or the number of its row.
fn check_same<N: Display + Drop, T: PartialEq + Debug>(
    rt: &impl Abort,
    row: N,
    got: &T,
    expected: &T,
) {
    assert_eq!(rt; got, expected, "{row}");
}
