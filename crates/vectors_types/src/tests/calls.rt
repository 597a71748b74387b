//! The calls of the types as tests use them: each passes on one call, and says nothing of it. So a test is about what
//! it compares, and its proof carries no clause of the calls that it makes.
use std::alloc::Global;
use wasm_types::{
    EngineId, Finality, FuncType, MemoryType, RefType, TableType, TypeFault, ValType,
};

pub fn func_type(
    alloc: Global,
    engine: EngineId,
    params: &[ValType],
    results: &[ValType],
) -> Result<FuncType, TypeFault> {
    FuncType::try_new(alloc, engine, params, results)
}

pub fn func_type_below(
    alloc: Global,
    engine: EngineId,
    finality: Finality,
    supertype: Option<&FuncType>,
    params: &[ValType],
    results: &[ValType],
) -> Result<FuncType, TypeFault> {
    FuncType::with_finality_and_supertype(alloc, engine, finality, supertype, params, results)
}

pub fn memory_type(
    minimum: u32,
    maximum: Option<u32>,
    page_size_log2: u8,
) -> Result<MemoryType, TypeFault> {
    MemoryType::new(minimum, maximum, page_size_log2)
}

pub fn table_type(
    element: RefType,
    minimum: u32,
    maximum: Option<u32>,
) -> Result<TableType, TypeFault> {
    TableType::new(element, minimum, maximum)
}
