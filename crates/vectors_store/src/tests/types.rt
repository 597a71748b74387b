//! Types as tests make them: each is there, or the test fails, and nothing is said of it.
use crate::tests::ENGINE;
use std::alloc::Global as Heap;
use std::process::Abort;
use wasm_types::{FuncType, HeapType, MemoryType, RefType, TableType};

/// A type of limits: the least and the most.
pub type Limits = (u32, Option<u32>);

/// The type `() -> ()`.
pub fn func(rt: &impl Abort, alloc: Heap) -> FuncType {
    FuncType::try_new(alloc, ENGINE, &[], &[]).expect(rt, "a type of functions")
}

/// The type of references to functions of that type.
pub fn reference(rt: &impl Abort, alloc: Heap, nullable: bool) -> RefType {
    RefType::new(nullable, HeapType::ConcreteFunc(func(rt, alloc)))
}

/// The type of memories of pages whose size is 2 to this exponent.
pub fn memory(rt: &impl Abort, limits: Limits, page: u8) -> MemoryType {
    MemoryType::new(limits.0, limits.1, page).expect(rt, "a type of memories")
}

pub fn table(rt: &impl Abort, element: RefType, limits: Limits) -> TableType {
    TableType::new(element, limits.0, limits.1).expect(rt, "a type of tables")
}
