use crate::bounds::Bounds;
use std::alloc::Global;
use store_state::{Engine, Program};
use wasm_values::StoreId;

/// What stays as it is during a call: where memory comes from, what the call reads of its store, the store's id and its
/// engine, and what bounds the call.
#[derive(Clone, Copy)]
pub struct RunContext<'p> {
    pub alloc: Global,
    pub program: &'p Program,
    pub id: StoreId,
    pub engine: &'p Engine,
    pub bounds: Bounds,
}
