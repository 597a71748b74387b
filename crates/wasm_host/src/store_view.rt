use store_state::{Engine, Held, Program};
use wasm_values::StoreId;

/// What is seen of a store: its id, its engine, what a run reads, and what it changes.
#[derive(Clone, Copy)]
pub struct StoreView<'a> {
    pub id: StoreId,
    pub engine: &'a Engine,
    pub program: &'a Program,
    pub held: &'a Held,
}
