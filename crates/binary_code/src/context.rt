use wasm_types::EngineId;

/// By what code is read: the engine, how many types the type section has, and whether the data segments were counted.
#[derive(Clone, Copy)]
pub struct CodeContext {
    pub engine: EngineId,
    pub declared: usize,
    pub counted: bool,
}
