use wasm_embedding::{Func, Plugins, Pooled};

/// What this host keeps: the function that was left on its board last, and how often a guest came.
#[derive(Drop)]
pub(crate) struct Board {
    pub(crate) left: Option<Func>,
    pub(crate) visits: u32,
}

impl Board {
    pub(crate) fn new() -> Board {
        Board {
            left: None,
            visits: 0,
        }
    }
}

/// The board is host data beside a pool of bytes for all memories together.
pub(crate) type Kept = Pooled<Board>;

pub(crate) type Guests = Plugins<Kept>;
