//! Hot instructions on a frame's slices, with the height in the hands of the caller: no field of a value behind a
//! reference is loaded again at each push.
//!
//! `operands` are those of the innermost label, the topmost last, with room above, of which `height` count; `locals`
//! are those of the innermost frame.

mod memories;
mod numbers;
mod operands;
mod variables;

pub use memories::{load, store};
pub use numbers::{binary, unary};
pub use operands::{constant, drop_value, select};
pub use variables::{global_get, global_set, local_get, local_set, local_tee};
use wasm_values::Trap;

/// What an instruction on a frame's slices came to.
#[derive(Clone, Copy)]
pub enum Framed {
    /// It did what it does, and so many operands count now.
    Goes(usize),
    /// It trapped, and changed no object.
    Traps(Trap),
    /// The operands, the locals or what its indices name do not fit it, which never comes in valid code; it changed
    /// no object.
    Sticks,
}
