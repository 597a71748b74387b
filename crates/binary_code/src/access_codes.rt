ghost use Rattle.std.specs.Prelude.{◌≡◌, ◌≤◌};
ghost use Rattle.binary_code.specs.AccessCodes as codes;

use wasm_syntax::{LoadOp, StoreOp};

/// The load of this code.
pub(crate) fn load_of(code: u8) -> Option<LoadOp>
    ensures { result ≡ codes.load_of code }
{
    match code {
        0x28 => Some(LoadOp::I32Load),
        0x29 => Some(LoadOp::I64Load),
        0x2c => Some(LoadOp::I32Load8S),
        0x2d => Some(LoadOp::I32Load8U),
        0x2e => Some(LoadOp::I32Load16S),
        0x2f => Some(LoadOp::I32Load16U),
        0x30 => Some(LoadOp::I64Load8S),
        0x31 => Some(LoadOp::I64Load8U),
        0x32 => Some(LoadOp::I64Load16S),
        0x33 => Some(LoadOp::I64Load16U),
        0x34 => Some(LoadOp::I64Load32S),
        0x35 => Some(LoadOp::I64Load32U),
        _ => None,
    }
}

/// The store of this code.
pub(crate) fn store_of(code: u8) -> Option<StoreOp>
    ensures { result ≡ codes.store_of code }
{
    match code {
        0x36 => Some(StoreOp::I32Store),
        0x37 => Some(StoreOp::I64Store),
        0x3a => Some(StoreOp::I32Store8),
        0x3b => Some(StoreOp::I32Store16),
        0x3c => Some(StoreOp::I64Store8),
        0x3d => Some(StoreOp::I64Store16),
        0x3e => Some(StoreOp::I64Store32),
        _ => None,
    }
}

/// How many bytes a load reads, as an exponent of 2.
pub(crate) fn load_width(op: LoadOp) -> u32
    ensures value { result ≡ codes.load_width op }
    ensures bound { result ≤ 3 }
{
    match op {
        LoadOp::I32Load8S | LoadOp::I32Load8U | LoadOp::I64Load8S | LoadOp::I64Load8U => 0,
        LoadOp::I32Load16S | LoadOp::I32Load16U | LoadOp::I64Load16S | LoadOp::I64Load16U => 1,
        LoadOp::I32Load | LoadOp::I64Load32S | LoadOp::I64Load32U => 2,
        LoadOp::I64Load => 3,
    }
}

/// How many bytes a store writes, as an exponent of 2.
pub(crate) fn store_width(op: StoreOp) -> u32
    ensures value { result ≡ codes.store_width op }
    ensures bound { result ≤ 3 }
{
    match op {
        StoreOp::I32Store8 | StoreOp::I64Store8 => 0,
        StoreOp::I32Store16 | StoreOp::I64Store16 => 1,
        StoreOp::I32Store | StoreOp::I64Store32 => 2,
        StoreOp::I64Store => 3,
    }
}

/// What a load or a store names.
#[derive(Clone, Copy)]
pub(crate) struct Argument {
    pub(crate) memory: u32,
    pub(crate) offset: u32,
}
