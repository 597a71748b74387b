ghost use Rattle.std.specs.Prelude.{◌≡◌};
ghost use Rattle.script_modules.specs.AccessNames as names;

use wasm_syntax::{LoadOp, StoreOp};

/// The load of this name.
pub(crate) fn load_named(name: &str) -> Option<LoadOp>
    ensures { result ≡ names.load_of name.now }
{
    match name {
        "i32.load" => Some(LoadOp::I32Load),
        "i32.load8_s" => Some(LoadOp::I32Load8S),
        "i32.load8_u" => Some(LoadOp::I32Load8U),
        "i32.load16_s" => Some(LoadOp::I32Load16S),
        "i32.load16_u" => Some(LoadOp::I32Load16U),
        "i64.load" => Some(LoadOp::I64Load),
        "i64.load8_s" => Some(LoadOp::I64Load8S),
        "i64.load8_u" => Some(LoadOp::I64Load8U),
        "i64.load16_s" => Some(LoadOp::I64Load16S),
        "i64.load16_u" => Some(LoadOp::I64Load16U),
        "i64.load32_s" => Some(LoadOp::I64Load32S),
        "i64.load32_u" => Some(LoadOp::I64Load32U),
        _ => None,
    }
}

/// The store of this name.
pub(crate) fn store_named(name: &str) -> Option<StoreOp>
    ensures { result ≡ names.store_of name.now }
{
    match name {
        "i32.store" => Some(StoreOp::I32Store),
        "i32.store8" => Some(StoreOp::I32Store8),
        "i32.store16" => Some(StoreOp::I32Store16),
        "i64.store" => Some(StoreOp::I64Store),
        "i64.store8" => Some(StoreOp::I64Store8),
        "i64.store16" => Some(StoreOp::I64Store16),
        "i64.store32" => Some(StoreOp::I64Store32),
        _ => None,
    }
}
