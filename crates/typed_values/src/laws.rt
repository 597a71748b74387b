//! What holds of every static type: each law is a function whose contract says it.
ghost use Rattle.std.specs.Prelude.{◌≡◌, Some, IfOk};

use crate::results::WasmResults;
use crate::static_type::WasmTy;
use std::alloc::Global;
use wasm_types::OutOfMemory;

/// There and back again, of one static type.
pub fn value_comes_back<T: WasmTy>(x: T) -> Option<T>
    ensures { result ≡ Some x }
{
    T::from_val(x.into_val())
}

/// There and back again, of a list of static types.
pub fn list_comes_back<R: WasmResults>(alloc: Global, x: R) -> Result<Option<R>, OutOfMemory>
    ensures { IfOk result (λ back. back ≡ Some x) }
{
    let vals = x.into_vals(alloc)?;
    Ok(R::from_vals(vals.as_slice()))
}
