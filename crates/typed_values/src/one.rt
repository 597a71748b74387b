//! Lists of one value of a static type.
ghost use Rattle.std.specs.Prelude.{◌≡◌, [], ◌∷◌, take, IfOk};
ghost use Rattle.typed_values.specs.Lists.{from_one};
ghost use Rattle.typed_values.specs.StaticTypes.{all_checked};

use crate::checks::{TypeCheckPosition, check_all};
use crate::params::NOTHING;
use crate::static_type::WasmTy;
use spec_machine::ValList;
use std::alloc::Global;
use wasm_types::{OutOfMemory, ValType};
use wasm_values::{Refusal, Val};

/// Tests the one pair, and then whether there is one.
pub(crate) fn check_one<A: WasmTy>(
    actual: &[ValType],
    position: TypeCheckPosition,
) -> Result<(), Refusal>
    ensures { result ≡ all_checked (A.ty ∷ []) actual.now position }
{
    check_all(&[A::valtype()], actual, position)
}

/// The value alone. It takes memory.
pub(crate) fn vals_of_one<A: WasmTy>(alloc: Global, value: A) -> Result<ValList, OutOfMemory>
    ensures values { IfOk result (λ vals. vals ≡ A.to_val value ∷ []) }
    ensures known { IfOk result (λ _. A.is_value value) }
{
    Ok(ValList(vec![in alloc; value.into_val()]?))
}

/// The value in the first of six places.
pub(crate) fn places_of_one<A: WasmTy>(value: A) -> [Val; 6]
    ensures { take 1 result ≡ A.to_val value ∷ [] }
{
    [
        value.into_val(),
        NOTHING,
        NOTHING,
        NOTHING,
        NOTHING,
        NOTHING,
    ]
}

/// The one value. `None` exactly where there is not one, or it is not of the kind.
pub(crate) fn one_of_vals<A: WasmTy>(vals: &[Val]) -> Option<A>
    ensures { result ≡ from_one A.of_val vals.now }
{
    match vals {
        [val] => A::from_val(*val),
        _ => None,
    }
}
