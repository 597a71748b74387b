ghost use Rattle.std.specs.Prelude.{◌≡◌, IfOk};
ghost use Rattle.typed_closures.specs.ClosureTypes.{closure_type};

use crate::returns::WasmRet;
use crate::type_lists::WasmTyList;
use std::alloc::Global;
use wasm_types::{EngineId, FuncType, OutOfMemory, TypeFault};

/// The type of a function of the host that takes a `P` and gives an `R`. By the laws of both it is refused for want of
/// memory alone.
#[tactic(auto, using(crate::proofs::ClosureTypes::closure_is, crate::proofs::ClosureTypes::closure_refused))]
pub fn closure_type<P: WasmTyList, R: WasmRet>(
    alloc: Global,
    engine: EngineId,
) -> Result<FuncType, OutOfMemory>
    ensures { IfOk result (λ ty. ty ≡ closure_type engine.0 P.tys R.returned) }
{
    let params = P::valtypes(alloc)?;
    match R::func_type(alloc, engine, params.as_slice()) {
        Ok(ty) => Ok(ty),
        Err(TypeFault::OutOfMemory) => Err(OutOfMemory),
        Err(
            TypeFault::WrongEngine
            | TypeFault::BadSupertype
            | TypeFault::TypeDepth
            | TypeFault::BadLimits,
        ) => unreachable!(),
    }
}
