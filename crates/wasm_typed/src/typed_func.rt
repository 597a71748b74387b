ghost use Rattle.std.specs.Prelude.{◌≡◌, Ok, IfOk, IfErr, OnOk};
ghost use Rattle.store_state.specs.Calls.{cause};
ghost use Rattle.wasm_typed.specs.TypedFunctions.{fits_types, typed_function};

use std::marker::{Model, PhantomData};
use typed_values::{TypeCheckPosition, WasmParams, WasmResults};
use wasm_types::{FuncType, OutOfMemory};
use wasm_values::{Func, Refusal};

/// A function, whose parameters may be handed as a `P` and whose results may be taken as an `R`.
///
/// It keeps the type that the function had. Contracts see the function and that type.
#[derive(Drop)]
pub struct TypedFunc<P: WasmParams, R: WasmResults> {
    pub(crate) func: Func,
    pub(crate) ty: FuncType,
    params: PhantomData<P>,
    results: PhantomData<R>,
}

impl<P: WasmParams, R: WasmResults> Model for TypedFunc<P, R> {
    ghost use Rattle.std.specs.Prelude.{◌≡◌, Ok};
    ghost use Rattle.wasm_typed.specs.TypedFunctions.{TypedFunction, typed_function, typed_function_code, fits_types};

    ghost Value = { TypedFunction };

    ghost coded = { typed_function_code };

    ghost view = { λ f. typed_function f.func f.ty };

    ghost invariant = { λ f. fits_types P.tys R.tys f.ty ≡ Ok tt };
}

impl<P: WasmParams, R: WasmResults> TypedFunc<P, R> {
    /// A function of this type, which is copied where the static types fit it.
    pub(crate) fn with_type(func: Func, own: &FuncType) -> Result<TypedFunc<P, R>, Refusal>
        ensures made { IfOk result (λ made. made ≡ typed_function func own.now) }
        ensures fits { OnOk result (fits_types P.tys R.tys own.now ≡ Ok tt) }
        ensures refused { IfErr result (λ why. why ≡ cause (fits_types P.tys R.tys own.now)) }
    {
        let engine = own.engine();
        P::typecheck(engine, own.params(), TypeCheckPosition::Param)?;
        R::typecheck(engine, own.results(), TypeCheckPosition::Result)?;
        let Ok(ty) = own.clone() else {
            return Err(Refusal::OutOfMemory);
        };
        Ok(TypedFunc {
            func,
            ty,
            params: PhantomData,
            results: PhantomData,
        })
    }

    /// The function, lent.
    pub fn func(&self) -> &Func
        ensures { result.now ≡ self.now.func }
    {
        &self.func
    }

    /// The same once more.
    pub fn clone(&self) -> Result<Self, OutOfMemory>
        ensures { IfOk result (λ same. same ≡ self.now) }
    {
        Ok(TypedFunc {
            func: self.func,
            ty: self.ty.clone()?,
            params: PhantomData,
            results: PhantomData,
        })
    }
}
