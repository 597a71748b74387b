ghost use Rattle.std.specs.Prelude.{◌≡◌, nat_le, List, length, Option, Some, None, IfOk, OnErr, IfSome, true};
ghost use Rattle.typed_values.specs.StaticTypes.{are_plain};
ghost use Rattle.wasm_types.specs.FunctionParts.{parts, parts_of};
ghost use Rattle.wasm_types.specs.FunctionRules.{IsMade};
ghost use Rattle.wasm_types.specs.declared.plain.Finality.TheVariants.{Final};
ghost use Rattle.wasm_types.specs.declared.value_types.ValType.{ValType as Static};
ghost use Rattle.wasm_values.specs.declared.values.Val.{Val as Value};

use spec_machine::ValList;
use std::alloc::Global;
use typed_values::{WasmParams, WasmTy};
use wasm_types::{EngineId, FuncType, OutOfMemory, TypeFault, ValType};
use wasm_values::Val;

/// A closure of the host failed.
#[derive(Clone, Copy, Debug, PartialEq, Eq)]
pub struct HostFailed;

/// What a closure of the host returns: one static type, a tuple of up to six, or either in a `Result`.
pub trait WasmRet: Drop {
    /// The types of what it returns.
    ghost returned: { List Static };

    /// The values of what it returns, or none where it failed.
    ghost given: { Self → Option (List Value) };

    /// The final function type without supertype of these parameters, with what it returns as results. It is refused as
    /// `FuncType::try_new` refuses one.
    fn func_type(alloc: Global, engine: EngineId, params: &[ValType]) -> Result<FuncType, TypeFault>
        ensures answer { IsMade (parts engine.0 Final None params.now returned) result }
        ensures parts { IfOk result (λ ty. parts_of ty ≡ parts engine.0 Final None params.now returned) };

    /// The values, in order; `HostFailed` exactly where it failed. It takes memory.
    fn into_fallible(self, alloc: Global) -> Result<Result<ValList, HostFailed>, OutOfMemory>
        ensures values { IfOk result (λ got. IfOk got (λ vals. given self ≡ Some vals)) }
        ensures failed { IfOk result (λ got. OnErr got (given self ≡ None)) };

    /// There are as many values as types.
    ghost as_many: { (x : Self) → IfSome (given x) (λ vals. length vals ≡ length returned) };

    /// No function type is in the types.
    ghost plain: { are_plain returned ≡ true };

    /// There are at most six.
    ghost few: { nat_le (length returned) 6 ≡ true };
}

impl WasmRet for () {
    ghost use Rattle.std.specs.Prelude.{[], Some, refl};

    ghost returned = { [] };

    ghost given = { λ _. Some [] };

    ghost as_many = { λ x. refl };

    ghost plain = { refl };

    ghost few = { refl };

    fn func_type(
        alloc: Global,
        engine: EngineId,
        params: &[ValType],
    ) -> Result<FuncType, TypeFault> {
        FuncType::try_new(alloc, engine, params, &[])
    }

    fn into_fallible(self, alloc: Global) -> Result<Result<ValList, HostFailed>, OutOfMemory> {
        Ok(Ok(self.into_vals(alloc)?))
    }
}

impl<A: WasmTy> WasmRet for (A,) {
    ghost use Rattle.std.specs.Prelude.{[], ◌∷◌, Some, refl};
    ghost use Rattle.typed_closures.specs.PlainLists.{plain1};

    ghost returned = { A.ty ∷ [] };

    ghost given = { λ x. Some (A.to_val x.0 ∷ []) };

    ghost as_many = { λ x. refl };

    ghost plain = { plain1 A.ty A.plain };

    ghost few = { refl };

    fn func_type(
        alloc: Global,
        engine: EngineId,
        params: &[ValType],
    ) -> Result<FuncType, TypeFault> {
        FuncType::try_new(alloc, engine, params, &[A::valtype()])
    }

    fn into_fallible(self, alloc: Global) -> Result<Result<ValList, HostFailed>, OutOfMemory> {
        Ok(Ok(self.into_vals(alloc)?))
    }
}

impl<A: WasmTy, B: WasmTy> WasmRet for (A, B) {
    ghost use Rattle.std.specs.Prelude.{[], ◌∷◌, Some, refl};
    ghost use Rattle.typed_closures.specs.PlainLists.{plain2};

    ghost returned = { A.ty ∷ B.ty ∷ [] };

    ghost given = { λ x. Some (A.to_val x.0 ∷ B.to_val x.1 ∷ []) };

    ghost as_many = { λ x. refl };

    ghost plain = { plain2 A.ty B.ty A.plain B.plain };

    ghost few = { refl };

    fn func_type(
        alloc: Global,
        engine: EngineId,
        params: &[ValType],
    ) -> Result<FuncType, TypeFault> {
        FuncType::try_new(alloc, engine, params, &[A::valtype(), B::valtype()])
    }

    fn into_fallible(self, alloc: Global) -> Result<Result<ValList, HostFailed>, OutOfMemory> {
        Ok(Ok(self.into_vals(alloc)?))
    }
}

impl<A: WasmTy, B: WasmTy, C: WasmTy> WasmRet for (A, B, C) {
    ghost use Rattle.std.specs.Prelude.{[], ◌∷◌, Some, refl};
    ghost use Rattle.typed_closures.specs.PlainLists.{plain3};

    ghost returned = { A.ty ∷ B.ty ∷ C.ty ∷ [] };

    ghost given = { λ x. Some (A.to_val x.0 ∷ B.to_val x.1 ∷ C.to_val x.2 ∷ []) };

    ghost as_many = { λ x. refl };

    ghost plain = { plain3 A.ty B.ty C.ty A.plain B.plain C.plain };

    ghost few = { refl };

    fn func_type(
        alloc: Global,
        engine: EngineId,
        params: &[ValType],
    ) -> Result<FuncType, TypeFault> {
        FuncType::try_new(
            alloc,
            engine,
            params,
            &[A::valtype(), B::valtype(), C::valtype()],
        )
    }

    fn into_fallible(self, alloc: Global) -> Result<Result<ValList, HostFailed>, OutOfMemory> {
        Ok(Ok(self.into_vals(alloc)?))
    }
}

impl<A: WasmTy, B: WasmTy, C: WasmTy, D: WasmTy> WasmRet for (A, B, C, D) {
    ghost use Rattle.std.specs.Prelude.{[], ◌∷◌, Some, refl};
    ghost use Rattle.typed_closures.specs.PlainLists.{plain4};

    ghost returned = { A.ty ∷ B.ty ∷ C.ty ∷ D.ty ∷ [] };

    ghost given = { λ x. Some (A.to_val x.0 ∷ B.to_val x.1 ∷ C.to_val x.2 ∷ D.to_val x.3 ∷ []) };

    ghost as_many = { λ x. refl };

    ghost plain = { plain4 A.ty B.ty C.ty D.ty A.plain B.plain C.plain D.plain };

    ghost few = { refl };

    fn func_type(
        alloc: Global,
        engine: EngineId,
        params: &[ValType],
    ) -> Result<FuncType, TypeFault> {
        FuncType::try_new(
            alloc,
            engine,
            params,
            &[A::valtype(), B::valtype(), C::valtype(), D::valtype()],
        )
    }

    fn into_fallible(self, alloc: Global) -> Result<Result<ValList, HostFailed>, OutOfMemory> {
        Ok(Ok(self.into_vals(alloc)?))
    }
}

impl<A: WasmTy, B: WasmTy, C: WasmTy, D: WasmTy, E: WasmTy> WasmRet for (A, B, C, D, E) {
    ghost use Rattle.std.specs.Prelude.{[], ◌∷◌, Some, refl};
    ghost use Rattle.typed_closures.specs.PlainLists.{plain5};

    ghost returned = { A.ty ∷ B.ty ∷ C.ty ∷ D.ty ∷ E.ty ∷ [] };

    ghost given = { λ x. Some (A.to_val x.0 ∷ B.to_val x.1 ∷ C.to_val x.2 ∷ D.to_val x.3 ∷ E.to_val x.4 ∷ []) };

    ghost as_many = { λ x. refl };

    ghost plain = { plain5 A.ty B.ty C.ty D.ty E.ty A.plain B.plain C.plain D.plain E.plain };

    ghost few = { refl };

    fn func_type(
        alloc: Global,
        engine: EngineId,
        params: &[ValType],
    ) -> Result<FuncType, TypeFault> {
        FuncType::try_new(
            alloc,
            engine,
            params,
            &[
                A::valtype(),
                B::valtype(),
                C::valtype(),
                D::valtype(),
                E::valtype(),
            ],
        )
    }

    fn into_fallible(self, alloc: Global) -> Result<Result<ValList, HostFailed>, OutOfMemory> {
        Ok(Ok(self.into_vals(alloc)?))
    }
}

impl<A: WasmTy, B: WasmTy, C: WasmTy, D: WasmTy, E: WasmTy, F: WasmTy> WasmRet
    for (A, B, C, D, E, F) {
    ghost use Rattle.std.specs.Prelude.{[], ◌∷◌, Some, refl};
    ghost use Rattle.typed_closures.specs.PlainLists.{plain6};

    ghost returned = { A.ty ∷ B.ty ∷ C.ty ∷ D.ty ∷ E.ty ∷ F.ty ∷ [] };

    ghost given = { λ x. Some (A.to_val x.0 ∷ B.to_val x.1 ∷ C.to_val x.2 ∷ D.to_val x.3 ∷ E.to_val x.4 ∷ F.to_val x.5 ∷ []) };

    ghost as_many = { λ x. refl };

    ghost plain = { plain6 A.ty B.ty C.ty D.ty E.ty F.ty A.plain B.plain C.plain D.plain E.plain F.plain };

    ghost few = { refl };

    fn func_type(
        alloc: Global,
        engine: EngineId,
        params: &[ValType],
    ) -> Result<FuncType, TypeFault> {
        FuncType::try_new(
            alloc,
            engine,
            params,
            &[
                A::valtype(),
                B::valtype(),
                C::valtype(),
                D::valtype(),
                E::valtype(),
                F::valtype(),
            ],
        )
    }

    fn into_fallible(self, alloc: Global) -> Result<Result<ValList, HostFailed>, OutOfMemory> {
        Ok(Ok(self.into_vals(alloc)?))
    }
}

impl<R: WasmRet> WasmRet for Result<R, HostFailed> {
    ghost use Rattle.std.specs.Prelude.{length};
    ghost use Rattle.typed_closures.specs.Given.{given_of};
    ghost use Rattle.typed_closures.specs.Given.{given_many};

    ghost returned = { R.returned };

    ghost given = { λ x. given_of R.given x };

    ghost as_many = { λ x. given_many R.given (length R.returned) R.as_many x };

    ghost plain = { R.plain };

    ghost few = { R.few };

    fn func_type(
        alloc: Global,
        engine: EngineId,
        params: &[ValType],
    ) -> Result<FuncType, TypeFault> {
        R::func_type(alloc, engine, params)
    }

    fn into_fallible(self, alloc: Global) -> Result<Result<ValList, HostFailed>, OutOfMemory> {
        match self {
            Ok(values) => values.into_fallible(alloc),
            Err(failed) => Ok(Err(failed)),
        }
    }
}
