ghost use Rattle.std.specs.Prelude.{◌≡◌, ◌≤◌, List, length, take, IfOk};
ghost use Rattle.typed_values.specs.StaticTypes.{all_checked};
ghost use Rattle.wasm_types.specs.declared.value_types.ValType.{ValType as Static};
ghost use Rattle.wasm_values.specs.declared.values.Val.{Val as Value};

use crate::checks::{TypeCheckPosition, check_all};
use crate::one::{check_one, vals_of_one};
use crate::static_type::WasmTy;
use spec_machine::ValList;
use std::alloc::Global;
use wasm_types::{EngineId, OutOfMemory, ValType};
use wasm_values::{Refusal, Val};

/// What stands in a place that a list of values does not take.
pub(crate) const NOTHING: Val = Val::I32(0);

/// What a host hands to a function: a list of static types, as one of them, or as a tuple of up to six.
pub trait WasmParams: Drop {
    /// The types that it stands for.
    ghost tys: { List Static };

    /// What the members of each such list keep: that an unsigned number is in range.
    ghost are_values: { Self → Type 0 };

    /// The list as values of WebAssembly.
    ghost to_vals: { Self → List Value };

    /// Whether it may be the parameters, or the results, of a function that has these types.
    ///
    /// The pairs are tested in order: `TypeMismatch` at the first that does not fit. Then, where there are not as many,
    /// `ArgumentCount` of parameters and `ResultCount` of results. The engine is not looked at: each type tells its own.
    fn typecheck(
        _engine: EngineId,
        params: &[ValType],
        position: TypeCheckPosition,
    ) -> Result<(), Refusal>
        ensures { result ≡ all_checked tys params.now position };

    /// How many there are.
    fn count() -> usize
        ensures { result ≡ length tys };

    /// There are at most six.
    ghost few: { length tys ≤ 6 };

    /// The values, in order, in the first of six places. It takes no memory.
    fn into_places(self) -> [Val; 6]
        ensures values { take (length tys) result ≡ to_vals self };

    /// The values, in order. It takes memory.
    fn into_vals(self, alloc: Global) -> Result<ValList, OutOfMemory>
        ensures values { IfOk result (λ vals. vals ≡ to_vals self) }
        ensures known { IfOk result (λ _. are_values self) };

    /// There are as many values as types.
    ghost as_many: { (x : Self) → length (to_vals x) ≡ length tys };
}

impl WasmParams for () {
    ghost use Rattle.std.specs.Prelude.{[], refl};
    ghost use Rattle.std.proofs.Common.{arith};

    ghost tys = { [] };

    ghost are_values = { λ _. Unit {0} };

    ghost to_vals = { λ _. [] };

    ghost as_many = { λ x. refl };

    ghost few = { omega arith };

    fn typecheck(
        _engine: EngineId,
        params: &[ValType],
        position: TypeCheckPosition,
    ) -> Result<(), Refusal> {
        check_all(&[], params, position)
    }

    fn count() -> usize {
        0
    }

    fn into_places(self) -> [Val; 6] {
        [NOTHING, NOTHING, NOTHING, NOTHING, NOTHING, NOTHING]
    }

    fn into_vals(self, alloc: Global) -> Result<ValList, OutOfMemory> {
        Ok(ValList(Vec::new(alloc)))
    }
}

impl<A: WasmTy> WasmParams for (A,) {
    ghost use Rattle.std.specs.Prelude.{[], ◌∷◌, refl};
    ghost use Rattle.std.proofs.Common.{arith};

    ghost tys = { A.ty ∷ [] };

    ghost are_values = { λ x. A.is_value x.0 };

    ghost to_vals = { λ x. A.to_val x.0 ∷ [] };

    ghost as_many = { λ x. refl };

    ghost few = { omega arith };

    fn typecheck(
        _engine: EngineId,
        params: &[ValType],
        position: TypeCheckPosition,
    ) -> Result<(), Refusal> {
        check_one::<A>(params, position)
    }

    fn count() -> usize {
        1
    }

    fn into_places(self) -> [Val; 6] {
        [
            self.0.into_val(),
            NOTHING,
            NOTHING,
            NOTHING,
            NOTHING,
            NOTHING,
        ]
    }

    fn into_vals(self, alloc: Global) -> Result<ValList, OutOfMemory> {
        vals_of_one(alloc, self.0)
    }
}

impl<A: WasmTy, B: WasmTy> WasmParams for (A, B) {
    ghost use Rattle.std.specs.Prelude.{[], ◌∷◌, refl};
    ghost use Rattle.std.proofs.Common.{arith};

    ghost tys = { A.ty ∷ B.ty ∷ [] };

    ghost are_values = { λ x. A.is_value x.0 × B.is_value x.1 };

    ghost to_vals = { λ x. A.to_val x.0 ∷ B.to_val x.1 ∷ [] };

    ghost as_many = { λ x. refl };

    ghost few = { omega arith };

    fn typecheck(
        _engine: EngineId,
        params: &[ValType],
        position: TypeCheckPosition,
    ) -> Result<(), Refusal> {
        check_all(&[A::valtype(), B::valtype()], params, position)
    }

    fn count() -> usize {
        2
    }

    fn into_places(self) -> [Val; 6] {
        [
            self.0.into_val(),
            self.1.into_val(),
            NOTHING,
            NOTHING,
            NOTHING,
            NOTHING,
        ]
    }

    fn into_vals(self, alloc: Global) -> Result<ValList, OutOfMemory> {
        Ok(ValList(vec![in alloc; self.0.into_val(), self.1.into_val()]?))
    }
}

impl<A: WasmTy, B: WasmTy, C: WasmTy> WasmParams for (A, B, C) {
    ghost use Rattle.std.specs.Prelude.{[], ◌∷◌, refl};
    ghost use Rattle.std.proofs.Common.{arith};

    ghost tys = { A.ty ∷ B.ty ∷ C.ty ∷ [] };

    ghost are_values = { λ x. A.is_value x.0 × B.is_value x.1 × C.is_value x.2 };

    ghost to_vals = { λ x. A.to_val x.0 ∷ B.to_val x.1 ∷ C.to_val x.2 ∷ [] };

    ghost as_many = { λ x. refl };

    ghost few = { omega arith };

    fn typecheck(
        _engine: EngineId,
        params: &[ValType],
        position: TypeCheckPosition,
    ) -> Result<(), Refusal> {
        check_all(
            &[A::valtype(), B::valtype(), C::valtype()],
            params,
            position,
        )
    }

    fn count() -> usize {
        3
    }

    fn into_places(self) -> [Val; 6] {
        [
            self.0.into_val(),
            self.1.into_val(),
            self.2.into_val(),
            NOTHING,
            NOTHING,
            NOTHING,
        ]
    }

    fn into_vals(self, alloc: Global) -> Result<ValList, OutOfMemory> {
        Ok(ValList(vec![in alloc; self.0.into_val(), self.1.into_val(), self.2.into_val()]?))
    }
}

impl<A: WasmTy, B: WasmTy, C: WasmTy, D: WasmTy> WasmParams for (A, B, C, D) {
    ghost use Rattle.std.specs.Prelude.{[], ◌∷◌, refl};
    ghost use Rattle.std.proofs.Common.{arith};

    ghost tys = { A.ty ∷ B.ty ∷ C.ty ∷ D.ty ∷ [] };

    ghost are_values = { λ x. A.is_value x.0 × B.is_value x.1 × C.is_value x.2 × D.is_value x.3 };

    ghost to_vals = { λ x. A.to_val x.0 ∷ B.to_val x.1 ∷ C.to_val x.2 ∷ D.to_val x.3 ∷ [] };

    ghost as_many = { λ x. refl };

    ghost few = { omega arith };

    fn typecheck(
        _engine: EngineId,
        params: &[ValType],
        position: TypeCheckPosition,
    ) -> Result<(), Refusal> {
        check_all(
            &[A::valtype(), B::valtype(), C::valtype(), D::valtype()],
            params,
            position,
        )
    }

    fn count() -> usize {
        4
    }

    fn into_places(self) -> [Val; 6] {
        [
            self.0.into_val(),
            self.1.into_val(),
            self.2.into_val(),
            self.3.into_val(),
            NOTHING,
            NOTHING,
        ]
    }

    fn into_vals(self, alloc: Global) -> Result<ValList, OutOfMemory> {
        Ok(ValList(vec![in alloc;
            self.0.into_val(),
            self.1.into_val(),
            self.2.into_val(),
            self.3.into_val(),
        ]?))
    }
}

impl<A: WasmTy, B: WasmTy, C: WasmTy, D: WasmTy, E: WasmTy> WasmParams for (A, B, C, D, E) {
    ghost use Rattle.std.specs.Prelude.{[], ◌∷◌, refl};
    ghost use Rattle.std.proofs.Common.{arith};

    ghost tys = { A.ty ∷ B.ty ∷ C.ty ∷ D.ty ∷ E.ty ∷ [] };

    ghost are_values = { λ x. A.is_value x.0 × B.is_value x.1 × C.is_value x.2 × D.is_value x.3 × E.is_value x.4 };

    ghost to_vals = { λ x. A.to_val x.0 ∷ B.to_val x.1 ∷ C.to_val x.2 ∷ D.to_val x.3 ∷ E.to_val x.4 ∷ [] };

    ghost as_many = { λ x. refl };

    ghost few = { omega arith };

    fn typecheck(
        _engine: EngineId,
        params: &[ValType],
        position: TypeCheckPosition,
    ) -> Result<(), Refusal> {
        check_all(
            &[
                A::valtype(),
                B::valtype(),
                C::valtype(),
                D::valtype(),
                E::valtype(),
            ],
            params,
            position,
        )
    }

    fn count() -> usize {
        5
    }

    fn into_places(self) -> [Val; 6] {
        [
            self.0.into_val(),
            self.1.into_val(),
            self.2.into_val(),
            self.3.into_val(),
            self.4.into_val(),
            NOTHING,
        ]
    }

    fn into_vals(self, alloc: Global) -> Result<ValList, OutOfMemory> {
        Ok(ValList(vec![in alloc;
            self.0.into_val(),
            self.1.into_val(),
            self.2.into_val(),
            self.3.into_val(),
            self.4.into_val(),
        ]?))
    }
}

impl<A: WasmTy, B: WasmTy, C: WasmTy, D: WasmTy, E: WasmTy, F: WasmTy> WasmParams
    for (A, B, C, D, E, F) {
    ghost use Rattle.std.specs.Prelude.{[], ◌∷◌, refl};
    ghost use Rattle.std.proofs.Common.{arith};

    ghost tys = { A.ty ∷ B.ty ∷ C.ty ∷ D.ty ∷ E.ty ∷ F.ty ∷ [] };

    ghost are_values = { λ x. A.is_value x.0 × B.is_value x.1 × C.is_value x.2 × D.is_value x.3 × E.is_value x.4 × F.is_value x.5 };

    ghost to_vals = { λ x. A.to_val x.0 ∷ B.to_val x.1 ∷ C.to_val x.2 ∷ D.to_val x.3 ∷ E.to_val x.4 ∷ F.to_val x.5 ∷ [] };

    ghost as_many = { λ x. refl };

    ghost few = { omega arith };

    fn typecheck(
        _engine: EngineId,
        params: &[ValType],
        position: TypeCheckPosition,
    ) -> Result<(), Refusal> {
        check_all(
            &[
                A::valtype(),
                B::valtype(),
                C::valtype(),
                D::valtype(),
                E::valtype(),
                F::valtype(),
            ],
            params,
            position,
        )
    }

    fn count() -> usize {
        6
    }

    fn into_places(self) -> [Val; 6] {
        [
            self.0.into_val(),
            self.1.into_val(),
            self.2.into_val(),
            self.3.into_val(),
            self.4.into_val(),
            self.5.into_val(),
        ]
    }

    fn into_vals(self, alloc: Global) -> Result<ValList, OutOfMemory> {
        Ok(ValList(vec![in alloc;
            self.0.into_val(),
            self.1.into_val(),
            self.2.into_val(),
            self.3.into_val(),
            self.4.into_val(),
            self.5.into_val(),
        ]?))
    }
}
