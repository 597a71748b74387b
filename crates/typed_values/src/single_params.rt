//! Each static type alone, as the list of its one value.

use crate::checks::TypeCheckPosition;
use crate::one::{check_one, places_of_one, vals_of_one};
use crate::params::WasmParams;
use crate::static_type::WasmTy;
use spec_machine::ValList;
use std::alloc::Global;
use wasm_types::{EngineId, OutOfMemory, ValType};
use wasm_values::{Func, NoFunc, Refusal, Val};

impl WasmParams for i32 {
    ghost use Rattle.std.specs.Prelude.{[], ◌∷◌, refl};
    ghost use Rattle.std.proofs.Common.{arith};

    ghost tys = { ⟦<i32 as WasmTy>⟧.ty ∷ [] };

    ghost are_values = { λ x. ⟦<i32 as WasmTy>⟧.is_value x };

    ghost to_vals = { λ x. ⟦<i32 as WasmTy>⟧.to_val x ∷ [] };

    ghost as_many = { λ x. refl };

    ghost few = { omega arith };

    fn typecheck(
        _engine: EngineId,
        params: &[ValType],
        position: TypeCheckPosition,
    ) -> Result<(), Refusal> {
        check_one::<i32>(params, position)
    }

    fn count() -> usize {
        1
    }

    fn into_places(self) -> [Val; 6] {
        places_of_one(self)
    }

    fn into_vals(self, alloc: Global) -> Result<ValList, OutOfMemory> {
        vals_of_one(alloc, self)
    }
}

impl WasmParams for i64 {
    ghost use Rattle.std.specs.Prelude.{[], ◌∷◌, refl};
    ghost use Rattle.std.proofs.Common.{arith};

    ghost tys = { ⟦<i64 as WasmTy>⟧.ty ∷ [] };

    ghost are_values = { λ x. ⟦<i64 as WasmTy>⟧.is_value x };

    ghost to_vals = { λ x. ⟦<i64 as WasmTy>⟧.to_val x ∷ [] };

    ghost as_many = { λ x. refl };

    ghost few = { omega arith };

    fn typecheck(
        _engine: EngineId,
        params: &[ValType],
        position: TypeCheckPosition,
    ) -> Result<(), Refusal> {
        check_one::<i64>(params, position)
    }

    fn count() -> usize {
        1
    }

    fn into_places(self) -> [Val; 6] {
        places_of_one(self)
    }

    fn into_vals(self, alloc: Global) -> Result<ValList, OutOfMemory> {
        vals_of_one(alloc, self)
    }
}

impl WasmParams for u32 {
    ghost use Rattle.std.specs.Prelude.{[], ◌∷◌, refl};
    ghost use Rattle.std.proofs.Common.{arith};

    ghost tys = { ⟦<u32 as WasmTy>⟧.ty ∷ [] };

    ghost are_values = { λ x. ⟦<u32 as WasmTy>⟧.is_value x };

    ghost to_vals = { λ x. ⟦<u32 as WasmTy>⟧.to_val x ∷ [] };

    ghost as_many = { λ x. refl };

    ghost few = { omega arith };

    fn typecheck(
        _engine: EngineId,
        params: &[ValType],
        position: TypeCheckPosition,
    ) -> Result<(), Refusal> {
        check_one::<u32>(params, position)
    }

    fn count() -> usize {
        1
    }

    fn into_places(self) -> [Val; 6] {
        places_of_one(self)
    }

    fn into_vals(self, alloc: Global) -> Result<ValList, OutOfMemory> {
        vals_of_one(alloc, self)
    }
}

impl WasmParams for u64 {
    ghost use Rattle.std.specs.Prelude.{[], ◌∷◌, refl};
    ghost use Rattle.std.proofs.Common.{arith};

    ghost tys = { ⟦<u64 as WasmTy>⟧.ty ∷ [] };

    ghost are_values = { λ x. ⟦<u64 as WasmTy>⟧.is_value x };

    ghost to_vals = { λ x. ⟦<u64 as WasmTy>⟧.to_val x ∷ [] };

    ghost as_many = { λ x. refl };

    ghost few = { omega arith };

    fn typecheck(
        _engine: EngineId,
        params: &[ValType],
        position: TypeCheckPosition,
    ) -> Result<(), Refusal> {
        check_one::<u64>(params, position)
    }

    fn count() -> usize {
        1
    }

    fn into_places(self) -> [Val; 6] {
        places_of_one(self)
    }

    fn into_vals(self, alloc: Global) -> Result<ValList, OutOfMemory> {
        vals_of_one(alloc, self)
    }
}

impl WasmParams for Func {
    ghost use Rattle.std.specs.Prelude.{[], ◌∷◌, refl};
    ghost use Rattle.std.proofs.Common.{arith};

    ghost tys = { ⟦<Func as WasmTy>⟧.ty ∷ [] };

    ghost are_values = { λ x. ⟦<Func as WasmTy>⟧.is_value x };

    ghost to_vals = { λ x. ⟦<Func as WasmTy>⟧.to_val x ∷ [] };

    ghost as_many = { λ x. refl };

    ghost few = { omega arith };

    fn typecheck(
        _engine: EngineId,
        params: &[ValType],
        position: TypeCheckPosition,
    ) -> Result<(), Refusal> {
        check_one::<Func>(params, position)
    }

    fn count() -> usize {
        1
    }

    fn into_places(self) -> [Val; 6] {
        places_of_one(self)
    }

    fn into_vals(self, alloc: Global) -> Result<ValList, OutOfMemory> {
        vals_of_one(alloc, self)
    }
}

impl WasmParams for Option<Func> {
    ghost use Rattle.std.specs.Prelude.{[], ◌∷◌, refl};
    ghost use Rattle.std.proofs.Common.{arith};

    ghost tys = { ⟦<Option<Func> as WasmTy>⟧.ty ∷ [] };

    ghost are_values = { λ x. ⟦<Option<Func> as WasmTy>⟧.is_value x };

    ghost to_vals = { λ x. ⟦<Option<Func> as WasmTy>⟧.to_val x ∷ [] };

    ghost as_many = { λ x. refl };

    ghost few = { omega arith };

    fn typecheck(
        _engine: EngineId,
        params: &[ValType],
        position: TypeCheckPosition,
    ) -> Result<(), Refusal> {
        check_one::<Option<Func>>(params, position)
    }

    fn count() -> usize {
        1
    }

    fn into_places(self) -> [Val; 6] {
        places_of_one(self)
    }

    fn into_vals(self, alloc: Global) -> Result<ValList, OutOfMemory> {
        vals_of_one(alloc, self)
    }
}

impl WasmParams for Option<NoFunc> {
    ghost use Rattle.std.specs.Prelude.{[], ◌∷◌, refl};
    ghost use Rattle.std.proofs.Common.{arith};

    ghost tys = { ⟦<Option<NoFunc> as WasmTy>⟧.ty ∷ [] };

    ghost are_values = { λ x. ⟦<Option<NoFunc> as WasmTy>⟧.is_value x };

    ghost to_vals = { λ x. ⟦<Option<NoFunc> as WasmTy>⟧.to_val x ∷ [] };

    ghost as_many = { λ x. refl };

    ghost few = { omega arith };

    fn typecheck(
        _engine: EngineId,
        params: &[ValType],
        position: TypeCheckPosition,
    ) -> Result<(), Refusal> {
        check_one::<Option<NoFunc>>(params, position)
    }

    fn count() -> usize {
        1
    }

    fn into_places(self) -> [Val; 6] {
        places_of_one(self)
    }

    fn into_vals(self, alloc: Global) -> Result<ValList, OutOfMemory> {
        vals_of_one(alloc, self)
    }
}
