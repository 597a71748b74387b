//! Each static type alone, as what a closure returns.

use crate::returns::{HostFailed, WasmRet};
use spec_machine::ValList;
use std::alloc::Global;
use typed_values::WasmTy;
use wasm_types::{EngineId, FuncType, OutOfMemory, TypeFault, ValType};
use wasm_values::{Func, NoFunc};

impl WasmRet for i32 {
    ghost use Rattle.std.specs.Prelude.{[], ◌∷◌, Some, refl};

    ghost returned = { ⟦<i32 as WasmTy>⟧.ty ∷ [] };

    ghost given = { λ x. Some (⟦<i32 as WasmTy>⟧.to_val x ∷ []) };

    ghost as_many = { λ x. refl };

    ghost plain = { refl };

    ghost few = { refl };

    fn func_type(
        alloc: Global,
        engine: EngineId,
        params: &[ValType],
    ) -> Result<FuncType, TypeFault> {
        <(i32,)>::func_type(alloc, engine, params)
    }

    fn into_fallible(self, alloc: Global) -> Result<Result<ValList, HostFailed>, OutOfMemory> {
        (self,).into_fallible(alloc)
    }
}

impl WasmRet for i64 {
    ghost use Rattle.std.specs.Prelude.{[], ◌∷◌, Some, refl};

    ghost returned = { ⟦<i64 as WasmTy>⟧.ty ∷ [] };

    ghost given = { λ x. Some (⟦<i64 as WasmTy>⟧.to_val x ∷ []) };

    ghost as_many = { λ x. refl };

    ghost plain = { refl };

    ghost few = { refl };

    fn func_type(
        alloc: Global,
        engine: EngineId,
        params: &[ValType],
    ) -> Result<FuncType, TypeFault> {
        <(i64,)>::func_type(alloc, engine, params)
    }

    fn into_fallible(self, alloc: Global) -> Result<Result<ValList, HostFailed>, OutOfMemory> {
        (self,).into_fallible(alloc)
    }
}

impl WasmRet for u32 {
    ghost use Rattle.std.specs.Prelude.{[], ◌∷◌, Some, refl};

    ghost returned = { ⟦<u32 as WasmTy>⟧.ty ∷ [] };

    ghost given = { λ x. Some (⟦<u32 as WasmTy>⟧.to_val x ∷ []) };

    ghost as_many = { λ x. refl };

    ghost plain = { refl };

    ghost few = { refl };

    fn func_type(
        alloc: Global,
        engine: EngineId,
        params: &[ValType],
    ) -> Result<FuncType, TypeFault> {
        <(u32,)>::func_type(alloc, engine, params)
    }

    fn into_fallible(self, alloc: Global) -> Result<Result<ValList, HostFailed>, OutOfMemory> {
        (self,).into_fallible(alloc)
    }
}

impl WasmRet for u64 {
    ghost use Rattle.std.specs.Prelude.{[], ◌∷◌, Some, refl};

    ghost returned = { ⟦<u64 as WasmTy>⟧.ty ∷ [] };

    ghost given = { λ x. Some (⟦<u64 as WasmTy>⟧.to_val x ∷ []) };

    ghost as_many = { λ x. refl };

    ghost plain = { refl };

    ghost few = { refl };

    fn func_type(
        alloc: Global,
        engine: EngineId,
        params: &[ValType],
    ) -> Result<FuncType, TypeFault> {
        <(u64,)>::func_type(alloc, engine, params)
    }

    fn into_fallible(self, alloc: Global) -> Result<Result<ValList, HostFailed>, OutOfMemory> {
        (self,).into_fallible(alloc)
    }
}

impl WasmRet for Func {
    ghost use Rattle.std.specs.Prelude.{[], ◌∷◌, Some, refl};

    ghost returned = { ⟦<Func as WasmTy>⟧.ty ∷ [] };

    ghost given = { λ x. Some (⟦<Func as WasmTy>⟧.to_val x ∷ []) };

    ghost as_many = { λ x. refl };

    ghost plain = { refl };

    ghost few = { refl };

    fn func_type(
        alloc: Global,
        engine: EngineId,
        params: &[ValType],
    ) -> Result<FuncType, TypeFault> {
        <(Func,)>::func_type(alloc, engine, params)
    }

    fn into_fallible(self, alloc: Global) -> Result<Result<ValList, HostFailed>, OutOfMemory> {
        (self,).into_fallible(alloc)
    }
}

impl WasmRet for Option<Func> {
    ghost use Rattle.std.specs.Prelude.{[], ◌∷◌, Some, refl};

    ghost returned = { ⟦<Option<Func> as WasmTy>⟧.ty ∷ [] };

    ghost given = { λ x. Some (⟦<Option<Func> as WasmTy>⟧.to_val x ∷ []) };

    ghost as_many = { λ x. refl };

    ghost plain = { refl };

    ghost few = { refl };

    fn func_type(
        alloc: Global,
        engine: EngineId,
        params: &[ValType],
    ) -> Result<FuncType, TypeFault> {
        <(Option<Func>,)>::func_type(alloc, engine, params)
    }

    fn into_fallible(self, alloc: Global) -> Result<Result<ValList, HostFailed>, OutOfMemory> {
        (self,).into_fallible(alloc)
    }
}

impl WasmRet for Option<NoFunc> {
    ghost use Rattle.std.specs.Prelude.{[], ◌∷◌, Some, refl};

    ghost returned = { ⟦<Option<NoFunc> as WasmTy>⟧.ty ∷ [] };

    ghost given = { λ x. Some (⟦<Option<NoFunc> as WasmTy>⟧.to_val x ∷ []) };

    ghost as_many = { λ x. refl };

    ghost plain = { refl };

    ghost few = { refl };

    fn func_type(
        alloc: Global,
        engine: EngineId,
        params: &[ValType],
    ) -> Result<FuncType, TypeFault> {
        <(Option<NoFunc>,)>::func_type(alloc, engine, params)
    }

    fn into_fallible(self, alloc: Global) -> Result<Result<ValList, HostFailed>, OutOfMemory> {
        (self,).into_fallible(alloc)
    }
}
