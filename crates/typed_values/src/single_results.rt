//! The way back of each static type alone, from the list of its one value.

use crate::one::one_of_vals;
use crate::results::WasmResults;
use crate::static_type::WasmTy;
use wasm_values::{Func, NoFunc, Val};

impl WasmResults for i32 {
    ghost use Rattle.std.specs.Prelude.{[], ◌∷◌, refl};
    ghost use Rattle.typed_values.specs.ConversionLaws.{i32_kind, i32_each};
    ghost use Rattle.typed_values.specs.ListLaws.{one_of_kinds, one_accepted};
    ghost use Rattle.typed_values.specs.Lists.{from_one};

    ghost kinds = { ⟦<i32 as WasmTy>⟧.kind ∷ [] };

    ghost of_vals = { from_one ⟦<i32 as WasmTy>⟧.of_val };

    ghost there_and_back = { λ x _. refl };

    ghost of_the_kinds = { one_of_kinds ⟦<i32 as WasmTy>⟧.of_val ⟦<i32 as WasmTy>⟧.kind i32_kind };

    ghost each_accepted = { one_accepted ⟦<i32 as WasmTy>⟧.of_val ⟦<i32 as WasmTy>⟧.ty refl i32_each };

    fn from_vals(vals: &[Val]) -> Option<Self> {
        one_of_vals(vals)
    }
}

impl WasmResults for i64 {
    ghost use Rattle.std.specs.Prelude.{[], ◌∷◌, refl};
    ghost use Rattle.typed_values.specs.ConversionLaws.{i64_kind, i64_each};
    ghost use Rattle.typed_values.specs.ListLaws.{one_of_kinds, one_accepted};
    ghost use Rattle.typed_values.specs.Lists.{from_one};

    ghost kinds = { ⟦<i64 as WasmTy>⟧.kind ∷ [] };

    ghost of_vals = { from_one ⟦<i64 as WasmTy>⟧.of_val };

    ghost there_and_back = { λ x _. refl };

    ghost of_the_kinds = { one_of_kinds ⟦<i64 as WasmTy>⟧.of_val ⟦<i64 as WasmTy>⟧.kind i64_kind };

    ghost each_accepted = { one_accepted ⟦<i64 as WasmTy>⟧.of_val ⟦<i64 as WasmTy>⟧.ty refl i64_each };

    fn from_vals(vals: &[Val]) -> Option<Self> {
        one_of_vals(vals)
    }
}

impl WasmResults for u32 {
    ghost use Rattle.std.specs.Prelude.{[], ◌∷◌, refl};
    ghost use Rattle.typed_values.specs.ConversionLaws.{u32_back, u32_kind, u32_each};
    ghost use Rattle.typed_values.specs.ListLaws.{one_of_kinds, one_accepted};
    ghost use Rattle.typed_values.specs.Lists.{from_one};

    ghost kinds = { ⟦<u32 as WasmTy>⟧.kind ∷ [] };

    ghost of_vals = { from_one ⟦<u32 as WasmTy>⟧.of_val };

    ghost there_and_back = { u32_back };

    ghost of_the_kinds = { one_of_kinds ⟦<u32 as WasmTy>⟧.of_val ⟦<u32 as WasmTy>⟧.kind u32_kind };

    ghost each_accepted = { one_accepted ⟦<u32 as WasmTy>⟧.of_val ⟦<u32 as WasmTy>⟧.ty refl u32_each };

    fn from_vals(vals: &[Val]) -> Option<Self> {
        one_of_vals(vals)
    }
}

impl WasmResults for u64 {
    ghost use Rattle.std.specs.Prelude.{[], ◌∷◌, refl};
    ghost use Rattle.typed_values.specs.ConversionLaws.{u64_back, u64_kind, u64_each};
    ghost use Rattle.typed_values.specs.ListLaws.{one_of_kinds, one_accepted};
    ghost use Rattle.typed_values.specs.Lists.{from_one};

    ghost kinds = { ⟦<u64 as WasmTy>⟧.kind ∷ [] };

    ghost of_vals = { from_one ⟦<u64 as WasmTy>⟧.of_val };

    ghost there_and_back = { u64_back };

    ghost of_the_kinds = { one_of_kinds ⟦<u64 as WasmTy>⟧.of_val ⟦<u64 as WasmTy>⟧.kind u64_kind };

    ghost each_accepted = { one_accepted ⟦<u64 as WasmTy>⟧.of_val ⟦<u64 as WasmTy>⟧.ty refl u64_each };

    fn from_vals(vals: &[Val]) -> Option<Self> {
        one_of_vals(vals)
    }
}

impl WasmResults for Func {
    ghost use Rattle.std.specs.Prelude.{[], ◌∷◌, refl};
    ghost use Rattle.typed_values.specs.ConversionLaws.{func_kind, func_each};
    ghost use Rattle.typed_values.specs.ListLaws.{one_of_kinds, one_accepted};
    ghost use Rattle.typed_values.specs.Lists.{from_one};

    ghost kinds = { ⟦<Func as WasmTy>⟧.kind ∷ [] };

    ghost of_vals = { from_one ⟦<Func as WasmTy>⟧.of_val };

    ghost there_and_back = { λ x _. refl };

    ghost of_the_kinds = { one_of_kinds ⟦<Func as WasmTy>⟧.of_val ⟦<Func as WasmTy>⟧.kind func_kind };

    ghost each_accepted = { one_accepted ⟦<Func as WasmTy>⟧.of_val ⟦<Func as WasmTy>⟧.ty refl func_each };

    fn from_vals(vals: &[Val]) -> Option<Self> {
        one_of_vals(vals)
    }
}

impl WasmResults for Option<Func> {
    ghost use Rattle.std.specs.Prelude.{[], ◌∷◌, refl};
    ghost use Rattle.typed_values.specs.ConversionLaws.{func_or_null_kind, func_or_null_each};
    ghost use Rattle.typed_values.specs.ListLaws.{one_of_kinds, one_accepted};
    ghost use Rattle.typed_values.specs.Lists.{from_one};

    ghost kinds = { ⟦<Option<Func> as WasmTy>⟧.kind ∷ [] };

    ghost of_vals = { from_one ⟦<Option<Func> as WasmTy>⟧.of_val };

    ghost there_and_back = { λ x _. refl };

    ghost of_the_kinds = { one_of_kinds ⟦<Option<Func> as WasmTy>⟧.of_val ⟦<Option<Func> as WasmTy>⟧.kind func_or_null_kind };

    ghost each_accepted = { one_accepted ⟦<Option<Func> as WasmTy>⟧.of_val ⟦<Option<Func> as WasmTy>⟧.ty refl func_or_null_each };

    fn from_vals(vals: &[Val]) -> Option<Self> {
        one_of_vals(vals)
    }
}

impl WasmResults for Option<NoFunc> {
    ghost use Rattle.std.specs.Prelude.{[], ◌∷◌, refl};
    ghost use Rattle.typed_values.specs.ConversionLaws.{null_no_func_back, null_no_func_kind, null_no_func_each};
    ghost use Rattle.typed_values.specs.ListLaws.{one_of_kinds, one_accepted};
    ghost use Rattle.typed_values.specs.Lists.{from_one};

    ghost kinds = { ⟦<Option<NoFunc> as WasmTy>⟧.kind ∷ [] };

    ghost of_vals = { from_one ⟦<Option<NoFunc> as WasmTy>⟧.of_val };

    ghost there_and_back = { null_no_func_back };

    ghost of_the_kinds = { one_of_kinds ⟦<Option<NoFunc> as WasmTy>⟧.of_val ⟦<Option<NoFunc> as WasmTy>⟧.kind null_no_func_kind };

    ghost each_accepted = { one_accepted ⟦<Option<NoFunc> as WasmTy>⟧.of_val ⟦<Option<NoFunc> as WasmTy>⟧.ty refl null_no_func_each };

    fn from_vals(vals: &[Val]) -> Option<Self> {
        one_of_vals(vals)
    }
}
