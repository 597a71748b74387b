use crate::static_type::WasmTy;
use wasm_types::ValType;
use wasm_values::Val;

impl WasmTy for i32 {
    ghost use Rattle.std.specs.Prelude.{refl};
    ghost use Rattle.typed_values.specs.StaticTypes.{an_i32};
    ghost use Rattle.wasm_values.specs.Values.{val_i32};
    ghost use Rattle.typed_values.specs.ConversionLaws.{i32_kind, i32_each};
    ghost use Rattle.wasm_types.specs.declared.value_types.ValType.TheVariants as t;
    ghost use Rattle.wasm_values.specs.declared.values.Val.TheVariants as v;

    ghost ty = { t.I32 };

    ghost kind = { an_i32 };

    ghost is_value = { λ _. Unit {0} };

    ghost to_val = { λ x. v.I32 x };

    ghost of_val = { val_i32 };

    ghost there_and_back = { λ x _. refl };

    ghost of_the_kind = { i32_kind };

    ghost fits_its_type = { λ m x. refl };

    ghost each_that_fits = { i32_each };

    ghost plain = { refl };

    fn valtype() -> ValType {
        ValType::I32
    }

    fn into_val(self) -> Val {
        Val::I32(self)
    }

    fn from_val(val: Val) -> Option<i32> {
        match val {
            Val::I32(n) => Some(n),
            _ => None,
        }
    }
}

impl WasmTy for i64 {
    ghost use Rattle.std.specs.Prelude.{refl};
    ghost use Rattle.typed_values.specs.StaticTypes.{an_i64};
    ghost use Rattle.wasm_values.specs.Values.{val_i64};
    ghost use Rattle.typed_values.specs.ConversionLaws.{i64_kind, i64_each};
    ghost use Rattle.wasm_types.specs.declared.value_types.ValType.TheVariants as t;
    ghost use Rattle.wasm_values.specs.declared.values.Val.TheVariants as v;

    ghost ty = { t.I64 };

    ghost kind = { an_i64 };

    ghost is_value = { λ _. Unit {0} };

    ghost to_val = { λ x. v.I64 x };

    ghost of_val = { val_i64 };

    ghost there_and_back = { λ x _. refl };

    ghost of_the_kind = { i64_kind };

    ghost fits_its_type = { λ m x. refl };

    ghost each_that_fits = { i64_each };

    ghost plain = { refl };

    fn valtype() -> ValType {
        ValType::I64
    }

    fn into_val(self) -> Val {
        Val::I64(self)
    }

    fn from_val(val: Val) -> Option<i64> {
        match val {
            Val::I64(n) => Some(n),
            _ => None,
        }
    }
}

impl WasmTy for u32 {
    ghost use Rattle.std.specs.Prelude.{refl};
    ghost use Rattle.typed_values.specs.StaticTypes.{an_i32};
    ghost use Rattle.typed_values.specs.Conversions.{val_u32};
    ghost use Rattle.typed_values.specs.ConversionLaws.{u32_back, u32_kind, u32_each};
    ghost use Rattle.wasm_types.specs.declared.value_types.ValType.TheVariants as t;
    ghost use Rattle.wasm_values.specs.declared.values.Val.TheVariants as v;
    ghost use Rattle.std.specs.Prelude.{◌<◌, ◌^◌};
    ghost use Rattle.std.specs.Int.{w32, cast_signed};

    ghost ty = { t.I32 };

    ghost kind = { an_i32 };

    ghost is_value = { λ x. x < 2 ^ 32 };

    ghost to_val = { λ x. v.I32 (cast_signed w32 x) };

    ghost of_val = { val_u32 };

    ghost there_and_back = { u32_back };

    ghost of_the_kind = { u32_kind };

    ghost fits_its_type = { λ m x. refl };

    ghost each_that_fits = { u32_each };

    ghost plain = { refl };

    fn valtype() -> ValType {
        ValType::I32
    }

    fn into_val(self) -> Val {
        Val::I32(self.cast_signed())
    }

    fn from_val(val: Val) -> Option<u32> {
        match val {
            Val::I32(n) => Some(n.cast_unsigned()),
            _ => None,
        }
    }
}

impl WasmTy for u64 {
    ghost use Rattle.std.specs.Prelude.{refl};
    ghost use Rattle.typed_values.specs.StaticTypes.{an_i64};
    ghost use Rattle.typed_values.specs.Conversions.{val_u64};
    ghost use Rattle.typed_values.specs.ConversionLaws.{u64_back, u64_kind, u64_each};
    ghost use Rattle.wasm_types.specs.declared.value_types.ValType.TheVariants as t;
    ghost use Rattle.wasm_values.specs.declared.values.Val.TheVariants as v;
    ghost use Rattle.std.specs.Prelude.{◌<◌, ◌^◌};
    ghost use Rattle.std.specs.Int.{w64, cast_signed};

    ghost ty = { t.I64 };

    ghost kind = { an_i64 };

    ghost is_value = { λ x. x < 2 ^ 64 };

    ghost to_val = { λ x. v.I64 (cast_signed w64 x) };

    ghost of_val = { val_u64 };

    ghost there_and_back = { u64_back };

    ghost of_the_kind = { u64_kind };

    ghost fits_its_type = { λ m x. refl };

    ghost each_that_fits = { u64_each };

    ghost plain = { refl };

    fn valtype() -> ValType {
        ValType::I64
    }

    fn into_val(self) -> Val {
        Val::I64(self.cast_signed())
    }

    fn from_val(val: Val) -> Option<u64> {
        match val {
            Val::I64(n) => Some(n.cast_unsigned()),
            _ => None,
        }
    }
}
