use crate::static_type::WasmTy;
use wasm_types::{HeapType, RefType, ValType};
use wasm_values::{Func, NoFunc, Val};

impl WasmTy for Func {
    ghost use Rattle.std.specs.Prelude.{refl};
    ghost use Rattle.typed_values.specs.StaticTypes.{a_func};
    ghost use Rattle.typed_values.specs.Conversions.{func_type, val_func};
    ghost use Rattle.typed_values.specs.ConversionLaws.{func_kind, func_fits, func_each};
    ghost use Rattle.wasm_types.specs.declared.value_types.ValType.TheVariants as t;
    ghost use Rattle.wasm_values.specs.declared.values.Val.TheVariants as v;
    ghost use Rattle.std.specs.Prelude.{Some};

    ghost ty = { func_type };

    ghost kind = { a_func };

    ghost is_value = { λ _. Unit {0} };

    ghost to_val = { λ f. v.FuncRef (Some f) };

    ghost of_val = { val_func };

    ghost there_and_back = { λ x _. refl };

    ghost of_the_kind = { func_kind };

    ghost fits_its_type = { func_fits };

    ghost each_that_fits = { func_each };

    ghost plain = { refl };

    fn valtype() -> ValType {
        ValType::Ref(RefType::new(false, HeapType::Func))
    }

    fn into_val(self) -> Val {
        Val::FuncRef(Some(self))
    }

    fn from_val(val: Val) -> Option<Func> {
        match val {
            Val::FuncRef(f) => f,
            _ => None,
        }
    }
}

impl WasmTy for Option<Func> {
    ghost use Rattle.std.specs.Prelude.{refl};
    ghost use Rattle.typed_values.specs.StaticTypes.{a_func_or_null};
    ghost use Rattle.typed_values.specs.Conversions.{null_func_type, val_func_or_null};
    ghost use Rattle.typed_values.specs.ConversionLaws.{func_or_null_kind, func_or_null_fits, func_or_null_each};
    ghost use Rattle.wasm_types.specs.declared.value_types.ValType.TheVariants as t;
    ghost use Rattle.wasm_values.specs.declared.values.Val.TheVariants as v;

    ghost ty = { null_func_type };

    ghost kind = { a_func_or_null };

    ghost is_value = { λ _. Unit {0} };

    ghost to_val = { λ f. v.FuncRef f };

    ghost of_val = { val_func_or_null };

    ghost there_and_back = { λ x _. refl };

    ghost of_the_kind = { func_or_null_kind };

    ghost fits_its_type = { func_or_null_fits };

    ghost each_that_fits = { func_or_null_each };

    ghost plain = { refl };

    fn valtype() -> ValType {
        ValType::Ref(RefType::new(true, HeapType::Func))
    }

    fn into_val(self) -> Val {
        Val::FuncRef(self)
    }

    fn from_val(val: Val) -> Option<Option<Func>> {
        match val {
            Val::FuncRef(f) => Some(f),
            _ => None,
        }
    }
}

impl WasmTy for Option<NoFunc> {
    ghost use Rattle.std.specs.Prelude.{refl};
    ghost use Rattle.typed_values.specs.StaticTypes.{a_null_func};
    ghost use Rattle.typed_values.specs.Conversions.{null_no_func_type, of_null_no_func, val_null_no_func};
    ghost use Rattle.typed_values.specs.ConversionLaws.{null_no_func_back, null_no_func_kind, null_no_func_each};
    ghost use Rattle.wasm_types.specs.declared.value_types.ValType.TheVariants as t;
    ghost use Rattle.wasm_values.specs.declared.values.Val.TheVariants as v;

    ghost ty = { null_no_func_type };

    ghost kind = { a_null_func };

    ghost is_value = { λ _. Unit {0} };

    ghost to_val = { of_null_no_func };

    ghost of_val = { val_null_no_func };

    ghost there_and_back = { null_no_func_back };

    ghost of_the_kind = { null_no_func_kind };

    ghost fits_its_type = { λ m x. refl };

    ghost each_that_fits = { null_no_func_each };

    ghost plain = { refl };

    fn valtype() -> ValType {
        ValType::Ref(RefType::new(true, HeapType::NoFunc))
    }

    fn into_val(self) -> Val {
        match self {
            None => Val::FuncRef(None),
            Some(none) => match none {},
        }
    }

    fn from_val(val: Val) -> Option<Option<NoFunc>> {
        match val {
            Val::FuncRef(None) => Some(None),
            _ => None,
        }
    }
}
