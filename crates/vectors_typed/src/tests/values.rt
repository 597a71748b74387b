//! Each static type alone.
use crate::tests::{calls, check_same, done, new_store};
use typed_values::WasmTy;
use wasm_values::{Func, NoFunc, StoreIds, Val};

#[test]
fn each_type_passes_through_a_closure(rt: HostRuntime) {
    let store = new_store(&rt, rt.alloc(), &mut StoreIds::new());
    check_same(&rt, calls::echo_one(store, -5), Ok(-5));
    check_same(&rt, calls::echo_one(store, i64::MIN), Ok(i64::MIN));
    check_same(
        &rt,
        calls::echo_one(store, 2_147_483_648_u32),
        Ok(2_147_483_648),
    );
    check_same(
        &rt,
        calls::echo_one(store, 9_223_372_036_854_775_808_u64),
        Ok(9_223_372_036_854_775_808),
    );
    let func = done(&rt, calls::wrap::<(), ()>(store, 0));
    assert!(rt; calls::echo_one(store, func) == Ok(func));
    assert!(rt; calls::echo_one(store, Some(func)) == Ok(Some(func)));
    let null: Option<NoFunc> = done(&rt, calls::echo_one(store, None));
    assert!(rt; null.is_none());
}

#[test]
fn unsigned_numbers_keep_their_bits(rt: HostRuntime) {
    let store = new_store(&rt, rt.alloc(), &mut StoreIds::new());
    let least = calls::through(
        store,
        |_data: &mut (), one: (i32,)| -> i32 { one.0 },
        2_147_483_648_u32,
    );
    check_same::<Result<i32, _>>(&rt, least, Ok(-2_147_483_648));
    let least = calls::through(
        store,
        |_data: &mut (), one: (i64,)| -> i64 { one.0 },
        9_223_372_036_854_775_808_u64,
    );
    check_same::<Result<i64, _>>(&rt, least, Ok(-9_223_372_036_854_775_808));
}

#[test]
fn values_are_read_back_by_their_kind(rt: HostRuntime) {
    check_same(&rt, u32::from_val(Val::I32(-1)), Some(4_294_967_295));
    check_same(&rt, u32::from_val(Val::I64(1)), None);
    check_same(
        &rt,
        u64::from_val(Val::I64(-1)),
        Some(18_446_744_073_709_551_615),
    );
    assert!(rt; Func::from_val(Val::FuncRef(None)) == None);
    assert!(rt; <Option<NoFunc>>::from_val(Val::ExternRef(None)).is_none());
}
