use super::{CValue, value_in, value_out};
use std::test::Fail;
use wasm_values::Val;

#[test]
fn gives_back_what_it_was_given(rt: HostRuntime) -> Result<(), Fail> {
    let given = CValue {
        kind: 4,
        low: 18_446_744_073_709_551_615,
        high: 3,
    };
    let made = value_out(value_in(given).ok_or("a vector")?);
    assert_eq!(rt;
        (made.kind, made.low, made.high),
        (given.kind, given.low, given.high)
    );
    let minus_one = value_out(Val::I32(-1));
    assert_eq!(rt; (minus_one.kind, minus_one.low), (0, 4_294_967_295));
    Ok(())
}

#[test]
fn refuses_bits_that_the_kind_has_not(rt: HostRuntime) {
    let given = |kind, low, high| CValue { kind, low, high };
    assert!(rt; value_in(given(0, 4_294_967_296, 0)).is_none());
    assert!(rt; value_in(given(3, 0, 1)).is_none());
    assert!(rt; value_in(given(5, 1, 0)).is_none());
    assert!(rt; value_in(given(8, 0, 0)).is_none());
}
