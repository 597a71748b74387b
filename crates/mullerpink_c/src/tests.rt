use super::{
    MullerpinkCalled, mullerpink_call, mullerpink_call_bytes, mullerpink_run, mullerpink_session,
};
use c_calls::CBounds;
use c_values::CValue;
use std::alloc::Global;
use std::test::Fail;

/// A module that exports a function `add` of two integers of 32 bits.
const ADD: &[u8] =
    b"\0asm\x01\0\0\0\x01\x07\x01\x60\x02\x7f\x7f\x01\x7f\x03\x02\x01\0\x07\x07\x01\x03add\0\0\x0a\x09\x01\x07\0\x20\0\x20\x01\x6a\x0b";

/// A module that takes bytes at 0, and whose export `f` answers as many.
const SAME: &[u8] =
    b"\0asm\x01\0\0\0\x01\x0c\x02\x60\x01\x7f\x01\x7f\x60\x02\x7f\x7f\x01\x7f\x03\x03\x02\0\x01\x05\x03\x01\0\x01\x07\x16\x03\x06memory\x02\0\x05alloc\0\0\x01f\0\x01\x0a\x0b\x02\x04\0\x41\0\x0b\x04\0\x20\x01\x0b";

#[test]
fn runs_a_module(rt: HostRuntime) -> Result<(), Fail> {
    let mut out = *b"....................";
    let ran = mullerpink_run(rt.alloc(), b"add\x002\x0040", ADD, &mut out);
    assert_eq!(rt; (ran.code, ran.count), (0, 17));
    assert_eq!(rt; out.as_slice(), b"ok values i32:42\n...".as_slice());
    let no_text = mullerpink_run(rt.alloc(), b"\xff", ADD, &mut out);
    assert_eq!(rt; (no_text.code, no_text.count), (11, 0));
    Ok(())
}

#[test]
fn runs_a_session(rt: HostRuntime) -> Result<(), Fail> {
    let mut out = *b"........";
    let done = mullerpink_session(rt.alloc(), b"{\"commands\": []}", &mut out);
    assert_eq!(rt; (done.code, done.count), (0, 0));
    let wrong = mullerpink_session(rt.alloc(), b"[]", &mut out);
    assert_eq!(rt; (wrong.code, wrong.count), (6, 0));
    Ok(())
}

/// A value of a kind.
fn value(kind: u32, low: u64) -> CValue {
    CValue { kind, low, high: 0 }
}

/// Calls `name` of `ADD` with so much fuel.
fn called(
    alloc: Global,
    name: &[u8],
    arguments: &[CValue],
    fuel: u64,
    results: &mut [CValue],
) -> MullerpinkCalled {
    let bounds = CBounds {
        has_fuel: 1,
        pages: 1,
        elements: 1,
        fuel,
        turns: 1_000,
    };
    mullerpink_call(alloc, ADD, name, arguments, &bounds, results)
}

#[test]
fn calls_with_values(rt: HostRuntime) {
    let mut results = [value(9, 9), value(9, 9)];
    let arguments = [value(0, 2), value(0, 4_294_967_295)];
    let added = called(rt.alloc(), b"add", &arguments, 100, &mut results);
    assert_eq!(rt; (added.code, added.cause, added.count), (0, 0, 1));
    assert_eq!(rt;
        (results[0].kind, results[0].low, results[0].high),
        (0, 1, 0)
    );
    assert_eq!(rt; (results[1].kind, results[1].low), (9, 9));
    let spent = called(rt.alloc(), b"add", &arguments, 0, &mut results);
    assert_eq!(rt; (spent.code, spent.cause, spent.count), (14, 9, 0));
}

#[test]
fn tells_why_there_are_no_results(rt: HostRuntime) {
    let arguments = [value(0, 2), value(0, 40)];
    let mut none = [];
    let lacked = called(rt.alloc(), b"add", &arguments, 100, &mut none);
    assert_eq!(rt; (lacked.code, lacked.count), (9, 1));
    let unknown = called(rt.alloc(), b"sub", &arguments, 100, &mut none);
    assert_eq!(rt; (unknown.code, unknown.count), (6, 0));
    let few = called(rt.alloc(), b"add", &arguments[..1], 100, &mut none);
    assert_eq!(rt; few.code, 10);
    let other = called(
        rt.alloc(),
        b"add",
        &[value(0, 2), value(1, 40)],
        100,
        &mut none,
    );
    assert_eq!(rt; other.code, 10);
    let no_kind = called(rt.alloc(), b"add", &[value(8, 2)], 100, &mut none);
    assert_eq!(rt; no_kind.code, 16);
    let no_text = called(rt.alloc(), b"\xff", &arguments, 100, &mut none);
    assert_eq!(rt; no_text.code, 11);
}

#[test]
fn calls_with_bytes(rt: HostRuntime) {
    let bounds = CBounds {
        has_fuel: 0,
        pages: 1,
        elements: 1,
        fuel: 0,
        turns: 1_000,
    };
    let mut out = *b"......";
    let same = mullerpink_call_bytes(rt.alloc(), SAME, b"f", &[], &bounds, b"abcd", &mut out);
    assert_eq!(rt; (same.code, same.cause, same.count), (0, 0, 4));
    assert_eq!(rt; out.as_slice(), b"abcd..".as_slice());
    let few = mullerpink_call_bytes(rt.alloc(), SAME, b"f", &[], &bounds, b"abcdefg", &mut out);
    assert_eq!(rt; (few.code, few.count), (9, 7));
    let none = mullerpink_call_bytes(rt.alloc(), ADD, b"add", &[], &bounds, b"a", &mut out);
    assert_eq!(rt; none.code, 13);
}
