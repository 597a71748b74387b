use super::{Answer, Bounds, CallFault, call};
use std::alloc::Global;
use std::test::Fail;
use wasm_values::{Refusal, Trap, Val};

/// A module that exports a function `add` of two integers of 32 bits.
const ADD: &[u8] =
    b"\0asm\x01\0\0\0\x01\x07\x01\x60\x02\x7f\x7f\x01\x7f\x03\x02\x01\0\x07\x07\x01\x03add\0\0\x0a\x09\x01\x07\0\x20\0\x20\x01\x6a\x0b";

/// Adds two values, with so much fuel.
fn add(alloc: Global, arguments: &[Val], fuel: Option<u64>) -> Result<Answer, CallFault> {
    let bounds = Bounds {
        fuel,
        turns: 1_000,
        pages: 1,
        elements: 1,
    };
    call(alloc, ADD, "add", arguments, bounds, None)
}

#[test]
fn gives_results(rt: HostRuntime) -> Result<(), Fail> {
    let added = add(rt.alloc(), &[Val::I32(2), Val::I32(-44)], None);
    match added {
        Ok(Answer::Values(values)) => assert!(rt; matches!(values.as_slice(), [Val::I32(-42)])),
        _ => return Err("results".into()),
    }
    Ok(())
}

#[test]
fn tells_traps_and_faults(rt: HostRuntime) -> Result<(), Fail> {
    match add(rt.alloc(), &[Val::I32(2), Val::I32(40)], Some(0)) {
        Ok(Answer::Refused(cause)) => assert!(rt; cause == Refusal::Trap(Trap::OutOfFuel)),
        _ => return Err("a trap".into()),
    }
    match add(rt.alloc(), &[Val::I32(2), Val::I64(40)], None) {
        Err(fault) => assert!(rt; fault == CallFault::BadArguments),
        Ok(_) => return Err("a fault".into()),
    }
    Ok(())
}
