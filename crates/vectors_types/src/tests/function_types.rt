use crate::tests::{ENGINE, calls, check_same, next_in_chain, numbers};
use std::alloc::Global;
use std::process::Abort;
use std::test::Fail;
use wasm_types::{FuncType, TypeFault};

/// The second type is below the first, and the first is not below the second.
fn check_order(rt: &impl Abort, above: &FuncType, below: &FuncType) {
    check_same(
        rt,
        "the lower type is below the upper one",
        &below.matches(above),
        &true,
    );
    check_same(
        rt,
        "the upper type is not below the lower one",
        &above.matches(below),
        &false,
    );
}

/// The type at the end of a chain of 32 types that begins with this one.
fn last_of_chain(alloc: Global, first: &FuncType) -> Result<FuncType, Fail> {
    let mut last = first.clone()?;
    for _ in 2..=32 {
        last = next_in_chain(alloc, Some(&last))?;
    }
    Ok(last)
}

#[test]
fn the_thirty_third_of_a_chain_is_too_deep(rt: HostRuntime) -> Result<(), Fail> {
    let first = next_in_chain(rt.alloc(), None)?;
    let last = last_of_chain(rt.alloc(), &first)?;
    check_order(&rt, &first, &last);
    let refused = next_in_chain(rt.alloc(), Some(&last)).err();
    check_same(&rt, "the 33rd", &refused, &Some(TypeFault::TypeDepth));
    Ok(())
}

#[test]
fn a_type_of_numbers_alone_has_the_greatest_size(rt: HostRuntime) -> Result<(), Fail> {
    let alloc = rt.alloc();
    let most = numbers(alloc, 65535)?;
    let too_many = numbers(alloc, 65536)?;
    assert!(rt; calls::func_type(alloc, ENGINE, most.as_slice(), &[]).is_ok());
    let refused = calls::func_type(alloc, ENGINE, &[], too_many.as_slice()).err();
    check_same(&rt, "too many", &refused, &Some(TypeFault::TypeDepth));
    Ok(())
}
