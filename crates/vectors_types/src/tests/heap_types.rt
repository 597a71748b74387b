use crate::tests::{check_same, next_in_chain, open_type};
use std::alloc::{AllocError, Global};
use std::process::Abort;
use std::test::Fail;
use wasm_types::{FuncType, HeapType, TypeFault};

/// Which of the types of a table the type matches, in the order of the table, marked by `#`.
fn matched(alloc: Global, ty: &HeapType, table: &[(HeapType, &str)]) -> Result<String, AllocError> {
    let mut marks = String::new(alloc);
    for (other, _) in table {
        marks.push(if ty.matches(other) { '#' } else { '.' })?;
    }
    Ok(marks)
}

/// Each type of the table matches just those of the table that are marked beside it by `#`.
fn check_matching(
    rt: &impl Abort,
    alloc: Global,
    table: &[(HeapType, &str)],
) -> Result<(), AllocError> {
    for (ty, expected) in table {
        let marks = matched(alloc, ty, table)?;
        check_same(rt, *expected, &marks.as_str(), expected);
    }
    Ok(())
}

/// The non-final type `() -> ()` below another.
fn below(alloc: Global, above: &FuncType) -> Result<FuncType, TypeFault> {
    next_in_chain(alloc, Some(above))
}

/// Three types, each below the one before it, and one of no chain of theirs, with what each matches.
fn chain_of_three(alloc: Global) -> Result<[(HeapType, &'static str); 4], TypeFault> {
    let first = next_in_chain(alloc, None)?;
    let second = below(alloc, &first)?;
    let third = below(alloc, &second)?;
    let other = open_type(alloc)?;
    Ok([
        (HeapType::ConcreteFunc(first), "#..."),
        (HeapType::ConcreteFunc(second), "##.."),
        (HeapType::ConcreteFunc(third), "###."),
        (HeapType::ConcreteFunc(other), "...#"),
    ])
}

#[test]
fn heap_types_match_as_marked(rt: HostRuntime) -> Result<(), Fail> {
    let concrete = open_type(rt.alloc())?;
    check_matching(
        &rt,
        rt.alloc(),
        &[
            (HeapType::NoFunc, "###......"),
            (HeapType::ConcreteFunc(concrete), ".##......"),
            (HeapType::Func, "..#......"),
            (HeapType::NoExtern, "...##...."),
            (HeapType::Extern, "....#...."),
            (HeapType::None, ".....####"),
            (HeapType::I31, "......###"),
            (HeapType::Eq, ".......##"),
            (HeapType::Any, "........#"),
        ],
    )?;
    check_matching(&rt, rt.alloc(), &chain_of_three(rt.alloc())?)?;
    Ok(())
}
