use crate::tests::{calls, check_same, open_type};
use std::alloc::{AllocError, Global};
use std::process::Abort;
use std::test::Fail;
use wasm_types::{
    ExternType, GlobalType, HeapType, Mutability, RefType, TagType, TypeFault, ValType,
};

fn func(alloc: Global) -> Result<ExternType, TypeFault> {
    Ok(ExternType::Func(open_type(alloc)?))
}

fn tag(alloc: Global) -> Result<ExternType, TypeFault> {
    Ok(ExternType::Tag(TagType::new(open_type(alloc)?)))
}

/// The type of references to the open type.
fn concrete_ref(alloc: Global) -> Result<RefType, TypeFault> {
    Ok(RefType::new(true, HeapType::ConcreteFunc(open_type(alloc)?)))
}

fn global(alloc: Global) -> Result<ExternType, TypeFault> {
    let content = ValType::Ref(concrete_ref(alloc)?);
    Ok(ExternType::Global(GlobalType::new(content, Mutability::Var)))
}

fn table(alloc: Global) -> Result<ExternType, TypeFault> {
    let element = concrete_ref(alloc)?;
    Ok(ExternType::Table(calls::table_type(element, 1, None)?))
}

fn memory() -> Result<ExternType, TypeFault> {
    Ok(ExternType::Memory(calls::memory_type(1, Some(2), 16)?))
}

fn equals_its_copy(ty: &ExternType) -> Result<bool, AllocError> {
    let copy = ty.clone()?;
    Ok(*ty == copy)
}

fn check_copy(rt: &impl Abort, name: &str, ty: &ExternType) -> Result<(), AllocError> {
    let is_equal = equals_its_copy(ty)?;
    check_same(rt, name, &is_equal, &true);
    Ok(())
}

/// A type of each kind, with types of functions and of references to them within: so the copies of all types are made.
#[test]
fn types_are_copied(rt: HostRuntime) -> Result<(), Fail> {
    check_copy(&rt, "function", &func(rt.alloc())?)?;
    check_copy(&rt, "tag", &tag(rt.alloc())?)?;
    check_copy(&rt, "global", &global(rt.alloc())?)?;
    check_copy(&rt, "table", &table(rt.alloc())?)?;
    check_copy(&rt, "memory", &memory()?)?;
    Ok(())
}
