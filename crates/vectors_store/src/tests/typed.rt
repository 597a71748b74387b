//! The types of objects and values, in which stands a type of functions: what is told is a copy, which takes memory.
use crate::tests::{calls, check_same, check_type, done, new_func, new_store, types};
use std::alloc::Global as Heap;
use std::process::Abort;
use wasm_types::{ExternType, GlobalType, Mutability, TableType, TagType, ValType};
use wasm_values::{Extern, Ref, Val};

#[test]
fn a_function_and_a_reference_to_it_have_their_types(rt: HostRuntime) {
    let alloc = rt.alloc();
    let store = new_store(&rt, alloc);
    let func = new_func(&rt, alloc, store);
    let (reference, value) = (Ref::Func(Some(func)), Val::FuncRef(Some(func)));
    let ty = types::func(&rt, alloc);
    check_same(&rt, calls::func_matches_ty(store, func, &ty), Ok(true));
    check_type(&rt, calls::func_ty(store, func), ty);
    let ty = types::reference(&rt, alloc, false);
    check_same(&rt, calls::ref_matches_ty(store, reference, &ty), Ok(true));
    check_type(&rt, calls::ref_ty(store, reference), ty);
    let ty = ValType::Ref(types::reference(&rt, alloc, false));
    check_same(&rt, calls::val_matches_ty(store, value, &ty), Ok(true));
    check_type(&rt, calls::val_ty(store, value), ty);
    let ty = ExternType::Func(types::func(&rt, alloc));
    check_type(&rt, calls::extern_ty(store, Extern::Func(func)), ty);
}

fn table_type(rt: &impl Abort, alloc: Heap) -> TableType {
    types::table(rt, types::reference(rt, alloc, true), (1, Some(2)))
}

fn global_type(rt: &impl Abort, alloc: Heap) -> GlobalType {
    let content = ValType::Ref(types::reference(rt, alloc, true));
    GlobalType::new(content, Mutability::Var)
}

#[test]
fn a_table_and_a_global_have_their_types(rt: HostRuntime) {
    let alloc = rt.alloc();
    let store = new_store(&rt, alloc);
    let ty = table_type(&rt, alloc);
    let table = done(&rt, calls::table_new(store, ty, Ref::Func(None)));
    let ty = global_type(&rt, alloc);
    let global = done(&rt, calls::global_new(store, ty, Val::FuncRef(None)));
    check_type(&rt, calls::table_ty(store, table), table_type(&rt, alloc));
    check_type(
        &rt,
        calls::global_ty(store, global),
        global_type(&rt, alloc),
    );
    let ty = ExternType::Table(table_type(&rt, alloc));
    check_type(&rt, calls::extern_ty(store, Extern::Table(table)), ty);
    let ty = ExternType::Global(global_type(&rt, alloc));
    check_type(&rt, calls::extern_ty(store, Extern::Global(global)), ty);
}

#[test]
fn a_tag_and_a_memory_have_their_types(rt: HostRuntime) {
    let alloc = rt.alloc();
    let store = new_store(&rt, alloc);
    let ty = TagType::new(types::func(&rt, alloc));
    let tag = done(&rt, calls::tag_new(store, &ty));
    check_same(&rt, calls::tag_eq(store, tag, tag), Ok(true));
    check_type(&rt, calls::tag_ty(store, tag), ty);
    let ty = ExternType::Tag(TagType::new(types::func(&rt, alloc)));
    check_type(&rt, calls::extern_ty(store, Extern::Tag(tag)), ty);
    let ty = types::memory(&rt, (1, Some(2)), 0);
    let memory = done(&rt, calls::memory_new(store, ty));
    let ty = ExternType::Memory(types::memory(&rt, (1, Some(2)), 0));
    check_type(&rt, calls::extern_ty(store, Extern::Memory(memory)), ty);
}
