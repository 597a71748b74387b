//! What leads from one object to others, once for each kind of object.
use crate::tests::{TestStore, calls, check_same, done, new_func, new_store, types};
use std::alloc::Global as Heap;
use std::process::Abort;
use wasm_store::Node;
use wasm_types::{GlobalType, HeapType, Mutability, RefType, TagType, ValType};
use wasm_values::{Extern, Ref, Val};

/// There are as many places as members, and these stand there; behind them is none.
fn check_links(rt: &impl Abort, store: &TestStore, node: Node, members: &[Option<Node>]) {
    check_same(rt, calls::link_count(store, node), members.len());
    for place in 0..members.len() {
        check_same(rt, calls::link(store, node, place), members[place]);
    }
    check_same(rt, calls::link(store, node, members.len()), None);
}

/// The function 0, a table of a null and of that function, a memory, a global of that function and one of a number, a tag,
/// and the function 1 with all but that global stored.
fn fill(rt: &impl Abort, alloc: Heap, store: &mut TestStore) {
    let func = new_func(rt, alloc, store);
    let ty = types::table(rt, RefType::new(true, HeapType::Func), (2, None));
    let table = done(rt, calls::table_new(store, ty, Ref::Func(None)));
    done(rt, calls::table_set(store, table, 1, Ref::Func(Some(func))));
    let memory = done(
        rt,
        calls::memory_new(store, types::memory(rt, (0, None), 16)),
    );
    let ty = GlobalType::new(ValType::funcref(), Mutability::Const);
    let global = done(rt, calls::global_new(store, ty, Val::FuncRef(Some(func))));
    let ty = GlobalType::new(ValType::I32, Mutability::Const);
    done(rt, calls::global_new(store, ty, Val::I32(0)));
    let tag = done(
        rt,
        calls::tag_new(store, &TagType::new(types::func(rt, alloc))),
    );
    let stored = [
        Extern::Tag(tag),
        Extern::Memory(memory),
        Extern::Table(table),
        Extern::Global(global),
        Extern::Func(func),
    ];
    done(
        rt,
        calls::func_new(store, types::func(rt, alloc), 0, &stored),
    );
}

#[test]
fn an_object_leads_to_others(rt: HostRuntime) {
    let store = new_store(&rt, rt.alloc());
    fill(&rt, rt.alloc(), store);
    let func = Some(Node::Func(0));
    check_links(&rt, store, Node::Func(0), &[]);
    check_links(&rt, store, Node::Table(0), &[None, func]);
    check_links(&rt, store, Node::Memory(0), &[]);
    check_links(&rt, store, Node::Global(0), &[func]);
    check_links(&rt, store, Node::Global(1), &[None]);
    let (memory, table) = (Some(Node::Memory(0)), Some(Node::Table(0)));
    let stored = [None, memory, table, Some(Node::Global(0)), func];
    check_links(&rt, store, Node::Func(1), &stored);
}

#[test]
fn what_is_not_there_leads_nowhere(rt: HostRuntime) {
    let store = new_store(&rt, rt.alloc());
    check_links(&rt, store, Node::Func(0), &[]);
    check_links(&rt, store, Node::Instance(0), &[]);
    check_links(&rt, store, Node::Memory(0), &[]);
    check_links(&rt, store, Node::Table(0), &[]);
    check_links(&rt, store, Node::Global(0), &[]);
}
