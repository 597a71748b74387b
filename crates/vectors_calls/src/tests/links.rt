//! What leads from an instance, and from its objects, to others.
use crate::tests::modules::{LINKED, module_in};
use crate::tests::{Meter, TestStore, calls, check_same, done, new_store, no_epochs};
use std::process::Abort;
use wasm_store::Node;
use wasm_values::Table;

/// There are as many places as members, and these stand there; behind them is none.
fn check_links(rt: &impl Abort, store: &TestStore, node: Node, members: &[Option<Node>]) {
    check_same(rt, calls::link_count(store, node), members.len());
    for place in 0..members.len() {
        check_same(rt, calls::link(store, node, place), members[place]);
    }
    check_same(rt, calls::link(store, node, members.len()), None);
}

#[test]
fn an_instance_leads_to_what_it_names(rt: HostRuntime) {
    let alloc = rt.alloc();
    let store = new_store(&rt, alloc, Meter::Nothing);
    let module = module_in(&rt, alloc, LINKED);
    let mut epochs = no_epochs(&rt, alloc);
    done(&rt, calls::instance_new(store, &mut epochs, &module));
    let (first, second) = (Some(Node::Func(0)), Some(Node::Func(1)));
    let members = [
        first,
        second,
        Some(Node::Table(0)),
        Some(Node::Memory(0)),
        Some(Node::Global(0)),
        None,
        second,
    ];
    check_links(&rt, store, Node::Instance(0), &members);
    check_links(&rt, store, Node::Func(1), &[Some(Node::Instance(0))]);
    check_links(&rt, store, Node::Table(0), &[first, None]);
    let table = Table::from_parts(store.id(), 0);
    check_same(&rt, calls::table_filled(store, table), Ok(0));
}
