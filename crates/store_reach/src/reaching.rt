ghost use Rattle.std.specs.Prelude.{◌≡◌, [], map, IfOk};
ghost use Rattle.spec_reach.specs.Nodes.{is_there};
ghost use Rattle.wasm_store.specs.LinkLaws.{as_reached};
ghost use Rattle.store_reach.specs.Sets.{members_of, all_placed, if_there, Adds, IsReach};

use crate::links::add_links;
use crate::node_set::NodeSet;
use std::alloc::Global as Allocator;
use store_objects::Objects;
use wasm_meter::{CallHooks, DeadlineBehaviour, HostData};
use wasm_store::{Node, Store, parts};
use wasm_types::OutOfMemory;
use wasm_values::{Extern, Func, Global, Instance, Memory, Table};

// Whether an object is there.
fn is_there(objects: &Objects, node: Node) -> bool
    ensures { result ≡ is_there objects.now (as_reached node) }
{
    let id = objects.id();
    match node {
        Node::Func(number) => objects.owns_extern(Extern::Func(Func::from_parts(id, number))),
        Node::Instance(number) => objects.instance(Instance::from_parts(id, number)).is_ok(),
        Node::Memory(number) => objects.owns_extern(Extern::Memory(Memory::from_parts(id, number))),
        Node::Table(number) => objects.owns_extern(Extern::Table(Table::from_parts(id, number))),
        Node::Global(number) => objects.owns_extern(Extern::Global(Global::from_parts(id, number))),
    }
}

// An object, where it is there.
fn if_there(objects: &Objects, node: Node) -> Option<Node>
    ensures { result ≡ if_there objects.now node }
{
    if is_there(objects, node) {
        return Some(node);
    }
    None
}

// The roots that are there.
fn roots_in(alloc: Allocator, objects: &Objects, roots: &[Node]) -> Result<NodeSet, OutOfMemory>
    ensures { IfOk result (λ set. Adds [] (all_placed (map (if_there objects.now) roots.now)) set) }
{
    let mut set = NodeSet::new(alloc);
    for root in roots {
        set.add_found(if_there(objects, *root))?;
    }
    Ok(set)
}

/// All that is reached from these objects of a store: those of them that are there, and whatever they lead to, as
/// `Store::link` tells it. It takes as long as all of that has places and, for each kind of object, as the highest
/// number among them; the set is kept in memory, with a byte for each number up to that.
///
/// `OutOfMemory` where the set finds no memory, and nothing else.
pub fn reach_of<T: HostData, K: CallHooks<T>, B: DeadlineBehaviour<T>>(
    alloc: Allocator,
    store: &Store<T, K, B>,
    roots: &[Node],
) -> Result<NodeSet, OutOfMemory>
    ensures { IfOk result (λ set. IsReach store.now.machine (members_of roots.now) set) }
{
    store.keeps_well_formed();
    let objects = parts::objects(store);
    let mut set = roots_in(alloc, objects, roots)?;
    // Each member is looked at once, in the order in which it was found.
    for next in 0..usize::MAX {
        let Some(node) = set.member(next) else {
            return Ok(set);
        };
        add_links(objects, &mut set, node)?;
    }
    // So many objects fit no memory.
    Err(OutOfMemory)
}
