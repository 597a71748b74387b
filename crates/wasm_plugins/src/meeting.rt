ghost use Rattle.std.specs.Prelude.{◌≡◌, ◌&&◌, true, flat_map, option_map, slice_get, IfOk};
ghost use Rattle.std.specs.List.{filter_map, list_all};
ghost use Rattle.spec_machine.specs.Values.{owns_extern};
ghost use Rattle.spec_reach.specs.Nodes.{has};
ghost use Rattle.spec_reach.specs.Reach.{in_object};
ghost use Rattle.law_plugins.specs.Meeting.{common, first_meeting, is_common, is_private, reach_of, varies};
ghost use Rattle.wasm_store.specs.LinkLaws.{as_reached};
ghost use Rattle.store_reach.specs.Sets.{IsReach};
ghost use Rattle.wasm_plugins.specs.Meetings.{as_found, first_of, is_before, kind_of, node_of, number_of, or_first, IsFirstOf};

use std::alloc::{AllocError, Global as Allocator};
use store_objects::Objects;
use store_reach::{NodeSet, reach_of};
use wasm_meter::{CallHooks, DeadlineBehaviour, HostData};
use wasm_store::{Node, Store, parts};
use wasm_types::{Mutability, OutOfMemory};
use wasm_values::{Extern, Global};

// An object as a node, of whatever store it is; a tag is none.
fn node_of(object: Extern) -> Option<Node>
    ensures { result ≡ node_of object }
{
    match object {
        Extern::Func(func) => Some(Node::Func(func.index())),
        Extern::Global(global) => Some(Node::Global(global.index())),
        Extern::Table(table) => Some(Node::Table(table.index())),
        Extern::Memory(memory) => Some(Node::Memory(memory.index())),
        Extern::Tag(_) => None,
    }
}

fn nodes_of(alloc: Allocator, objects: &[Extern]) -> Result<Vec<Node>, AllocError>
    ensures { IfOk result (λ nodes. nodes.items ≡ filter_map node_of objects.now) }
{
    objects
        .iter()
        .filter_map(|object| node_of(*object))
        .collect(alloc)
}

/// All that objects of the store lead to.
pub(crate) fn reach_of_objects<T: HostData, K: CallHooks<T>, B: DeadlineBehaviour<T>>(
    alloc: Allocator,
    store: &Store<T, K, B>,
    objects: &[Extern],
) -> Result<NodeSet, OutOfMemory>
    requires { list_all (owns_extern store.now.machine) objects.now ≡ true }
    ensures { IfOk result (λ set.
        IsReach store.now.machine (flat_map (in_object store.now.machine.id) objects.now) set) }
{
    let roots = nodes_of(alloc, objects)?;
    reach_of(alloc, store, roots.as_slice())
}

// The type is lent, and not copied as `global_ty` does, which may want memory.
fn is_variable(objects: &Objects, global: usize) -> bool
    ensures { result ≡ varies (slice_get objects.now.globals global) }
{
    match objects.global(Global::from_parts(objects.id(), global)) {
        Ok(object) => object.ty().mutability() == Mutability::Var,
        Err(_) => false,
    }
}

// Whether what one guest reaches must be out of reach for another.
fn is_private(objects: &Objects, node: Node) -> bool
    ensures { result ≡ is_private objects.now (as_reached node) }
{
    match node {
        Node::Func(_) => false,
        Node::Global(number) => is_variable(objects, number),
        _ => true,
    }
}

// Functions first, then instances, memories, tables and globals.
fn rank(node: Node) -> (u8, usize)
    ensures { result ≡ (kind_of (as_reached node), number_of (as_reached node)) }
{
    match node {
        Node::Func(number) => (0, number),
        Node::Instance(number) => (1, number),
        Node::Memory(number) => (2, number),
        Node::Table(number) => (3, number),
        Node::Global(number) => (4, number),
    }
}

fn is_before(node: Node, other: Node) -> bool
    ensures { result ≡ is_before (as_reached node) (as_reached other) }
{
    let (kind, number) = rank(node);
    let (other_kind, other_number) = rank(other);
    kind < other_kind || (kind == other_kind && number < other_number)
}

// The one of two that stands first, where there are two.
fn first_of(first: Option<Node>, node: Node) -> Node
    ensures { as_reached result ≡ first_of (option_map as_reached first) (as_reached node) }
{
    match first {
        Some(other) if is_before(other, node) => other,
        _ => node,
    }
}

// The first of what two sets have in common and is private, with one member more of one of them.
fn with_member(objects: &Objects, other: &NodeSet, first: Option<Node>, node: Node) -> Option<Node>
    ensures { option_map as_reached result ≡ or_first
        (is_private objects.now (as_reached node) && has other.now (as_reached node))
        (option_map as_reached first) (as_reached node) }
{
    if other.contains(node) && is_private(objects, node) {
        Some(first_of(first, node))
    } else {
        first
    }
}

// The first node that two sets have in common and that is private. It looks at each member of the second.
fn first_common(
    objects: &Objects,
    other: &NodeSet,
    set: &NodeSet,
) -> Result<Option<Node>, OutOfMemory>
    ensures { IfOk result (λ first.
        IsFirstOf (is_common objects.now other.now set.now) set.now (option_map as_reached first)) }
{
    let mut first = None;
    for place in 0..usize::MAX {
        let Some(node) = set.member(place) else {
            return Ok(first);
        };
        first = with_member(objects, other, first, node);
    }
    // So many members fit no memory.
    Err(OutOfMemory)
}

// The first node that a set has in common with what a guest reaches, and that is private.
fn meeting_of<T: HostData, K: CallHooks<T>, B: DeadlineBehaviour<T>>(
    alloc: Allocator,
    store: &Store<T, K, B>,
    set: &NodeSet,
    guest: usize,
) -> Result<Option<Node>, OutOfMemory>
    ensures { IfOk result (λ found. option_map as_reached found
        ≡ slice_get (common store.now.machine set.now (reach_of store.now.machine guest)) 0) }
{
    let own = reach_of(alloc, store, &[Node::Instance(guest)])?;
    first_common(parts::objects(store), set, &own)
}

/// The first of these guests whose reach meets a set, by its place, and the first node that they have in common.
///
/// It takes as long as what the guests reach has places, up to the first that is met; and no longer than the set has
/// members, where nothing in it is private.
pub(crate) fn first_meeting<T: HostData, K: CallHooks<T>, B: DeadlineBehaviour<T>>(
    alloc: Allocator,
    store: &Store<T, K, B>,
    guests: &[usize],
    set: &NodeSet,
) -> Result<Option<(usize, Node)>, OutOfMemory>
    ensures { IfOk result (λ found.
        found ≡ option_map as_found (first_meeting store.now.machine set.now guests.now)) }
{
    // What has nothing private meets nobody, so no guest need be looked at.
    let Some(_) = first_common(parts::objects(store), set, set)? else {
        return Ok(None);
    };
    for (place, guest) in guests.iter().enumerate() {
        if let Some(node) = meeting_of(alloc, store, set, *guest)? {
            return Ok(Some((place, node)));
        }
    }
    Ok(None)
}
