ghost use Rattle.std.specs.Prelude.{◌≡◌, length, take, Some, OnOk, IfOk};
ghost use Rattle.store_objects.specs.Links.{places, segment_len};
ghost use Rattle.store_reach.specs.Places.{items_at, in_segments, named_at};
ghost use Rattle.store_reach.specs.Sets.{Adds, all_placed};

use crate::node_set::NodeSet;
use store_objects::Objects;
use wasm_store::Node;
use wasm_types::OutOfMemory;
use wasm_values::Instance;

// What stands at the first so many places of an object.
fn add_places(
    objects: &Objects,
    set: &mut NodeSet,
    node: Node,
    count: usize,
) -> Result<(), OutOfMemory>
    ensures { OnOk result (Adds set.old (all_placed (take count (places objects.now node))) set.new) }
{
    for place in 0..count {
        set.add_found(objects.link(node, place))?;
    }
    Ok(())
}

// The functions in an element segment, which is so long.
fn add_items(
    objects: &Objects,
    set: &mut NodeSet,
    instance: usize,
    segment: usize,
    count: usize,
) -> Result<(), OutOfMemory>
    requires { segment_len objects.now instance segment ≡ Some count }
    ensures { OnOk result (Adds set.old (all_placed (items_at objects.now instance segment)) set.new) }
{
    for place in 0..count {
        set.add_found(objects.segment_item(instance, segment, place))?;
    }
    Ok(())
}

// The functions in all element segments of an instance. A walk by `segment_len` and `segment_item` takes as long as
// there are items; `Objects::link` would look through the segments for each of them.
fn add_segments(objects: &Objects, set: &mut NodeSet, instance: usize) -> Result<(), OutOfMemory>
    ensures { OnOk result (Adds set.old (all_placed (in_segments objects.now instance)) set.new) }
{
    for segment in 0..usize::MAX {
        let Some(count) = objects.segment_len(instance, segment) else {
            return Ok(());
        };
        add_items(objects, set, instance, segment, count)?;
    }
    // So many segments fit no memory.
    Err(OutOfMemory)
}

// How many functions, tables, memories and globals an instance names; 0 where there is no such instance. More than a
// number of 64 bits tells fit no memory.
fn named_count(objects: &Objects, instance: usize) -> Result<usize, OutOfMemory>
    ensures { IfOk result (λ count. count ≡ length (named_at objects.now instance)) }
{
    let Ok(named) = objects.instance(Instance::from_parts(objects.id(), instance)) else {
        return Ok(0);
    };
    let Some(functions_and_tables) = named.function_count().checked_add(named.table_count()) else {
        return Err(OutOfMemory);
    };
    let Some(all_but_globals) = functions_and_tables.checked_add(named.memory_count()) else {
        return Err(OutOfMemory);
    };
    match all_but_globals.checked_add(named.global_count()) {
        Some(count) => Ok(count),
        None => Err(OutOfMemory),
    }
}

fn add_instance(objects: &Objects, set: &mut NodeSet, instance: usize) -> Result<(), OutOfMemory>
    ensures { OnOk result (Adds set.old (all_placed (places objects.now (Node.Instance instance))) set.new) }
{
    let named = named_count(objects, instance)?;
    add_places(objects, set, Node::Instance(instance), named)?;
    add_segments(objects, set, instance)?;
    Ok(())
}

fn add_all_places(objects: &Objects, set: &mut NodeSet, node: Node) -> Result<(), OutOfMemory>
    ensures { OnOk result (Adds set.old (all_placed (places objects.now node)) set.new) }
{
    let count = objects.link_count(node);
    // So many places fit no memory.
    if count == usize::MAX {
        return Err(OutOfMemory);
    }
    add_places(objects, set, node, count)
}

/// Adds all to which an object leads. It takes as long as there are places of it.
pub(crate) fn add_links(objects: &Objects, set: &mut NodeSet, node: Node) -> Result<(), OutOfMemory>
    ensures { OnOk result (Adds set.old (all_placed (places objects.now node)) set.new) }
{
    match node {
        Node::Instance(number) => add_instance(objects, set, number),
        _ => add_all_places(objects, set, node),
    }
}
