//! What leads from one object of a store to others, read place by place. None of it takes memory, and no look fills a place
//! of a table.
ghost use Rattle.std.specs.Prelude.{◌≡◌, ◌+◌, length, slice_get, option_map, MatchResult, Some};
ghost use Rattle.store_state.specs.Lists.{items_behind};
ghost use Rattle.store_objects.specs.Links.{in_reference, in_value, of_store, in_object, named_places, segment_places, counted, member, link_count, link_at, element_segment, segment_len, segment_item};

use crate::node::Node;
use crate::objects::Objects;
use store_state::{FunctionKind, Instance as StoredInstance};
use wasm_objects::{ElemSegment, RawRef, RawVal};
use wasm_values::{Extern, StoreId};

impl Objects {
    /// How many places an object has that may lead to another: the size of a table; 1 for a global and for a function of
    /// an instance; of a function of the host the number of its stored objects; of an instance how many functions,
    /// tables, memories and globals it names, and the lengths of its element segments, together. 0 for a memory, and
    /// where the object is not there.
    ///
    /// A sum past `usize::MAX`, of items that no memory holds, is told as `usize::MAX`. It takes a constant time, but of
    /// an instance a time that grows with the number of its element segments.
    pub fn link_count(&self, node: Node) -> usize
        ensures { result ≡ link_count self.now node }
    {
        match node {
            Node::Func(number) => self.function_links(number),
            Node::Instance(number) => self.instance_links(number),
            Node::Memory(_) => 0,
            Node::Table(number) => match self.held.table(number) {
                Some(table) => table.size(),
                None => 0,
            },
            Node::Global(number) => match self.held.global(number) {
                Some(_) => 1,
                None => 0,
            },
        }
    }

    /// The object to which one leads at a place, from 0; of an instance first its functions, then its tables, memories
    /// and globals, and then the items of its element segments.
    ///
    /// `None` where a null, a number, what is the host's own, or a tag stands there, and past the end. It takes as long as
    /// `link_count` does: `segment_len` and `segment_item` make a walk over the items of segments linear.
    pub fn link(&self, node: Node, place: usize) -> Option<Node>
        ensures { result ≡ link_at self.now node place }
    {
        match node {
            Node::Func(number) => self.function_link(number, place),
            Node::Instance(number) => self.instance_link(number, place),
            Node::Memory(_) => None,
            Node::Table(number) => in_reference(self.held.table(number)?.peek(place)?),
            Node::Global(number) => self.global_link(number, place),
        }
    }

    /// How long an element segment of an instance is, both by their numbers; `None` where there is no such segment.
    pub fn segment_len(&self, instance: usize, segment: usize) -> Option<usize>
        ensures { result ≡ segment_len self.now instance segment }
    {
        let items = self.element_segment(instance, segment)?;
        Some(items.len())
    }

    /// The function at a place of an element segment of an instance, from 0. `None` where a null, a number or what is the
    /// host's own stands there, past the end, and where there is no such segment.
    pub fn segment_item(&self, instance: usize, segment: usize, place: usize) -> Option<Node>
        ensures { result ≡ segment_item self.now instance segment place }
    {
        let items = self.element_segment(instance, segment)?;
        in_reference(items.get(place)?)
    }

    fn element_segment(&self, instance: usize, segment: usize) -> Option<&ElemSegment>
        ensures { option_map items_behind result ≡ element_segment self.now instance segment }
    {
        match self.program.get().instance(instance) {
            Some(_) => segment_at(self.held.element_segments(instance), segment),
            None => None,
        }
    }

    fn function_links(&self, number: usize) -> usize
        ensures { result ≡ link_count self.now (Node.Func number) }
    {
        match self.program.get().function(number) {
            Some(
                FunctionKind::Guest {
                    instance: _,
                    number: _,
                },
            ) => 1,
            Some(
                FunctionKind::Host {
                    ty: _,
                    body: _,
                    stored,
                },
            ) => stored.len(),
            None => 0,
        }
    }

    fn instance_links(&self, number: usize) -> usize
        ensures { result ≡ link_count self.now (Node.Instance number) }
    {
        match self.program.get().instance(number) {
            Some(instance) => {
                let named = named_count(instance);
                with_items(named, self.held.element_segments(number))
            }
            None => 0,
        }
    }

    fn function_link(&self, number: usize, place: usize) -> Option<Node>
        ensures { result ≡ link_at self.now (Node.Func number) place }
    {
        match self.program.get().function(number)? {
            FunctionKind::Guest {
                instance,
                number: _,
            } => {
                if place == 0 {
                    Some(Node::Instance(instance))
                } else {
                    None
                }
            }
            FunctionKind::Host {
                ty: _,
                body: _,
                stored,
            } => self.in_object(*stored.get(place)?),
        }
    }

    fn instance_link(&self, number: usize, place: usize) -> Option<Node>
        ensures { result ≡ link_at self.now (Node.Instance number) place }
    {
        match self.program.get().instance(number) {
            Some(instance) => match named_at(instance, place) {
                Ok(node) => Some(node),
                Err(rest) => item_at(self.held.element_segments(number), rest),
            },
            None => None,
        }
    }

    fn global_link(&self, number: usize, place: usize) -> Option<Node>
        ensures { result ≡ link_at self.now (Node.Global number) place }
    {
        if place > 0 {
            return None;
        }
        in_value(self.held.global(number)?)
    }

    // A stored object as a node.
    fn in_object(&self, object: Extern) -> Option<Node>
        ensures { result ≡ in_object self.now.id object }
    {
        match object {
            Extern::Func(func) => self.of_store(func.store_id(), Node::Func(func.index())),
            Extern::Global(global) => self.of_store(
                global.store_id(),
                Node::Global(global.index()),
            ),
            Extern::Table(table) => self.of_store(table.store_id(), Node::Table(table.index())),
            Extern::Memory(memory) => self.of_store(
                memory.store_id(),
                Node::Memory(memory.index()),
            ),
            Extern::Tag(_) => None,
        }
    }

    // What is of the store of this id, where that is this one.
    fn of_store(&self, id: StoreId, node: Node) -> Option<Node>
        ensures { result ≡ of_store self.now.id id node }
    {
        if self.is_own(id) {
            return Some(node);
        }
        None
    }
}

// A segment by its number, lent.
fn segment_at(segments: &[ElemSegment], number: usize) -> Option<&ElemSegment>
    ensures { option_map items_behind result ≡ slice_get segments.now number }
{
    segments.get(number)
}

// The function in a reference.
fn in_reference(reference: RawRef) -> Option<Node>
    ensures { result ≡ in_reference reference }
{
    match reference {
        RawRef::Func(number) => Some(Node::Func(number)),
        _ => None,
    }
}

// The function in a value.
fn in_value(value: RawVal) -> Option<Node>
    ensures { result ≡ in_value value }
{
    match value {
        RawVal::Reference(reference) => in_reference(reference),
        _ => None,
    }
}

// How many functions, tables, memories and globals an instance names.
fn named_count(instance: &StoredInstance) -> usize
    ensures { result ≡ counted (length (named_places
        instance.now.functions instance.now.tables instance.now.memories instance.now.globals)) }
{
    instance
        .function_count()
        .saturating_add(instance.table_count())
        .saturating_add(instance.memory_count())
        .saturating_add(instance.global_count())
}

// So many, and the items of segments.
fn with_items(before: usize, segments: &[ElemSegment]) -> usize
    ensures { result ≡ counted (before + length (segment_places segments.now)) }
{
    let mut total = before;
    for segment in segments {
        total = total.saturating_add(segment.len());
    }
    total
}

// What an instance names at a place; behind all that it names, the place among the items of its segments.
fn named_at(instance: &StoredInstance, place: usize) -> Result<Node, usize>
    ensures { let named = named_places
        instance.now.functions instance.now.tables instance.now.memories instance.now.globals in
        MatchResult result (λ node. slice_get named place ≡ Some (Some node)) (λ rest. place ≡ length named + rest) }
{
    if let Some(number) = instance.function(place) {
        return Ok(Node::Func(number));
    }
    let place = place - instance.function_count();
    if let Some(number) = instance.table(place) {
        return Ok(Node::Table(number));
    }
    let place = place - instance.table_count();
    if let Some(number) = instance.memory(place) {
        return Ok(Node::Memory(number));
    }
    let place = place - instance.memory_count();
    match instance.global(place) {
        Some(number) => Ok(Node::Global(number)),
        None => Err(place - instance.global_count()),
    }
}

// The function at a place of the items of segments.
fn item_at(segments: &[ElemSegment], place: usize) -> Option<Node>
    ensures { result ≡ member (slice_get (segment_places segments.now) place) }
{
    let mut rest = place;
    for segment in segments {
        match segment.get(rest) {
            Some(reference) => return in_reference(reference),
            None => rest -= segment.len(),
        }
    }
    None
}
