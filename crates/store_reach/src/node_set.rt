ghost use Rattle.std.specs.Prelude.{◌≡◌, [], slice_get, option_map, OnOk};
ghost use Rattle.spec_reach.specs.Nodes.{has};
ghost use Rattle.wasm_store.specs.LinkLaws.{as_reached};
ghost use Rattle.store_reach.specs.Sets.{Adds, one, placed};

use crate::marks::NodeMarks;
use std::alloc::Global;
use std::marker::Model;
use wasm_store::Node;
use wasm_types::OutOfMemory;

/// Objects of a store: functions, instances, memories, tables and globals, by their numbers there. Contracts see them
/// as a list of nodes, of which the order and what comes twice count for nothing.
#[derive(Drop)]
pub struct NodeSet {
    marks: NodeMarks,
    // The members, in the order in which they were added.
    members: Vec<Node>,
}

impl Model for NodeSet {
    ghost use Rattle.std.specs.Prelude.{List};
    ghost use Rattle.spec_reach.specs.Nodes.{Node as Reached};
    ghost use Rattle.store_reach.specs.Sets.{members_of, AreMembers};

    ghost Value = { List Reached };

    ghost view = { λ s. members_of s.members.items };

    ghost invariant = { λ s. AreMembers s.marks s.members.items };
}

impl NodeSet {
    /// A set of nothing. It takes no memory.
    pub(crate) fn new(alloc: Global) -> NodeSet
        ensures { result ≡ [] }
    {
        NodeSet {
            marks: NodeMarks::new(alloc),
            members: Vec::new(alloc),
        }
    }

    /// Whether an object is a member. It takes a constant time, and no memory.
    pub fn contains(&self, node: Node) -> bool
        ensures { result ≡ has self.now (as_reached node) }
    {
        self.marks.has(node)
    }

    /// The member at a place, in the order in which they were added.
    pub fn member(&self, place: usize) -> Option<Node>
        ensures { option_map as_reached result ≡ slice_get self.now place }
    {
        self.members.get(place).copied()
    }

    /// Adds an object, where it is none of the members.
    pub(crate) fn add(&mut self, node: Node) -> Result<(), OutOfMemory>
        ensures { OnOk result (Adds self.old (one node) self.new) }
    {
        if self.contains(node) {
            return Ok(());
        }
        self.members.reserve(1)?;
        self.marks.mark(node)?;
        self.members.push_reserved(node);
        Ok(())
    }

    /// Adds an object, where one was found.
    pub(crate) fn add_found(&mut self, found: Option<Node>) -> Result<(), OutOfMemory>
        ensures { OnOk result (Adds self.old (placed found) self.new) }
    {
        match found {
            Some(node) => self.add(node),
            None => Ok(()),
        }
    }
}
