//! What leads from one object of a store to others. A host that is to know what a guest can reach walks it.
ghost use Rattle.std.specs.Prelude.{◌≡◌};
ghost use Rattle.store_objects.specs.Links.{link_count, link_at};

use crate::store::Store;
use store_objects::Node;
use wasm_meter::{CallHooks, DeadlineBehaviour, HostData};

impl<T: HostData, K: CallHooks<T>, B: DeadlineBehaviour<T>> Store<T, K, B> {
    /// How many places an object has that may lead to another: the size of a table; 1 for a global and for a function of
    /// an instance; of a function of the host the number of its stored objects; of an instance how many functions,
    /// tables, memories and globals it names, and the lengths of its element segments, together. 0 for a memory, and
    /// where the object is not there.
    ///
    /// A sum past `usize::MAX`, of items that no memory holds, is told as `usize::MAX`. It takes no memory, and a constant
    /// time, but of an instance a time that grows with the number of its element segments.
    pub fn link_count(&self, node: Node) -> usize
        ensures { result ≡ link_count self.now.machine node }
    {
        self.objects.link_count(node)
    }

    /// The object to which one leads at a place, from 0; of an instance first its functions, then its tables, memories
    /// and globals, and then the items of its element segments. A place of a table that no look-up filled yet leads to
    /// its function all the same, and stays unfilled.
    ///
    /// `None` where a null, a number, what is the host's own, or a tag stands there, and past the end. It takes no memory,
    /// and the time of `link_count`.
    pub fn link(&self, node: Node, place: usize) -> Option<Node>
        ensures { result ≡ link_at self.now.machine node place }
    {
        self.objects.link(node, place)
    }
}
