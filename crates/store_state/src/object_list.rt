ghost use Rattle.std.specs.Prelude.{◌≡◌, ◌<◌, ◌++◌, ◌∷◌, [], List, length, map, take, set, slice_get, option_map, replicate, OnOk, OnErr, Some};
ghost use Rattle.std.specs.List.{All};
ghost use Rattle.store_state.specs.Changes.{Becomes, Changes, ChangesBy};
ghost use Rattle.store_state.specs.Lists.{behind};
ghost use Rattle.store_state.specs.Objects.{takes_piece, with_piece, takes_part, with_part};

use std::alloc::Global;
use std::marker::Model;
use wasm_types::OutOfMemory;

/// The objects that are a row of items and may grow: memories and tables.
pub(crate) trait StoredObject: Drop {
    /// What contracts see of one: all but the room behind it.
    type Seen;

    /// What it is a row of.
    type Item;

    /// What items are copied from at instantiation.
    type Segment;

    /// What it is to grow by.
    type Growth;

    /// What is seen of it.
    ghost seen: { Self → Self.Seen };

    /// It is of a size that there may be.
    ghost is_sized: { Self.Seen → Type 0 };

    /// Its items.
    ghost items: { Self.Seen → List Self.Item };

    /// The same with other items.
    ghost with_items: { Self.Seen → List Self.Item → Self.Seen };

    /// The items of a segment.
    ghost segment_items: { Self.Segment → List Self.Item };

    /// It stays within its range.
    ghost may_grow: { Self.Seen → Self.Growth → Type 0 };

    /// What it is once it has grown.
    ghost longer: { Self.Seen → Self.Growth → Self.Seen };

    /// Makes `len` items from the place `at` on all `value`; `false` exactly where that range passes the end.
    fn fill_items(&mut self, at: usize, value: Self::Item, len: usize) -> bool
        ensures { let piece = replicate len value in Becomes (takes_piece items at piece)
            (with_piece items with_items at piece) (seen self.old) result (seen self.new) };

    /// Replaces `len` items from the place `at` on by those from the place `from` on, as they were; `false` exactly
    /// where one of the two ranges passes the end.
    fn copy_items(&mut self, at: usize, from: usize, len: usize) -> bool
        ensures { let source = items (seen self.old) in Becomes (takes_part items at from len source)
            (with_part items with_items at from len source) (seen self.old) result (seen self.new) };

    /// Replaces `len` items from the place `at` on by those of another object from its place `from` on; `false` exactly
    /// where one of the two ranges passes the end of its object.
    fn copy_items_of(&mut self, at: usize, other: &Self, from: usize, len: usize) -> bool
        ensures { let source = items (seen other.now) in Becomes (takes_part items at from len source)
            (with_part items with_items at from len source) (seen self.old) result (seen self.new) };

    /// Replaces `len` items from the place `at` on by those of a segment from its place `from` on; `false` exactly where
    /// one of the two ranges passes its end.
    fn init_items(&mut self, at: usize, segment: &Self::Segment, from: usize, len: usize) -> bool
        ensures { let source = segment_items segment.now in Becomes (takes_part items at from len source)
            (with_part items with_items at from len source) (seen self.old) result (seen self.new) };

    /// Grows within its range.
    fn lengthen(&mut self, growth: Self::Growth) -> Result<(), OutOfMemory>
        requires sized { is_sized (seen self.old) }
        requires may_grow { may_grow (seen self.old) growth }
        ensures ok { OnOk result (seen self.new ≡ longer (seen self.old) growth) }
        ensures sized { is_sized (seen self.new) }
        ensures err { OnErr result (seen self.new ≡ seen self.old) };

    /// The size is that of the items.
    ghost sized_alike: { (x : Self.Seen) (other : List Self.Item) → length other ≡ length (items x) → is_sized x →
        is_sized (with_items x other) };
}

/// The memories or the tables of a store, in the order in which they were made, each of a size that there may be.
/// Contracts see the list of them.
#[derive(Drop)]
pub(crate) struct ObjectList<X: StoredObject> {
    pub(crate) objects: Vec<X>,
}

impl<X: StoredObject> Model for ObjectList<X> {
    ghost use Rattle.std.specs.Prelude.{List, map};
    ghost use Rattle.std.specs.List.{All};

    ghost Value = { List X.Seen };

    ghost view = { λ o. map X.seen o.objects.items };

    ghost invariant = { λ o. All X.is_sized (map X.seen o.objects.items) };
}

impl<X: StoredObject> ObjectList<X> {
    pub(crate) fn new(alloc: Global) -> ObjectList<X>
        ensures { result ≡ [] }
    {
        ObjectList {
            objects: Vec::new(alloc),
        }
    }

    pub(crate) fn len(&self) -> usize
        ensures { result ≡ length self.now }
    {
        self.objects.len()
    }

    /// The object at a place, lent. It is of a size that there may be.
    pub(crate) fn get(&self, at: usize) -> Option<&X>
        ensures lent { option_map (behind X.seen) result ≡ slice_get self.now at }
        ensures sized { (x : X.Seen) → slice_get self.now at ≡ Some x → X.is_sized x }
    {
        self.objects.get(at)
    }

    /// An object more, at the end.
    pub(crate) fn push(&mut self, object: X) -> Result<(), OutOfMemory>
        requires { X.is_sized (X.seen object) }
        ensures ok { OnOk result (self.new ≡ self.old ++ X.seen object ∷ []) }
        ensures err { OnErr result (self.new ≡ self.old) }
    {
        self.objects.push(object)?;
        Ok(())
    }

    /// More objects, at the end.
    pub(crate) fn append(&mut self, mut more: Vec<X>) -> Result<(), OutOfMemory>
        requires { All X.is_sized (map X.seen more.items) }
        ensures ok { OnOk result (self.new ≡ self.old ++ map X.seen more.items) }
        ensures err { OnErr result (self.new ≡ self.old) }
    {
        self.objects.append(&mut more)?;
        Ok(())
    }

    /// Keeps the first so many.
    pub(crate) fn truncate(&mut self, count: usize)
        ensures { self.new ≡ take count self.old }
    {
        self.objects.truncate(count);
    }

    /// Makes a range of the object at a place all `value`; `false` exactly where the range passes its end.
    pub(crate) fn fill(&mut self, number: usize, at: usize, value: X::Item, len: usize) -> bool
        requires { number < length self.old }
        ensures { let piece = replicate len value in Changes number (takes_piece X.items at piece)
            (with_piece X.items X.with_items at piece) self.old result self.new }
    {
        self.objects[number].fill_items(at, value, len)
    }

    /// Replaces items of the object at a place by those of a segment; `false` exactly where one of the two ranges
    /// passes its end.
    pub(crate) fn init(
        &mut self,
        number: usize,
        at: usize,
        segment: &X::Segment,
        from: usize,
        len: usize,
    ) -> bool
        requires { number < length self.old }
        ensures { let source = X.segment_items segment.now in Changes number (takes_part X.items at from len source)
            (with_part X.items X.with_items at from len source) self.old result self.new }
    {
        self.objects[number].init_items(at, segment, from, len)
    }

    /// Replaces items of the object at the place `dst` by those of that at the place `src`, as they were; `false`
    /// exactly where one of the two ranges passes the end of its object.
    pub(crate) fn copy(
        &mut self,
        dst: usize,
        at: usize,
        src: usize,
        from: usize,
        len: usize,
    ) -> bool
        requires dst_there { dst < length self.old }
        requires src_there { src < length self.old }
        ensures { ChangesBy dst (slice_get self.old src) (λ y. takes_part X.items at from len (X.items y))
            (λ y. with_part X.items X.with_items at from len (X.items y)) self.old result self.new }
    {
        if dst == src {
            return self.objects[dst].copy_items(at, from, len);
        }
        if dst < src {
            let (front, back) = self.objects.split_at_mut(src);
            return front[dst].copy_items_of(at, &back[0], from, len);
        }
        let (front, back) = self.objects.split_at_mut(dst);
        back[0].copy_items_of(at, &front[src], from, len)
    }

    /// Grows the object at a place, within its range.
    pub(crate) fn grow(&mut self, number: usize, growth: X::Growth) -> Result<(), OutOfMemory>
        requires there { number < length self.old }
        requires may_grow { (x : X.Seen) → slice_get self.old number ≡ Some x → X.may_grow x growth }
        ensures ok { (x : X.Seen) → slice_get self.old number ≡ Some x →
            OnOk result (self.new ≡ set self.old number (X.longer x growth)) }
        ensures err { OnErr result (self.new ≡ self.old) }
    {
        self.objects[number].lengthen(growth)?;
        Ok(())
    }
}
