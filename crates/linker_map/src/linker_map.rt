ghost use Rattle.std.specs.Prelude.{◌≡◌, None, Ok, OnOk, OnErr, IfErr};
ghost use Rattle.std.specs.Map.{lookup};
ghost use Rattle.std.specs.Str.{bytes_eq};
ghost use Rattle.linker_map.specs.Linkers.{nothing, found, is_taken, with_item, define_item, alias, Refuses};

use crate::entries::Entries;
use crate::faults::LinkFault;
use indexmap::IndexMap;
use std::alloc::Global;
use std::marker::Model;
use wasm_types::OutOfMemory;
use wasm_values::Extern;

/// Objects under pairs of names, and whether a pair may be defined again, with the allocator that all of it is held in.
/// Contracts see what each pair means.
#[derive(Drop)]
pub struct LinkerMap {
    alloc: Global,
    spaces: IndexMap<String, Entries>,
    shadowing: bool,
}

impl Model for LinkerMap {
    ghost use Rattle.std.specs.Prelude.{map, string_bytes};
    ghost use Rattle.linker_map.specs.Linkers.{LinkerParts};

    ghost Value = { LinkerParts };

    ghost view = { λ l. record {
      spaces = map (λ p. (string_bytes p.0, p.1)) l.spaces.entries;
      shadowing = l.shadowing;
    } };
}

impl LinkerMap {
    /// No pair is there, and none may be defined again. It takes no memory.
    pub fn new(alloc: Global) -> LinkerMap
        ensures { result ≡ nothing }
    {
        LinkerMap {
            alloc,
            spaces: IndexMap::new(alloc),
            shadowing: false,
        }
    }

    /// The allocator of all that it holds.
    pub fn allocator(&self) -> Global {
        self.alloc
    }

    /// From now on a pair that is there may be defined again, or not.
    pub fn allow_shadowing(&mut self, allow: bool)
        ensures { self.new ≡ record self.old { shadowing = allow } }
    {
        self.shadowing = allow;
    }

    /// What the pair means; `None` exactly where it is not there. It takes no memory.
    pub fn get(&self, space: &str, name: &str) -> Option<Extern>
        ensures { result ≡ found self.now space.now name.now }
    {
        match self.spaces.get(space) {
            Some(entries) => entries.get(name),
            None => None,
        }
    }

    /// Whether the pair is there and may not be defined again.
    pub fn is_taken(&self, space: &str, name: &str) -> bool
        ensures { result ≡ is_taken self.now space.now name.now }
    {
        !self.shadowing && self.get(space, name).is_some()
    }

    // A first name that is new, with its one pair. It is made whole before it is put in.
    fn insert_space(&mut self, space: &str, name: &str, item: Extern) -> Result<(), OutOfMemory>
        requires { lookup (bytes_eq space.now) self.old.spaces ≡ None }
        ensures ok { OnOk result (self.new ≡ with_item space.now name.now item self.old) }
        ensures err { OnErr result (self.new ≡ self.old) }
    {
        let mut entries = Entries::new(self.alloc);
        entries.insert(self.alloc, name, item)?;
        let space = String::from_str(self.alloc, space)?;
        self.spaces.insert(space, entries)?;
        Ok(())
    }

    /// The pair means this object from now on, whatever it meant. Want of memory changes nothing.
    pub fn put(&mut self, space: &str, name: &str, item: Extern) -> Result<(), OutOfMemory>
        ensures ok { OnOk result (self.new ≡ with_item space.now name.now item self.old) }
        ensures err { OnErr result (self.new ≡ self.old) }
    {
        match self.spaces.get_index_of(space) {
            Some(place) => self.spaces[place].insert(self.alloc, name, item),
            None => self.insert_space(space, name, item),
        }
    }

    /// The pair means this object from now on. `AlreadyDefined` exactly where it is there and shadowing is off. No
    /// fault changes anything.
    pub fn define(&mut self, space: &str, name: &str, item: Extern) -> Result<(), LinkFault>
        ensures defined { OnOk result (define_item space.now name.now item self.old ≡ Ok self.new) }
        ensures refused { IfErr result (λ why. Refuses (define_item space.now name.now item self.old) why) }
        ensures unchanged { OnErr result (self.new ≡ self.old) }
    {
        if self.is_taken(space, name) {
            return Err(LinkFault::AlreadyDefined);
        }
        match self.put(space, name, item) {
            Ok(()) => Ok(()),
            Err(_) => Err(LinkFault::OutOfMemory),
        }
    }

    /// The second pair means from now on what the first means. `UnknownName` exactly where the first is not there; then
    /// `AlreadyDefined` exactly where the second is there and shadowing is off. No fault changes anything.
    pub fn alias(
        &mut self,
        space: &str,
        name: &str,
        as_space: &str,
        as_name: &str,
    ) -> Result<(), LinkFault>
        ensures defined { OnOk result (alias space.now name.now as_space.now as_name.now self.old ≡ Ok self.new) }
        ensures refused { IfErr result (λ why.
            Refuses (alias space.now name.now as_space.now as_name.now self.old) why) }
        ensures unchanged { OnErr result (self.new ≡ self.old) }
    {
        match self.get(space, name) {
            Some(item) => self.define(as_space, as_name, item),
            None => Err(LinkFault::UnknownName),
        }
    }
}
