ghost use Rattle.std.specs.Prelude.{◌≡◌, [], OnOk, OnErr};
ghost use Rattle.std.specs.Map.{lookup};
ghost use Rattle.std.specs.Str.{bytes_eq};
ghost use Rattle.linker_map.specs.Linkers.{with_name};

use std::alloc::Global;
use std::collections::BTreeMap;
use std::marker::Model;
use wasm_types::OutOfMemory;
use wasm_values::Extern;

/// Objects under their second names, those of one first name. The names are compared, so that none that a guest chooses
/// makes a look-up long. Contracts see the names with their objects, each name once, in the order of their bytes.
#[derive(Drop)]
pub(crate) struct Entries {
    by_name: BTreeMap<String, Extern>,
}

impl Model for Entries {
    ghost use Rattle.std.specs.Prelude.{List, map, string_bytes};
    ghost use Rattle.linker_map.specs.Linkers.{Entry};

    ghost Value = { List Entry };

    ghost view = { λ e. map (λ p. (string_bytes p.0, p.1)) e.by_name.entries };
}

impl Entries {
    pub(crate) fn new(alloc: Global) -> Entries
        ensures { result ≡ [] }
    {
        Entries {
            by_name: BTreeMap::new(alloc),
        }
    }

    // The object of this name.
    pub(crate) fn get(&self, name: &str) -> Option<Extern>
        ensures { result ≡ lookup (bytes_eq name.now) self.now }
    {
        self.by_name.get(name).copied()
    }

    // The name means this object from now on.
    pub(crate) fn insert(
        &mut self,
        alloc: Global,
        name: &str,
        item: Extern,
    ) -> Result<(), OutOfMemory>
        ensures ok { OnOk result (self.new ≡ with_name self.old name.now item) }
        ensures err { OnErr result (self.new ≡ self.old) }
    {
        let name = String::from_str(alloc, name)?;
        self.by_name.insert(name, item)?;
        Ok(())
    }
}
