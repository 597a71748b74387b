ghost use Rattle.std.specs.Prelude.{◌≡◌, [], List, ℕ, Some, cond, OnOk};
ghost use Rattle.std.specs.Map.{lookup};
ghost use Rattle.std.specs.Str.{bytes_eq};

use std::alloc::Global;
use std::collections::BTreeMap;
use std::marker::Model;
use wasm_types::OutOfMemory;

/// Numbers by keys, which are ordered, so that no choice of keys makes a search long. Contracts see each key with its
/// number.
#[derive(Drop)]
pub(crate) struct Index {
    by_key: BTreeMap<Vec<u64>, u32>,
}

impl Model for Index {
    ghost use Rattle.std.specs.Prelude.{List, ℕ, map};

    ghost Value = { List (List ℕ × ℕ) };

    ghost view = { λ index. map (λ p. (p.0.items, p.1)) index.by_key.entries };
}

impl Index {
    pub(crate) fn new(alloc: Global) -> Index
        ensures { result ≡ [] }
    {
        Index {
            by_key: BTreeMap::new(alloc),
        }
    }

    /// The number of a key.
    pub(crate) fn get(&self, key: &[u64]) -> Option<u32>
        ensures { result ≡ lookup (bytes_eq key.now) self.now }
    {
        self.by_key.get(key).copied()
    }

    /// Gives a key this number.
    pub(crate) fn insert(
        &mut self,
        alloc: Global,
        key: &[u64],
        number: u32,
    ) -> Result<(), OutOfMemory>
        ensures { OnOk result ((q : List ℕ) → lookup (bytes_eq q) self.new
            ≡ cond (bytes_eq q key.now) (Some number) (lookup (bytes_eq q) self.old)) }
    {
        let key = Vec::from_slice(alloc, key)?;
        self.by_key.insert(key, number)?;
        Ok(())
    }
}
