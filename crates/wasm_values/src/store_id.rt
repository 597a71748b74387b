ghost use Rattle.std.specs.Prelude.{ℕ, ◌≤◌, ◌^◌};
ghost use Rattle.std.specs.Int.NonZero.{non_zero_u64_get};

use std::marker::Model;
use std::num::NonZeroU64;

/// The greatest number of an id: 2^63.
const MOST: u64 = 1 << 63;

/// The id of a store: a number from 1 to 2^63. Each handle carries the id of its store.
#[derive(Clone, Copy, PartialEq, Eq, Hash)]
pub struct StoreId {
    raw: NonZeroU64,
    ghost within: { non_zero_u64_get raw ≤ 2 ^ 63 },
}

impl StoreId {
    ghost use Rattle.std.specs.Prelude.{◌≡◌, ◌↔◌, ◌≤◌, ◌^◌, IsTrue};
    ghost use Rattle.wasm_values.specs.StoreIds.{number};

    /// The number of the id, from 1 to 2^63.
    pub fn as_raw(&self) -> NonZeroU64
        ensures value { non_zero_u64_get result ≡ number self.now }
        ensures within { number self.now ≤ 2 ^ 63 }
    {
        self.raw
    }

    /// Whether what carries this id belongs to the store of the id `store`: whether the two ids are one.
    pub fn belongs_to(&self, store: StoreId) -> bool
        ensures { IsTrue result ↔ (self.now ≡ store) }
    {
        *self == store
    }
}

/// A source of ids, each one more than the one before. Contracts see the number of the next id.
///
/// Two sources may give one id: whoever hands them out keeps them apart.
#[derive(Drop)]
pub struct StoreIds {
    next: NonZeroU64,
}

impl Model for StoreIds {
    ghost use Rattle.std.specs.Prelude.{ℕ};
    ghost use Rattle.std.specs.Int.NonZero.{non_zero_u64_get};

    ghost Value = { ℕ };

    ghost view = { λ ids. non_zero_u64_get ids.next };
}

impl StoreIds {
    ghost use Rattle.std.specs.Prelude.{◌≡◌, ◌↔◌, ◌≤◌, ◌<◌, ◌^◌, IsNone, IfNone, IfSome};
    ghost use Rattle.std.specs.Int.NonZero.{non_zero_u64_get};
    ghost use Rattle.wasm_values.specs.StoreIds.{Gives};

    /// A source whose first id is 1.
    pub fn new() -> StoreIds
        ensures { result ≡ 1 }
    {
        StoreIds {
            next: NonZeroU64::MIN,
        }
    }

    /// A source whose first id is `next`. Past 2^63 it gives none.
    pub fn starting_at(next: NonZeroU64) -> StoreIds
        ensures { result ≡ non_zero_u64_get next }
    {
        StoreIds { next }
    }

    /// The next id; the source then stands at the one after it.
    ///
    /// `None` exactly where the next id would pass 2^63, and then nothing changes.
    pub fn allocate(&mut self) -> Option<StoreId>
        ensures given { IfSome result (λ id. Gives self.old id self.new) }
        ensures refused { IsNone result ↔ (2 ^ 63 < self.old) }
        ensures unchanged { IfNone result (self.new ≡ self.old) }
        ensures rises { self.old ≤ self.new }
    {
        let raw = self.next;
        if raw.get() > MOST {
            return None;
        }
        self.next = raw.saturating_add(1);
        Some(StoreId { raw })
    }
}
