ghost use Rattle.std.specs.Prelude.{◌≡◌, ◌≤◌, nat_le, if◌then◌else◌, ◌-◌};
ghost use Rattle.wasm_meter.specs.Lists.{one_more};
ghost use Rattle.wasm_pool.specs.Pools as pools;

use wasm_meter::{HostData, LimiterFailed, ResourceLimiter};

/// How many instances, tables and memories there may be.
const MOST: usize = 10_000;

/// How many elements all tables together may have, where a host does not say so.
const ELEMENTS: usize = 10_000_000;

/// Host data of a host's own, with a bound on all memories together, in bytes, and one on all tables together, in
/// elements: a memory or a table is made or grows exactly where so much is left, which is then taken off, also where
/// memory then runs out. A growth past the declared maximum, which fails, takes nothing, and is no denial. It leaves
/// `own` as it is, and never fails.
///
/// A hook or a deadline behaviour over it does not fail, since it counts no faults.
#[derive(Drop)]
pub struct Pooled<D> {
    pub own: D,
    /// How many bytes are left to memories.
    pub bytes_left: usize,
    /// How many elements are left to tables.
    pub elements_left: usize,
    /// How often a growth was denied; it stops at 2^64 - 1.
    pub denials: u64,
}

/// What a growth takes, which is nothing where it passes the declared maximum.
fn taken(current: usize, desired: usize, maximum: Option<usize>) -> usize
    ensures { result ≡ pools.taken current desired maximum }
{
    match maximum {
        Some(most) if desired > most => 0,
        _ => desired.saturating_sub(current),
    }
}

impl<D> Pooled<D> {
    /// All memories together may have so many bytes, and all tables together 10,000,000 elements.
    pub fn new(own: D, bytes: usize) -> Pooled<D>
        ensures { result ≡ pools.pool own bytes 10000000 }
    {
        Pooled {
            own,
            bytes_left: bytes,
            elements_left: ELEMENTS,
            denials: 0,
        }
    }

    // Counts what was denied.
    fn deny(&mut self)
        ensures state { self.new ≡ record self.old { denials = one_more self.old.denials } }
        ensures never_falls { self.old.denials ≤ self.new.denials }
    {
        self.denials = self.denials.saturating_add(1);
    }

    // Takes so many bytes, where they are left, or counts a denial.
    fn take_bytes(&mut self, bytes: usize) -> bool
        ensures granted { result ≡ nat_le bytes self.old.bytes_left }
        ensures state { self.new ≡ (if nat_le bytes self.old.bytes_left
            then record self.old { bytes_left = self.old.bytes_left - bytes }
            else record self.old { denials = one_more self.old.denials }) }
        ensures never_falls { self.old.denials ≤ self.new.denials }
    {
        if bytes <= self.bytes_left {
            self.bytes_left -= bytes;
            return true;
        }
        self.deny();
        false
    }

    // Takes so many elements, where they are left, or counts a denial.
    fn take_elements(&mut self, elements: usize) -> bool
        ensures granted { result ≡ nat_le elements self.old.elements_left }
        ensures state { self.new ≡ (if nat_le elements self.old.elements_left
            then record self.old { elements_left = self.old.elements_left - elements }
            else record self.old { denials = one_more self.old.denials }) }
        ensures never_falls { self.old.denials ≤ self.new.denials }
    {
        if elements <= self.elements_left {
            self.elements_left -= elements;
            return true;
        }
        self.deny();
        false
    }
}

impl<D> ResourceLimiter for Pooled<D> {
    ghost use Rattle.std.proofs.Math.Nat.{le_refl};
    ghost use Rattle.wasm_pool.specs.Pools.{AnswersFromPool, pool_denies, pool_answers};

    ghost instances = { λ s. 10000 };

    ghost tables = { λ s. 10000 };

    ghost memories = { λ s. 10000 };

    ghost growths = { AnswersFromPool };

    ghost denials = { λ s. s.denials };

    ghost limiter_faults = { λ s. 0 };

    ghost growths_keep = { λ s t question answer h. (h.2, le_refl 0) };

    ghost growths_deny = { pool_denies };

    ghost growths_fail = { λ s t question fault h. pool_answers s t question fault h };

    fn memory_growing(
        &mut self,
        current: usize,
        desired: usize,
        maximum: Option<usize>,
    ) -> Result<bool, LimiterFailed> {
        Ok(self.take_bytes(taken(current, desired, maximum)))
    }

    fn table_growing(
        &mut self,
        current: usize,
        desired: usize,
        maximum: Option<usize>,
    ) -> Result<bool, LimiterFailed> {
        Ok(self.take_elements(taken(current, desired, maximum)))
    }

    fn instances(&self) -> usize {
        MOST
    }

    fn tables(&self) -> usize {
        MOST
    }

    fn memories(&self) -> usize {
        MOST
    }
}

impl<D> HostData for Pooled<D> {
    ghost use Rattle.std.proofs.Math.Nat.{le_refl};

    ghost hook_faults = { λ s. 0 };

    ghost behaviour_faults = { λ s. 0 };

    ghost growths_keep_all = { λ s t question answer h. (h.2, le_refl 0, le_refl 0, le_refl 0) };
}
