ghost use Rattle.std.specs.Prelude.{◌≡◌, ◌≤◌, Ok};
ghost use Rattle.wasm_embedding.specs.Granting.{CountsDenials, denials_behind};

use wasm_meter::{HostData, LimiterFailed, ResourceLimiter};

/// How many instances, tables and memories there may be.
const MOST: usize = 10_000;

/// What may grow, as host data decides it, which never fails: host data of it, as `Granting` makes it, has no ghost items
/// to supply.
pub trait Grants {
    /// Whether a memory may be made or grow from `current` to `desired` bytes; `maximum` is what its type declares, in bytes.
    fn memory_grows(&mut self, current: usize, desired: usize, maximum: Option<usize>) -> bool;

    /// Whether a table may be made or grow from `current` to `desired` elements; `maximum` is what its type declares, in
    /// elements.
    fn table_grows(&mut self, current: usize, desired: usize, maximum: Option<usize>) -> bool;
}

/// Host data of a host's own, which decides what may grow; each denial is counted. There may be 10,000 instances, tables and
/// memories.
///
/// A hook or a deadline behaviour over it does not fail, since it counts no faults.
#[derive(Drop)]
pub struct Granting<D> {
    pub own: D,
    /// How often a growth was denied; it stops at 2^64 - 1.
    pub denials: u64,
}

impl<D> Granting<D> {
    /// No growth was denied yet.
    pub fn new(own: D) -> Granting<D>
        ensures { result ≡ record { own = own; denials = 0 } }
    {
        Granting { own, denials: 0 }
    }

    // The answer, which is counted where it is no.
    fn counted(&mut self, granted: bool) -> bool
        ensures same { result ≡ granted }
        ensures own { self.new.own ≡ self.old.own }
        ensures counts { self.new.denials ≡ denials_behind granted self.old.denials }
        ensures never_falls { self.old.denials ≤ self.new.denials }
    {
        if !granted {
            self.denials = self.denials.saturating_add(1);
        }
        granted
    }
}

impl<D: Grants> ResourceLimiter for Granting<D> {
    ghost use Rattle.std.proofs.Math.Nat.{le_refl};
    ghost use Rattle.wasm_embedding.specs.Granting.{CountsDenials, counted_deny, counted_answers};

    ghost instances = { λ s. 10000 };

    ghost tables = { λ s. 10000 };

    ghost memories = { λ s. 10000 };

    ghost growths = { λ s question answer t. CountsDenials s.denials answer t.denials };

    ghost denials = { λ s. s.denials };

    ghost limiter_faults = { λ s. 0 };

    ghost growths_keep = { λ s t question answer h. (h.3, le_refl 0) };

    ghost growths_deny = { λ s t question h. counted_deny s.denials t.denials h };

    ghost growths_fail = { λ s t question fault h. counted_answers s.denials t.denials fault h };

    fn memory_growing(
        &mut self,
        current: usize,
        desired: usize,
        maximum: Option<usize>,
    ) -> Result<bool, LimiterFailed> {
        let granted = self.own.memory_grows(current, desired, maximum);
        Ok(self.counted(granted))
    }

    fn table_growing(
        &mut self,
        current: usize,
        desired: usize,
        maximum: Option<usize>,
    ) -> Result<bool, LimiterFailed> {
        let granted = self.own.table_grows(current, desired, maximum);
        Ok(self.counted(granted))
    }

    fn instances(&self) -> usize {
        MOST
    }

    fn tables(&self) -> usize {
        MOST
    }

    fn memories(&self) -> usize {
        MOST
    }
}

impl<D: Grants> HostData for Granting<D> {
    ghost use Rattle.std.proofs.Math.Nat.{le_refl};

    ghost hook_faults = { λ s. 0 };

    ghost behaviour_faults = { λ s. 0 };

    ghost growths_keep_all = { λ s t question answer h. (h.3, le_refl 0, le_refl 0, le_refl 0) };
}
