ghost use Rattle.std.specs.Prelude.{◌≡◌, ◌≤◌, Ok, Some, None};
ghost use Rattle.wasm_meter.specs.StoreLimits.{is_within, counted};

use crate::faults::LimiterFailed;
use crate::host_data::HostData;
use crate::limiter::ResourceLimiter;

/// How many instances, tables and memories there may be, where a host does not say so.
const MOST: usize = 10_000;

/// Host data that is a limiter by bounds: a memory or a table grows where its new size is within the bound. It never
/// fails.
///
/// A hook or a deadline behaviour over it does not fail either, since it counts no faults: a host whose hooks may fail
/// keeps these limits in host data of its own.
#[derive(Drop)]
pub struct StoreLimits {
    /// The most that one memory may hold, in bytes; without it there is no bound.
    pub memory_size: Option<usize>,
    /// The most that one table may hold, in elements; without it there is no bound.
    pub table_elements: Option<usize>,
    /// How many instances there may be.
    pub instances: usize,
    /// How many tables instances may make.
    pub tables: usize,
    /// How many memories instances may make.
    pub memories: usize,
    /// How often a growth was denied; it stops at 2^64 - 1.
    pub denials: u64,
}

impl StoreLimits {
    /// No bounds on memories and tables; 10,000 instances, tables and memories.
    pub fn new() -> StoreLimits
        ensures memory_size { result.memory_size ≡ None }
        ensures table_elements { result.table_elements ≡ None }
        ensures instances { result.instances ≡ 10000 }
        ensures tables { result.tables ≡ 10000 }
        ensures memories { result.memories ≡ 10000 }
        ensures denials { result.denials ≡ 0 }
    {
        StoreLimits {
            memory_size: None,
            table_elements: None,
            instances: MOST,
            tables: MOST,
            memories: MOST,
            denials: 0,
        }
    }

    // Counts what was denied.
    fn answer(&mut self, granted: bool) -> Result<bool, LimiterFailed>
        ensures answer { result ≡ Ok granted }
        ensures state { self.new ≡ counted self.old granted }
        ensures never_falls { self.old.denials ≤ self.new.denials }
    {
        if !granted {
            self.denials = self.denials.saturating_add(1);
        }
        Ok(granted)
    }
}

/// Whether a size is within a bound, where there is one.
fn is_within(bound: Option<usize>, size: usize) -> bool
    ensures { result ≡ is_within bound size }
{
    match bound {
        Some(most) => size <= most,
        None => true,
    }
}

impl ResourceLimiter for StoreLimits {
    ghost use Rattle.std.proofs.Math.Nat.{le_refl};
    ghost use Rattle.wasm_meter.specs.StoreLimits.{AnswersByBounds, bounds_deny, bounds_answer};

    ghost instances = { λ s. s.instances };

    ghost tables = { λ s. s.tables };

    ghost memories = { λ s. s.memories };

    ghost growths = { AnswersByBounds };

    ghost denials = { λ s. s.denials };

    ghost limiter_faults = { λ s. 0 };

    ghost growths_keep = { λ s t question answer h. (h.2, le_refl 0) };

    ghost growths_deny = { bounds_deny };

    ghost growths_fail = { λ s t question fault h. bounds_answer s t question fault h };

    fn memory_growing(
        &mut self,
        _current: usize,
        desired: usize,
        _maximum: Option<usize>,
    ) -> Result<bool, LimiterFailed> {
        self.answer(is_within(self.memory_size, desired))
    }

    fn table_growing(
        &mut self,
        _current: usize,
        desired: usize,
        _maximum: Option<usize>,
    ) -> Result<bool, LimiterFailed> {
        self.answer(is_within(self.table_elements, desired))
    }

    fn instances(&self) -> usize {
        self.instances
    }

    fn tables(&self) -> usize {
        self.tables
    }

    fn memories(&self) -> usize {
        self.memories
    }
}

impl HostData for StoreLimits {
    ghost use Rattle.std.proofs.Math.Nat.{le_refl};

    ghost hook_faults = { λ s. 0 };

    ghost behaviour_faults = { λ s. 0 };

    ghost growths_keep_all = { λ s t question answer h. (h.2, le_refl 0, le_refl 0, le_refl 0) };
}

/// Host data that keeps nothing: each growth is granted, and instances, tables and memories are bounded as without a
/// limiter.
impl ResourceLimiter for () {
    ghost use Rattle.std.proofs.Math.Nat.{le_refl};
    ghost use Rattle.wasm_meter.specs.StoreLimits.{Grants, grants_all, always_answers};

    ghost instances = { λ s. 10000 };

    ghost tables = { λ s. 10000 };

    ghost memories = { λ s. 10000 };

    ghost growths = { λ s question answer t. Grants answer };

    ghost denials = { λ s. 0 };

    ghost limiter_faults = { λ s. 0 };

    ghost growths_keep = { λ s t question answer h. (le_refl 0, le_refl 0) };

    ghost growths_deny = { λ s t question h. grants_all h };

    ghost growths_fail = { λ s t question fault h. always_answers fault h };

    fn memory_growing(
        &mut self,
        _current: usize,
        _desired: usize,
        _maximum: Option<usize>,
    ) -> Result<bool, LimiterFailed> {
        Ok(true)
    }

    fn table_growing(
        &mut self,
        _current: usize,
        _desired: usize,
        _maximum: Option<usize>,
    ) -> Result<bool, LimiterFailed> {
        Ok(true)
    }

    fn instances(&self) -> usize {
        MOST
    }

    fn tables(&self) -> usize {
        MOST
    }

    fn memories(&self) -> usize {
        MOST
    }
}

impl HostData for () {
    ghost use Rattle.std.proofs.Math.Nat.{le_refl};

    ghost hook_faults = { λ s. 0 };

    ghost behaviour_faults = { λ s. 0 };

    ghost growths_keep_all = { λ s t question answer h. (le_refl 0, le_refl 0, le_refl 0, le_refl 0) };
}
