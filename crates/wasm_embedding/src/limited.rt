use wasm_meter::{HostData, LimiterFailed, ResourceLimiter, StoreLimits};

/// Host data of a host's own, within ready limits: the limiter is that of `limits`, which never fails, and leaves `own` as
/// it is.
///
/// A hook or a deadline behaviour over it does not fail, since it counts no faults. `Limited { own, limits: StoreLimits::new() }`
/// bounds nothing but the numbers of instances, tables and memories.
#[derive(Drop)]
pub struct Limited<D> {
    pub own: D,
    pub limits: StoreLimits,
}

impl<D> ResourceLimiter for Limited<D> {
    ghost use Rattle.std.specs.Prelude.{◌≡◌};
    ghost use Rattle.std.proofs.Math.Nat.{le_refl};
    ghost use Rattle.wasm_meter.specs.StoreLimits.{AnswersByBounds, bounds_deny, bounds_answer};

    ghost instances = { λ s. s.limits.instances };

    ghost tables = { λ s. s.limits.tables };

    ghost memories = { λ s. s.limits.memories };

    ghost growths = { λ s question answer t. AnswersByBounds s.limits question answer t.limits × (t.own ≡ s.own) };

    ghost denials = { λ s. s.limits.denials };

    ghost limiter_faults = { λ s. 0 };

    ghost growths_keep = { λ s t question answer h. (h.0.2, le_refl 0) };

    ghost growths_deny = { λ s t question h. bounds_deny s.limits t.limits question h.0 };

    ghost growths_fail = { λ s t question fault h. bounds_answer s.limits t.limits question fault h.0 };

    fn memory_growing(
        &mut self,
        current: usize,
        desired: usize,
        maximum: Option<usize>,
    ) -> Result<bool, LimiterFailed> {
        self.limits.memory_growing(current, desired, maximum)
    }

    fn table_growing(
        &mut self,
        current: usize,
        desired: usize,
        maximum: Option<usize>,
    ) -> Result<bool, LimiterFailed> {
        self.limits.table_growing(current, desired, maximum)
    }

    fn instances(&self) -> usize {
        self.limits.instances
    }

    fn tables(&self) -> usize {
        self.limits.tables
    }

    fn memories(&self) -> usize {
        self.limits.memories
    }
}

impl<D> HostData for Limited<D> {
    ghost use Rattle.std.proofs.Math.Nat.{le_refl};

    ghost hook_faults = { λ s. 0 };

    ghost behaviour_faults = { λ s. 0 };

    ghost growths_keep_all = { λ s t question answer h. (h.0.2, le_refl 0, le_refl 0, le_refl 0) };
}
