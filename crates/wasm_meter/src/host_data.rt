ghost use Rattle.std.specs.Prelude.{ℕ, Bool, Result};
ghost use Rattle.wasm_meter.specs.Counting.{NoneFell};
ghost use Rattle.wasm_meter.specs.Growths.{Growth};
ghost use Rattle.wasm_meter.specs.declared.faults.LimiterFailed.{LimiterFailed};

use crate::limiter::ResourceLimiter;

/// What a host keeps in a store: a limiter that also counts the faults of hooks and deadline behaviours. Its rules are
/// this project's own.
pub trait HostData: ResourceLimiter {
    /// How often a hook has failed.
    ghost hook_faults: { Self → ℕ };

    /// How often a deadline behaviour has failed.
    ghost behaviour_faults: { Self → ℕ };

    /// A question to the limiter leaves no count lower.
    ghost growths_keep_all: { (s t : Self) (question : Growth) (answer : Result Bool LimiterFailed) →
        Self.growths s question answer t →
        NoneFell Self.denials Self.limiter_faults hook_faults behaviour_faults s t };
}
