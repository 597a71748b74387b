ghost use Rattle.std.specs.Prelude.{◌≡◌, ℕ, ◌≤◌, Bool, false, Result, Ok, Err};
ghost use Rattle.wasm_meter.specs.Counting.{Rose};
ghost use Rattle.wasm_meter.specs.Growths.{Growth, memory_growth, table_growth};
ghost use Rattle.wasm_meter.specs.declared.faults.LimiterFailed.{LimiterFailed as Failure};

use crate::faults::LimiterFailed;

/// Says whether a memory or a table may grow, and how many objects a store may have by instantiation. Its rules are
/// this project's own.
pub trait ResourceLimiter {
    /// How many instances there may be.
    ghost instances: { Self → ℕ };

    /// How many tables there may be.
    ghost tables: { Self → ℕ };

    /// How many memories there may be.
    ghost memories: { Self → ℕ };

    /// This question may have this answer, and take the first state to the second.
    ghost growths: { Self → Growth → Result Bool Failure → Self → Type 0 };

    /// How often it has said no.
    ghost denials: { Self → ℕ };

    /// How often it has failed to answer.
    ghost limiter_faults: { Self → ℕ };

    /// Whether a memory may grow from `current` to `desired` bytes; `maximum` is what its type declares, in bytes.
    ///
    /// `Ok(false)` comes only where the count of denials rose, `LimiterFailed` only where that of faults rose; each
    /// stops at its last value, 2^64 - 1.
    fn memory_growing(
        &mut self,
        current: usize,
        desired: usize,
        maximum: Option<usize>,
    ) -> Result<bool, LimiterFailed>
        ensures { growths self.old (memory_growth current desired maximum) result self.new };

    /// Whether a table may grow from `current` to `desired` elements; `maximum` is what its type declares, in
    /// elements. Its answers come as those of `memory_growing`.
    fn table_growing(
        &mut self,
        current: usize,
        desired: usize,
        maximum: Option<usize>,
    ) -> Result<bool, LimiterFailed>
        ensures { growths self.old (table_growth current desired maximum) result self.new };

    /// How many instances there may be.
    fn instances(&self) -> usize
        ensures { result ≡ instances self.now };

    /// How many tables there may be.
    fn tables(&self) -> usize
        ensures { result ≡ tables self.now };

    /// How many memories there may be.
    fn memories(&self) -> usize
        ensures { result ≡ memories self.now };

    /// A question leaves neither count lower.
    ghost growths_keep: { (s t : Self) (question : Growth) (answer : Result Bool Failure) →
        growths s question answer t → (denials s ≤ denials t) × (limiter_faults s ≤ limiter_faults t) };

    /// The count of denials rises where the answer is no.
    ghost growths_deny: { (s t : Self) (question : Growth) →
        growths s question (Ok false) t → Rose (denials s) (denials t) };

    /// The count of faults rises where there is no answer.
    ghost growths_fail: { (s t : Self) (question : Growth) (fault : Failure) →
        growths s question (Err fault) t → Rose (limiter_faults s) (limiter_faults t) };
}
