ghost use Rattle.std.specs.Prelude.{◌≡◌, [], false, IfOk};
ghost use Rattle.wasm_replay.specs.Kept.{kept};

use crate::kept::Kept;
use std::alloc::Global;
use wasm_meter::{HostData, LimiterFailed, ResourceLimiter};
use wasm_types::OutOfMemory;

/// Host data of which a record is kept: each answer of their limiter, in room for so many, which is taken as they are made.
///
/// The limiter, and its numbers of instances, memories and tables, are those of the data within. A growth past the room is
/// not asked there, and is a fault. The count of the limiter's faults is this one's own: it rises by each fault of the limiter
/// within, and by each growth past the room.
#[derive(Drop)]
pub struct Recorded<T> {
    pub(crate) inner: T,
    pub(crate) kept: Kept<Result<bool, LimiterFailed>>,
    pub(crate) past: bool,
    pub(crate) faults: u64,
}

impl<T: Drop> Recorded<T> {
    /// These host data, with no answer kept yet, and room for so many. `OutOfMemory` where there is none for the room.
    pub fn new(alloc: Global, inner: T, room: usize) -> Result<Recorded<T>, OutOfMemory>
        ensures { IfOk result (λ made. (made.inner ≡ inner) × (made.kept ≡ kept [] room) × (made.past ≡ false) × (made.faults ≡ 0)) }
    {
        let kept = Kept::new(alloc, room)?;
        Ok(Recorded {
            inner,
            kept,
            past: false,
            faults: 0,
        })
    }
}

impl<T> Recorded<T> {
    ghost use Rattle.std.specs.Borrow.{sem};
    ghost use Rattle.wasm_replay.specs.Lending.{lends_inner};

    /// What the host keeps, lent.
    pub fn inner(&self) -> &T
        ensures { result.now ≡ self.now.inner }
    {
        &self.inner
    }

    /// What the host keeps, lent to be changed. Once the loan ends, it is what was left there, and the record is as it was.
    pub fn inner_mut(&mut self) -> &mut T
        ensures* lends { sem 𝓛 (lends_inner T.row self.entry result) }
        ensures value { result.now ≡ self.old.inner }
    {
        &mut self.inner
    }
}

impl<T: ResourceLimiter> Recorded<T> {
    ghost use Rattle.std.specs.Prelude.{◌<◌, ◌≤◌, true, length, Err};
    ghost use Rattle.wasm_meter.specs.Lists.{one_more};
    ghost use Rattle.wasm_replay.specs.Kept.{is_full, with_kept};
    ghost use Rattle.wasm_replay.specs.Records.{faults_after};

    /// A growth past the room.
    fn refuse(&mut self) -> Result<bool, LimiterFailed>
        ensures answer { result ≡ Err (record {}) }
        ensures state { self.new ≡ record self.old { past = true; faults = one_more self.old.faults } }
        ensures never_falls { self.old.faults ≤ self.new.faults }
    {
        self.past = true;
        self.faults = self.faults.saturating_add(1);
        Err(LimiterFailed)
    }

    /// Keeps an answer, for which there is room.
    fn keep(&mut self, answer: Result<bool, LimiterFailed>) -> Result<bool, LimiterFailed>
        requires room { length self.old.kept.items < self.old.kept.room }
        ensures answer { result ≡ answer }
        ensures state { self.new ≡ record self.old { kept = with_kept self.old.kept answer; faults = faults_after answer self.old.faults } }
        ensures never_falls { self.old.faults ≤ self.new.faults }
    {
        if answer.is_err() {
            self.faults = self.faults.saturating_add(1);
        }
        self.kept.keep(answer);
        answer
    }
}

impl<T: ResourceLimiter> ResourceLimiter for Recorded<T> {
    ghost use Rattle.wasm_replay.specs.Records.{RecordsGrowth};
    ghost use Rattle.wasm_replay.specs.RecordLaws.{growths_keep, growths_deny, growths_fail};

    ghost instances = { λ s. T.instances s.inner };

    ghost tables = { λ s. T.tables s.inner };

    ghost memories = { λ s. T.memories s.inner };

    ghost growths = { RecordsGrowth T.growths };

    ghost denials = { λ s. T.denials s.inner };

    ghost limiter_faults = { λ s. s.faults };

    ghost growths_keep = { λ s t question answer h. growths_keep T.growths T.denials T.limiter_faults T.growths_keep s t question answer h };

    ghost growths_deny = { λ s t question h. growths_deny T.growths T.denials T.growths_deny s t question h };

    ghost growths_fail = { λ s t question fault h. growths_fail T.growths s t question fault h };

    fn memory_growing(
        &mut self,
        current: usize,
        desired: usize,
        maximum: Option<usize>,
    ) -> Result<bool, LimiterFailed> {
        if self.kept.is_full() {
            return self.refuse();
        }
        let answer = self.inner.memory_growing(current, desired, maximum);
        self.keep(answer)
    }

    fn table_growing(
        &mut self,
        current: usize,
        desired: usize,
        maximum: Option<usize>,
    ) -> Result<bool, LimiterFailed> {
        if self.kept.is_full() {
            return self.refuse();
        }
        let answer = self.inner.table_growing(current, desired, maximum);
        self.keep(answer)
    }

    fn instances(&self) -> usize {
        self.inner.instances()
    }

    fn tables(&self) -> usize {
        self.inner.tables()
    }

    fn memories(&self) -> usize {
        self.inner.memories()
    }
}

impl<T: HostData> HostData for Recorded<T> {
    ghost use Rattle.wasm_replay.specs.RecordLaws.{growths_keep_all};

    ghost hook_faults = { λ s. T.hook_faults s.inner };

    ghost behaviour_faults = { λ s. T.behaviour_faults s.inner };

    ghost growths_keep_all = { λ s t question answer h.
        growths_keep_all T.growths T.denials T.limiter_faults T.hook_faults T.behaviour_faults T.growths_keep_all s t question answer h };
}
