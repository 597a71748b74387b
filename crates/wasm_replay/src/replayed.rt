ghost use Rattle.std.specs.Prelude.{◌≡◌, ◌≤◌, IfOk};
ghost use Rattle.wasm_tape.specs.Parts.{parts_of};
ghost use Rattle.wasm_replay.specs.Played.{new_replayed};

use crate::played::Played;
use std::alloc::Global;
use wasm_meter::{HostData, LimiterFailed, ResourceLimiter};
use wasm_tape::Tape;
use wasm_types::{Items, OutOfMemory};

/// Host data whose limiter gives the recorded answers again, one after another.
///
/// Past the last one it fails to answer.
#[derive(Drop)]
pub struct Replayed {
    pub(crate) growths: Items<Result<bool, LimiterFailed>>,
    pub(crate) played: Played,
    pub(crate) denials: u64,
    pub(crate) faults: u64,
    pub(crate) instances: usize,
    pub(crate) memories: usize,
    pub(crate) tables: usize,
}

impl Replayed {
    ghost use Rattle.wasm_replay.specs.Played.{growth_answer, after_growth};

    /// Host data that give the limiter's answers of this tape, and that let there be so many instances, memories and
    /// tables.
    pub fn new(
        alloc: Global,
        tape: &Tape,
        instances: usize,
        memories: usize,
        tables: usize,
    ) -> Result<Replayed, OutOfMemory>
        ensures { IfOk result (λ made. made ≡ new_replayed (parts_of tape.now).growths instances memories tables) }
    {
        Ok(Replayed {
            growths: Items(Vec::from_slice(alloc, tape.growths.as_slice())?),
            played: Played::new(),
            denials: 0,
            faults: 0,
            instances,
            memories,
            tables,
        })
    }

    fn grow(&mut self) -> Result<bool, LimiterFailed>
        ensures answer { result ≡ growth_answer self.old }
        ensures state { self.new ≡ after_growth self.old }
        ensures denials { self.old.denials ≤ self.new.denials }
        ensures faults { self.old.faults ≤ self.new.faults }
    {
        match self.played.take(self.growths.as_slice()) {
            Some(Ok(true)) => Ok(true),
            Some(Ok(false)) => {
                self.denials = self.denials.saturating_add(1);
                Ok(false)
            }
            Some(Err(_)) | None => {
                self.faults = self.faults.saturating_add(1);
                Err(LimiterFailed)
            }
        }
    }
}

impl ResourceLimiter for Replayed {
    ghost use Rattle.wasm_replay.specs.Played.{PlaysGrowth};
    ghost use Rattle.wasm_replay.specs.PlayedLaws.{growth_denies, growth_fails};

    ghost instances = { λ s. s.instances };

    ghost tables = { λ s. s.tables };

    ghost memories = { λ s. s.memories };

    ghost growths = { λ s question answer t. PlaysGrowth s answer t };

    ghost denials = { λ s. s.denials };

    ghost limiter_faults = { λ s. s.faults };

    ghost growths_keep = { λ s t question answer h. (h.2, h.3) };

    ghost growths_deny = { λ s t question h. growth_denies s t h.0 h.1 };

    ghost growths_fail = { λ s t question fault h. growth_fails s t fault h.0 h.1 };

    fn memory_growing(
        &mut self,
        _current: usize,
        _desired: usize,
        _maximum: Option<usize>,
    ) -> Result<bool, LimiterFailed> {
        self.grow()
    }

    fn table_growing(
        &mut self,
        _current: usize,
        _desired: usize,
        _maximum: Option<usize>,
    ) -> Result<bool, LimiterFailed> {
        self.grow()
    }

    fn instances(&self) -> usize {
        self.instances
    }

    fn tables(&self) -> usize {
        self.tables
    }

    fn memories(&self) -> usize {
        self.memories
    }
}

impl HostData for Replayed {
    ghost use Rattle.std.proofs.Math.Nat.{le_refl};

    ghost hook_faults = { λ s. 0 };

    ghost behaviour_faults = { λ s. 0 };

    ghost growths_keep_all = { λ s t question answer h. (h.2, h.3, le_refl 0, le_refl 0) };
}
