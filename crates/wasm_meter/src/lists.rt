ghost use Rattle.std.specs.Prelude.{◌≡◌};

use crate::answers::Answers;
use crate::behaviours::DeadlineBehaviour;
use crate::call_hook::CallHook;
use crate::deadline::UpdateDeadline;
use crate::epochs::EpochSource;
use crate::faults::{BehaviourFailed, EpochFailed, HookFailed, LimiterFailed};
use crate::hooks::CallHooks;
use crate::host_data::HostData;
use crate::limiter::ResourceLimiter;

/// An answer of a limiter.
#[derive(Clone, Copy)]
pub enum GrowthAnswer {
    /// `Ok(true)`.
    Yes,
    /// `Ok(false)`.
    No,
    /// `LimiterFailed`.
    Fault,
}

/// An answer of a hook.
#[derive(Clone, Copy)]
pub enum HookAnswer {
    /// `Ok(())`.
    Done,
    /// `HookFailed`.
    Fault,
}

/// An answer of a deadline behaviour.
#[derive(Clone, Copy)]
pub enum BehaviourAnswer {
    /// `UpdateDeadline::Interrupt`.
    Interrupt,
    /// `UpdateDeadline::Continue` with so many ticks.
    Continue(u64),
    /// `BehaviourFailed`.
    Fault,
}

/// An answer of an epoch source.
#[derive(Clone, Copy)]
pub enum EpochAnswer {
    /// So many ticks.
    Reading(u64),
    /// `EpochFailed`.
    Fault,
}

/// Host data in memory, whose answers are given beforehand: each asking takes the next one of its list.
///
/// Past the end of its list a limiter says yes, a hook is done, and a deadline behaviour interrupts. Each count rises
/// by one where its answer comes, and stops at 2^64 - 1.
#[derive(Drop)]
pub struct ListedData {
    /// How many instances there may be.
    pub instances: usize,
    /// How many tables there may be.
    pub tables: usize,
    /// How many memories there may be.
    pub memories: usize,
    /// What the limiter answers, to questions on memories and tables alike.
    pub growths: Answers<GrowthAnswer>,
    /// How often the limiter said no.
    pub denials: u64,
    /// How often the limiter failed.
    pub limiter_faults: u64,
    /// What a hook answers.
    pub hooks: Answers<HookAnswer>,
    /// How often a hook failed.
    pub hook_faults: u64,
    /// What a deadline behaviour answers.
    pub behaviours: Answers<BehaviourAnswer>,
    /// How often a deadline behaviour failed.
    pub behaviour_faults: u64,
}

impl ListedData {
    ghost use Rattle.wasm_meter.specs.Lists.{growth_answer, after_growth, hook_answer, after_hook, behaviour_answer, after_behaviour, Keeps};

    fn grow(&mut self) -> Result<bool, LimiterFailed>
        ensures answer { result ≡ growth_answer self.old }
        ensures state { self.new ≡ after_growth self.old }
        ensures never_falls { Keeps self.old self.new }
    {
        match self.growths.take() {
            Some(GrowthAnswer::No) => {
                self.denials = self.denials.saturating_add(1);
                Ok(false)
            }
            Some(GrowthAnswer::Fault) => {
                self.limiter_faults = self.limiter_faults.saturating_add(1);
                Err(LimiterFailed)
            }
            Some(GrowthAnswer::Yes) | None => Ok(true),
        }
    }

    /// The next answer of a hook.
    pub fn hook_answer(&mut self) -> Result<(), HookFailed>
        ensures answer { result ≡ hook_answer self.old }
        ensures state { self.new ≡ after_hook self.old }
        ensures never_falls { Keeps self.old self.new }
    {
        match self.hooks.take() {
            Some(HookAnswer::Fault) => {
                self.hook_faults = self.hook_faults.saturating_add(1);
                Err(HookFailed)
            }
            Some(HookAnswer::Done) | None => Ok(()),
        }
    }

    /// The next answer of a deadline behaviour.
    pub fn behaviour_answer(&mut self) -> Result<UpdateDeadline, BehaviourFailed>
        ensures answer { result ≡ behaviour_answer self.old }
        ensures state { self.new ≡ after_behaviour self.old }
        ensures never_falls { Keeps self.old self.new }
    {
        match self.behaviours.take() {
            Some(BehaviourAnswer::Fault) => {
                self.behaviour_faults = self.behaviour_faults.saturating_add(1);
                Err(BehaviourFailed)
            }
            Some(BehaviourAnswer::Continue(ticks)) => Ok(UpdateDeadline::Continue(ticks)),
            Some(BehaviourAnswer::Interrupt) | None => Ok(UpdateDeadline::Interrupt),
        }
    }
}

impl ResourceLimiter for ListedData {
    ghost use Rattle.wasm_meter.specs.Lists.{GrowsByList};
    ghost use Rattle.wasm_meter.specs.ListLaws.{growth_denies, growth_fails};

    ghost instances = { λ s. s.instances };

    ghost tables = { λ s. s.tables };

    ghost memories = { λ s. s.memories };

    ghost growths = { λ s question answer t. GrowsByList s answer t };

    ghost denials = { λ s. s.denials };

    ghost limiter_faults = { λ s. s.limiter_faults };

    ghost growths_keep = { λ s t question answer h. (h.2.0, h.2.1) };

    ghost growths_deny = { λ s t question h. growth_denies s t h.0 h.1 };

    ghost growths_fail = { λ s t question fault h. growth_fails s t fault h.0 h.1 };

    fn memory_growing(
        &mut self,
        _current: usize,
        _desired: usize,
        _maximum: Option<usize>,
    ) -> Result<bool, LimiterFailed> {
        self.grow()
    }

    fn table_growing(
        &mut self,
        _current: usize,
        _desired: usize,
        _maximum: Option<usize>,
    ) -> Result<bool, LimiterFailed> {
        self.grow()
    }

    fn instances(&self) -> usize {
        self.instances
    }

    fn tables(&self) -> usize {
        self.tables
    }

    fn memories(&self) -> usize {
        self.memories
    }
}

impl HostData for ListedData {
    ghost use Rattle.wasm_meter.specs.Lists.{GrowsByList};

    ghost hook_faults = { λ s. s.hook_faults };

    ghost behaviour_faults = { λ s. s.behaviour_faults };

    ghost growths_keep_all = { λ s t question answer h. h.2 };
}

/// A hook that gives the next answer of the host data's list.
#[derive(Clone, Copy)]
pub struct ListedHook;

impl CallHooks<ListedData> for ListedHook {
    ghost use Rattle.wasm_meter.specs.Lists.{HooksByList};
    ghost use Rattle.wasm_meter.specs.ListLaws.{hook_fails};

    ghost hooks = { λ s event answer t. HooksByList s answer t };

    ghost hooks_keep_all = { λ s t event answer h. h.2 };

    ghost hooks_fail = { λ s t event fault h. hook_fails s t fault h.0 h.1 };

    fn ask_hook(&self, host_data: &mut ListedData, _event: CallHook) -> Result<(), HookFailed> {
        host_data.hook_answer()
    }
}

/// A deadline behaviour that gives the next answer of the host data's list.
#[derive(Clone, Copy)]
pub struct ListedBehaviour;

impl DeadlineBehaviour<ListedData> for ListedBehaviour {
    ghost use Rattle.wasm_meter.specs.Lists.{BehavesByList};
    ghost use Rattle.wasm_meter.specs.ListLaws.{behaviour_fails};

    ghost behaves = { BehavesByList };

    ghost behaves_keep_all = { λ s t answer h. h.2 };

    ghost behaves_fail = { λ s t fault h. behaviour_fails s t fault h.0 h.1 };

    fn ask_behaviour(&self, host_data: &mut ListedData) -> Result<UpdateDeadline, BehaviourFailed> {
        host_data.behaviour_answer()
    }
}

/// An epoch source in memory, whose answers are given beforehand.
///
/// Past the end of its list it gives the last reading again, and 0 where there was none. The count of faults rises by
/// one at each fault, and stops at 2^64 - 1.
#[derive(Drop)]
pub struct ListedEpochs {
    /// What it answers.
    pub answers: Answers<EpochAnswer>,
    /// The last reading, in ticks.
    pub last: u64,
    /// How often it failed.
    pub faults: u64,
}

impl EpochSource for ListedEpochs {
    ghost use Rattle.wasm_meter.specs.Lists.{ReadsByList};
    ghost use Rattle.wasm_meter.specs.ListLaws.{reading_fails};

    ghost readings = { ReadsByList };

    ghost epoch_faults = { λ s. s.faults };

    ghost readings_keep = { λ s t answer h. h.2 };

    ghost readings_fail = { λ s t fault h. reading_fails s t fault h.0 h.1 };

    fn current(&mut self) -> Result<u64, EpochFailed> {
        match self.answers.take() {
            Some(EpochAnswer::Fault) => {
                self.faults = self.faults.saturating_add(1);
                Err(EpochFailed)
            }
            Some(EpochAnswer::Reading(ticks)) => {
                self.last = ticks;
                Ok(ticks)
            }
            None => Ok(self.last),
        }
    }
}
