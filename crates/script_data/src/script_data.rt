ghost use Rattle.std.specs.Prelude.{◌≡◌, IfOk};
ghost use Rattle.script_commands.specs.HostAnswers.{no_answers};
ghost use Rattle.script_data.specs.HostData as host_data;
ghost use Rattle.script_data.specs.HostData.{script_data};

use crate::first_events::FirstEvents;
use script_commands::{HostAnswers, LimiterAnswers};
use std::alloc::Global;
use wasm_meter::{
    Answers, BehaviourFailed, CallHook, HookFailed, HostData, LimiterFailed, ListedData,
    ResourceLimiter, UpdateDeadline,
};
use wasm_types::{Items, OutOfMemory};

/// How many instances, tables and memories there may be, each, where a script has no limiter.
const MOST_OBJECTS: usize = 10_000;

/// What a script keeps in its store: a number, the answers of its limiter, its hook and its deadline behaviour, and the
/// first 64 events that the hook was told of.
///
/// Each asking takes the next answer of its list. Past the end of its list the limiter says yes, the hook lets the call go
/// on, and the deadline behaviour interrupts. Each count rises by one where its answer comes, and stops at 2^64 - 1.
#[derive(Drop)]
pub struct ScriptData {
    number: i64,
    answers: ListedData,
    events: FirstEvents,
}

/// The limiter of a script, or one that grants all.
fn limiter_by(alloc: Global, limiter: Option<LimiterAnswers>) -> LimiterAnswers
    ensures { result ≡ host_data.limiter_by limiter }
{
    match limiter {
        Some(limiter) => limiter,
        None => LimiterAnswers {
            instances: MOST_OBJECTS,
            tables: MOST_OBJECTS,
            memories: MOST_OBJECTS,
            answers: Items(Vec::new(alloc)),
        },
    }
}

/// The answers of a list, none where there is no list.
fn given<A: Copy>(alloc: Global, list: Option<Items<A>>) -> Answers<A>
    ensures { result ≡ host_data.given list }
{
    match list {
        Some(list) => Answers::new(list.into_vec()),
        None => Answers::new(Vec::new(alloc)),
    }
}

impl ScriptData {
    /// The data of a script with this number that answers nothing beforehand.
    pub fn try_new(alloc: Global, number: i64) -> Result<ScriptData, OutOfMemory>
        ensures { IfOk result (λ made. made ≡ script_data (record no_answers { number = number })) }
    {
        let answers = HostAnswers {
            number,
            limiter: None,
            hook: None,
            deadline: None,
        };
        ScriptData::with_answers(alloc, answers)
    }

    /// The data of a script that says this of it. What a script leaves out has no answers beforehand.
    pub fn with_answers(alloc: Global, answers: HostAnswers) -> Result<ScriptData, OutOfMemory>
        ensures { IfOk result (λ made. made ≡ script_data answers) }
    {
        let number = answers.number;
        let events = FirstEvents::try_new(alloc)?;
        let limiter = limiter_by(alloc, answers.limiter);
        let answers = ListedData {
            instances: limiter.instances,
            tables: limiter.tables,
            memories: limiter.memories,
            growths: Answers::new(limiter.answers.into_vec()),
            denials: 0,
            limiter_faults: 0,
            hooks: given(alloc, answers.hook),
            hook_faults: 0,
            behaviours: given(alloc, answers.deadline),
            behaviour_faults: 0,
        };
        Ok(ScriptData {
            number,
            answers,
            events,
        })
    }

    /// The number.
    pub fn number(&self) -> i64
        ensures { result ≡ self.now.number }
    {
        self.number
    }

    /// The first 64 events that the hook was told of, in order.
    pub fn events(&self) -> &[CallHook]
        ensures { result.now ≡ self.now.events }
    {
        self.events.as_slice()
    }
}

impl ScriptData {
    ghost use Rattle.script_data.specs.HostData.{HooksByScript, BehavesByScript};

    /// Tells the hook of this event: keeps it where there are not 64 yet, and gives the next answer of the hook.
    pub fn hook_answer(&mut self, event: CallHook) -> Result<(), HookFailed>
        ensures { HooksByScript self.old event result self.new }
    {
        self.events.add(event);
        self.answers.hook_answer()
    }

    /// The next answer of the deadline behaviour.
    pub fn deadline_answer(&mut self) -> Result<UpdateDeadline, BehaviourFailed>
        ensures { BehavesByScript self.old result self.new }
    {
        self.answers.behaviour_answer()
    }
}

impl ResourceLimiter for ScriptData {
    ghost use Rattle.script_data.specs.HostData.{GrowsByScript, growth_denies, growth_fails};

    ghost instances = { λ s. s.answers.instances };

    ghost tables = { λ s. s.answers.tables };

    ghost memories = { λ s. s.answers.memories };

    ghost growths = { λ s question answer t. GrowsByScript s answer t };

    ghost denials = { λ s. s.answers.denials };

    ghost limiter_faults = { λ s. s.answers.limiter_faults };

    ghost growths_keep = { λ s t question answer h. (h.1.2.0, h.1.2.1) };

    ghost growths_deny = { λ s t question h. growth_denies s t h };

    ghost growths_fail = { λ s t question fault h. growth_fails s t fault h };

    fn memory_growing(
        &mut self,
        current: usize,
        desired: usize,
        maximum: Option<usize>,
    ) -> Result<bool, LimiterFailed> {
        self.answers.memory_growing(current, desired, maximum)
    }

    fn table_growing(
        &mut self,
        current: usize,
        desired: usize,
        maximum: Option<usize>,
    ) -> Result<bool, LimiterFailed> {
        self.answers.table_growing(current, desired, maximum)
    }

    fn instances(&self) -> usize {
        self.answers.instances
    }

    fn tables(&self) -> usize {
        self.answers.tables
    }

    fn memories(&self) -> usize {
        self.answers.memories
    }
}

impl HostData for ScriptData {
    ghost use Rattle.script_data.specs.HostData.{GrowsByScript};

    ghost hook_faults = { λ s. s.answers.hook_faults };

    ghost behaviour_faults = { λ s. s.answers.behaviour_faults };

    ghost growths_keep_all = { λ s t question answer h. h.1.2 };
}
