ghost use Rattle.serde_json.specs.View.{view};
ghost use Rattle.script_json.specs.Fields.{Reads};
ghost use Rattle.script_commands.specs.HostAnswers as answers;

use script_json::{JsonReader, ScriptFault, text, whole};
use serde_json::Value;
use std::alloc::Global;
use wasm_meter::{BehaviourAnswer, GrowthAnswer, HookAnswer};

fn growth_named(name: &str) -> Result<GrowthAnswer, ScriptFault>
    ensures { Reads (answers.growth_named name.now) result }
{
    match name {
        "yes" => Ok(GrowthAnswer::Yes),
        "no" => Ok(GrowthAnswer::No),
        "fault" => Ok(GrowthAnswer::Fault),
        _ => Err(ScriptFault::NotScript),
    }
}

fn hook_named(name: &str) -> Result<HookAnswer, ScriptFault>
    ensures { Reads (answers.hook_named name.now) result }
{
    match name {
        "ok" => Ok(HookAnswer::Done),
        "fault" => Ok(HookAnswer::Fault),
        _ => Err(ScriptFault::NotScript),
    }
}

fn behaviour_named(name: &str) -> Result<BehaviourAnswer, ScriptFault>
    ensures { Reads (answers.behaviour_named name.now) result }
{
    match name {
        "interrupt" => Ok(BehaviourAnswer::Interrupt),
        "fault" => Ok(BehaviourAnswer::Fault),
        _ => Err(ScriptFault::NotScript),
    }
}

/// Reads an answer of a limiter.
#[derive(Clone, Copy)]
pub(crate) struct GrowthAnswerReader;

impl JsonReader for GrowthAnswerReader {
    ghost use Rattle.script_commands.specs.HostAnswers.{growth_answer_of};

    type Item = GrowthAnswer;

    ghost meaning = { λ reader json. growth_answer_of json };

    fn read(&self, _alloc: Global, json: &Value) -> Result<GrowthAnswer, ScriptFault> {
        growth_named(text(json)?)
    }
}

/// Reads an answer of a call hook.
#[derive(Clone, Copy)]
pub(crate) struct HookAnswerReader;

impl JsonReader for HookAnswerReader {
    ghost use Rattle.script_commands.specs.HostAnswers.{hook_answer_of};

    type Item = HookAnswer;

    ghost meaning = { λ reader json. hook_answer_of json };

    fn read(&self, _alloc: Global, json: &Value) -> Result<HookAnswer, ScriptFault> {
        hook_named(text(json)?)
    }
}

/// Reads an answer of a deadline behaviour.
#[derive(Clone, Copy)]
pub(crate) struct BehaviourAnswerReader;

impl JsonReader for BehaviourAnswerReader {
    ghost use Rattle.script_commands.specs.HostAnswers.{behaviour_answer_of};

    type Item = BehaviourAnswer;

    ghost meaning = { λ reader json. behaviour_answer_of json };

    fn read(&self, _alloc: Global, json: &Value) -> Result<BehaviourAnswer, ScriptFault> {
        if let Ok(ticks) = whole(json) {
            return Ok(BehaviourAnswer::Continue(ticks));
        }
        behaviour_named(text(json)?)
    }
}
