ghost use Rattle.std.specs.Prelude.{pos, codes};
ghost use Rattle.serde_json.specs.View.{view};
ghost use Rattle.script_json.specs.Fields as fields;
ghost use Rattle.script_json.specs.Fields.{Reads};
ghost use Rattle.script_commands.specs.HostAnswers as answers;

use crate::answer_words::{BehaviourAnswerReader, GrowthAnswerReader, HookAnswerReader};
use script_json::{ScriptFault, list_of, list_or_empty, only, signed_64, whole};
use serde_json::Value;
use std::alloc::Global;
use wasm_meter::{BehaviourAnswer, GrowthAnswer, HookAnswer};
use wasm_types::Items;

/// How many instances, tables and memories there may be, each, where a script does not say.
const MOST_OBJECTS: usize = 10_000;

/// What a script's limiter answers.
#[derive(Drop)]
pub struct LimiterAnswers {
    /// How many instances there may be.
    pub instances: usize,
    /// How many tables instances may make.
    pub tables: usize,
    /// How many memories instances may make.
    pub memories: usize,
    /// What it answers to questions on memories and tables alike, the first one first.
    pub answers: Items<GrowthAnswer>,
}

/// What a script says of its host data: its number, and what it answers, each list with its first answer first. What is not
/// there is not asked.
#[derive(Drop)]
pub struct HostAnswers {
    /// The number.
    pub number: i64,
    /// The limiter.
    pub limiter: Option<LimiterAnswers>,
    /// What the call hook answers.
    pub hook: Option<Items<HookAnswer>>,
    /// What the deadline behaviour answers.
    pub deadline: Option<Items<BehaviourAnswer>>,
}

/// How many objects of a kind there may be.
fn most(json: &Value, key: &str) -> Result<usize, ScriptFault>
    ensures { Reads (fields.field_or 10000 fields.whole (fields.field key.now (view json.now))) result }
{
    match json.get(key) {
        Some(number) => Ok(whole(number)? as usize),
        None => Ok(MOST_OBJECTS),
    }
}

fn number_in(json: &Value) -> Result<i64, ScriptFault>
    ensures { Reads (fields.field_or (pos 0) fields.signed_64 (fields.field (codes "number") (view json.now))) result }
{
    match json.get("number") {
        Some(number) => signed_64(number),
        None => Ok(0),
    }
}

fn limiter(alloc: Global, json: &Value) -> Result<LimiterAnswers, ScriptFault>
    ensures { Reads (answers.limiter_of (view json.now)) result }
{
    only(json, &["instances", "tables", "memories", "answers"])?;
    let instances = most(json, "instances")?;
    let tables = most(json, "tables")?;
    let memories = most(json, "memories")?;
    let answers = list_or_empty(alloc, json, "answers", &GrowthAnswerReader)?;
    Ok(LimiterAnswers {
        instances,
        tables,
        memories,
        answers,
    })
}

fn limiter_in(alloc: Global, json: &Value) -> Result<Option<LimiterAnswers>, ScriptFault>
    ensures { Reads
        (fields.optional answers.limiter_of (fields.field (codes "limiter") (view json.now)))
        result }
{
    match json.get("limiter") {
        Some(json) => Ok(Some(limiter(alloc, json)?)),
        None => Ok(None),
    }
}

fn hook_in(alloc: Global, json: &Value) -> Result<Option<Items<HookAnswer>>, ScriptFault>
    ensures { Reads
        (fields.optional (fields.list_of answers.hook_answer_of) (fields.field (codes "hook") (view json.now)))
        result }
{
    match json.get("hook") {
        Some(list) => Ok(Some(list_of(alloc, list, &HookAnswerReader)?)),
        None => Ok(None),
    }
}

fn deadline_in(alloc: Global, json: &Value) -> Result<Option<Items<BehaviourAnswer>>, ScriptFault>
    ensures { Reads
        (fields.optional (fields.list_of answers.behaviour_answer_of)
        (fields.field (codes "deadline") (view json.now)))
        result }
{
    match json.get("deadline") {
        Some(list) => Ok(Some(list_of(alloc, list, &BehaviourAnswerReader)?)),
        None => Ok(None),
    }
}

fn host_answers(alloc: Global, json: &Value) -> Result<HostAnswers, ScriptFault>
    ensures { Reads (answers.host_answers_of (view json.now)) result }
{
    only(json, &["number", "limiter", "hook", "deadline"])?;
    let number = number_in(json)?;
    let limiter = limiter_in(alloc, json)?;
    let hook = hook_in(alloc, json)?;
    let deadline = deadline_in(alloc, json)?;
    Ok(HostAnswers {
        number,
        limiter,
        hook,
        deadline,
    })
}

/// Reads what a script says of its host data.
pub(crate) fn host_answers_in(alloc: Global, json: &Value) -> Result<HostAnswers, ScriptFault>
    ensures { Reads (answers.host_answers_in (view json.now)) result }
{
    match json.get("data") {
        Some(json) => host_answers(alloc, json),
        None => Ok(HostAnswers {
            number: 0,
            limiter: None,
            hook: None,
            deadline: None,
        }),
    }
}
