ghost use Rattle.serde_json.specs.View.{view};
ghost use Rattle.script_json.specs.Fields.{Reads};
ghost use Rattle.wasm_tape.specs.Read as read;

use crate::answer_reader::answer;
use law_replay::TapedStep;
use script_json::{JsonReader, ScriptFault, field, only, text, whole};
use serde_json::Value;
use spec_execution::Event;
use std::alloc::Global;
use wasm_meter::{EpochFailed, LimiterFailed};
use wasm_types::FuncType;

fn event_named(name: &str) -> Result<Event, ScriptFault>
    ensures { Reads (read.event_named name.now) result }
{
    match name {
        "start" => Ok(Event::Start),
        "replied" => Ok(Event::Replied),
        _ => Err(ScriptFault::NotScript),
    }
}

fn event(json: &Value) -> Result<Event, ScriptFault>
    ensures { Reads (read.event_in (view json.now)) result }
{
    event_named(text(json)?)
}

/// Reads a step, which may name one of these types.
#[derive(Clone, Copy)]
pub(crate) struct StepReader<'a> {
    pub(crate) types: &'a [FuncType],
}

impl<'a> JsonReader for StepReader<'a> {
    ghost use Rattle.wasm_tape.specs.Read.{step_in};

    type Item = TapedStep;

    ghost meaning = { λ reader json. step_in reader.types.now json };

    fn read(&self, alloc: Global, json: &Value) -> Result<TapedStep, ScriptFault> {
        only(json, &["body", "state", "event", "answer", "next"])?;
        let body = whole(field(json, "body")?)? as usize;
        let state = whole(field(json, "state")?)?;
        let event = event(field(json, "event")?)?;
        let answer = answer(alloc, self.types, field(json, "answer")?)?;
        let next = whole(field(json, "next")?)?;
        Ok(TapedStep {
            body,
            state,
            event,
            answer,
            next,
        })
    }
}

fn fault_named(name: &str) -> Result<Result<u64, EpochFailed>, ScriptFault>
    ensures { Reads (read.fault_named name.now) result }
{
    match name {
        "fault" => Ok(Err(EpochFailed)),
        _ => Err(ScriptFault::NotScript),
    }
}

/// Reads a reading of the epoch: a number of ticks, or `"fault"`.
pub(crate) struct ReadingReader;

impl JsonReader for ReadingReader {
    ghost use Rattle.wasm_tape.specs.Read.{reading_in};

    type Item = Result<u64, EpochFailed>;

    ghost meaning = { λ _ json. reading_in json };

    fn read(&self, _alloc: Global, json: &Value) -> Result<Result<u64, EpochFailed>, ScriptFault> {
        if json.is_number() {
            return Ok(Ok(whole(json)?));
        }
        fault_named(text(json)?)
    }
}

fn growth_named(name: &str) -> Result<Result<bool, LimiterFailed>, ScriptFault>
    ensures { Reads (read.growth_named name.now) result }
{
    match name {
        "yes" => Ok(Ok(true)),
        "no" => Ok(Ok(false)),
        "fault" => Ok(Err(LimiterFailed)),
        _ => Err(ScriptFault::NotScript),
    }
}

/// Reads an answer of the limiter: `"yes"`, `"no"` or `"fault"`.
pub(crate) struct GrowthReader;

impl JsonReader for GrowthReader {
    ghost use Rattle.wasm_tape.specs.Read.{growth_in};

    type Item = Result<bool, LimiterFailed>;

    ghost meaning = { λ _ json. growth_in json };

    fn read(
        &self,
        _alloc: Global,
        json: &Value,
    ) -> Result<Result<bool, LimiterFailed>, ScriptFault> {
        growth_named(text(json)?)
    }
}
