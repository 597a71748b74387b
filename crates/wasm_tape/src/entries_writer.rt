ghost use Rattle.std.specs.Prelude.{◌≡◌, Some, IfOk};
ghost use Rattle.serde_json.specs.View.{view};
ghost use Rattle.tape_values.specs.Writing.{Writes};
ghost use Rattle.wasm_tape.specs.Written as written;

use crate::answer_writer::answer_value;
use law_replay::TapedStep;
use serde_json::{Value, json};
use spec_execution::Event;
use std::alloc::{AllocError, Global};
use tape_values::{JsonWriter, WriteFault};
use wasm_meter::{EpochFailed, LimiterFailed};
use wasm_types::FuncType;

fn event_value(alloc: Global, event: Event) -> Result<Value, AllocError>
    ensures { IfOk result (λ value. view value ≡ written.event_data event) }
{
    match event {
        Event::Start => Value::try_from_str(alloc, "start"),
        Event::Replied => Value::try_from_str(alloc, "replied"),
    }
}

fn step_by(alloc: Global, step: &TapedStep, answer: Value) -> Result<Value, AllocError>
    ensures { IfOk result (λ value. view value ≡ written.step_by step.now (view answer)) }
{
    let event = event_value(alloc, step.event)?;
    let body = step.body;
    let next = step.next;
    let state = step.state;
    json!(in alloc; {"answer": answer, "body": body, "event": event, "next": next, "state": state})
}

/// Writes a step, in which each function type is its number among these types.
#[derive(Clone, Copy)]
pub(crate) struct StepWriter<'a> {
    pub(crate) types: &'a [FuncType],
}

impl<'a> JsonWriter for StepWriter<'a> {
    ghost use Rattle.wasm_tape.specs.Written.{step_data, StepInRange};

    type Item = TapedStep;

    ghost meaning = { λ writer step. step_data writer.types.now step };

    ghost range = { λ _ step. StepInRange step };

    fn write(&self, alloc: Global, step: &TapedStep) -> Result<Value, WriteFault> {
        let answer = answer_value(alloc, self.types, &step.answer)?;
        Ok(step_by(alloc, step, answer)?)
    }
}

/// Writes a reading of the epoch.
pub(crate) struct ReadingWriter;

impl JsonWriter for ReadingWriter {
    ghost use Rattle.wasm_tape.specs.Written.{reading_data};

    type Item = Result<u64, EpochFailed>;

    ghost meaning = { λ _ reading. reading_data reading };

    ghost range = { λ _ _. Unit {0} };

    fn write(
        &self,
        alloc: Global,
        reading: &Result<u64, EpochFailed>,
    ) -> Result<Value, WriteFault> {
        match reading {
            Ok(ticks) => Ok(Value::from(*ticks)),
            Err(_) => Ok(Value::try_from_str(alloc, "fault")?),
        }
    }
}

/// Writes an answer of the limiter.
pub(crate) struct GrowthWriter;

impl JsonWriter for GrowthWriter {
    ghost use Rattle.wasm_tape.specs.Written.{growth_data};

    type Item = Result<bool, LimiterFailed>;

    ghost meaning = { λ _ growth. growth_data growth };

    ghost range = { λ _ _. Unit {0} };

    fn write(
        &self,
        alloc: Global,
        growth: &Result<bool, LimiterFailed>,
    ) -> Result<Value, WriteFault> {
        match growth {
            Ok(true) => Ok(Value::try_from_str(alloc, "yes")?),
            Ok(false) => Ok(Value::try_from_str(alloc, "no")?),
            Err(_) => Ok(Value::try_from_str(alloc, "fault")?),
        }
    }
}
