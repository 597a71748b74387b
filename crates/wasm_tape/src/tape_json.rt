ghost use Rattle.std.specs.Prelude.{◌≡◌, Some, IfOk};
ghost use Rattle.std.specs.List.{AllByRecursion};
ghost use Rattle.serde_json.specs.View.{view};
ghost use Rattle.script_json.specs.Fields.{Reads};
ghost use Rattle.tape_values.specs.Writing.{Writes, list_data};
ghost use Rattle.wasm_tape.specs.Answers.{ReadsParts, ReadsTape, WritesTape};
ghost use Rattle.wasm_tape.specs.Parts.{parts_of};
ghost use Rattle.wasm_tape.specs.Read.{tape_in};
ghost use Rattle.wasm_tape.specs.Written as written;
ghost use Rattle.wasm_tape.specs.Written.{StepInRange, TapeInRange, growth_data, reading_data, step_data, tape_data};

use crate::entries_reader::{GrowthReader, ReadingReader, StepReader};
use crate::entries_writer::{GrowthWriter, ReadingWriter, StepWriter};
use crate::faults::TapeFault;
use crate::tape::Tape;
use law_replay::TapedStep;
use script_json::{ScriptFault, field, list_of, only};
use serde_json::{Value, json};
use std::alloc::{AllocError, Global};
use tape_values::{WriteFault, list_value};
use wasm_meter::{EpochFailed, LimiterFailed};
use wasm_types::FuncType;

fn steps_value(alloc: Global, types: &[FuncType], steps: &[TapedStep]) -> Result<Value, WriteFault>
    ensures written { Writes (list_data (step_data types.now) steps.now) result }
    ensures within { IfOk result (λ _. AllByRecursion StepInRange steps.now) }
{
    list_value(alloc, steps, &StepWriter { types })
}

fn readings_value(alloc: Global, readings: &[Result<u64, EpochFailed>]) -> Result<Value, WriteFault>
    ensures { Writes (list_data reading_data readings.now) result }
{
    list_value(alloc, readings, &ReadingWriter)
}

fn growths_value(
    alloc: Global,
    growths: &[Result<bool, LimiterFailed>],
) -> Result<Value, WriteFault>
    ensures { Writes (list_data growth_data growths.now) result }
{
    list_value(alloc, growths, &GrowthWriter)
}

// What is written of a tape, where this is written of its lists.
fn tape_by(
    alloc: Global,
    steps: Value,
    readings: Value,
    growths: Value,
) -> Result<Value, AllocError>
    ensures { IfOk result (λ value. view value ≡ written.tape_by (view steps) (view readings) (view growths)) }
{
    json!(in alloc; {"growths": growths, "readings": readings, "steps": steps})
}

fn write_tape(alloc: Global, types: &[FuncType], tape: &Tape) -> Result<Value, WriteFault>
    ensures written { Writes (tape_data types.now (parts_of tape.now)) result }
    ensures within { IfOk result (λ _. TapeInRange (parts_of tape.now)) }
{
    let steps = steps_value(alloc, types, tape.steps.as_slice())?;
    let readings = readings_value(alloc, tape.readings.as_slice())?;
    let growths = growths_value(alloc, tape.growths.as_slice())?;
    Ok(tape_by(alloc, steps, readings, growths)?)
}

fn read_tape(alloc: Global, types: &[FuncType], json: &Value) -> Result<Tape, ScriptFault>
    ensures { ReadsParts (tape_in types.now (view json.now)) result }
{
    only(json, &["steps", "readings", "growths"])?;
    let steps = list_of(alloc, field(json, "steps")?, &StepReader { types })?;
    let readings = list_of(alloc, field(json, "readings")?, &ReadingReader)?;
    let growths = list_of(alloc, field(json, "growths")?, &GrowthReader)?;
    Ok(Tape {
        steps,
        readings,
        growths,
    })
}

impl Tape {
    /// The tape as JSON data: an object of its steps, its readings and its growths, in which a function type is written as the
    /// number of the first equal one of `types`. It is read as it was (`comes_back`).
    ///
    /// `UnknownType` exactly where a function type on the tape is none of the types; never `BadTape`.
    pub fn to_value(&self, alloc: Global, types: &[FuncType]) -> Result<Value, TapeFault>
        ensures written { WritesTape (tape_data types.now (parts_of self.now)) result }
        ensures comes_back { IfOk result (λ value. tape_in types.now (view value) ≡ Some (parts_of self.now)) }
    {
        match write_tape(alloc, types, self) {
            Ok(value) => Ok(value),
            Err(WriteFault::UnknownType) => Err(TapeFault::UnknownType),
            Err(WriteFault::OutOfMemory) => Err(TapeFault::OutOfMemory),
        }
    }

    /// The tape that JSON data spells, in which the number of a function type is its place among `types`.
    ///
    /// `BadTape` exactly where the data is no tape over the types; never `UnknownType`.
    pub fn from_value(alloc: Global, types: &[FuncType], value: &Value) -> Result<Tape, TapeFault>
        ensures { ReadsTape (tape_in types.now (view value.now)) result }
    {
        match read_tape(alloc, types, value) {
            Ok(tape) => Ok(tape),
            Err(ScriptFault::NotScript) => Err(TapeFault::BadTape),
            Err(ScriptFault::OutOfMemory) => Err(TapeFault::OutOfMemory),
        }
    }
}
