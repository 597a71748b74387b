//! Takes a row from each line of standard input: over how many of its types a tape is read, over how many it is written, and
//! the tape as JSON; with one blank between them. It writes the tape as it was written again, or why there is none. The rows
//! and the lines that are wanted are those of `tools/tape_rows.py`.
#![tactic(auto)]

use serde_json::Value;
use std::alloc::Global;
use std::io;
use std::io::{BufRead, BufReader, Input};
use wasm_tape::{Tape, TapeFault};
use wasm_types::{EngineId, FuncType, ValType};

/// The function types that a row may name, of which the third is equal to the first.
fn listed_types(alloc: Global) -> Option<Vec<FuncType>> {
    let engine = EngineId(1);
    let plain = FuncType::try_new(alloc, engine, &[], &[]).ok()?;
    let other = FuncType::try_new(alloc, engine, &[ValType::I32], &[ValType::I64]).ok()?;
    let again = FuncType::try_new(alloc, engine, &[], &[]).ok()?;
    vec![in alloc; plain, other, again].ok()
}

/// The first types, as many as a word says.
fn named_types<'a>(types: &'a [FuncType], word: &str) -> Option<&'a [FuncType]> {
    types.get(..word.parse::<usize>().ok()?)
}

fn there_and_back(
    alloc: Global,
    read: &[FuncType],
    written: &[FuncType],
    value: &Value,
) -> Result<Value, TapeFault> {
    let tape = Tape::from_value(alloc, read, value)?;
    tape.to_value(alloc, written)
}

/// What a row comes to.
fn answered(alloc: Global, types: &[FuncType], row: &str) -> Option<String> {
    let (read, behind) = row.split_once(' ')?;
    let (written, text) = behind.split_once(' ')?;
    let value = Value::from_str(alloc, text).ok()?;
    let (read, written) = (named_types(types, read)?, named_types(types, written)?);
    match there_and_back(alloc, read, written, &value) {
        Ok(value) => value.to_string(alloc).ok(),
        Err(fault) => format!(in alloc; "{fault:?}").ok(),
    }
}

fn main(rt: HostRuntime) -> io::Result<()> {
    let types = listed_types(rt.alloc());
    let rows = BufReader::new(rt.alloc(), rt.reader())?;
    for row in rows.lines(rt.alloc()) {
        let row = row?;
        let line = match &types {
            Some(types) => answered(rt.alloc(), types.as_slice(), row.as_str()),
            None => None,
        };
        match line {
            Some(line) => println!(rt; "{line}")?,
            None => println!(rt; "no answer")?,
        }
    }
    Ok(())
}
