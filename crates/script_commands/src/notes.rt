ghost use Rattle.serde_json.specs.View.{view};
ghost use Rattle.script_json.specs.Fields.{Reads};
ghost use Rattle.script_commands.specs.Notes as notes;

use script_json::{JsonReader, ScriptFault, list_of, one_member, whole, yes};
use script_modules::line;
use serde_json::Value;
use std::alloc::Global;
use wasm_types::{Items, Text};

/// A part of a note.
#[derive(Drop)]
pub enum NotePart {
    /// This text, which is one line.
    Text(Text),
    /// The argument at this place, counted from 0, as a decimal number; nothing where it is no integer.
    Arg(usize),
    /// The number of the host data.
    Data,
    /// The line of the newest reply to this call of the body, without its end; nothing where there is none.
    Last,
}

/// What a part is called by the key of its only member.
#[derive(Clone, Copy)]
enum PartKind {
    Arg,
    Data,
    Last,
}

fn part_kind(key: &str) -> Result<PartKind, ScriptFault>
    ensures { Reads (notes.part_kind_of key.now) result }
{
    match key {
        "arg" => Ok(PartKind::Arg),
        "data" => Ok(PartKind::Data),
        "last" => Ok(PartKind::Last),
        _ => Err(ScriptFault::NotScript),
    }
}

fn part_by(json: &Value, kind: PartKind) -> Result<NotePart, ScriptFault>
    ensures { Reads (notes.part_by (view json.now) kind) result }
{
    match kind {
        PartKind::Arg => Ok(NotePart::Arg(whole(json)? as usize)),
        PartKind::Data => {
            yes(json)?;
            Ok(NotePart::Data)
        }
        PartKind::Last => {
            yes(json)?;
            Ok(NotePart::Last)
        }
    }
}

/// Reads a part of a note, as an item of a list.
struct PartReader;

impl JsonReader for PartReader {
    ghost use Rattle.script_commands.specs.Notes.{part_of};

    type Item = NotePart;

    ghost meaning = { λ _ json. part_of json };

    fn read(&self, alloc: Global, json: &Value) -> Result<NotePart, ScriptFault> {
        if json.is_string() {
            return Ok(NotePart::Text(line(alloc, json)?));
        }
        let (key, member) = one_member(json)?;
        part_by(member, part_kind(key)?)
    }
}

/// Reads a note.
pub(crate) fn note(alloc: Global, json: &Value) -> Result<Items<NotePart>, ScriptFault>
    ensures { Reads (notes.note_of (view json.now)) result }
{
    list_of(alloc, json, &PartReader)
}
