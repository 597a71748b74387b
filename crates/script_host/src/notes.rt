ghost use Rattle.std.specs.Prelude.{◌≡◌, ◌++◌, OnOk, IfOk, string_bytes};
ghost use Rattle.script_host.specs.Notes.{integer_text, newest_text, part_text, note_text};

use script_commands::NotePart;
use script_lines::append_reply;
use spec_machine::Reply;
use std::alloc::Global;
use wasm_types::OutOfMemory;
use wasm_values::Val;

/// What a note is made of: the number of the host's data, and of the call the arguments and the replies so far.
#[derive(Clone, Copy)]
pub struct Sight<'a> {
    pub number: i64,
    pub arguments: &'a [Val],
    pub replies: &'a [Reply],
}

fn append_integer(text: &mut String, val: Option<Val>) -> Result<(), OutOfMemory>
    ensures { OnOk result (string_bytes text.new ≡ string_bytes text.old ++ integer_text val) }
{
    match val {
        Some(Val::I32(number)) => write!(text, "{number}")?,
        Some(Val::I64(number)) => write!(text, "{number}")?,
        _ => {}
    }
    Ok(())
}

fn append_newest(alloc: Global, text: &mut String, replies: &[Reply]) -> Result<(), OutOfMemory>
    ensures { OnOk result (string_bytes text.new ≡ string_bytes text.old ++ newest_text replies.now) }
{
    match replies.last() {
        Some(reply) => append_reply(alloc, text, reply),
        None => Ok(()),
    }
}

fn append_part(
    alloc: Global,
    text: &mut String,
    sight: Sight<'_>,
    part: &NotePart,
) -> Result<(), OutOfMemory>
    ensures { OnOk result (string_bytes text.new
        ≡ string_bytes text.old ++ part_text sight.entry.number sight.entry.arguments.now sight.entry.replies.now part.now) }
{
    match part {
        NotePart::Text(piece) => text.push_str(piece.as_str())?,
        NotePart::Arg(place) => append_integer(text, sight.arguments.get(*place).copied())?,
        NotePart::Data => {
            let number = sight.number;
            write!(text, "{number}")?;
        }
        NotePart::Last => append_newest(alloc, text, sight.replies)?,
    }
    Ok(())
}

/// The text of a note.
pub(crate) fn note(
    alloc: Global,
    sight: Sight<'_>,
    parts: &[NotePart],
) -> Result<String, OutOfMemory>
    ensures { IfOk result (λ text. string_bytes text
        ≡ note_text sight.entry.number sight.entry.arguments.now sight.entry.replies.now parts.now) }
{
    let mut text = String::new(alloc);
    for part in parts {
        append_part(alloc, &mut text, sight, part)?;
    }
    Ok(text)
}
