ghost use Rattle.std.specs.Prelude.{◌≡◌, ◌++◌, OnOk, OnErr, codes, string_bytes};
ghost use Rattle.hex.specs.Hex.{encode_lower};
ghost use Rattle.script_lines.specs.Lines.{Begun, line_of, note_line, reply_text, word_of};

use crate::pieces::{append_piece, append_pieces};
use crate::refusals::append_refusal;
use crate::values::{append_instance, append_object, append_values};
use itoa::Buffer;
use spec_machine::Reply;
use std::alloc::{AllocError, Global};
use wasm_types::OutOfMemory;

/// Appends a text as one more word; an empty text is no word.
fn append_word(text: &mut String, word: &str) -> Result<(), AllocError>
    ensures appended { OnOk result (string_bytes text.new ≡ string_bytes text.old ++ word_of word.now) }
    ensures short { OnErr result (Begun (word_of word.now) (string_bytes text.old) (string_bytes text.new)) }
{
    if word.is_empty() {
        return Ok(());
    }
    append_pieces(text, " ", word)
}

/// Appends a piece of a line, and a text as one more word behind it.
fn append_worded(text: &mut String, piece: &str, word: &str) -> Result<(), AllocError>
    ensures appended { OnOk result (string_bytes text.new
        ≡ string_bytes text.old ++ (piece.now ++ word_of word.now)) }
    ensures short { OnErr result (Begun (piece.now ++ word_of word.now)
        (string_bytes text.old) (string_bytes text.new)) }
{
    append_piece(text, piece)?;
    append_word(text, word)?;
    Ok(())
}

/// Appends the line of bytes, without its end.
fn append_bytes(alloc: Global, text: &mut String, bytes: &[u8]) -> Result<(), OutOfMemory>
    ensures appended { OnOk result (string_bytes text.new
        ≡ string_bytes text.old ++ (codes "ok bytes" ++ word_of (encode_lower bytes.now))) }
    ensures short { OnErr result (Begun (codes "ok bytes" ++ word_of (encode_lower bytes.now))
        (string_bytes text.old) (string_bytes text.new)) }
{
    let digits = hex::encode(alloc, bytes)?;
    append_worded(text, "ok bytes", digits.as_str())?;
    Ok(())
}

/// Appends the line of a reply to `text`, without its end. Where memory runs out, a front of it was appended, and not all.
pub fn append_reply(alloc: Global, text: &mut String, reply: &Reply) -> Result<(), OutOfMemory>
    ensures appended { OnOk result (string_bytes text.new ≡ string_bytes text.old ++ reply_text reply.now) }
    ensures short { OnErr result (Begun (reply_text reply.now) (string_bytes text.old) (string_bytes text.new)) }
{
    match reply {
        Reply::Done => append_piece(text, "ok")?,
        Reply::Number(number) => append_pieces(text, "ok ", Buffer::new().format(*number))?,
        Reply::Bytes(bytes) => append_bytes(alloc, text, bytes.as_slice())?,
        Reply::Values(vals) => append_values(alloc, text, vals.as_slice())?,
        Reply::Object(found) => append_object(text, *found)?,
        Reply::Instance(found) => append_instance(text, *found)?,
        Reply::Absent => append_piece(text, "ok none")?,
        Reply::Refused(cause) => append_refusal(text, *cause)?,
    }
    Ok(())
}

/// Appends the line of a reply to `text`. Where memory runs out, a front of it was appended, and not all.
pub fn append_line(alloc: Global, text: &mut String, reply: &Reply) -> Result<(), OutOfMemory>
    ensures appended { OnOk result (string_bytes text.new ≡ string_bytes text.old ++ line_of reply.now) }
    ensures short { OnErr result (Begun (line_of reply.now) (string_bytes text.old) (string_bytes text.new)) }
{
    append_reply(alloc, text, reply)?;
    append_piece(text, "\n")?;
    Ok(())
}

/// Appends the line of a note to `text`. Where memory runs out, a front of it was appended, and not all.
pub fn append_note(text: &mut String, note: &str) -> Result<(), OutOfMemory>
    ensures appended { OnOk result (string_bytes text.new ≡ string_bytes text.old ++ note_line note.now) }
    ensures short { OnErr result (Begun (note_line note.now) (string_bytes text.old) (string_bytes text.new)) }
{
    append_worded(text, "note", note)?;
    append_piece(text, "\n")?;
    Ok(())
}
