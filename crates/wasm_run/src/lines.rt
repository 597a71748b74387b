ghost use Rattle.std.specs.Prelude.{◌≡◌, ◌-◌, ◌≤◌, [], ◌++◌, drop, map, take, true, OnOk, OnErr, IsErrOf, string_bytes};
ghost use Rattle.wasm_streams.specs.Streams.{after, Fronts, Rose};
ghost use Rattle.script_lines.specs.Lines.{hooks_part, note_lines, noted_from, noted_line, noted_lines_of, noted_session_lines};
ghost use Rattle.wasm_run.specs.Buffers.{IsBuffered, IsCutShort};
ghost use Rattle.wasm_run.specs.Statuses.{hook_events};

use script_lines::{append_hooks, append_line, append_note};
use spec_machine::Reply;
use std::alloc::Global;
use wasm_meter::CallHook;
use wasm_streams::{Sink, SinkFailed, write_all};
use wasm_types::OutOfMemory;

/// Lines are written in pieces of about so many bytes.
const PIECE: usize = 65536;

/// Why not all lines were written.
#[derive(Clone, Copy, Debug)]
pub(crate) enum LinesFault {
    OutOfMemory,
    WriteFault,
}

/// What lines are written of: replies, how many notes there were when the command of each was finished, and the notes.
#[derive(Clone, Copy)]
pub(crate) struct Noted<'a> {
    pub(crate) replies: &'a [Reply],
    pub(crate) notes_after: &'a [usize],
    pub(crate) notes: &'a [String],
}

/// The notes from a place on; none past the last one.
fn behind(notes: &[String], place: usize) -> &[String]
    ensures { result.now ≡ drop place notes.now }
{
    if place >= notes.len() {
        return &[];
    }
    &notes[place..]
}

/// So many notes, or all of them.
fn front(notes: &[String], count: usize) -> &[String]
    ensures { result.now ≡ take count notes.now }
{
    if count >= notes.len() {
        return notes;
    }
    &notes[..count]
}

/// The notes behind the first `before`, up to the first `count`.
fn between(notes: &[String], before: usize, count: usize) -> &[String]
    ensures { map string_bytes result.now ≡ take (count - before) (drop before (map string_bytes notes.now)) }
{
    front(behind(notes, before), count.saturating_sub(before))
}

/// Appends the lines of notes.
fn append_notes(waiting: &mut String, notes: &[String]) -> Result<(), OutOfMemory>
    ensures { OnOk result (string_bytes waiting.new
        ≡ string_bytes waiting.old ++ note_lines (map string_bytes notes.now)) }
{
    for note in notes {
        append_note(waiting, note.as_str())?;
    }
    Ok(())
}

/// Appends the line of a reply, behind those of its notes.
fn append_noted(
    alloc: Global,
    waiting: &mut String,
    notes: &[String],
    reply: &Reply,
) -> Result<(), OutOfMemory>
    ensures { OnOk result (string_bytes waiting.new
        ≡ string_bytes waiting.old ++ noted_line (map string_bytes notes.now, reply.now)) }
{
    append_notes(waiting, notes)?;
    append_line(alloc, waiting, reply)
}

/// Writes the text that waits where it makes a piece.
fn write_piece<K: Sink>(sink: &mut K, waiting: &mut String) -> Result<(), SinkFailed>
    ensures wrote { OnOk result (IsBuffered (string_bytes waiting.old) (string_bytes waiting.new)
        (K.held sink.old) (K.held sink.new)) }
    ensures front { Fronts (string_bytes waiting.old) (K.held sink.old) (K.held sink.new) }
    ensures cause { OnErr result (Rose (K.faults sink.old) (K.faults sink.new)) }
    ensures uncounted { OnOk result (K.faults sink.new ≡ K.faults sink.old) }
    ensures never_falls { K.faults sink.old ≤ K.faults sink.new }
{
    if waiting.len() < PIECE {
        return Ok(());
    }
    write_all(sink, waiting.as_bytes())?;
    waiting.clear();
    Ok(())
}

/// Writes a text, and flushes.
pub fn write_last<K: Sink>(sink: &mut K, waiting: &str) -> Result<(), SinkFailed>
    ensures wrote { OnOk result (K.held sink.new ≡ after waiting.now (K.held sink.old)) }
    ensures flushed { OnOk result (K.flushed sink.new ≡ true) }
    ensures front { Fronts waiting.now (K.held sink.old) (K.held sink.new) }
    ensures cause { OnErr result (Rose (K.faults sink.old) (K.faults sink.new)) }
    ensures uncounted { OnOk result (K.faults sink.new ≡ K.faults sink.old) }
    ensures never_falls { K.faults sink.old ≤ K.faults sink.new }
{
    write_all(sink, waiting.as_bytes())?;
    sink.flush()
}

/// Appends the line of the events that a hook was told of, where there is one.
fn append_last(waiting: &mut String, hooked: bool, events: &[CallHook]) -> Result<(), OutOfMemory>
    ensures appended { OnOk result (string_bytes waiting.new
        ≡ string_bytes waiting.old ++ hooks_part (hook_events hooked events.now)) }
    ensures hooked { OnErr result (hooked ≡ true) }
{
    if hooked {
        append_hooks(waiting, events)?;
    }
    Ok(())
}

/// Appends the lines of the replies, each behind its notes, to an empty text, and writes it in pieces. Where it fails, a
/// front of the lines was written, and for want of memory not all of them.
fn write_replies<K: Sink>(
    alloc: Global,
    sink: &mut K,
    waiting: &mut String,
    noted: Noted<'_>,
) -> Result<(), LinesFault>
    requires { string_bytes waiting.old ≡ [] }
    ensures buffered { OnOk result (IsBuffered (noted_lines_of (noted_from 0 noted.entry.notes_after.now
        (map string_bytes noted.entry.notes.now) noted.entry.replies.now)) (string_bytes waiting.new)
        (K.held sink.old) (K.held sink.new)) }
    ensures front { Fronts (noted_lines_of (noted_from 0 noted.entry.notes_after.now
        (map string_bytes noted.entry.notes.now) noted.entry.replies.now)) (K.held sink.old) (K.held sink.new) }
    ensures short { IsErrOf result LinesFault.OutOfMemory
        → IsCutShort (noted_lines_of (noted_from 0 noted.entry.notes_after.now
        (map string_bytes noted.entry.notes.now) noted.entry.replies.now)) (K.held sink.old) (K.held sink.new) }
    ensures cause { IsErrOf result LinesFault.WriteFault
        → Rose (K.faults sink.old) (K.faults sink.new) }
    ensures uncounted { ¬ IsErrOf result LinesFault.WriteFault
        → K.faults sink.new ≡ K.faults sink.old }
    ensures never_falls { K.faults sink.old ≤ K.faults sink.new }
{
    let mut before = 0;
    let mut rest = noted.replies;
    let mut counts = noted.notes_after;
    'lines: while let [reply, others @ ..] = rest {
        let [count, tail @ ..] = counts else {
            return Ok(());
        };
        let notes = between(noted.notes, before, *count);
        let Ok(()) = append_noted(alloc, waiting, notes, reply) else {
            return Err(LinesFault::OutOfMemory);
        };
        let Ok(()) = write_piece(sink, waiting) else {
            return Err(LinesFault::WriteFault);
        };
        before = *count;
        rest = others;
        counts = tail;
    }
    Ok(())
}

/// Writes the lines of the replies, each behind its notes, and, where there is a hook, the line of the events that it was
/// told of, and flushes. Where it fails, a front of this text was written, and for want of memory not all of it.
pub(crate) fn write_lines<K: Sink>(
    alloc: Global,
    sink: &mut K,
    noted: Noted<'_>,
    hooked: bool,
    events: &[CallHook],
) -> Result<(), LinesFault>
    ensures wrote { OnOk result (K.held sink.new
        ≡ after (noted_session_lines (noted_from 0 noted.entry.notes_after.now (map string_bytes noted.entry.notes.now)
        noted.entry.replies.now) (hook_events hooked events.now)) (K.held sink.old)) }
    ensures flushed { OnOk result (K.flushed sink.new ≡ true) }
    ensures front { Fronts (noted_session_lines (noted_from 0 noted.entry.notes_after.now
        (map string_bytes noted.entry.notes.now) noted.entry.replies.now) (hook_events hooked events.now))
        (K.held sink.old) (K.held sink.new) }
    ensures short { IsErrOf result LinesFault.OutOfMemory
        → IsCutShort (noted_session_lines (noted_from 0 noted.entry.notes_after.now
        (map string_bytes noted.entry.notes.now) noted.entry.replies.now) (hook_events hooked events.now))
        (K.held sink.old) (K.held sink.new) }
    ensures cause { IsErrOf result LinesFault.WriteFault
        → Rose (K.faults sink.old) (K.faults sink.new) }
    ensures uncounted { ¬ IsErrOf result LinesFault.WriteFault
        → K.faults sink.new ≡ K.faults sink.old }
    ensures never_falls { K.faults sink.old ≤ K.faults sink.new }
{
    let mut waiting = String::new(alloc);
    if let Err(fault) = write_replies(alloc, sink, &mut waiting, noted) {
        return Err(fault);
    }
    let Ok(()) = append_last(&mut waiting, hooked, events) else {
        return Err(LinesFault::OutOfMemory);
    };
    match write_last(sink, waiting.as_str()) {
        Ok(()) => Ok(()),
        Err(_) => Err(LinesFault::WriteFault),
    }
}
