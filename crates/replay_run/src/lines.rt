ghost use Rattle.std.specs.Prelude.{◌≡◌, ◌++◌, OnOk, string_bytes};
ghost use Rattle.script_lines.specs.Lines.{lines_of};
ghost use Rattle.replay_run.specs.Lines as forms;

use script_lines::append_line;
use spec_execution::Event;
use spec_machine::Reply;
use std::alloc::{AllocError, Global};
use std::fmt;
use wasm_replay::{Asked, Kind, ReplayEnd};
use wasm_types::OutOfMemory;

/// Appends a line for each reply.
pub(crate) fn append_lines(
    alloc: Global,
    text: &mut String,
    replies: &[Reply],
) -> Result<(), OutOfMemory>
    ensures { OnOk result (string_bytes text.new ≡ string_bytes text.old ++ lines_of replies.now) }
{
    for reply in replies {
        append_line(alloc, text, reply)?;
    }
    Ok(())
}

fn event_text(event: Event) -> &'static str
    ensures { result.now ≡ forms.event_text event }
{
    match event {
        Event::Start => "start",
        Event::Replied => "replied",
    }
}

fn kind_text(kind: Kind) -> &'static str
    ensures { result.now ≡ forms.kind_text kind }
{
    match kind {
        Kind::Steps => "steps",
        Kind::Readings => "readings",
        Kind::Growths => "growths",
    }
}

/// The text of a step that is asked for.
#[derive(Clone, Copy)]
struct StepText(Asked);

impl fmt::Display for StepText {
    ghost use Rattle.std.specs.Prelude.{Some};

    ghost output = { λ text. Some (forms.asked_text text.0) };

    fn fmt<W: fmt::Write>(&self, f: &mut fmt::Formatter<W>) -> fmt::Result {
        let (body, state, event) = (self.0.body, self.0.state, event_text(self.0.event));
        write!(f, "{body} {state} {event}")
    }
}

/// The text of how a replay ended.
#[derive(Clone, Copy)]
struct EndText(ReplayEnd);

impl fmt::Display for EndText {
    ghost use Rattle.std.specs.Prelude.{Some};

    ghost output = { λ text. Some (forms.end_text text.0) };

    fn fmt<W: fmt::Write>(&self, f: &mut fmt::Formatter<W>) -> fmt::Result {
        match self.0 {
            ReplayEnd::Same => f.write_str("Same"),
            ReplayEnd::Differs {
                at,
                recorded,
                asked,
            } => {
                let (recorded, asked) = (StepText(recorded), StepText(asked));
                write!(f, "Differs {at} recorded {recorded} asked {asked}")
            }
            ReplayEnd::Ended(kind) => {
                let kind = kind_text(kind);
                write!(f, "Ended {kind}")
            }
            ReplayEnd::Left(kind) => {
                let kind = kind_text(kind);
                write!(f, "Left {kind}")
            }
        }
    }
}

/// Appends the line of how a replay ended.
pub(crate) fn append_end(text: &mut String, ended: ReplayEnd) -> Result<(), AllocError>
    ensures { OnOk result (string_bytes text.new ≡ string_bytes text.old ++ forms.end_line ended) }
{
    let ended = EndText(ended);
    write!(text, "replay {ended}\n")
}
