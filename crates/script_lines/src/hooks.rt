ghost use Rattle.std.specs.Prelude.{◌≡◌, ◌∷◌, ◌++◌, OnOk, OnErr, string_bytes};
ghost use Rattle.std.specs.List.{flat_map};
ghost use Rattle.script_lines.specs.Lines.{Begun, event_name, hooks_line};

use crate::pieces::{append_piece, append_pieces};
use wasm_meter::CallHook;
use wasm_types::OutOfMemory;

fn event_name(event: CallHook) -> &'static str
    ensures { result.now ≡ event_name event }
{
    match event {
        CallHook::CallingWasm => "CallingWasm",
        CallHook::ReturningFromWasm => "ReturningFromWasm",
        CallHook::CallingHost => "CallingHost",
        CallHook::ReturningFromHost => "ReturningFromHost",
    }
}

/// Appends the name of each event as one more word.
fn append_events(text: &mut String, events: &[CallHook]) -> Result<(), OutOfMemory>
    ensures appended { OnOk result (string_bytes text.new
        ≡ string_bytes text.old ++ flat_map (λ event. 32 ∷ event_name event) events.now) }
    ensures short { OnErr result (Begun (flat_map (λ event. 32 ∷ event_name event) events.now) (string_bytes text.old) (string_bytes text.new)) }
{
    for event in events {
        append_pieces(text, " ", event_name(*event))?;
    }
    Ok(())
}

/// Appends the line of the events that a hook was told of. Where memory runs out, a front of it was appended, and not all.
pub fn append_hooks(text: &mut String, events: &[CallHook]) -> Result<(), OutOfMemory>
    ensures appended { OnOk result (string_bytes text.new ≡ string_bytes text.old ++ hooks_line events.now) }
    ensures short { OnErr result (Begun (hooks_line events.now) (string_bytes text.old) (string_bytes text.new)) }
{
    append_piece(text, "hooks")?;
    append_events(text, events)?;
    append_piece(text, "\n")?;
    Ok(())
}
