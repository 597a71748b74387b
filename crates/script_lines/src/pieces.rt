ghost use Rattle.std.specs.Prelude.{◌≡◌, ◌++◌, OnOk, OnErr, string_bytes};
ghost use Rattle.script_lines.specs.Lines.{Begun};

use std::alloc::AllocError;

/// Appends a piece of a line.
pub(crate) fn append_piece(text: &mut String, piece: &str) -> Result<(), AllocError>
    ensures appended { OnOk result (string_bytes text.new ≡ string_bytes text.old ++ piece.now) }
    ensures short { OnErr result (Begun piece.now (string_bytes text.old) (string_bytes text.new)) }
{
    text.push_str(piece)
}

/// Appends two pieces of a line.
pub(crate) fn append_pieces(text: &mut String, first: &str, second: &str) -> Result<(), AllocError>
    ensures appended { OnOk result (string_bytes text.new
        ≡ string_bytes text.old ++ (first.now ++ second.now)) }
    ensures short { OnErr result (Begun (first.now ++ second.now) (string_bytes text.old) (string_bytes text.new)) }
{
    append_piece(text, first)?;
    append_piece(text, second)?;
    Ok(())
}
