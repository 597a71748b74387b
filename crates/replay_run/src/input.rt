//! The parts of an input: its first line, and what stands behind it.
ghost use Rattle.std.specs.Prelude.{◌≡◌, ◌≤◌, length, drop};
ghost use Rattle.replay_run.specs.Inputs as forms;

const LINE_FEED: u8 = 10;

/// How many bytes stand before the first line feed, or all where there is none.
fn line_length(input: &[u8]) -> usize
    ensures value { result ≡ forms.line_length input.now }
    ensures within { result ≤ length input.now }
{
    let mut before = 0;
    let mut rest = input;
    'bytes: while let [byte, others @ ..] = rest {
        if *byte == LINE_FEED {
            return before;
        }
        before += 1;
        rest = others;
    }
    before
}

/// The bytes from a place on; none past the last one.
fn behind(bytes: &[u8], place: usize) -> &[u8]
    ensures { result.now ≡ drop place bytes.now }
{
    if place >= bytes.len() {
        return &[];
    }
    &bytes[place..]
}

/// The first line, without its end.
pub(crate) fn first_line(input: &[u8]) -> &[u8]
    ensures { result.now ≡ forms.first_line input.now }
{
    &input[..line_length(input)]
}

/// What stands behind the first line and its end.
pub(crate) fn behind_line(input: &[u8]) -> &[u8]
    ensures { result.now ≡ forms.behind_line input.now }
{
    behind(input, line_length(input) + 1)
}
