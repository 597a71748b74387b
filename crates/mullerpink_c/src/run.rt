ghost use Rattle.std.specs.Prelude.{◌≡◌, ◌≢◌, ◌≤◌, length, IsUtf8};
ghost use Rattle.mullerpink_c.specs.Runs.{HasRunFor};

use crate::ran::MullerpinkRan;
use std::alloc::Global;

/// Runs the call that words and a module spell, as the program `mullerpink_run` does, and writes its line to the front of
/// `out`. The words have a byte 0 between two of them.
#[unsafe(no_mangle)]
pub extern "C" fn mullerpink_run(
    alloc: Global,
    words: &[u8],
    guest: &[u8],
    out: &mut [u8],
) -> MullerpinkRan
    ensures ran { IsUtf8 words.now
        → HasRunFor words.now guest.now out.old out.new result.code result.count }
    ensures no_text { ¬ IsUtf8 words.now → result.code ≡ 11 }
    ensures unwritten { result.code ≡ 11 → (out.new ≡ out.old) × (result.count ≡ 0) }
    ensures fits { result.count ≤ length out.old }
{
    let Ok(text) = std::str::from_utf8(words) else {
        return MullerpinkRan { code: 11, count: 0 };
    };
    let ran = binary_bytes::run(alloc, text, guest, out);
    MullerpinkRan {
        code: ran.status.exit_code() as u32,
        count: ran.count,
    }
}
