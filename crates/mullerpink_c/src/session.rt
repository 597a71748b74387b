ghost use Rattle.std.specs.Prelude.{◌≤◌, length};
ghost use Rattle.mullerpink_c.specs.Sessions.{HasRunScript};

use crate::ran::MullerpinkRan;
use std::alloc::Global;

/// Runs the session of a script, as the program `mullerpink` does, and writes its lines to the front of `out`.
#[unsafe(no_mangle)]
pub extern "C" fn mullerpink_session(alloc: Global, script: &[u8], out: &mut [u8]) -> MullerpinkRan
    ensures ran { HasRunScript script.now out.old out.new result.code result.count }
    ensures fits { result.count ≤ length out.old }
{
    let ran = session_bytes::run(alloc, script, out);
    MullerpinkRan {
        code: ran.status.exit_code() as u32,
        count: ran.count,
    }
}
