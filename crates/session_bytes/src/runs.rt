ghost use Rattle.std.specs.Prelude.{◌≡◌, ◌≢◌, ◌≤◌, ◌⊎◌, [], false, length, map, string_bytes, IfOk, OnErr};
ghost use Rattle.memory_streams.specs.InRoom.{room_state};
ghost use Rattle.wasm_run.specs.Sessions.{due};
ghost use Rattle.wasm_run.specs.Statuses.{IsDecided};
ghost use Rattle.session_bytes.specs.Runs.{run_words, HasEnded, HasRun};

use memory_streams::{RoomSink, SliceSource};
use std::alloc::Global;
use wasm_run::{
    BehaviourCall, BehaviourFailed, CallHook, CountEpochs, HookCall, HookFailed, ScriptData,
    Session, Status, UpdateDeadline, session_main,
};
use wasm_types::OutOfMemory;

/// How a session ended, and how many bytes it wrote.
#[derive(Clone, Copy)]
pub struct Ran {
    pub status: Status,
    pub count: usize,
}

/// The words of a session whose script is read.
fn words(alloc: Global) -> Result<Vec<String>, OutOfMemory>
    ensures { IfOk result (λ words. map string_bytes words.items ≡ run_words) }
{
    let mut words = Vec::new(alloc);
    words.push(String::from_str(alloc, "run")?)?;
    Ok(words)
}

/// Runs a script, and writes its lines to a sink that holds nothing yet. Its epoch goes on by one with each reading, and
/// its hook and its deadline behaviour answer as the script says.
fn run_held(alloc: Global, script: &[u8], sink: &mut RoomSink) -> Result<Status, OutOfMemory>
    requires { sink.old ≡ room_state sink.old.room [] 0 false }
    ensures room { sink.new.room ≡ sink.old.room }
    ensures short { OnErr result (sink.new.held ≡ []) }
    ensures ended { IfOk result (λ status. HasEnded script.now sink.new.held status) }
    ensures decided { IfOk result (λ status. IsDecided status → status ≡ due run_words script.now) }
    ensures complete { IfOk result (λ status. status ≢ Status.WriteFault
        → (status ≡ due run_words script.now) ⊎ (status ≡ Status.OutOfMemory)) }
    ensures reads { IfOk result (λ status. status ≢ Status.ReadFault) }
{
    let words = words(alloc)?;
    let mut source = SliceSource::new(script);
    let mut epochs = CountEpochs::new();
    let hook: HookCall = Box::new(
        alloc,
        |data: &mut ScriptData, event: CallHook| -> Result<(), HookFailed> {
            data.hook_answer(event)
        },
    )?;
    let behaviour: BehaviourCall = Box::new(
        alloc,
        |data: &mut ScriptData| -> Result<UpdateDeadline, BehaviourFailed> {
            data.deadline_answer()
        },
    )?;
    let mut session = Session::new(alloc);
    let status = session_main(
        alloc,
        words.as_slice(),
        &mut source,
        sink,
        &mut epochs,
        hook,
        behaviour,
        &mut session,
    );
    Ok(status)
}

/// Runs the session of a script, as the program `mullerpink` does for the word `run`, and writes its lines to the front of
/// `out`.
///
/// The status is the one that is due for the script, but for `OutOfMemory`, and for `WriteFault`, which comes where the
/// lines do not fit: what is written then is a front of them. What stands behind what is written stays.
pub fn run(alloc: Global, script: &[u8], out: &mut [u8]) -> Ran
    ensures ran { HasRun script.now out.old out.new result.count result.status }
    ensures fits { result.count ≤ length out.old }
    ensures decided { IsDecided result.status → result.status ≡ due run_words script.now }
    ensures complete { result.status ≢ Status.WriteFault
        → (result.status ≡ due run_words script.now) ⊎ (result.status ≡ Status.OutOfMemory) }
    ensures reads { result.status ≢ Status.ReadFault }
{
    let short = Ran {
        status: Status::OutOfMemory,
        count: 0,
    };
    let Ok(mut sink) = RoomSink::new(alloc, out.len()) else {
        return short;
    };
    let Ok(status) = run_held(alloc, script, &mut sink) else {
        return short;
    };
    let count = sink.len();
    sink.copy_to(out);
    Ran { status, count }
}
