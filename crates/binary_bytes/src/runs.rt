ghost use Rattle.std.specs.Prelude.{◌≡◌, ◌≢◌, ◌≤◌, ◌⊎◌, ℕ, [], false, Some, length, map, string_bytes};
ghost use Rattle.wasm_meter.specs.Epochs.{CountsReadings};
ghost use Rattle.memory_streams.specs.InRoom.{room_state};
ghost use Rattle.binary_run.specs.Calls.{due, spelled};
ghost use Rattle.binary_run.specs.Statuses.{IsDecided, Says};
ghost use Rattle.binary_bytes.specs.Runs.{words_in, HasRun};

use crate::words::words_of;
use binary_run::{CountEpochs, Status, run_main};
use memory_streams::{RoomSink, SliceSource};
use std::alloc::Global;

/// How a run ended, and how many bytes it wrote.
#[derive(Clone, Copy)]
pub struct Ran {
    pub status: Status,
    pub count: usize,
}

/// Runs the call that words and a module spell, and writes its line to a sink that holds nothing yet.
fn run_held(alloc: Global, words: &[String], guest: &[u8], sink: &mut RoomSink) -> Status
    requires { sink.old ≡ room_state sink.old.room [] 0 false }
    ensures room { sink.new.room ≡ sink.old.room }
    ensures says { (epochs : ℕ) × Says CountsReadings 0 epochs (Some []) (Some sink.new.held)
        (spelled (map string_bytes words.now) guest.now) result }
    ensures decided { IsDecided result → result ≡ due (map string_bytes words.now) guest.now }
    ensures complete { result ≢ Status.WriteFault
        → (result ≡ due (map string_bytes words.now) guest.now) ⊎ (result ≡ Status.OutOfMemory) }
    ensures reads { result ≢ Status.ReadFault }
{
    let mut source = SliceSource::new(guest);
    let mut epochs = CountEpochs::new();
    run_main(alloc, words, &mut source, sink, &mut epochs)
}

/// The same over room that is given.
fn run_words(alloc: Global, words: &[String], guest: &[u8], out: &mut [u8]) -> Ran
    ensures ran { HasRun (map string_bytes words.now) guest.now out.old out.new result.count result.status }
    ensures fits { result.count ≤ length out.old }
    ensures decided { IsDecided result.status
        → result.status ≡ due (map string_bytes words.now) guest.now }
    ensures complete { result.status ≢ Status.WriteFault
        → (result.status ≡ due (map string_bytes words.now) guest.now)
        ⊎ (result.status ≡ Status.OutOfMemory) }
    ensures reads { result.status ≢ Status.ReadFault }
{
    let Ok(mut sink) = RoomSink::new(alloc, out.len()) else {
        return Ran {
            status: Status::OutOfMemory,
            count: 0,
        };
    };
    let status = run_held(alloc, words, guest, &mut sink);
    let count = sink.len();
    sink.copy_to(out);
    Ran { status, count }
}

/// Runs the call that words and a module spell, as the program `mullerpink_run` does, and writes its line to the front of
/// `out`. The words have a byte 0 between two of them.
///
/// The status is the one that is due for words and module, but for `OutOfMemory`, and for `WriteFault`, which comes where
/// the line does not fit: what is written then is a front of it. What stands behind what is written stays.
pub fn run(alloc: Global, words: &str, guest: &[u8], out: &mut [u8]) -> Ran
    ensures ran { HasRun (words_in words.now) guest.now out.old out.new result.count result.status }
    ensures fits { result.count ≤ length out.old }
    ensures decided { IsDecided result.status → result.status ≡ due (words_in words.now) guest.now }
    ensures complete { result.status ≢ Status.WriteFault
        → (result.status ≡ due (words_in words.now) guest.now) ⊎ (result.status ≡ Status.OutOfMemory) }
    ensures reads { result.status ≢ Status.ReadFault }
{
    let Ok(words) = words_of(alloc, words) else {
        return Ran {
            status: Status::OutOfMemory,
            count: 0,
        };
    };
    run_words(alloc, words.as_slice(), guest, out)
}
