ghost use Rattle.std.specs.Prelude.{◌≡◌, ◌⊎◌, ◌||◌, [], IfOk, IfErr, OnOk, IsErrOf};
ghost use Rattle.wasm_tape.specs.Parts.{parts_of};
ghost use Rattle.wasm_call.specs.Outside.{surrounded};
ghost use Rattle.wasm_session.specs.Sessions.{Runs, StopsIn};
ghost use Rattle.wasm_replay.specs.Calls.{Records, Spends, StopsRecorded, IfUnfinished, RanLent, IsFresh, typed_moves, moved_out};
ghost use Rattle.wasm_replay.specs.Kept.{kept};
ghost use Rattle.wasm_replay.specs.Recordings.{RecordMoves, wrapped};

use crate::kept::Kept;
use crate::recorded::Recorded;
use crate::taped_epochs::TapedEpochs;
use crate::taped_host::TapedHost;
use crate::taping::Taping;
use spec_machine::Command;
use std::alloc::Global;
use wasm_meter::{EpochFailed, EpochSource, HostData, LimiterFailed};
use wasm_module::Module;
use wasm_session::{Replies, Unfinished, run_commands};
use wasm_store::Store;
use wasm_tape::{Tape, TapedStep};
use wasm_types::Items;

/// Why there is no tape.
#[derive(Drop)]
pub enum RecordFault {
    /// Memory ran out in a command, as `run_commands` says.
    Unfinished(Unfinished),
    /// Every command finished, and a growth or a reading was asked past its room.
    RoomSpent,
    /// There was no memory for the room of the readings: nothing was run.
    OutOfMemory,
}

/// Does the commands over a host and an epoch source that are taped.
fn run_wrapped<T: HostData, H: TapedHost<T>, E: EpochSource>(
    store: &mut Store<Recorded<T>>,
    modules: &[Module],
    taping: &mut Taping<'_, H>,
    taped: &mut TapedEpochs<'_, E>,
    commands: &[Command],
    replies: &mut Replies,
) -> Result<(), Unfinished>
    requires ready { H.ready taping.old.host.now }
    ensures ready { H.ready taping.new.host.now }
    ensures same_host { taping.new.host.ghost_name ≡ taping.old.host.ghost_name }
    ensures same_steps { taping.new.steps.ghost_name ≡ taping.old.steps.ghost_name }
    ensures same_epochs { taped.new.epochs.ghost_name ≡ taped.old.epochs.ghost_name }
    ensures same_readings { taped.new.kept.ghost_name ≡ taped.old.kept.ghost_name }
    ensures done { OnOk result (Runs (typed_moves (wrapped T.growths H.has E.readings H.steps)) modules.now commands.now
        (surrounded store.old taping.old taped.old) replies.old (surrounded store.new taping.new taped.new) replies.new) }
    ensures unfinished { IfErr result (λ unfinished. StopsIn (typed_moves (wrapped T.growths H.has E.readings H.steps))
        modules.now commands.now unfinished.turns
        (surrounded store.old taping.old taped.old) replies.old (surrounded store.new taping.new taped.new) replies.new) }
{
    // In two arms, since what is told of the wrappers is told of each end apart.
    match run_commands(store, modules, taping, taped, commands, replies) {
        Ok(()) => Ok(()),
        Err(unfinished) => Err(unfinished),
    }
}

/// How a run ended, and whether a reading was asked past the room.
#[derive(Drop)]
struct Heard {
    ended: Result<(), Unfinished>,
    past: bool,
}

/// The same, over a host and an epoch source that are lent for it, beside the steps and the readings that are kept.
fn run_lent<T: HostData, H: TapedHost<T>, E: EpochSource>(
    store: &mut Store<Recorded<T>>,
    modules: &[Module],
    host: &mut H,
    bodies: usize,
    steps: &mut Kept<TapedStep>,
    epochs: &mut E,
    readings: &mut Kept<Result<u64, EpochFailed>>,
    commands: &[Command],
    replies: &mut Replies,
) -> Heard
    requires ready { H.ready host.old }
    requires fresh { IsFresh store.old }
    requires steps { steps.old.items ≡ [] }
    requires readings { readings.old ≡ kept [] readings.old.room }
    ensures ready { H.ready host.new }
    ensures ran { OnOk result.ended (RanLent (RecordMoves T.growths H.has E.readings H.steps bodies) bodies
        modules.now commands.now readings.old.room store.old host.old epochs.old replies.old
        store.new host.new epochs.new replies.new steps.new.items readings.new.items result.past) }
    ensures unfinished { IfErr result.ended (λ unfinished.
        StopsRecorded (RecordMoves T.growths H.has E.readings H.steps bodies) modules.now commands.now unfinished.turns
        readings.old.room store.old host.old epochs.old replies.old
        (moved_out store.new) host.new epochs.new replies.new) }
{
    let mut taping = Taping::new(host, bodies, steps);
    let mut taped = TapedEpochs::new(epochs, readings);
    let ended = run_wrapped(store, modules, &mut taping, &mut taped, commands, replies);
    Heard {
        ended,
        past: taped.past,
    }
}

/// Whether a growth or a reading was asked past its room.
fn is_spent<T: HostData>(store: &Store<Recorded<T>>, readings_past: bool) -> bool
    ensures { result ≡ (store.now.host_data.past || readings_past) }
{
    store.data().past || readings_past
}

/// Moves the growths that were kept out of the host data, whose room is 0 then. It takes no memory.
fn take_growths<T: HostData>(
    alloc: Global,
    store: &mut Store<Recorded<T>>,
) -> Vec<Result<bool, LimiterFailed>>
    ensures taken { result.items ≡ store.old.host_data.kept.items }
    ensures left { store.new ≡ moved_out store.old }
{
    store.data_mut().kept.take(alloc)
}

/// Does the commands as `run_commands`, and answers the tape of what was asked outside: the steps that answered, the
/// readings and the growths, each in order.
///
/// The host has just the bodies below `bodies`; a step of one that `host` has not is `Fail`, and changes nothing. Readings
/// are kept in room for `room` of them, which is taken before the first command; one past it is not asked of `epochs`, and
/// is a fault. Growths are kept in the room of the host data. Where each command finished, and a growth or a reading was
/// asked past its room, there is no tape but `RoomSpent`.
///
/// Afterwards the growths are moved out of the host data, whose room is 0, so nothing is taken after the run. With
/// `OutOfMemory` alone nothing was run, and nothing changed.
pub fn record_commands<T: HostData, H: TapedHost<T>, E: EpochSource>(
    alloc: Global,
    store: &mut Store<Recorded<T>>,
    modules: &[Module],
    host: &mut H,
    bodies: usize,
    epochs: &mut E,
    room: usize,
    commands: &[Command],
    replies: &mut Replies,
) -> Result<Tape, RecordFault>
    requires ready { H.ready host.old }
    requires fresh { IsFresh store.old }
    ensures ready { H.ready host.new }
    ensures recorded { IfOk result (λ tape.
        Records (RecordMoves T.growths H.has E.readings H.steps bodies) bodies modules.now commands.now room (parts_of tape)
        store.old host.old epochs.old replies.old store.new host.new epochs.new replies.new) }
    ensures spent { IsErrOf result RecordFault.RoomSpent →
        Spends (RecordMoves T.growths H.has E.readings H.steps bodies) bodies modules.now commands.now room
        store.old host.old epochs.old replies.old store.new host.new epochs.new replies.new }
    ensures unfinished { IfErr result (λ why. IfUnfinished why (λ turns.
        StopsRecorded (RecordMoves T.growths H.has E.readings H.steps bodies) modules.now commands.now turns room
        store.old host.old epochs.old replies.old store.new host.new epochs.new replies.new)) }
    ensures untouched { IsErrOf result RecordFault.OutOfMemory →
        (store.new ≡ store.old) × (host.new ≡ host.old) × (epochs.new ≡ epochs.old) × (replies.new ≡ replies.old) }
    ensures moved { IsErrOf result RecordFault.OutOfMemory ⊎ (store.new.host_data.kept ≡ kept [] 0) }
    ensures fresh { OnOk result (IsFresh store.new) }
{
    let Ok(mut readings) = Kept::new(alloc, room) else {
        return Err(RecordFault::OutOfMemory);
    };
    // (each step makes its own place)
    let Ok(mut steps) = Kept::new(alloc, 0) else {
        return Err(RecordFault::OutOfMemory);
    };
    let heard = run_lent(
        store,
        modules,
        host,
        bodies,
        &mut steps,
        epochs,
        &mut readings,
        commands,
        replies,
    );
    let spent = is_spent(store, heard.past);
    let growths = take_growths(alloc, store);
    if let Err(unfinished) = heard.ended {
        return Err(RecordFault::Unfinished(unfinished));
    }
    if spent {
        return Err(RecordFault::RoomSpent);
    }
    Ok(Tape {
        steps: Items(steps.take(alloc)),
        readings: Items(readings.take(alloc)),
        growths: Items(growths),
    })
}
