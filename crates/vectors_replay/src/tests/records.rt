//! What is on the tape of a run, and what a recording does past its room, with ample memory.
ghost use Rattle.std.specs.Prelude.{OnOk};
ghost use Rattle.wasm_replay.specs.Calls.{IsFresh};

use crate::tests::commands::{call, hello, memory_new, names};
use crate::tests::counter::{Count, Counter};
use crate::tests::returns::Returns;
use crate::tests::{
    HELLO, MEMORY, RecordedStore, check_same, epochs_of, new_engine, recorded_store, valid,
};
use spec_machine::{Command, Reply};
use std::alloc::Global as Heap;
use std::process::Abort;
use wasm_call::{Answer, Event};
use wasm_embedding::{ENGINE, Limited};
use wasm_meter::{EpochAnswer, GrowthAnswer, LimiterFailed, ListedEpochs, StoreLimits};
use wasm_replay::{RecordFault, Recorded, record_commands};
use wasm_session::Replies;
use wasm_store::Store;
use wasm_tape::{Tape, TapedStep};
use wasm_types::{FuncType, ValType};
use wasm_values::{Refusal, StoreIds};

/// What a recording goes over: a store, a host, an epoch source, and the replies.
#[derive(Drop)]
struct Trial {
    store: RecordedStore,
    host: Returns,
    epochs: ListedEpochs,
    replies: Replies,
}

/// A host of so many bodies, and an epoch source that fails once.
fn begun(rt: &impl Abort, alloc: Heap, store: RecordedStore, bodies: usize) -> Trial
    requires { IsFresh store }
    ensures { IsFresh result.store }
{
    Trial {
        store,
        host: Returns { bodies, steps: 0 },
        epochs: epochs_of(rt, alloc, &[EpochAnswer::Fault]),
        replies: Replies::new(alloc),
    }
}

/// Commands over the module that calls the host, recorded with room for so many readings.
fn record(
    rt: &impl Abort,
    alloc: Heap,
    trial: &mut Trial,
    bodies: usize,
    room: usize,
    commands: &[Command],
) -> Result<Tape, RecordFault>
    requires { IsFresh trial.old.store }
    ensures { OnOk result (IsFresh trial.new.store) }
{
    let modules = [valid(rt, alloc, HELLO)];
    record_commands(
        alloc,
        &mut trial.store,
        &modules,
        &mut trial.host,
        bodies,
        &mut trial.epochs,
        room,
        commands,
        &mut trial.replies,
    )
}

/// How a recording ended.
#[derive(Clone, Copy, Debug, PartialEq)]
enum Came {
    /// So many steps, readings and growths.
    Taped(usize, usize, usize),
    RoomSpent,
    Other,
}

fn came_of(recorded: &Result<Tape, RecordFault>) -> Came {
    match recorded {
        Ok(tape) => Came::Taped(tape.steps.len(), tape.readings.len(), tape.growths.len()),
        Err(RecordFault::RoomSpent) => Came::RoomSpent,
        Err(_) => Came::Other,
    }
}

/// What the reply at this place was refused with.
fn refused(replies: &Replies, place: usize) -> Option<Refusal> {
    match replies.get(place)? {
        Reply::Refused(why) => Some(*why),
        _ => None,
    }
}

/// The first step of a tape.
fn first_step(tape: &Result<Tape, RecordFault>) -> Option<&TapedStep> {
    match tape {
        Ok(tape) => tape.steps.as_slice().first(),
        Err(_) => None,
    }
}

/// What a body came to at its start: nothing that is returned, or a failure; with its state before and behind.
#[derive(Clone, Copy, Debug, PartialEq)]
enum Stepped {
    Returned { body: usize, state: u64, next: u64 },
    Failed { body: usize, state: u64, next: u64 },
    Other,
}

fn told_step(step: Option<&TapedStep>) -> Stepped {
    let Some(step) = step else {
        return Stepped::Other;
    };
    let (body, state, next) = (step.body, step.state, step.next);
    match (step.event, &step.answer) {
        (Event::Start, Answer::Return(values)) if values.as_slice().is_empty() => {
            Stepped::Returned { body, state, next }
        }
        (Event::Start, Answer::Fail) => Stepped::Failed { body, state, next },
        _ => Stepped::Other,
    }
}

/// The first session with a host of one body, whose function has this body, recorded over so many bodies: the tape, what the
/// call was refused with, and how many steps the host made.
fn hello_over(
    rt: &impl Abort,
    alloc: Heap,
    body: usize,
    bodies: usize,
) -> (Came, Stepped, Option<Refusal>, u64) {
    let store = recorded_store(rt, alloc, false, &[], 0);
    let mut trial = begun(rt, alloc, store, 1);
    let commands = hello(rt, alloc, body);
    let tape = record(rt, alloc, &mut trial, bodies, 0, commands.as_slice());
    (
        came_of(&tape),
        told_step(first_step(&tape)),
        refused(&trial.replies, 3),
        trial.host.steps,
    )
}

#[test]
fn a_step_of_the_host_is_on_the_tape(rt: HostRuntime) {
    let step = Stepped::Returned {
        body: 0,
        state: 0,
        next: 2,
    };
    check_same(
        &rt,
        hello_over(&rt, rt.alloc(), 0, 1),
        (Came::Taped(1, 0, 0), step, None, 1),
    );
}

#[test]
fn a_step_of_a_body_that_the_host_has_not_fails(rt: HostRuntime) {
    let step = Stepped::Failed {
        body: 1,
        state: 0,
        next: 0,
    };
    check_same(
        &rt,
        hello_over(&rt, rt.alloc(), 1, 2),
        (Came::Taped(1, 0, 0), step, Some(Refusal::HostFault), 0),
    );
}

#[test]
fn a_body_from_the_number_of_bodies_on_is_not_there(rt: HostRuntime) {
    let none = Some(Refusal::NoHostBody);
    check_same(
        &rt,
        hello_over(&rt, rt.alloc(), 0, 0),
        (Came::Taped(0, 0, 0), Stepped::Other, none, 0),
    );
}

/// Two memories, of which a limiter lets the first grow and denies the second, recorded with room for so many growths.
fn two_memories(
    rt: &impl Abort,
    alloc: Heap,
    room: usize,
) -> (Came, Option<Refusal>, Option<Refusal>) {
    let answers = [GrowthAnswer::Yes, GrowthAnswer::No];
    let store = recorded_store(rt, alloc, false, &answers, room);
    let mut trial = begun(rt, alloc, store, 0);
    let commands = [memory_new(rt), memory_new(rt)];
    let tape = record(rt, alloc, &mut trial, 0, 0, &commands);
    (
        came_of(&tape),
        refused(&trial.replies, 0),
        refused(&trial.replies, 1),
    )
}

#[test]
fn growths_are_kept_in_their_room(rt: HostRuntime) {
    let alloc = rt.alloc();
    let denied = Some(Refusal::GrowFailed);
    let failed = Some(Refusal::LimiterFault);
    for (room, came) in [
        (2, (Came::Taped(0, 0, 2), None, denied)),
        (1, (Came::RoomSpent, None, failed)),
        (0, (Came::RoomSpent, failed, failed)),
    ] {
        check_same(&rt, two_memories(&rt, alloc, room), came);
    }
}

#[test]
fn a_store_is_recorded_again_with_no_room_for_growths(rt: HostRuntime) {
    let alloc = rt.alloc();
    let store = recorded_store(&rt, alloc, false, &[GrowthAnswer::Fault], 5);
    let mut trial = begun(&rt, alloc, store, 0);
    let commands = [memory_new(&rt)];
    let Ok(tape) = record(&rt, alloc, &mut trial, 0, 0, &commands) else {
        panic!(rt; "there is a tape");
    };
    let growth = tape.growths.as_slice().first().copied();
    check_same(&rt, growth, Some(Err(LimiterFailed)));
    let again = record(&rt, alloc, &mut trial, 0, 0, &commands);
    check_same(&rt, came_of(&again), Came::RoomSpent);
    check_same(&rt, refused(&trial.replies, 1), Some(Refusal::LimiterFault));
}

/// The first session with a host in a store that reads epochs, recorded with room for so many readings: how it ended, what
/// the call was refused with, and how often the source failed.
fn hello_by_epochs(rt: &impl Abort, alloc: Heap, room: usize) -> (Came, Option<Refusal>, u64) {
    let store = recorded_store(rt, alloc, true, &[], 0);
    let mut trial = begun(rt, alloc, store, 1);
    let commands = hello(rt, alloc, 0);
    let tape = record(rt, alloc, &mut trial, 1, room, commands.as_slice());
    (
        came_of(&tape),
        refused(&trial.replies, 3),
        trial.epochs.faults,
    )
}

#[test]
fn readings_are_kept_in_their_room(rt: HostRuntime) {
    let alloc = rt.alloc();
    let failed = Some(Refusal::EpochFault);
    check_same(
        &rt,
        hello_by_epochs(&rt, alloc, 1),
        (Came::Taped(0, 1, 0), failed, 1),
    );
    check_same(
        &rt,
        hello_by_epochs(&rt, alloc, 0),
        (Came::RoomSpent, failed, 0),
    );
}

/// Host data that count from 6, recorded.
fn counted(rt: &impl Abort, alloc: Heap) -> Store<Recorded<Limited<Count>>>
    ensures { IsFresh result }
{
    let kept = Limited {
        own: Count { number: 6 },
        limits: StoreLimits::new(),
    };
    let Ok(data) = Recorded::new(alloc, kept, 0) else {
        panic!(rt; "{MEMORY}");
    };
    match Store::try_new(alloc, &mut StoreIds::new(), new_engine(rt, false), data) {
        Ok(store) => store,
        Err(_) => panic!(rt; "there is no id"),
    }
}

#[test]
fn a_body_changes_what_the_host_keeps(rt: HostRuntime) {
    let alloc = rt.alloc();
    let mut store = counted(&rt, alloc);
    let ty = FuncType::try_new(alloc, ENGINE, &[], &[ValType::I32]).expect(&rt, "a type");
    let stored = names(&rt, alloc, &[]);
    let commands = [
        Command::FuncNew {
            ty,
            body: 0,
            stored,
        },
        call(alloc, 0),
        call(alloc, 0),
    ];
    let tape = record_commands(
        alloc,
        &mut store,
        &[],
        &mut Counter,
        1,
        &mut epochs_of(&rt, alloc, &[]),
        0,
        &commands,
        &mut Replies::new(alloc),
    );
    check_same(&rt, came_of(&tape), Came::Taped(2, 0, 0));
    check_same(&rt, store.data().inner().own.number, 8);
}
