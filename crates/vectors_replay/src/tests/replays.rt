//! How a replay ends, and what it gives meanwhile, with ample memory.
ghost use Rattle.wasm_tape.specs.Parts.{parts_of};
ghost use Rattle.wasm_replay.specs.ReplayCalls.{IsUnasked};

use crate::tests::commands::{hello, memory_new};
use crate::tests::{HELLO, MEMORY, check_same, new_engine, valid};
use spec_machine::{Command, Reply};
use std::alloc::Global as Heap;
use std::process::Abort;
use wasm_call::{Answer, Event, ValList};
use wasm_meter::{EpochFailed, LimiterFailed};
use wasm_replay::{Asked, Kind, ReplayEnd, Replayed, replay_commands};
use wasm_session::Replies;
use wasm_store::Store;
use wasm_tape::{Tape, TapedStep};
use wasm_types::Items;
use wasm_values::{Refusal, StoreIds};

/// The step of the first session with a host.
const FIRST: Asked = Asked {
    body: 0,
    state: 0,
    event: Event::Start,
};

/// A tape of these steps, each of which returns nothing and leaves the state 2.
fn tape_of(
    rt: &impl Abort,
    alloc: Heap,
    steps: &[Asked],
    readings: &[Result<u64, EpochFailed>],
    growths: &[Result<bool, LimiterFailed>],
) -> Tape {
    let mut list = Vec::new(alloc);
    for step in steps {
        let taken = TapedStep {
            body: step.body,
            state: step.state,
            event: step.event,
            answer: Answer::Return(ValList(Vec::new(alloc))),
            next: 2,
        };
        let Ok(()) = list.push(taken) else {
            panic!(rt; "{MEMORY}");
        };
    }
    Tape {
        steps: Items(list),
        readings: Items(Vec::from_slice(alloc, readings).expect(rt, MEMORY)),
        growths: Items(Vec::from_slice(alloc, growths).expect(rt, MEMORY)),
    }
}

/// A store with its limiter on, whose host data are made from this tape.
fn replayed_store(rt: &impl Abort, alloc: Heap, reads_epochs: bool, tape: &Tape) -> Store<Replayed>
    ensures { IsUnasked (parts_of tape.now) result }
{
    let Ok(data) = Replayed::new(alloc, tape, 100, 100, 100) else {
        panic!(rt; "{MEMORY}");
    };
    match Store::try_new(
        alloc,
        &mut StoreIds::new(),
        new_engine(rt, reads_epochs),
        data,
    ) {
        Ok(mut store) => {
            store.limiter();
            store
        }
        Err(_) => panic!(rt; "there is no id"),
    }
}

/// What the reply at this place was refused with.
fn refused(replies: &Replies, place: usize) -> Option<Refusal> {
    match replies.get(place)? {
        Reply::Refused(why) => Some(*why),
        _ => None,
    }
}

/// Commands over the module that calls the host, by this tape and over so many bodies: how the replay ended, and the
/// replies.
fn told(
    rt: &impl Abort,
    alloc: Heap,
    reads_epochs: bool,
    tape: &Tape,
    bodies: usize,
    commands: &[Command],
) -> (ReplayEnd, Replies) {
    let modules = [valid(rt, alloc, HELLO)];
    let mut store = replayed_store(rt, alloc, reads_epochs, tape);
    let mut replies = Replies::new(alloc);
    match replay_commands(
        alloc,
        &mut store,
        &modules,
        tape,
        bodies,
        commands,
        &mut replies,
    ) {
        Ok(end) => (end, replies),
        Err(_) => panic!(rt; "{MEMORY}"),
    }
}

/// The first session with a host, by a tape of these steps: how the replay ended, and what the call was refused with.
fn hello_by(
    rt: &impl Abort,
    alloc: Heap,
    steps: &[Asked],
    bodies: usize,
) -> (ReplayEnd, Option<Refusal>) {
    let tape = tape_of(rt, alloc, steps, &[], &[]);
    let commands = hello(rt, alloc, 0);
    let (end, replies) = told(rt, alloc, false, &tape, bodies, commands.as_slice());
    (end, refused(&replies, 3))
}

#[test]
fn a_step_that_was_recorded_is_given(rt: HostRuntime) {
    check_same(
        &rt,
        hello_by(&rt, rt.alloc(), &[FIRST], 1),
        (ReplayEnd::Same, None),
    );
}

#[test]
fn the_first_step_that_is_asked_otherwise_fails(rt: HostRuntime) {
    let failed = Some(Refusal::HostFault);
    for recorded in [
        Asked { body: 1, ..FIRST },
        Asked { state: 1, ..FIRST },
        Asked {
            event: Event::Replied,
            ..FIRST
        },
    ] {
        let differs = ReplayEnd::Differs {
            at: 0,
            recorded,
            asked: FIRST,
        };
        check_same(
            &rt,
            hello_by(&rt, rt.alloc(), &[recorded], 1),
            (differs, failed),
        );
    }
}

#[test]
fn a_step_behind_the_last_fails(rt: HostRuntime) {
    let ended = ReplayEnd::Ended(Kind::Steps);
    check_same(
        &rt,
        hello_by(&rt, rt.alloc(), &[], 1),
        (ended, Some(Refusal::HostFault)),
    );
}

#[test]
fn a_step_may_be_left(rt: HostRuntime) {
    let left = ReplayEnd::Left(Kind::Steps);
    check_same(
        &rt,
        hello_by(&rt, rt.alloc(), &[FIRST, FIRST], 1),
        (left, None),
    );
    let none = Some(Refusal::NoHostBody);
    check_same(&rt, hello_by(&rt, rt.alloc(), &[FIRST], 0), (left, none));
}

/// Two memories, by a tape of these growths: how the replay ended, and what the second memory was refused with.
fn two_memories(
    rt: &impl Abort,
    alloc: Heap,
    growths: &[Result<bool, LimiterFailed>],
) -> (ReplayEnd, Option<Refusal>) {
    let tape = tape_of(rt, alloc, &[], &[], growths);
    let commands = [memory_new(rt), memory_new(rt)];
    let (end, replies) = told(rt, alloc, false, &tape, 0, &commands);
    (end, refused(&replies, 1))
}

#[test]
fn growths_are_given(rt: HostRuntime) {
    let alloc = rt.alloc();
    let denied = Some(Refusal::GrowFailed);
    check_same(
        &rt,
        two_memories(&rt, alloc, &[Ok(true)]),
        (ReplayEnd::Ended(Kind::Growths), Some(Refusal::LimiterFault)),
    );
    check_same(
        &rt,
        two_memories(&rt, alloc, &[Ok(true), Ok(false)]),
        (ReplayEnd::Same, denied),
    );
    check_same(
        &rt,
        two_memories(&rt, alloc, &[Ok(true), Ok(false), Err(LimiterFailed)]),
        (ReplayEnd::Left(Kind::Growths), denied),
    );
}

/// The first session with a host in a store that reads epochs, by a tape of these readings.
fn hello_by_epochs(
    rt: &impl Abort,
    alloc: Heap,
    readings: &[Result<u64, EpochFailed>],
) -> (ReplayEnd, Option<Refusal>) {
    let tape = tape_of(rt, alloc, &[], readings, &[]);
    let commands = hello(rt, alloc, 0);
    let (end, replies) = told(rt, alloc, true, &tape, 1, commands.as_slice());
    (end, refused(&replies, 3))
}

#[test]
fn readings_are_given(rt: HostRuntime) {
    let alloc = rt.alloc();
    let failed = Some(Refusal::EpochFault);
    check_same(
        &rt,
        hello_by_epochs(&rt, alloc, &[]),
        (ReplayEnd::Ended(Kind::Readings), failed),
    );
    check_same(
        &rt,
        hello_by_epochs(&rt, alloc, &[Err(EpochFailed)]),
        (ReplayEnd::Same, failed),
    );
    check_same(
        &rt,
        hello_by_epochs(&rt, alloc, &[Err(EpochFailed), Ok(7)]),
        (ReplayEnd::Left(Kind::Readings), failed),
    );
}

#[test]
fn an_end_is_named_before_what_is_left(rt: HostRuntime) {
    let alloc = rt.alloc();
    let commands = [memory_new(&rt)];
    let ends = tape_of(&rt, alloc, &[FIRST], &[Ok(7)], &[]);
    check_same(
        &rt,
        told(&rt, alloc, false, &ends, 1, &commands).0,
        ReplayEnd::Ended(Kind::Growths),
    );
    let leaves = tape_of(&rt, alloc, &[FIRST], &[Ok(7)], &[Ok(true)]);
    check_same(
        &rt,
        told(&rt, alloc, false, &leaves, 1, &commands).0,
        ReplayEnd::Left(Kind::Steps),
    );
}
