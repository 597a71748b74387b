//! What a host sets that bounds a guest: the deadline and the deadline behaviour, with each reading of epochs that fails.
use crate::tests::functions::function;
use crate::tests::modules::{COUNTS, ROUNDS, module_in};
use crate::tests::{
    Answer, DONE, Meter, TestStore, calls, check_same, done, epochs_of, found, host_data,
    new_store, no_epochs, store_with,
};
use std::alloc::Global as Heap;
use std::process::Abort;
use wasm_meter::{Answers, BehaviourAnswer, EpochAnswer};
use wasm_values::{Refusal, Trap};

/// A call of a function without code behind a deadline that was set: what the source of epochs answers, first for the
/// deadline, how many ticks past it the deadline is, what a behaviour answers where one is set, how the call ends,
/// after how many turns, and how often the behaviour has failed.
#[derive(Clone, Copy)]
struct DeadlineRow {
    epochs: &'static [EpochAnswer],
    ticks: u64,
    behaviours: Option<&'static [BehaviourAnswer]>,
    answer: Answer<()>,
    turns: u64,
    faults: u64,
}

const INTERRUPTED: Answer<()> = Err(Refusal::Trap(Trap::Interrupt));

const BEFORE: DeadlineRow = DeadlineRow {
    epochs: &[EpochAnswer::Reading(3), EpochAnswer::Reading(4)],
    ticks: 2,
    behaviours: None,
    answer: DONE,
    turns: 1,
    faults: 0,
};

const AT: DeadlineRow = DeadlineRow {
    epochs: &[EpochAnswer::Reading(3), EpochAnswer::Reading(5)],
    answer: INTERRUPTED,
    ..BEFORE
};

const DEADLINES: [DeadlineRow; 10] = [
    BEFORE,
    AT,
    DeadlineRow {
        epochs: &[EpochAnswer::Reading(5), EpochAnswer::Reading(u64::MAX - 1)],
        ticks: u64::MAX,
        ..AT
    },
    DeadlineRow {
        epochs: &[EpochAnswer::Reading(5), EpochAnswer::Reading(u64::MAX - 2)],
        ticks: u64::MAX,
        ..BEFORE
    },
    DeadlineRow {
        epochs: &[EpochAnswer::Reading(3), EpochAnswer::Fault],
        answer: Err(Refusal::EpochFault),
        ..BEFORE
    },
    DeadlineRow {
        behaviours: Some(&[BehaviourAnswer::Fault]),
        ..BEFORE
    },
    DeadlineRow {
        behaviours: Some(&[BehaviourAnswer::Continue(0)]),
        answer: DONE,
        turns: 3,
        ..AT
    },
    DeadlineRow {
        behaviours: Some(&[BehaviourAnswer::Interrupt]),
        turns: 2,
        ..AT
    },
    DeadlineRow {
        behaviours: Some(&[BehaviourAnswer::Fault]),
        answer: Err(Refusal::EpochFault),
        turns: 2,
        faults: 1,
        ..AT
    },
    DeadlineRow {
        epochs: &[
            EpochAnswer::Reading(3),
            EpochAnswer::Reading(5),
            EpochAnswer::Fault,
        ],
        behaviours: Some(&[BehaviourAnswer::Continue(9)]),
        answer: Err(Refusal::EpochFault),
        turns: 3,
        ..AT
    },
];

/// A store whose deadline behaviour answers so once one is set.
fn behaving_store<'a>(
    rt: &impl Abort,
    alloc: Heap,
    answers: &[BehaviourAnswer],
) -> &'a mut TestStore {
    let mut data = host_data(alloc);
    data.behaviours = Answers::new(Vec::from_slice(alloc, answers).expect(rt, "there is memory"));
    store_with(rt, alloc, Meter::Epochs, data)
}

fn set_behaviour_where(is_set: bool, store: &mut TestStore) {
    if is_set {
        calls::set_behaviour(store);
    }
}

/// The call ends as the row says.
fn check_deadline(rt: &impl Abort, alloc: Heap, row: &DeadlineRow) {
    let store = behaving_store(rt, alloc, row.behaviours.unwrap_or(&[]));
    set_behaviour_where(row.behaviours.is_some(), store);
    let func = function(rt, alloc, store, &module_in(rt, alloc, ROUNDS));
    let mut epochs = epochs_of(rt, alloc, row.epochs);
    let set = calls::set_epoch_deadline(store, &mut epochs, row.ticks);
    check_same(rt, set, DONE);
    let answer = calls::func_call(store, &mut epochs, func, &[], &mut []);
    check_same(rt, answer, row.answer);
    check_same(
        rt,
        [store.turns(), store.data().behaviour_faults],
        [row.turns, row.faults],
    );
}

#[test]
fn a_deadline_interrupts_or_a_behaviour_is_asked(rt: HostRuntime) {
    for row in &DEADLINES {
        check_deadline(&rt, rt.alloc(), row);
    }
}

/// A loop without an end behind a deadline of two ticks: what the source of epochs answers, for the deadline, before the
/// function and before the first round, and how the call ends.
const READINGS: [(&[EpochAnswer], Answer<()>); 3] = [
    (
        &[
            EpochAnswer::Reading(0),
            EpochAnswer::Reading(1),
            EpochAnswer::Reading(2),
        ],
        INTERRUPTED,
    ),
    (
        &[EpochAnswer::Reading(0), EpochAnswer::Fault],
        Err(Refusal::EpochFault),
    ),
    (
        &[
            EpochAnswer::Reading(0),
            EpochAnswer::Reading(1),
            EpochAnswer::Fault,
        ],
        Err(Refusal::EpochFault),
    ),
];

/// The call ends so, and no round was begun.
fn check_readings(rt: &impl Abort, alloc: Heap, readings: &[EpochAnswer], ended: Answer<()>) {
    let store = new_store(rt, alloc, Meter::Epochs);
    let made = calls::instance_new(
        store,
        &mut no_epochs(rt, alloc),
        &module_in(rt, alloc, COUNTS),
    );
    let instance = done(rt, made);
    let func = found(rt, calls::get_func(store, instance, "f"));
    let mut epochs = epochs_of(rt, alloc, readings);
    let set = calls::set_epoch_deadline(store, &mut epochs, 2);
    check_same(rt, set, DONE);
    let answer = calls::func_call(store, &mut epochs, func, &[], &mut []);
    check_same(rt, answer, ended);
    let global = found(rt, calls::get_global(store, instance, "g"));
    check_same(
        rt,
        done(rt, calls::global_get(store, global)).i32(),
        Some(0),
    );
}

#[test]
fn no_round_is_begun_where_a_reading_fails(rt: HostRuntime) {
    for (readings, ended) in &READINGS {
        check_readings(&rt, rt.alloc(), readings, *ended);
    }
}
