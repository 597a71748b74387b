//! The sources of epochs: each reading in its order, and the fault of the calls that are to fail. Tanks in their parts.
use crate::tests::check_same;
use std::alloc::Global;
use std::num::NonZeroU64;
use std::process::Abort;
use wasm_meter::{CountEpochs, EpochFailed, EpochSource, FuelTank, ListEpochs};

fn numbers(rt: &impl Abort, alloc: Global, numbers: &[u64]) -> Vec<u64> {
    Vec::from_slice(alloc, numbers).expect(rt, "memory for numbers")
}

/// The first four readings of a source.
fn readings<E: EpochSource>(epochs: &mut E) -> [Result<u64, EpochFailed>; 4] {
    [
        epochs.current(),
        epochs.current(),
        epochs.current(),
        epochs.current(),
    ]
}

#[test]
fn epochs_are_read_in_order(rt: HostRuntime) {
    let mut counting = CountEpochs::new();
    check_same(
        &rt,
        "counted",
        &readings(&mut counting),
        &[Ok(0), Ok(1), Ok(2), Ok(3)],
    );
    let fault = Err(EpochFailed);
    let mut listed = ListEpochs::new(
        numbers(&rt, rt.alloc(), &[5, 9]),
        numbers(&rt, rt.alloc(), &[1]),
    );
    check_same(
        &rt,
        "listed",
        &readings(&mut listed),
        &[Ok(5), fault, Ok(9), Ok(9)],
    );
    let mut none = ListEpochs::new(
        numbers(&rt, rt.alloc(), &[]),
        numbers(&rt, rt.alloc(), &[3]),
    );
    check_same(
        &rt,
        "none",
        &readings(&mut none),
        &[Ok(0), Ok(0), Ok(0), fault],
    );
}

/// The parts of a tank, and what is left.
fn parts(tank: &FuelTank) -> (i64, u64, u64) {
    (tank.consumed(), tank.reserve(), tank.get())
}

#[test]
fn a_tank_is_filled_in_portions(rt: HostRuntime) {
    let rows = [
        (0, 10, (-10, 0, 10)),
        (10, 25, (-10, 15, 25)),
        (0, u64::MAX, (-i64::MAX, 1 << 63, u64::MAX)),
        (0, (1 << 63) - 1, (-i64::MAX, 0, (1 << 63) - 1)),
        (0, 1 << 63, (-i64::MAX, 1, 1 << 63)),
        (10, u64::MAX, (-10, u64::MAX - 10, u64::MAX)),
        (u64::MAX, u64::MAX, (-i64::MAX, 1 << 63, u64::MAX)),
        (1 << 63, u64::MAX, (-i64::MAX, 1 << 63, u64::MAX)),
    ];
    for (interval, fuel, expected) in rows {
        let mut tank = FuelTank::new();
        tank.set_interval(NonZeroU64::new(interval));
        tank.set(fuel);
        check_same(&rt, fuel, &parts(&tank), &expected);
    }
}

#[test]
fn a_tank_is_filled_again_from_what_is_held_back(rt: HostRuntime) {
    let rows = [
        (10, 42, true, (-10, 28, 38)),
        (1, 8, true, (-1, 3, 4)),
        (10, 3, false, (4, 3, 0)),
    ];
    for (interval, reserve, answer, expected) in rows {
        let mut tank = FuelTank::from_parts(4, reserve, NonZeroU64::new(interval));
        check_same(&rt, reserve, &tank.refuel(), &answer);
        check_same(&rt, reserve, &parts(&tank), &expected);
        let mut checked = FuelTank::from_parts(4, reserve, NonZeroU64::new(interval));
        check_same(&rt, reserve, &checked.check(), &answer);
        check_same(&rt, reserve, &parts(&checked), &expected);
    }
}
