//! The operations on fuel and on the deadline.
ghost use Rattle.std.specs.Prelude.{◌≡◌, ◌≤◌};
ghost use Rattle.spec_machine.specs.Commands.{operation};
ghost use Rattle.spec_machine.specs.declared.operation.Op.TheVariants as op;
ghost use Rattle.wasm_call.specs.Alone.{AnsweredAtOnce, codeless};
ghost use Rattle.wasm_call.specs.Outcomes as outcomes;
ghost use Rattle.wasm_call.specs.Outside.{surrounded};
ghost use Rattle.wasm_host.specs.Scopes.{scope_of};

use crate::turns::{changed, count_act};
use spec_machine::Reply;
use wasm_host::Scope;
use wasm_meter::{CallHooks, DeadlineBehaviour, EpochSource, HostData};
use wasm_store::Store;
use wasm_store::parts::{move_deadline, set_turns};
use wasm_values::Refusal;

/// The fuel that is left.
pub(crate) fn get_fuel<T: HostData, K: CallHooks<T>, B: DeadlineBehaviour<T>>(
    store: &mut Store<T, K, B>,
    scope: &Scope<'_>,
) -> Reply
    requires { store.old.turns ≡ 0 }
    ensures { AnsweredAtOnce T.growths (operation store.old.machine (scope_of scope.now) op.GetFuel)
        store.old result store.new }
{
    let _ = scope;
    match store.get_fuel() {
        Ok(fuel) => {
            count_act(store);
            Reply::Number(fuel)
        }
        Err(why) => Reply::Refused(why),
    }
}

/// Fills the fuel to just so much.
pub(crate) fn set_fuel<T: HostData, K: CallHooks<T>, B: DeadlineBehaviour<T>>(
    store: &mut Store<T, K, B>,
    scope: &Scope<'_>,
    fuel: u64,
) -> Reply
    requires { store.old.turns ≡ 0 }
    ensures { AnsweredAtOnce T.growths (operation store.old.machine (scope_of scope.now) (op.SetFuel fuel))
        store.old result store.new }
{
    let _ = scope;
    let answer = store.set_fuel(fuel);
    changed(store, answer)
}

/// Makes this the interval of yields, or takes it away.
pub(crate) fn set_interval<T: HostData, K: CallHooks<T>, B: DeadlineBehaviour<T>>(
    store: &mut Store<T, K, B>,
    scope: &Scope<'_>,
    interval: Option<u64>,
) -> Reply
    requires { store.old.turns ≡ 0 }
    ensures { AnsweredAtOnce T.growths (operation store.old.machine (scope_of scope.now) (op.YieldInterval interval))
        store.old result store.new }
{
    let _ = scope;
    let answer = store.fuel_async_yield_interval(interval);
    changed(store, answer)
}

/// Moves the deadline to so many ticks past the present epoch, in so many turns at most. The reading is a turn, and so is
/// the act.
pub(crate) fn set_deadline<T: HostData, K: CallHooks<T>, B: DeadlineBehaviour<T>, E: EpochSource>(
    store: &mut Store<T, K, B>,
    epochs: &mut E,
    scope: &Scope<'_>,
    ticks: u64,
    limit: u64,
) -> Reply
    requires fresh { store.old.turns ≡ 0 }
    requires some_turns { 1 ≤ limit }
    ensures answered { outcomes.AnsweredWithin (codeless T.growths E.readings) limit
        (operation store.old.machine (scope_of scope.now) (op.SetEpochDeadline ticks))
        (surrounded store.old tt epochs.old) result (surrounded store.new tt epochs.new) }
    ensures engine { store.new.machine.engine ≡ store.old.machine.engine }
{
    let _ = scope;
    set_turns(store, 1);
    let Ok(reading) = epochs.current() else {
        return Reply::Refused(Refusal::EpochFault);
    };
    if limit == 1 {
        return Reply::Refused(Refusal::TurnLimit);
    }
    move_deadline(store, reading, ticks);
    count_act(store);
    Reply::Done
}
