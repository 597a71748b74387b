ghost use Rattle.std.specs.Prelude.{◌≡◌, ◌≤◌, None, OnErr, true};
ghost use Rattle.law_store.specs.Rows.{AsksLimiterAlone, RunsNoCode};
ghost use Rattle.spec_machine.specs.Commands.{operation};
ghost use Rattle.spec_machine.specs.declared.command.Command.TheVariants as command;
ghost use Rattle.wasm_call.specs.Alone.{PerformedWithin, codeless};
ghost use Rattle.wasm_call.specs.Outcomes as outcomes;
ghost use Rattle.wasm_call.specs.Outcomes.{Operated};
ghost use Rattle.wasm_call.specs.Outside.{asked, surrounded};
ghost use Rattle.wasm_call.specs.Room.{takes_memory, refusal_of};
ghost use Rattle.wasm_host.specs.Scopes.{scope_of};

use crate::calls::{call_function, get_export};
use crate::fuel::{get_fuel, set_deadline, set_fuel, set_interval};
use crate::globals::{get_global, new_global, new_tag, set_global};
use crate::memories::{grow_memory, new_memory, read_memory, size_memory, write_memory};
use crate::tables::{
    copy_elements, fill_elements, get_element, grow_table, new_table, set_element, size_table,
};
use spec_machine::{Op, Reply};
use wasm_host::{HostBody, Scope};
use wasm_meter::{CallHooks, DeadlineBehaviour, EpochSource, HostData};
use wasm_store::Store;
use wasm_types::OutOfMemory;

/// Does an operation that runs no code and reads no epoch, in a scope, in so many turns at most.
fn perform_unread<T: HostData, K: CallHooks<T>, B: DeadlineBehaviour<T>>(
    store: &mut Store<T, K, B>,
    scope: &Scope<'_>,
    op: &Op,
    limit: u64,
) -> Result<Reply, OutOfMemory>
    requires fresh { store.old.turns ≡ 0 }
    requires some_turns { 1 ≤ limit }
    requires plain { AsksLimiterAlone (command.Op op.now) }
    ensures performed { PerformedWithin T.growths limit (operation store.old.machine (scope_of scope.now) op.now)
        store.old result store.new }
    ensures room { OnErr result (takes_memory op.now ≡ true) }
{
    match op {
        Op::MemoryNew { ty } => new_memory(store, scope, ty, limit),
        Op::MemoryRead { memory, at, len } => read_memory(store, scope, *memory, *at, *len),
        Op::MemoryWrite { memory, at, bytes } => {
            Ok(write_memory(store, scope, *memory, *at, bytes))
        }
        Op::MemorySize { memory } => Ok(size_memory(store, scope, *memory)),
        Op::MemoryGrow { memory, delta } => grow_memory(store, scope, *memory, *delta, limit),
        Op::TableNew { ty, init } => new_table(store, scope, ty, init, limit),
        Op::TableGet { table, at } => get_element(store, scope, *table, *at),
        Op::TableSet { table, at, value } => Ok(set_element(store, scope, *table, *at, value)),
        Op::TableSize { table } => Ok(size_table(store, scope, *table)),
        Op::TableGrow {
            table,
            delta,
            value,
        } => grow_table(store, scope, *table, *delta, value, limit),
        Op::TableCopy {
            dst,
            dst_at,
            src,
            src_at,
            len,
        } => Ok(copy_elements(store, scope, *dst, *dst_at, *src, *src_at, *len)),
        Op::TableFill {
            table,
            at,
            value,
            len,
        } => Ok(fill_elements(store, scope, *table, *at, value, *len)),
        Op::GlobalNew { ty, init } => new_global(store, scope, ty, init),
        Op::GlobalGet { global } => get_global(store, scope, *global),
        Op::GlobalSet { global, value } => Ok(set_global(store, scope, *global, value)),
        Op::TagNew { ty } => new_tag(store, scope, ty),
        Op::GetExport { instance, name } => Ok(get_export(store, scope, *instance, name.as_str())),
        Op::GetFuel => Ok(get_fuel(store, scope)),
        Op::SetFuel { fuel } => Ok(set_fuel(store, scope, *fuel)),
        Op::YieldInterval { interval } => Ok(set_interval(store, scope, *interval)),
        Op::SetEpochDeadline { ticks: _ } => unreachable!(),
        Op::Call {
            func: _,
            args: _,
            results: _,
        } => unreachable!(),
    }
}

/// Does an operation that runs no code, in a scope, in so many turns at most.
pub(crate) fn perform<T: HostData, K: CallHooks<T>, B: DeadlineBehaviour<T>, E: EpochSource>(
    store: &mut Store<T, K, B>,
    epochs: &mut E,
    scope: &Scope<'_>,
    op: &Op,
    limit: u64,
) -> Result<Reply, OutOfMemory>
    requires fresh { store.old.turns ≡ 0 }
    requires some_turns { 1 ≤ limit }
    requires plain { RunsNoCode (command.Op op.now) }
    ensures performed { outcomes.PerformedWithin (codeless T.growths E.readings) limit
        (operation store.old.machine (scope_of scope.now) op.now)
        (surrounded store.old tt epochs.old) result (surrounded store.new tt epochs.new) }
    ensures room { OnErr result (takes_memory op.now ≡ true) }
    ensures engine { store.new.machine.engine ≡ store.old.machine.engine }
{
    match op {
        Op::SetEpochDeadline { ticks } => Ok(set_deadline(store, epochs, scope, *ticks, limit)),
        op => perform_unread(store, scope, op, limit),
    }
}

/// Does an operation that no code asked for, in a scope. A refusal that is due is told, also where memory is short.
pub(crate) fn operate_outermost<
    T: HostData,
    K: CallHooks<T>,
    B: DeadlineBehaviour<T>,
    H: HostBody<T>,
    E: EpochSource,
>(
    store: &mut Store<T, K, B>,
    host: &mut H,
    epochs: &mut E,
    scope: &Scope<'_>,
    op: &Op,
) -> Result<Reply, OutOfMemory>
    requires ready { H.ready host.old }
    requires fresh { store.old.turns ≡ 0 }
    requires some_turns { 1 ≤ store.old.machine.engine.turns }
    ensures ready { H.ready host.new }
    ensures operated { Operated (asked T.growths H.has K.hooks B.behaves E.readings H.steps) (scope_of scope.now) op.now
        (surrounded store.old host.old epochs.old) result (surrounded store.new host.new epochs.new) }
    ensures room { OnErr result (takes_memory op.now ≡ true) }
    ensures met { OnErr result (refusal_of (operation store.old.machine (scope_of scope.now) op.now) ≡ None) }
    ensures engine { store.new.machine.engine ≡ store.old.machine.engine }
{
    match op {
        Op::Call {
            func,
            args,
            results,
        } => call_function(store, host, epochs, scope, *func, args.as_slice(), *results),
        op => {
            let limit = store.engine().turns();
            perform(store, epochs, scope, op, limit)
        }
    }
}
