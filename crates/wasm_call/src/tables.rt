ghost use Rattle.std.specs.Prelude.{◌≡◌, ◌≤◌, IfOk};
ghost use Rattle.spec_machine.specs.Commands.{operation, element_reply};
ghost use Rattle.spec_machine.specs.TableCalls.{table_new};
ghost use Rattle.spec_machine.specs.declared.operation.Op.TheVariants as op;
ghost use Rattle.store_state.specs.Growing.{Acts, IsDue};
ghost use Rattle.wasm_store.specs.Stores.{KeepsRest};
ghost use Rattle.wasm_call.specs.Alone.{AnsweredAtOnce, PerformedAtOnce, PerformedWithin};
ghost use Rattle.wasm_host.specs.Scopes.{scope_of};

use crate::growth::begin;
use crate::turns::{changed, count_act, one_value};
use spec_machine::{Name, Operand, Reply};
use wasm_host::{Scope, named_table, operand_value};
use wasm_meter::{CallHooks, DeadlineBehaviour, HostData};
use wasm_store::{Store, TableCalls, parts};
use wasm_types::{OutOfMemory, TableType};
use wasm_values::{Extern, Ref, Refusal, Table, Val};

/// A copy of a type.
fn copy_of(ty: &TableType) -> Result<TableType, OutOfMemory>
    ensures { IfOk result (λ copy. copy ≡ ty.now) }
{
    Ok(ty.clone()?)
}

/// Makes a table that was granted.
fn make_table<T: HostData, K: CallHooks<T>, B: DeadlineBehaviour<T>>(
    store: &mut Store<T, K, B>,
    ty: &TableType,
    given: Option<Ref>,
) -> Result<Table, OutOfMemory>
    requires { IsDue store.old.machine (table_new store.old.machine ty.now given) }
    ensures acts { Acts (table_new store.old.machine ty.now given) store.old.machine result store.new.machine }
    ensures rest { KeepsRest store.old store.new }
{
    let copy = copy_of(ty)?;
    let table = parts::table_new(store, copy, given)?;
    Ok(table)
}

pub(crate) fn new_table<T: HostData, K: CallHooks<T>, B: DeadlineBehaviour<T>>(
    store: &mut Store<T, K, B>,
    scope: &Scope<'_>,
    ty: &TableType,
    init: &Operand,
    limit: u64,
) -> Result<Reply, OutOfMemory>
    requires fresh { store.old.turns ≡ 0 }
    requires some_turns { 1 ≤ limit }
    ensures { PerformedWithin T.growths limit (operation store.old.machine (scope_of scope.now) (op.TableNew ty.now init.now))
        store.old result store.new }
{
    let Some(val) = operand_value(scope, init) else {
        return Ok(Reply::Refused(Refusal::NoReply));
    };
    let given = val.ref_();
    let rule = match parts::table_new_rule(store, ty, given) {
        Ok(rule) => rule,
        Err(why) => return Ok(Reply::Refused(why)),
    };
    if let Err(reply) = begin(store, &rule, limit) {
        return Ok(reply);
    }
    let table = make_table(store, ty, given)?;
    count_act(store);
    Ok(Reply::Object(Extern::Table(table)))
}

/// The reply of an element, or that there is none.
fn element_reply<T: HostData, K: CallHooks<T>, B: DeadlineBehaviour<T>>(
    store: &Store<T, K, B>,
    element: Option<Ref>,
) -> Result<Reply, OutOfMemory>
    ensures { IfOk result (λ reply. reply ≡ element_reply element) }
{
    match element {
        Some(element) => one_value(store, Val::from(element)),
        None => Ok(Reply::Absent),
    }
}

pub(crate) fn get_element<T: HostData, K: CallHooks<T>, B: DeadlineBehaviour<T>>(
    store: &mut Store<T, K, B>,
    scope: &Scope<'_>,
    table: Name,
    at: u64,
) -> Result<Reply, OutOfMemory>
    requires { store.old.turns ≡ 0 }
    ensures { PerformedAtOnce T.growths (operation store.old.machine (scope_of scope.now) (op.TableGet table at))
        store.old result store.new }
{
    let Some(table) = named_table(scope, table) else {
        return Ok(Reply::Refused(Refusal::NoReply));
    };
    match table.get(store, at) {
        Ok(element) => {
            let reply = element_reply(store, element)?;
            count_act(store);
            Ok(reply)
        }
        Err(why) => Ok(Reply::Refused(why)),
    }
}

pub(crate) fn set_element<T: HostData, K: CallHooks<T>, B: DeadlineBehaviour<T>>(
    store: &mut Store<T, K, B>,
    scope: &Scope<'_>,
    table: Name,
    at: u64,
    value: &Operand,
) -> Reply
    requires { store.old.turns ≡ 0 }
    ensures { AnsweredAtOnce T.growths (operation store.old.machine (scope_of scope.now) (op.TableSet table at value.now))
        store.old result store.new }
{
    let Some(table) = named_table(scope, table) else {
        return Reply::Refused(Refusal::NoReply);
    };
    let Some(val) = operand_value(scope, value) else {
        return Reply::Refused(Refusal::NoReply);
    };
    let answer = parts::table_set(store, table, at, val.ref_());
    changed(store, answer)
}

pub(crate) fn size_table<T: HostData, K: CallHooks<T>, B: DeadlineBehaviour<T>>(
    store: &mut Store<T, K, B>,
    scope: &Scope<'_>,
    table: Name,
) -> Reply
    requires { store.old.turns ≡ 0 }
    ensures { AnsweredAtOnce T.growths (operation store.old.machine (scope_of scope.now) (op.TableSize table))
        store.old result store.new }
{
    let Some(table) = named_table(scope, table) else {
        return Reply::Refused(Refusal::NoReply);
    };
    match table.size(store) {
        Ok(size) => {
            count_act(store);
            Reply::Number(size)
        }
        Err(why) => Reply::Refused(why),
    }
}

pub(crate) fn grow_table<T: HostData, K: CallHooks<T>, B: DeadlineBehaviour<T>>(
    store: &mut Store<T, K, B>,
    scope: &Scope<'_>,
    table: Name,
    delta: u64,
    value: &Operand,
    limit: u64,
) -> Result<Reply, OutOfMemory>
    requires fresh { store.old.turns ≡ 0 }
    requires some_turns { 1 ≤ limit }
    ensures { PerformedWithin T.growths limit
        (operation store.old.machine (scope_of scope.now) (op.TableGrow table delta value.now))
        store.old result store.new }
{
    let Some(table) = named_table(scope, table) else {
        return Ok(Reply::Refused(Refusal::NoReply));
    };
    let Some(val) = operand_value(scope, value) else {
        return Ok(Reply::Refused(Refusal::NoReply));
    };
    let given = val.ref_();
    let rule = match parts::table_grow_rule(store, table, delta, given) {
        Ok(rule) => rule,
        Err(why) => return Ok(Reply::Refused(why)),
    };
    if let Err(reply) = begin(store, &rule, limit) {
        return Ok(reply);
    }
    let size = parts::table_grow(store, table, delta, given)?;
    count_act(store);
    Ok(Reply::Number(size))
}

pub(crate) fn copy_elements<T: HostData, K: CallHooks<T>, B: DeadlineBehaviour<T>>(
    store: &mut Store<T, K, B>,
    scope: &Scope<'_>,
    dst: Name,
    dst_at: u64,
    src: Name,
    src_at: u64,
    len: u64,
) -> Reply
    requires { store.old.turns ≡ 0 }
    ensures { AnsweredAtOnce T.growths
        (operation store.old.machine (scope_of scope.now) (op.TableCopy dst dst_at src src_at len))
        store.old result store.new }
{
    let Some(dst) = named_table(scope, dst) else {
        return Reply::Refused(Refusal::NoReply);
    };
    let Some(src) = named_table(scope, src) else {
        return Reply::Refused(Refusal::NoReply);
    };
    let answer = Table::copy(store, &dst, dst_at, &src, src_at, len);
    changed(store, answer)
}

pub(crate) fn fill_elements<T: HostData, K: CallHooks<T>, B: DeadlineBehaviour<T>>(
    store: &mut Store<T, K, B>,
    scope: &Scope<'_>,
    table: Name,
    at: u64,
    value: &Operand,
    len: u64,
) -> Reply
    requires { store.old.turns ≡ 0 }
    ensures { AnsweredAtOnce T.growths
        (operation store.old.machine (scope_of scope.now) (op.TableFill table at value.now len))
        store.old result store.new }
{
    let Some(table) = named_table(scope, table) else {
        return Reply::Refused(Refusal::NoReply);
    };
    let Some(val) = operand_value(scope, value) else {
        return Reply::Refused(Refusal::NoReply);
    };
    let answer = parts::table_fill(store, table, at, val.ref_(), len);
    changed(store, answer)
}
