ghost use Rattle.std.specs.Prelude.{◌≡◌, ◌≤◌, ℕ, [], IfOk, None, OnErr, is_some};
ghost use Rattle.std.specs.List.{list_all};
ghost use Rattle.spec_machine.specs.Commands.{row};
ghost use Rattle.spec_machine.specs.Names.{named_object, named_objects};
ghost use Rattle.spec_machine.specs.declared.command.Command.TheVariants as command;
ghost use Rattle.wasm_call.specs.Alone.{AnsweredRow};
ghost use Rattle.wasm_call.specs.Functions.{owns_object};
ghost use Rattle.wasm_call.specs.Room.{refusal_of};
ghost use Rattle.wasm_host.specs.Scopes.{scope_of};

use crate::turns::{count_act, unmade};
use spec_machine::{Name, Reply};
use wasm_host::{Scope, named_object, named_objects};
use wasm_meter::{CallHooks, DeadlineBehaviour, HostData};
use wasm_store::parts::{allocator, objects};
use wasm_store::{FuncCalls, Store};
use wasm_types::{FuncType, OutOfMemory};
use wasm_values::{Extern, Func, Refusal};

/// Whether each name gives an object.
pub(crate) fn are_objects(scope: &Scope<'_>, given: &[Name]) -> bool
    ensures { result ≡ is_some (named_objects (scope_of scope.now) given.now) }
{
    for name in given {
        if named_object(scope, *name).is_none() {
            return false;
        }
    }
    true
}

/// Whether what a name stands for is of the store, where it stands for an object.
fn owns_named<T: HostData, K: CallHooks<T>, B: DeadlineBehaviour<T>>(
    store: &Store<T, K, B>,
    scope: &Scope<'_>,
    name: Name,
) -> bool
    ensures { result ≡ owns_object store.now.machine (named_object (scope_of scope.now) name) }
{
    match named_object(scope, name) {
        Some(object) => objects(store).owns_extern(object),
        None => true,
    }
}

/// Whether each object that a name stands for is of the store.
fn are_owned<T: HostData, K: CallHooks<T>, B: DeadlineBehaviour<T>>(
    store: &Store<T, K, B>,
    scope: &Scope<'_>,
    given: &[Name],
) -> bool
    ensures { result ≡ list_all (λ name. owns_object store.now.machine (named_object (scope_of scope.now) name)) given.now }
{
    for name in given {
        if !owns_named(store, scope, *name) {
            return false;
        }
    }
    true
}

/// The refusal of a new function of the host that is due, where one is. It takes no memory.
fn due_refusal<T: HostData, K: CallHooks<T>, B: DeadlineBehaviour<T>>(
    store: &Store<T, K, B>,
    scope: &Scope<'_>,
    ty: &FuncType,
    stored: &[Name],
) -> Option<Refusal>
    ensures { (body : ℕ) → result ≡ refusal_of (row [] store.now.machine (scope_of scope.now)
        (command.FuncNew ty.now body stored.now)) }
{
    if !are_objects(scope, stored) {
        return Some(Refusal::NoReply);
    }
    if !are_owned(store, scope, stored) {
        return Some(Refusal::WrongStore);
    }
    if !ty.comes_from_same_engine(store.engine().id()) {
        return Some(Refusal::WrongEngine);
    }
    None
}

/// A copy of a type.
fn copy_of(ty: &FuncType) -> Result<FuncType, OutOfMemory>
    ensures { IfOk result (λ copy. copy ≡ ty.now) }
{
    Ok(ty.clone()?)
}

/// Makes a function of the host. A refusal is told, also where memory is short.
pub(crate) fn new_func<T: HostData, K: CallHooks<T>, B: DeadlineBehaviour<T>>(
    store: &mut Store<T, K, B>,
    scope: &Scope<'_>,
    ty: &FuncType,
    body: usize,
    stored: &[Name],
) -> Result<Reply, OutOfMemory>
    requires fresh { store.old.turns ≡ 0 }
    requires some_turns { 1 ≤ store.old.machine.engine.turns }
    ensures answered { IfOk result (λ reply. AnsweredRow T.growths
        (row [] store.old.machine (scope_of scope.now) (command.FuncNew ty.now body stored.now))
        store.old reply store.new) }
    ensures short { OnErr result (store.new ≡ store.old) }
    ensures met { OnErr result (refusal_of (row [] store.old.machine (scope_of scope.now)
        (command.FuncNew ty.now body stored.now)) ≡ None) }
{
    if let Some(why) = due_refusal(store, scope, ty, stored) {
        return Ok(Reply::Refused(why));
    }
    let named = named_objects(allocator(store), scope, stored)?;
    let Some(found) = named else {
        unreachable!();
    };
    let copy = copy_of(ty)?;
    match <Func as FuncCalls>::try_new(store, copy, body, found.as_slice()) {
        Ok(func) => {
            count_act(store);
            Ok(Reply::Object(Extern::Func(func)))
        }
        Err(why) => unmade(why),
    }
}
