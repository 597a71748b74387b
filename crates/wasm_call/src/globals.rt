ghost use Rattle.std.specs.Prelude.{◌≡◌, IfOk};
ghost use Rattle.spec_machine.specs.Commands.{operation, makes};
ghost use Rattle.spec_machine.specs.GlobalCalls.{global_new};
ghost use Rattle.spec_machine.specs.declared.operation.Op.TheVariants as op;
ghost use Rattle.spec_machine.specs.declared.reply.Reply.TheVariants.{Object};
ghost use Rattle.wasm_values.specs.declared.externals.Extern.TheVariants as x;
ghost use Rattle.wasm_call.specs.Alone.{AnsweredAtOnce, PerformedAtOnce};
ghost use Rattle.wasm_host.specs.Scopes.{scope_of};

use crate::turns::{changed, count_act, one_value, unmade};
use spec_machine::{Name, Operand, Reply};
use wasm_host::{Scope, named_global, operand_value};
use wasm_meter::{CallHooks, DeadlineBehaviour, HostData};
use wasm_store::{GlobalCalls, Store, TagCalls, ValCalls};
use wasm_types::{GlobalType, OutOfMemory, TagType};
use wasm_values::{Extern, Global, Refusal, Tag, Val};

/// A copy of a type.
fn copy_of(ty: &GlobalType) -> Result<GlobalType, OutOfMemory>
    ensures { IfOk result (λ copy. copy ≡ ty.now) }
{
    Ok(ty.clone()?)
}

/// Of a global whose type could not be copied for want of memory: the refusal that is due, where one is.
fn unmade_global<T: HostData, K: CallHooks<T>, B: DeadlineBehaviour<T>>(
    store: &Store<T, K, B>,
    ty: &GlobalType,
    val: Val,
) -> Result<Reply, OutOfMemory>
    requires { store.now.turns ≡ 0 }
    ensures { PerformedAtOnce T.growths (makes (λ h. Object (x.Global h)) (global_new store.now.machine ty.now val))
        store.now result store.now }
{
    match val.matches_ty(store, ty.content()) {
        Ok(true) => Err(OutOfMemory),
        Ok(false) => Ok(Reply::Refused(Refusal::TypeMismatch)),
        Err(why) => Ok(Reply::Refused(why)),
    }
}

pub(crate) fn new_global<T: HostData, K: CallHooks<T>, B: DeadlineBehaviour<T>>(
    store: &mut Store<T, K, B>,
    scope: &Scope<'_>,
    ty: &GlobalType,
    init: &Operand,
) -> Result<Reply, OutOfMemory>
    requires { store.old.turns ≡ 0 }
    ensures { PerformedAtOnce T.growths (operation store.old.machine (scope_of scope.now) (op.GlobalNew ty.now init.now))
        store.old result store.new }
{
    let Some(val) = operand_value(scope, init) else {
        return Ok(Reply::Refused(Refusal::NoReply));
    };
    let Ok(copy) = copy_of(ty) else {
        return unmade_global(store, ty, val);
    };
    match <Global as GlobalCalls>::new(store, copy, val) {
        Ok(global) => {
            count_act(store);
            Ok(Reply::Object(Extern::Global(global)))
        }
        Err(why) => unmade(why),
    }
}

pub(crate) fn get_global<T: HostData, K: CallHooks<T>, B: DeadlineBehaviour<T>>(
    store: &mut Store<T, K, B>,
    scope: &Scope<'_>,
    global: Name,
) -> Result<Reply, OutOfMemory>
    requires { store.old.turns ≡ 0 }
    ensures { PerformedAtOnce T.growths (operation store.old.machine (scope_of scope.now) (op.GlobalGet global))
        store.old result store.new }
{
    let Some(global) = named_global(scope, global) else {
        return Ok(Reply::Refused(Refusal::NoReply));
    };
    match global.get(store) {
        Ok(val) => {
            let reply = one_value(store, val)?;
            count_act(store);
            Ok(reply)
        }
        Err(why) => Ok(Reply::Refused(why)),
    }
}

pub(crate) fn set_global<T: HostData, K: CallHooks<T>, B: DeadlineBehaviour<T>>(
    store: &mut Store<T, K, B>,
    scope: &Scope<'_>,
    global: Name,
    value: &Operand,
) -> Reply
    requires { store.old.turns ≡ 0 }
    ensures { AnsweredAtOnce T.growths (operation store.old.machine (scope_of scope.now) (op.GlobalSet global value.now))
        store.old result store.new }
{
    let Some(global) = named_global(scope, global) else {
        return Reply::Refused(Refusal::NoReply);
    };
    let Some(val) = operand_value(scope, value) else {
        return Reply::Refused(Refusal::NoReply);
    };
    let answer = global.set(store, val);
    changed(store, answer)
}

pub(crate) fn new_tag<T: HostData, K: CallHooks<T>, B: DeadlineBehaviour<T>>(
    store: &mut Store<T, K, B>,
    scope: &Scope<'_>,
    ty: &TagType,
) -> Result<Reply, OutOfMemory>
    requires { store.old.turns ≡ 0 }
    ensures { PerformedAtOnce T.growths (operation store.old.machine (scope_of scope.now) (op.TagNew ty.now))
        store.old result store.new }
{
    let _ = scope;
    match <Tag as TagCalls>::new(store, ty) {
        Ok(tag) => {
            count_act(store);
            Ok(Reply::Object(Extern::Tag(tag)))
        }
        Err(why) => unmade(why),
    }
}
