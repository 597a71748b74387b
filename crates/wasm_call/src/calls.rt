ghost use Rattle.std.specs.Prelude.{◌≡◌, None, OnErr};
ghost use Rattle.spec_machine.specs.Commands.{operation};
ghost use Rattle.spec_machine.specs.declared.operation.Op.TheVariants as op;
ghost use Rattle.wasm_call.specs.Alone.{AnsweredAtOnce};
ghost use Rattle.wasm_call.specs.Outcomes.{Called};
ghost use Rattle.wasm_call.specs.Outside.{asked, surrounded};
ghost use Rattle.wasm_call.specs.Room.{refusal_of};
ghost use Rattle.wasm_host.specs.Scopes.{scope_of};

use crate::arguments::unlisted;
use crate::turns::{count_act, unmade};
use crate::value_calls::call_values;
use spec_machine::{Name, Operand, Reply, ValList};
use wasm_host::{HostBody, Scope, named_func, named_instance, operand_values};
use wasm_meter::{CallHooks, DeadlineBehaviour, EpochSource, HostData};
use wasm_store::parts::allocator;
use wasm_store::{Store, parts};
use wasm_types::OutOfMemory;
use wasm_values::Refusal;

/// The object that an instance exports.
pub(crate) fn get_export<T: HostData, K: CallHooks<T>, B: DeadlineBehaviour<T>>(
    store: &mut Store<T, K, B>,
    scope: &Scope<'_>,
    instance: Name,
    name: &str,
) -> Reply
    requires { store.old.turns ≡ 0 }
    ensures { AnsweredAtOnce T.growths
        (operation store.old.machine (scope_of scope.now) (op.GetExport instance name.now))
        store.old result store.new }
{
    let Some(instance) = named_instance(scope, instance) else {
        return Reply::Refused(Refusal::NoReply);
    };
    match parts::get_export(store, instance, name) {
        Ok(object) => {
            count_act(store);
            Reply::Object(object)
        }
        Err(why) => Reply::Refused(why),
    }
}

/// Calls a function, or refuses the call where a name gives nothing. A refusal that is due is told, also where memory is
/// short.
pub(crate) fn call_function<
    T: HostData,
    K: CallHooks<T>,
    B: DeadlineBehaviour<T>,
    H: HostBody<T>,
    E: EpochSource,
>(
    store: &mut Store<T, K, B>,
    host: &mut H,
    epochs: &mut E,
    scope: &Scope<'_>,
    func: Name,
    args: &[Operand],
    results: Option<u64>,
) -> Result<Reply, OutOfMemory>
    requires ready { H.ready host.old }
    requires fresh { store.old.turns ≡ 0 }
    ensures ready { H.ready host.new }
    ensures called { Called (asked T.growths H.has K.hooks B.behaves E.readings H.steps)
        (operation store.old.machine (scope_of scope.now) (op.Call func args.now results))
        (surrounded store.old host.old epochs.old) result (surrounded store.new host.new epochs.new) }
    ensures met { OnErr result
        (refusal_of (operation store.old.machine (scope_of scope.now) (op.Call func args.now results)) ≡ None) }
    ensures engine { store.new.machine.engine ≡ store.old.machine.engine }
{
    let Some(func) = named_func(scope, func) else {
        return Ok(Reply::Refused(Refusal::NoReply));
    };
    store.keeps_well_formed();
    let Ok(values) = operand_values(allocator(store), scope, args) else {
        return unlisted(store, scope, func, args, results);
    };
    let Some(values) = values else {
        return Ok(Reply::Refused(Refusal::NoReply));
    };
    match call_values(store, host, epochs, func, values.as_slice(), results) {
        Ok(vals) => Ok(Reply::Values(ValList(vals))),
        Err(why) => unmade(why),
    }
}
