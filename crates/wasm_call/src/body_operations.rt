//! Operations that a body of the host asks for in a call, on its store with the objects of the call in it.
ghost use Rattle.std.specs.Prelude.{◌≡◌, ◌≤◌, IfOk, IfErr, None, OnErr, true};
ghost use Rattle.law_store.specs.Rows.{RunsNoCode};
ghost use Rattle.spec_machine.specs.Commands.{operation};
ghost use Rattle.spec_machine.specs.declared.command.Command.TheVariants as command;
ghost use Rattle.spec_machine.specs.declared.operation.Op.TheVariants as op;
ghost use Rattle.spec_machine.specs.declared.reply.Reply.TheVariants as reply;
ghost use Rattle.wasm_call.specs.Operating.{KeepsRead, Does, Lacks, ComesTo, WantsRoom};
ghost use Rattle.wasm_call.specs.Outside.{surrounded};
ghost use Rattle.wasm_call.specs.Room.{takes_memory, refusal_of};
ghost use Rattle.wasm_host.specs.Scopes.{scope_of};

use crate::arguments::unlisted;
use crate::invocations::raw_values;
use crate::operations::perform;
use code_hosts::{Invoked, Operated, Operation, Unfinished};
use spec_machine::{Name, Op, Operand, Reply};
use wasm_host::{Scope, named_func, operand_values};
use wasm_meter::{CallHooks, DeadlineBehaviour, EpochSource, HostData};
use wasm_store::Store;
use wasm_store::parts::{allocator, may_call};
use wasm_types::OutOfMemory;
use wasm_values::Refusal;

/// What an operation comes to that answered after so many turns: where no turn is left, nothing is done behind its reply.
fn reached(answer: Reply, spent: u64, left: u64) -> Operated
    ensures limit { spent ≡ left → result ≡ Operated.Limit }
    ensures replies { ¬ (spent ≡ left) → result ≡ Operated.Replies answer }
{
    if spent == left {
        return Operated::Limit;
    }
    Operated::Replies(answer)
}

/// Does an operation that runs no code, in a scope, in so many turns at most.
fn do_plain<T: HostData, K: CallHooks<T>, B: DeadlineBehaviour<T>, E: EpochSource>(
    store: &mut Store<T, K, B>,
    epochs: &mut E,
    scope: &Scope<'_>,
    op: &Op,
    left: u64,
) -> Result<Operation, Unfinished>
    requires fresh { store.old.turns ≡ 0 }
    requires plain { RunsNoCode (command.Op op.now) }
    ensures does { IfOk result (λ d. Does T.growths E.readings (scope_of scope.now) op.now left
        (surrounded store.old tt epochs.old) (surrounded store.new tt epochs.new) d) }
    ensures lacks { IfErr result (λ u. Lacks T.growths E.readings (scope_of scope.now) op.now left
        (surrounded store.old tt epochs.old) (surrounded store.new tt epochs.new) u.turns) }
    ensures room { OnErr result (takes_memory op.now ≡ true) }
    ensures met { OnErr result (refusal_of (operation store.old.machine (scope_of scope.now) op.now) ≡ None) }
    ensures keeps { KeepsRead store.old.machine store.new.machine }
{
    if left == 0 {
        return Ok(Operation {
            what: Operated::Limit,
            spent: 0,
        });
    }
    match perform(store, epochs, scope, op, left) {
        Ok(answer) => {
            let spent = store.turns();
            Ok(Operation {
                what: reached(answer, spent, left),
                spent,
            })
        }
        Err(_) => Err(Unfinished {
            turns: store.turns(),
        }),
    }
}

/// What a call of a function comes to: it is refused, or the function is to be called. A refusal that is due is told, also
/// where memory is short.
fn due_call<T: HostData, K: CallHooks<T>, B: DeadlineBehaviour<T>>(
    store: &mut Store<T, K, B>,
    scope: &Scope<'_>,
    func: Name,
    args: &[Operand],
    results: Option<u64>,
) -> Result<Operated, OutOfMemory>
    ensures due { IfOk result (λ what.
        ComesTo (scope_of scope.now) (op.Call func args.now results) store.old.machine what) }
    ensures room { IfErr result (λ none.
        WantsRoom (scope_of scope.now) (op.Call func args.now results) store.old.machine) }
    ensures met { OnErr result
        (refusal_of (operation store.old.machine (scope_of scope.now) (op.Call func args.now results)) ≡ None) }
    ensures same { store.new ≡ store.old }
{
    let Some(func) = named_func(scope, func) else {
        return Ok(Operated::Replies(Reply::Refused(Refusal::NoReply)));
    };
    let Ok(values) = operand_values(allocator(store), scope, args) else {
        return Ok(Operated::Replies(unlisted(store, scope, func, args, results)?));
    };
    let Some(values) = values else {
        return Ok(Operated::Replies(Reply::Refused(Refusal::NoReply)));
    };
    if let Err(why) = may_call(store, func, values.as_slice(), results) {
        return Ok(Operated::Replies(Reply::Refused(why)));
    }
    let arguments = raw_values(allocator(store), values.as_slice())?;
    Ok(Operated::Invokes(Invoked {
        function: func.index(),
        arguments,
    }))
}

/// Does an operation in a scope, in so many turns at most; a function that is to be called is not. One that takes no
/// memory, and one that is refused, never ends in want of memory.
pub(crate) fn do_operation<T: HostData, K: CallHooks<T>, B: DeadlineBehaviour<T>, E: EpochSource>(
    store: &mut Store<T, K, B>,
    epochs: &mut E,
    scope: &Scope<'_>,
    op: &Op,
    left: u64,
) -> Result<Operation, Unfinished>
    requires fresh { store.old.turns ≡ 0 }
    ensures does { IfOk result (λ d. Does T.growths E.readings (scope_of scope.now) op.now left
        (surrounded store.old tt epochs.old) (surrounded store.new tt epochs.new) d) }
    ensures lacks { IfErr result (λ u. Lacks T.growths E.readings (scope_of scope.now) op.now left
        (surrounded store.old tt epochs.old) (surrounded store.new tt epochs.new) u.turns) }
    ensures room { OnErr result (takes_memory op.now ≡ true) }
    ensures met { OnErr result (refusal_of (operation store.old.machine (scope_of scope.now) op.now) ≡ None) }
    ensures keeps { KeepsRead store.old.machine store.new.machine }
{
    match op {
        Op::Call {
            func,
            args,
            results,
        } => match due_call(store, scope, *func, args.as_slice(), *results) {
            Ok(what) => Ok(Operation { what, spent: 0 }),
            Err(_) => Err(Unfinished { turns: 0 }),
        },
        op => do_plain(store, epochs, scope, op, left),
    }
}
