ghost use Rattle.std.specs.Prelude.{◌≡◌, ◌≤◌, IfOk, IfSome, IsSome, OnErr, Ok, [], option_map, true};
ghost use Rattle.spec_machine.specs.Commands.{operation, row};
ghost use Rattle.spec_machine.specs.Names as names;
ghost use Rattle.code_hosts.specs.Asked.{outside_by};
ghost use Rattle.law_causes.specs.Causes.{GrowsInVain};
ghost use Rattle.law_causes.specs.Tallies.{RepliedByCounts};
ghost use Rattle.wasm_host.specs.Scopes.{scope_of};
ghost use Rattle.spec_machine.specs.declared.command.Command.TheVariants as command;
ghost use Rattle.spec_machine.specs.declared.reply.Reply.TheVariants.{Refused};
ghost use Rattle.wasm_call.specs.Alone as alone;
ghost use Rattle.wasm_call.specs.Commands.{CommandAnswered, CommandCut, OpShort};
ghost use Rattle.wasm_call.specs.Outside.{asked, surrounded};
ghost use Rattle.wasm_call.specs.Room.{takes_memory, refusal_of};

use crate::functions::{are_objects, new_func};
use crate::laws::law_failures_are_counted;
use crate::operations::operate_outermost;
use spec_machine::{Name, Op, Reply};
use std::alloc::Global;
use wasm_host::{HostBody, Scope, named_objects};
use wasm_meter::{CallHooks, DeadlineBehaviour, EpochSource, HostData};
use wasm_store::Store;
use wasm_store::parts::set_turns;
use wasm_types::{FuncType, OutOfMemory};
use wasm_values::Extern;

/// The scope of an outermost command: the replies so far.
fn outermost<'a>(replies: &'a [Reply]) -> Scope<'a>
    ensures { scope_of result ≡ names.outermost replies.now }
{
    Scope {
        replies,
        arguments: &[],
        stored: &[],
        caller: None,
    }
}

/// The objects that names stand for in an outermost command, where each gives one; `replies` are what they speak of.
/// `OutOfMemory` comes only where each gives one.
pub fn outermost_objects(
    alloc: Global,
    replies: &[Reply],
    imports: &[Name],
) -> Result<Option<Vec<Extern>>, OutOfMemory>
    ensures found { IfOk result (λ found.
        option_map (λ list. list.items) found ≡ names.named_objects (names.outermost replies.now) imports.now) }
    ensures short { OnErr result (IsSome (names.named_objects (names.outermost replies.now) imports.now)) }
{
    let scope = outermost(replies);
    match named_objects(alloc, &scope, imports) {
        Ok(found) => Ok(found),
        Err(_) => {
            if are_objects(&scope, imports) {
                return Err(OutOfMemory);
            }
            Ok(None)
        }
    }
}

/// Begins to count the turns of an outermost command. Its engine allows it one at least.
pub fn begin_turns<T: HostData, K: CallHooks<T>, B: DeadlineBehaviour<T>>(
    store: &mut Store<T, K, B>,
)
    ensures begun { store.new ≡ record store.old { turns = 0 } }
    ensures allowed { 1 ≤ store.new.machine.engine.turns }
{
    set_turns(store, 0);
    // The number is not used: what `turns` promises of it is the second clause.
    let _turns = store.engine().turns();
}

/// Does an operation as an outermost command, and answers its reply; `replies` are what its names speak of. The rules
/// of each operation are those of the wasmtime crate's call; names and turns are this project's own.
///
/// A refusal, a trap and `TurnLimit` are the reply `Refused`. `Store::turns` tells the turns that it made: a question
/// to the limiter, the act, and in a call those of the code. After `OutOfMemory` the operation is stopped after
/// `Store::turns` turns, and but for a call its act was due, with a turn left for it, and was not made. An operation
/// that takes no memory, as a write, a size or the fuel, never ends so; nor does one of which a condition does not hold:
/// its refusal is told, also where memory is short.
///
/// A call does what `FuncRun::call` tells. A refusal by what is outside comes only where the count of what gave it rose in
/// this operation, or stands at its last value; and `GrowFailed` only where the limiter's count of denials did, or where
/// the growth fails without a limiter, too.
pub fn run_op<
    T: HostData,
    K: CallHooks<T>,
    B: DeadlineBehaviour<T>,
    H: HostBody<T>,
    E: EpochSource,
>(
    store: &mut Store<T, K, B>,
    host: &mut H,
    epochs: &mut E,
    replies: &[Reply],
    op: &Op,
) -> Result<Reply, OutOfMemory>
    requires ready { H.ready host.old }
    ensures ready { H.ready host.new }
    ensures answered { IfOk result (λ reply. CommandAnswered (asked T.growths H.has K.hooks B.behaves E.readings H.steps) replies.now
        (command.Op op.now) (surrounded store.old host.old epochs.old) reply (surrounded store.new host.new epochs.new)) }
    ensures cut { OnErr result (CommandCut (asked T.growths H.has K.hooks B.behaves E.readings H.steps) replies.now
        (command.Op op.now) (surrounded store.old host.old epochs.old) (surrounded store.new host.new epochs.new)) }
    ensures short { OnErr result (OpShort (asked T.growths H.has K.hooks B.behaves E.readings H.steps) replies.now
        op.now (surrounded store.old host.old epochs.old) (surrounded store.new host.new epochs.new)) }
    ensures causes { IfOk result (λ reply. RepliedByCounts T.denials T.limiter_faults T.hook_faults T.behaviour_faults
        E.epoch_faults H.host_faults (outside_by store.old.host_data host.old epochs.old)
        (outside_by store.new.host_data host.new epochs.new)
        (GrowsInVain store.old.machine (operation store.old.machine (names.outermost replies.now) op.now)) reply) }
    ensures room { OnErr result (takes_memory op.now ≡ true) }
    ensures refused { IfSome (refusal_of (operation store.old.machine (names.outermost replies.now) op.now))
        (λ why. result ≡ Ok (Refused why)) }
    ensures engine { store.new.machine.engine ≡ store.old.machine.engine }
{
    law_failures_are_counted::<T, K, B, H, E>();
    begin_turns(store);
    store.keeps_well_formed();
    let scope = outermost(replies);
    operate_outermost(store, host, epochs, &scope, op)
}

/// Makes a function of the host as an outermost command: its type, the number of its body, and the objects that it may
/// name. Its reply and its turns are as those of `run_op`. After `OutOfMemory` it is stopped before its first turn. A
/// refusal is told, also where memory is short: `NoReply` where a name stands for no object, then `WrongStore` where an
/// object is of another store, then `WrongEngine` where the type is of another engine.
pub fn run_func_new<T: HostData, K: CallHooks<T>, B: DeadlineBehaviour<T>>(
    store: &mut Store<T, K, B>,
    replies: &[Reply],
    ty: &FuncType,
    body: usize,
    stored: &[Name],
) -> Result<Reply, OutOfMemory>
    ensures answered { IfOk result (λ reply. alone.CommandAnswered T.growths replies.now
        (command.FuncNew ty.now body stored.now) store.old reply store.new) }
    ensures cut { OnErr result (alone.CommandCut T.growths replies.now
        (command.FuncNew ty.now body stored.now) store.old store.new) }
    ensures refused { IfSome (refusal_of (row [] store.old.machine (names.outermost replies.now)
        (command.FuncNew ty.now body stored.now))) (λ why. result ≡ Ok (Refused why)) }
    ensures engine { store.new.machine.engine ≡ store.old.machine.engine }
{
    begin_turns(store);
    let scope = outermost(replies);
    new_func(store, &scope, ty, body, stored)
}
