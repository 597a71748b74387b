ghost use Rattle.std.specs.Prelude.{◌≡◌, OnOk, OnErr, IfOk, IfErr, ◌<◌, ◌+◌};
ghost use Rattle.spec_machine.specs.Commands.{one_value};
ghost use Rattle.spec_machine.specs.declared.reply.Reply.TheVariants.{Done, Refused};

use spec_machine::{Reply, ValList};
use wasm_meter::{CallHooks, DeadlineBehaviour, HostData};
use wasm_store::Store;
use wasm_store::parts::{allocator, set_turns};
use wasm_types::OutOfMemory;
use wasm_values::{Refusal, Val};

/// Counts the turn of an act.
pub(crate) fn count_act<T: HostData, K: CallHooks<T>, B: DeadlineBehaviour<T>>(
    store: &mut Store<T, K, B>,
)
    requires { store.old.turns < 2 }
    ensures { store.new ≡ record store.old { turns = store.old.turns + 1 } }
{
    let turns = store.turns() + 1;
    set_turns(store, turns);
}

/// The reply of an act that changed the store, or was refused.
pub(crate) fn changed<T: HostData, K: CallHooks<T>, B: DeadlineBehaviour<T>>(
    store: &mut Store<T, K, B>,
    answer: Result<(), Refusal>,
) -> Reply
    requires { store.old.turns ≡ 0 }
    ensures done { OnOk answer ((result ≡ Done) × (store.new ≡ record store.old { turns = 1 })) }
    ensures refused { IfErr answer (λ why. (result ≡ Refused why) × (store.new ≡ store.old)) }
{
    match answer {
        Ok(()) => {
            count_act(store);
            Reply::Done
        }
        Err(why) => Reply::Refused(why),
    }
}

/// The reply of one value.
pub(crate) fn one_value<T: HostData, K: CallHooks<T>, B: DeadlineBehaviour<T>>(
    store: &Store<T, K, B>,
    val: Val,
) -> Result<Reply, OutOfMemory>
    ensures { IfOk result (λ reply. reply ≡ one_value val) }
{
    let mut vals = Vec::new(allocator(store));
    vals.push(val)?;
    Ok(Reply::Values(ValList(vals)))
}

/// The answer of a call that made nothing: memory ran out, or it was refused.
pub(crate) fn unmade(why: Refusal) -> Result<Reply, OutOfMemory>
    ensures short { OnErr result (why ≡ Refusal.OutOfMemory) }
    ensures refused { IfOk result (λ reply. (reply ≡ Refused why) × ¬ (why ≡ Refusal.OutOfMemory)) }
{
    match why {
        Refusal::OutOfMemory => Err(OutOfMemory),
        why => Ok(Reply::Refused(why)),
    }
}
