ghost use Rattle.std.specs.Prelude.{◌≡◌, ◌≤◌};
ghost use Rattle.spec_machine.specs.Growth.{Plan};
ghost use Rattle.spec_machine.specs.declared.reply.Reply.{Reply as Answer};
ghost use Rattle.store_state.specs.Growing.{plan_says};
ghost use Rattle.wasm_call.specs.Growths.{Begins, questions};

use spec_machine::Reply;
use wasm_meter::{CallHooks, DeadlineBehaviour, HostData};
use wasm_store::parts::{set_turns, settle};
use wasm_store::{GrowthRule, Store};
use wasm_values::Refusal;

/// Counts the turn of a question, where there is one.
fn count_question<T: HostData, K: CallHooks<T>, B: DeadlineBehaviour<T>>(
    store: &mut Store<T, K, B>,
    rule: &GrowthRule,
)
    requires { store.old.turns ≡ 0 }
    ensures { store.new ≡ record store.old { turns = questions rule.now } }
{
    if let GrowthRule::Asks(_) = rule {
        set_turns(store, 1);
    }
}

/// Decides a growth by its rule, with the question to the limiter, which is a turn, where it is to be asked; of turns
/// there are so many. The reply, where the growth does not come to its act.
pub(crate) fn begin<T: HostData, K: CallHooks<T>, B: DeadlineBehaviour<T>>(
    store: &mut Store<T, K, B>,
    rule: &GrowthRule,
    limit: u64,
) -> Result<(), Reply>
    requires fresh { store.old.turns ≡ 0 }
    requires some_turns { 1 ≤ limit }
    ensures { (p : Plan Answer) → rule.now ≡ plan_says store.old.machine p →
        Begins T.growths limit p store.old result store.new }
{
    count_question(store, rule);
    if let Err(why) = settle(store, rule) {
        return Err(Reply::Refused(why));
    }
    if store.turns() == limit {
        return Err(Reply::Refused(Refusal::TurnLimit));
    }
    Ok(())
}
