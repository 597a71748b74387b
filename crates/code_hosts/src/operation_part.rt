//! The operation that a step of a body asked for.
ghost use Rattle.std.specs.Prelude.{◌≡◌, ◌≤◌, ◌+◌, ◌-◌, ◌*◌, ◌^◌, IfOk, IfErr, length};
ghost use Rattle.spec_machine.specs.Machine.{debt, most_debt};
ghost use Rattle.spec_execution.specs.Bodies.{exec};
ghost use Rattle.spec_execution.specs.Hosts.{said};
ghost use Rattle.spec_execution.specs.declared.answer.Answer.TheVariants.{Call};
ghost use Rattle.wasm_host.specs.Activations.{activation_of};
ghost use Rattle.code_hosts.specs.Contexts.{HasRules, IsFormedIn, moves_in, opened_in};
ghost use Rattle.code_hosts.specs.Parting.{awaited, bordered};
ghost use Rattle.code_hosts.specs.Rounds.{Rounds, Lacks, IsNearer};

use crate::body_replies::take_reply;
use crate::call_part::call_for_body;
use crate::context::RunContext;
use crate::operations::Operated;
use crate::rounds::{Lack, Lacking, Round, Rounded, later};
use crate::states::Waiting;
use crate::surroundings::HostSurroundings;
use spec_machine::Op;
use store_state::Held;
use wasm_host::Activation;

// The body asked for this operation.
pub(crate) fn ask_operation<'p, W: HostSurroundings>(
    context: &RunContext<'p>,
    held: &mut Held,
    world: &mut W,
    activation: Activation<'p>,
    op: Op,
    around: &mut Vec<Waiting<'p>>,
    left: u64,
) -> Result<Rounded<'p>, Lacking>
    requires few { left ≤ 1000000000 }
    requires rules { HasRules context.now }
    requires deep { activation.depth + 1 ≤ 2 ^ 64 - 1 }
    requires fits { W.fits world.old context.now }
    requires formed { IsFormedIn context.now held.old }
    ensures rounds { IfOk result (λ x. Rounds (opened_in context.now) (moves_in context.now W.moves)
        (awaited around.old.items (bordered (said exec (activation_of activation.entry) (Call op)))) held.old
        world.old left x.spent x.round around.new.items held.new world.new) }
    ensures nearer { IfOk result (λ x. IsNearer x.round around.new.items (left - x.spent)
        (4 * left + length around.old.items + 4)) }
    ensures lacks { IfErr result (λ x. Lacks (opened_in context.now) (moves_in context.now W.moves)
        (awaited around.old.items (bordered (said exec (activation_of activation.entry) (Call op)))) held.old
        world.old left x.spent x.lack held.new world.new) }
    ensures fuel { debt held.new.fuel ≤ most_debt }
{
    let scope = activation.scope(context.id);
    let operation = match world.operate(context, held, &scope, &op, left) {
        Ok(operation) => operation,
        Err(unfinished) => {
            return Err(Lacking {
                lack: Lack::Run,
                spent: unfinished.turns,
            });
        }
    };
    let spent = operation.spent;
    match operation.what {
        Operated::Replies(reply) => later(spent, take_reply(activation, reply)),
        Operated::Invokes(invoked) => {
            let called = call_for_body(context, world, activation, invoked, around, left - spent);
            later(spent, called)
        }
        Operated::Limit => Ok(Rounded {
            round: Round::Limit,
            spent,
        }),
    }
}
