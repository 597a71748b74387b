//! What a step of a body said is done.
ghost use Rattle.std.specs.Prelude.{◌≡◌, ◌≤◌, ◌+◌, ◌-◌, ◌*◌, ◌^◌, IfOk, IfErr, length};
ghost use Rattle.spec_execution.specs.Bodies.{exec};
ghost use Rattle.spec_execution.specs.Hosts.{said};
ghost use Rattle.wasm_host.specs.Activations.{activation_of};
ghost use Rattle.code_hosts.specs.Conditions.{IsPayable};
ghost use Rattle.code_hosts.specs.Contexts.{HasRules, IsFormedIn, moves_in, opened_in};
ghost use Rattle.code_hosts.specs.Parting.{awaited, bordered};
ghost use Rattle.code_hosts.specs.Rounds.{Rounds, Lacks, IsNearer};

use crate::body_end::{leave_body, return_values};
use crate::context::RunContext;
use crate::operation_part::ask_operation;
use crate::replies::How;
use crate::rounds::{Lacking, Rounded};
use crate::states::Waiting;
use crate::surroundings::HostSurroundings;
use store_state::Held;
use wasm_host::{Activation, Answer};
use wasm_values::Refusal;

// A step said this.
pub(crate) fn heed<'p, W: HostSurroundings>(
    context: &RunContext<'p>,
    held: &mut Held,
    world: &mut W,
    activation: Activation<'p>,
    what: Answer,
    around: &mut Vec<Waiting<'p>>,
    left: u64,
) -> Result<Rounded<'p>, Lacking>
    requires few { left ≤ 1000000000 }
    requires fuel { IsPayable context.now.bounds held.old.fuel left }
    requires rules { HasRules context.now }
    requires deep { activation.depth + 1 ≤ 2 ^ 64 - 1 }
    requires fits { W.fits world.old context.now }
    requires formed { IsFormedIn context.now held.old }
    ensures rounds { IfOk result (λ x. Rounds (opened_in context.now) (moves_in context.now W.moves)
        (awaited around.old.items (bordered (said exec (activation_of activation.entry) what))) held.old world.old
        left x.spent x.round around.new.items held.new world.new) }
    ensures nearer { IfOk result (λ x. IsNearer x.round around.new.items (left - x.spent)
        (4 * left + length around.old.items + 4)) }
    ensures lacks { IfErr result (λ x. Lacks (opened_in context.now) (moves_in context.now W.moves)
        (awaited around.old.items (bordered (said exec (activation_of activation.entry) what))) held.old world.old
        left x.spent x.lack held.new world.new) }
    ensures fuel { IsPayable context.now.bounds held.new.fuel left }
{
    match what {
        Answer::Return(vals) => return_values(
            context,
            held,
            world,
            activation.results,
            vals.as_slice(),
            left,
        ),
        Answer::Fail => Ok(leave_body(context, world, How::Refused(Refusal::HostFault), left)),
        Answer::Call(op) => ask_operation(context, held, world, activation, op, around, left),
    }
}
