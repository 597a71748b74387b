//! A body of the host asked for the call of a function, and waits for it.
ghost use Rattle.std.specs.Prelude.{◌≤◌, ◌+◌, ◌-◌, ◌*◌, ◌^◌, IfOk, IfErr, length, None};
ghost use Rattle.spec_machine.specs.FunctionCalls.{Called};
ghost use Rattle.spec_execution.specs.Bodies.{exec};
ghost use Rattle.spec_execution.specs.Entering.{enter};
ghost use Rattle.spec_execution.specs.Hosts.{go_on};
ghost use Rattle.store_state.specs.Parts.{HeldParts};
ghost use Rattle.wasm_host.specs.Activations.{activation_of};
ghost use Rattle.code_hosts.specs.Contexts.{moves_in, opened_in};
ghost use Rattle.code_hosts.specs.Hosting.{back_to};
ghost use Rattle.code_hosts.specs.Operating.{IsInvoked, invoking};
ghost use Rattle.code_hosts.specs.Parting.{awaited, bordered};
ghost use Rattle.code_hosts.specs.Rounds.{Rounds, Lacks, IsNearer};
ghost use Rattle.code_hosts.specs.States.{waiting_of};

use crate::body_replies::take_reply;
use crate::borders::{Word, tell};
use crate::context::RunContext;
use crate::function_entry::enter_function;
use crate::operations::Invoked;
use crate::rounds::{Lack, Lacking, Round, Rounded, later};
use crate::states::Waiting;
use crate::surroundings::HostSurroundings;
use spec_machine::Reply;
use wasm_host::Activation;
use wasm_meter::CallHook;
use wasm_values::Refusal;

// The function is entered with so many functions open around it, and this waits for it.
fn enter_for_body<'p, W: HostSurroundings>(
    context: &RunContext<'p>,
    world: &mut W,
    waiting: Waiting<'p>,
    depth: usize,
    invoked: Invoked,
    around: &mut Vec<Waiting<'p>>,
    left: u64,
) -> Result<Rounded<'p>, Lacking>
    ensures rounds { IfOk result (λ x. (held : HeldParts) → Rounds (opened_in context.now)
        (moves_in context.now W.moves) (awaited around.old.items (λ w. back_to (waiting_of waiting.entry)
        (enter exec depth invoked.function invoked.arguments.items None w))) held world.old left x.spent x.round
        around.new.items held world.new) }
    ensures nearer { IfOk result (λ x. IsNearer x.round around.new.items (left - x.spent)
        (4 * left + length around.old.items + 4)) }
    ensures lacks { IfErr result (λ x. (held : HeldParts) → Lacks (opened_in context.now)
        (moves_in context.now W.moves) (awaited around.old.items (λ w. back_to (waiting_of waiting.entry)
        (enter exec depth invoked.function invoked.arguments.items None w))) held world.old left x.spent x.lack held
        world.new) }
{
    let Ok(entered) = enter_function(
        context,
        world,
        depth,
        invoked.function,
        invoked.arguments.as_slice(),
        None,
        left,
    ) else {
        return Err(Lacking {
            lack: Lack::Run,
            spent: 0,
        });
    };
    match around.push(waiting) {
        Ok(()) => Ok(entered),
        Err(_) => Err(Lacking {
            lack: Lack::Run,
            spent: entered.spent,
        }),
    }
}

// A body asked for the call of this function, and it is one more function around that.
pub(crate) fn call_for_body<'p, W: HostSurroundings>(
    context: &RunContext<'p>,
    world: &mut W,
    activation: Activation<'p>,
    invoked: Invoked,
    around: &mut Vec<Waiting<'p>>,
    left: u64,
) -> Result<Rounded<'p>, Lacking>
    requires deep { activation.depth + 1 ≤ 2 ^ 64 - 1 }
    requires there { (called : Called) × IsInvoked context.now.program.now called invoked }
    ensures rounds { IfOk result (λ x. (called : Called) → IsInvoked context.now.program.now called invoked →
        (held : HeldParts) → Rounds (opened_in context.now) (moves_in context.now W.moves)
        (awaited around.old.items (bordered (invoking called (activation.entry.depth + 1) (go_on exec (activation_of activation.entry)))))
        held world.old left x.spent x.round around.new.items held world.new) }
    ensures nearer { IfOk result (λ x. IsNearer x.round around.new.items (left - x.spent)
        (4 * left + length around.old.items + 4)) }
    ensures lacks { IfErr result (λ x. (called : Called) → IsInvoked context.now.program.now called invoked →
        (held : HeldParts) → Lacks (opened_in context.now) (moves_in context.now W.moves)
        (awaited around.old.items (bordered (invoking called (activation.entry.depth + 1) (go_on exec (activation_of activation.entry)))))
        held world.old left x.spent x.lack held world.new) }
{
    let Some(ty) = context.program.function_type(invoked.function) else {
        unreachable!();
    };
    let told = tell(context, world, left, CallHook::CallingWasm);
    let spent = told.spent;
    match told.word {
        Word::Passes => {
            let depth = activation.depth + 1;
            let waiting = Waiting::Asks(activation, ty.results());
            let entered = enter_for_body(
                context,
                world,
                waiting,
                depth,
                invoked,
                around,
                left - spent,
            );
            later(spent, entered)
        }
        Word::Fails => later(
            spent,
            take_reply(activation, Reply::Refused(Refusal::HookFault)),
        ),
        Word::Limit => Ok(Rounded {
            round: Round::Limit,
            spent,
        }),
    }
}
