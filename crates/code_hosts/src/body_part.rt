//! A body of the host is stepped.
ghost use Rattle.std.specs.Prelude.{◌≡◌, ◌≤◌, ◌<◌, ◌+◌, ◌-◌, ◌*◌, ◌^◌, IfOk, IfErr, length};
ghost use Rattle.code_hosts.specs.Conditions.{IsPayable};
ghost use Rattle.code_hosts.specs.Contexts.{HasRules, IsFormedIn, moves_in, opened_in};
ghost use Rattle.code_hosts.specs.Rounds.{Rounds, Lacks, IsNearer};
ghost use Rattle.code_hosts.specs.States.{due_of};
ghost use Rattle.code_hosts.specs.declared.states.Open.TheVariants.{Body};

use crate::answer_part::heed;
use crate::context::RunContext;
use crate::rounds::{Lack, Lacking, Round, Rounded, later};
use crate::states::Waiting;
use crate::steps::step;
use crate::surroundings::HostSurroundings;
use store_state::Held;
use wasm_host::{Activation, Event};

// A body of the host is stepped, for which a turn is left.
fn step_body<'p, W: HostSurroundings>(
    context: &RunContext<'p>,
    held: &mut Held,
    world: &mut W,
    activation: Activation<'p>,
    event: Event,
    around: &mut Vec<Waiting<'p>>,
    left: u64,
) -> Result<Rounded<'p>, Lacking>
    requires some { 0 < left }
    requires deep { activation.depth + 1 ≤ 2 ^ 64 - 1 }
    requires few { left ≤ 1000000000 }
    requires fuel { IsPayable context.now.bounds held.old.fuel left }
    requires rules { HasRules context.now }
    requires formed { IsFormedIn context.now held.old }
    requires fits { W.fits world.old context.now }
    ensures rounds { IfOk result (λ x. Rounds (opened_in context.now) (moves_in context.now W.moves)
        (due_of (Body activation.entry event) around.old.items) held.old world.old left x.spent x.round
        around.new.items held.new world.new) }
    ensures nearer { IfOk result (λ x. IsNearer x.round around.new.items (left - x.spent)
        (4 * left + length around.old.items)) }
    ensures lacks { IfErr result (λ x. Lacks (opened_in context.now) (moves_in context.now W.moves)
        (due_of (Body activation.entry event) around.old.items) held.old world.old left x.spent x.lack held.new
        world.new) }
    ensures fuel { IfOk result (λ x. IsPayable context.now.bounds held.new.fuel (left - x.spent)) }
{
    let mut activation = activation;
    let Ok(what) = step(context, held, world, &mut activation, event) else {
        return Err(Lacking {
            lack: Lack::Step,
            spent: 0,
        });
    };
    let heeded = heed(context, held, world, activation, what, around, left - 1);
    later(1, heeded)
}

// A body of the host is stepped, where a turn is left.
pub(crate) fn advance_body<'p, W: HostSurroundings>(
    context: &RunContext<'p>,
    held: &mut Held,
    world: &mut W,
    activation: Activation<'p>,
    event: Event,
    around: &mut Vec<Waiting<'p>>,
    left: u64,
) -> Result<Rounded<'p>, Lacking>
    requires few { left ≤ 1000000000 }
    requires fuel { IsPayable context.now.bounds held.old.fuel left }
    requires rules { HasRules context.now }
    requires formed { IsFormedIn context.now held.old }
    requires fits { W.fits world.old context.now }
    ensures rounds { IfOk result (λ x. Rounds (opened_in context.now) (moves_in context.now W.moves)
        (due_of (Body activation.entry event) around.old.items) held.old world.old left x.spent x.round
        around.new.items held.new world.new) }
    ensures nearer { IfOk result (λ x. IsNearer x.round around.new.items (left - x.spent)
        (4 * left + length around.old.items)) }
    ensures lacks { IfErr result (λ x. Lacks (opened_in context.now) (moves_in context.now W.moves)
        (due_of (Body activation.entry event) around.old.items) held.old world.old left x.spent x.lack held.new
        world.new) }
    ensures fuel { IfOk result (λ x. IsPayable context.now.bounds held.new.fuel (left - x.spent)) }
{
    if left == 0 {
        return Ok(Rounded {
            round: Round::Limit,
            spent: 0,
        });
    }
    // Never: fewer functions are open than the engine has frames, and that is a number of 32 bits.
    if activation.depth == usize::MAX {
        return Err(Lacking {
            lack: Lack::Run,
            spent: 0,
        });
    }
    step_body(context, held, world, activation, event, around, left)
}
