//! A part of a call, with what its end leads to.
ghost use Rattle.std.specs.Prelude.{◌≡◌, ◌≤◌, ◌+◌, ◌-◌, IfOk, IfErr};
ghost use Rattle.code_hosts.specs.Conditions.{IsPayable};
ghost use Rattle.code_hosts.specs.Contexts.{HasRules, IsFormedIn, moves_in, opened_in};
ghost use Rattle.code_hosts.specs.Rounds.{Rounds, Lacks, IsLast, ahead, IsNearer};
ghost use Rattle.code_hosts.specs.States.{due_of, IsBody};

use crate::body_part::advance_body;
use crate::code_part::advance_code;
use crate::context::RunContext;
use crate::end_part::settle;
use crate::rounds::{Lacking, Round, Rounded};
use crate::states::{Open, Waiting};
use crate::surroundings::HostSurroundings;
use store_state::Held;

// What is at work goes on, until it ends, or something else is at work, or code was run for a slice of turns.
//
// Before a step of a body the store is to be well formed (`formed`), and the host data are to be those of the call
// whatever was asked (`fits`), which the caller is told by the laws of code.
pub(crate) fn advance_open<'p, W: HostSurroundings>(
    context: &RunContext<'p>,
    held: &mut Held,
    world: &mut W,
    now: Open<'p>,
    around: &mut Vec<Waiting<'p>>,
    left: u64,
    slice: u64,
) -> Result<Rounded<'p>, Lacking>
    requires few { left ≤ 1000000000 }
    requires fuel { IsPayable context.now.bounds held.old.fuel left }
    requires rules { HasRules context.now }
    requires formed { IsBody now → IsFormedIn context.now held.old }
    requires fits { W.fits world.old context.now }
    ensures rounds { IfOk result (λ x. Rounds (opened_in context.now) (moves_in context.now W.moves)
        (due_of now.entry around.old.items) held.old world.old left x.spent x.round around.new.items held.new
        world.new) }
    ensures fuel { IfOk result (λ x. IsPayable context.now.bounds held.new.fuel (left - x.spent)) }
    ensures nearer { IfOk result (λ x. IsNearer x.round around.new.items (left - x.spent)
        (ahead now.entry around.old.items left)) }
    ensures lacks { IfErr result (λ x. Lacks (opened_in context.now) (moves_in context.now W.moves)
        (due_of now.entry around.old.items) held.old world.old left x.spent x.lack held.new world.new) }
{
    match now {
        Open::Code(thread) => advance_code(context, held, world, thread, around, left, slice),
        Open::Body(activation, event) => advance_body(
            context, held, world, activation, event, around, left,
        ),
    }
}

// What is at work goes on, and where it ends that goes outwards, until something is at work again or nothing waits. Code
// that pauses behind a slice of turns is at work again.
pub(crate) fn run_part<'p, W: HostSurroundings>(
    context: &RunContext<'p>,
    held: &mut Held,
    world: &mut W,
    now: Open<'p>,
    around: &mut Vec<Waiting<'p>>,
    left: u64,
    slice: u64,
) -> Result<Rounded<'p>, Lacking>
    requires few { left ≤ 1000000000 }
    requires fuel { IsPayable context.now.bounds held.old.fuel left }
    requires rules { HasRules context.now }
    requires formed { IsBody now → IsFormedIn context.now held.old }
    requires fits { W.fits world.old context.now }
    ensures rounds { IfOk result (λ x. Rounds (opened_in context.now) (moves_in context.now W.moves)
        (due_of now.entry around.old.items) held.old world.old left x.spent x.round around.new.items held.new
        world.new) }
    ensures last { IfOk result (λ x. IsLast x.round around.new.items) }
    ensures fuel { IfOk result (λ x. IsPayable context.now.bounds held.new.fuel (left - x.spent)) }
    ensures nearer { IfOk result (λ x. IsNearer x.round around.new.items (left - x.spent)
        (ahead now.entry around.old.items left)) }
    ensures lacks { IfErr result (λ x. Lacks (opened_in context.now) (moves_in context.now W.moves)
        (due_of now.entry around.old.items) held.old world.old left x.spent x.lack held.new world.new) }
{
    match advance_open(context, held, world, now, around, left, slice) {
        Err(lacking) => Err(lacking),
        Ok(rounded) => {
            let spent = rounded.spent;
            let round = rounded.round;
            match round {
                Round::Goes(now) => Ok(Rounded {
                    round: Round::Goes(now),
                    spent,
                }),
                Round::Limit => Ok(Rounded {
                    round: Round::Limit,
                    spent,
                }),
                Round::Ends(how) => match settle(context, world, around, how, left - spent) {
                    Ok(settled) => Ok(Rounded {
                        round: settled.round,
                        spent: spent + settled.spent,
                    }),
                    Err(lacking) => Err(Lacking {
                        lack: lacking.lack,
                        spent: spent + lacking.spent,
                    }),
                },
            }
        }
    }
}
