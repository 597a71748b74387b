//! A step of a body of the host is answered from outside.
ghost use Rattle.std.specs.Prelude.{◌≡◌, ◌≤◌, ◌<◌, ◌+◌, ◌-◌, ◌^◌, ◌⊎◌, IfOk, IfErr};
ghost use Rattle.law_code.specs.Answers.{IsTypedSaying};
ghost use Rattle.spec_execution.specs.Bodies.{exec};
ghost use Rattle.spec_execution.specs.Hosts.{said};
ghost use Rattle.wasm_host.specs.Activations.{activation_of};
ghost use Rattle.code_hosts.specs.Conditions.{IsPayable};
ghost use Rattle.code_hosts.specs.Contexts.{HasRules, IsFormedIn, moves_in, opened_in};
ghost use Rattle.code_hosts.specs.Courses.{due_in, Goes, GoesBehind, LacksBehind, WithStep, stage_of};
ghost use Rattle.code_hosts.specs.Parting.{awaited, bordered};
ghost use Rattle.code_hosts.specs.Rounds.{IsLast, Lacks, Rounds};
ghost use Rattle.code_hosts.specs.States.{IsBody};

use crate::answer_part::heed;
use crate::context::RunContext;
use crate::courses::{Course, Stage, Staged};
use crate::end_part::settle;
use crate::replies::How;
use crate::rounds::{Lack, Lacking, Round, Rounded};
use crate::states::{Open, Waiting};
use crate::steps::says_types;
use crate::surroundings::HostSurroundings;
use store_state::Held;
use wasm_host::{Activation, Answer};

// A step said this, and where its function ends that goes outwards.
fn heed_part<'p, W: HostSurroundings>(
    context: &RunContext<'p>,
    held: &mut Held,
    world: &mut W,
    activation: Activation<'p>,
    what: Answer,
    around: &mut Vec<Waiting<'p>>,
    left: u64,
) -> Result<Rounded<'p>, Lacking>
    requires few { left ≤ 1000000000 }
    requires fuel { IsPayable context.now.bounds held.old.fuel left }
    requires rules { HasRules context.now }
    requires deep { activation.depth + 1 ≤ 2 ^ 64 - 1 }
    requires fits { W.fits world.old context.now }
    requires formed { IsFormedIn context.now held.old }
    ensures rounds { IfOk result (λ x. Rounds (opened_in context.now) (moves_in context.now W.moves)
        (awaited around.old.items (bordered (said exec (activation_of activation.entry) what))) held.old world.old
        left x.spent x.round around.new.items held.new world.new) }
    ensures last { IfOk result (λ x. IsLast x.round around.new.items) }
    ensures fuel { IsPayable context.now.bounds held.new.fuel left }
    ensures lacks { IfErr result (λ x. Lacks (opened_in context.now) (moves_in context.now W.moves)
        (awaited around.old.items (bordered (said exec (activation_of activation.entry) what))) held.old world.old
        left x.spent x.lack held.new world.new) }
{
    match heed(context, held, world, activation, what, around, left) {
        Err(lacking) => Err(lacking),
        Ok(rounded) => {
            let spent = rounded.spent;
            let round = rounded.round;
            match round {
                Round::Goes(now) => Ok(Rounded {
                    round: Round::Goes(now),
                    spent,
                }),
                Round::Limit => Ok(Rounded {
                    round: Round::Limit,
                    spent,
                }),
                Round::Ends(how) => match settle(context, world, around, how, left - spent) {
                    Ok(settled) => Ok(Rounded {
                        round: settled.round,
                        spent: spent + settled.spent,
                    }),
                    Err(lacking) => Err(Lacking {
                        lack: lacking.lack,
                        spent: spent + lacking.spent,
                    }),
                },
            }
        }
    }
}

// A body behind a step that left its host data so.
fn with_state<'p>(activation: Activation<'p>, state: u64) -> Activation<'p>
    ensures stepped { activation_of result ≡ record (activation_of activation.entry) { state = state } }
    ensures depth { result.depth ≡ activation.entry.depth }
{
    let mut activation = activation;
    activation.state = state;
    activation
}

// Where a call stands behind a part of it, or how it ended.
fn stage_of<'p>(round: Round<'p>, around: Vec<Waiting<'p>>) -> Stage<'p>
    ensures { result ≡ stage_of round.entry around.entry }
{
    match round {
        Round::Goes(at_work) => Stage::Stands(Course { at_work, around }),
        Round::Ends(how) => Stage::Ends(how),
        Round::Limit => Stage::Ends(How::TurnLimit),
    }
}

/// The step that is due of a body at work answered so, and its host data are so from then on. That takes a turn, and those
/// of an operation and of the hook at a border; no code is run.
///
/// So many turns, with this answer first in what was heard, lead from what is due of the call to what is due of it where
/// it stands, or to its end (`says`). Where no turn is left that is the end (`late`), and the answer is not heard. The
/// types in it are types (`typed`), so it is an answer as steps give them.
pub fn say<'p, W: HostSurroundings>(
    context: &RunContext<'p>,
    held: &mut Held,
    world: &mut W,
    course: Course<'p>,
    state: u64,
    answer: Answer,
    left: u64,
) -> Result<Staged<'p>, Lacking>
    requires few { left ≤ 1000000000 }
    requires fuel { IsPayable context.now.bounds held.old.fuel left }
    requires rules { HasRules context.now }
    requires formed { IsFormedIn context.now held.old }
    requires fits { W.fits world.old context.now }
    requires asks { IsBody course.at_work }
    ensures says { 0 < left → IfOk result (λ x. WithStep context.now held.old state answer course.entry.at_work (λ first.
        GoesBehind (opened_in context.now) (moves_in context.now W.moves) (due_in course.entry) first due_in held.old
        world.old left x held.new world.new)) }
    ensures late { left ≡ 0 → IfOk result (λ x. Goes (opened_in context.now) (moves_in context.now W.moves)
        (due_in course.entry) due_in held.old world.old left x held.new world.new) }
    ensures fuel { IfOk result (λ x. IsPayable context.now.bounds held.new.fuel (left - x.turns)) }
    ensures typed { IsTypedSaying answer }
    ensures fits { W.fits world.new context.now }
    ensures lacks { IfErr result (λ x. Lacks (opened_in context.now) (moves_in context.now W.moves)
        (due_in course.entry) held.old world.old left x.spent x.lack held.new world.new
        ⊎ WithStep context.now held.old state answer course.entry.at_work (λ first. LacksBehind (opened_in context.now)
        (moves_in context.now W.moves) (due_in course.entry) first held.old world.old left x.spent x.lack held.new
        world.new)) }
{
    let mut around = course.around;
    let at_work = course.at_work;
    let Open::Body(activation, _) = at_work else {
        unreachable!()
    };
    says_types(&answer);
    if left == 0 {
        return Ok(Staged {
            stage: Stage::Ends(How::TurnLimit),
            turns: 0,
        });
    }
    // Never, as where a body is stepped.
    if activation.depth == usize::MAX {
        return Err(Lacking {
            lack: Lack::Run,
            spent: 0,
        });
    }
    let stepped = with_state(activation, state);
    match heed_part(context, held, world, stepped, answer, &mut around, left - 1) {
        Err(lacking) => Err(Lacking {
            lack: lacking.lack,
            spent: 1 + lacking.spent,
        }),
        Ok(rounded) => {
            let turns = 1 + rounded.spent;
            let stage = stage_of(rounded.round, around);
            Ok(Staged { stage, turns })
        }
    }
}
