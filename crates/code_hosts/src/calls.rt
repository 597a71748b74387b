//! A call from outside of all code.
ghost use Rattle.std.specs.Prelude.{◌≡◌, ◌≤◌, ◌+◌, IfOk, IfErr};
ghost use Rattle.code_hosts.specs.Conditions.{IsPayable, StaysFormed};
ghost use Rattle.code_hosts.specs.Contexts.{HasRules, IsFormedIn, moves_in, opened_in};
ghost use Rattle.code_hosts.specs.Courses.{called_in};
ghost use Rattle.code_hosts.specs.Entering.{calling};
ghost use Rattle.code_hosts.specs.Replies.{BreaksOff, Comes};
ghost use Rattle.code_hosts.specs.Rounds.{Lacks};

use crate::context::RunContext;
use crate::courses::{Course, Stage};
use crate::entering::enter;
use crate::going::go;
use crate::leaving::leave;
use crate::replies::{Reply, Unfinished};
use crate::rounds::Lacking;
use crate::surroundings::HostSurroundings;
use store_state::Held;
use wasm_objects::RawVal;

// Goes on to the end of the function, and passes the border behind it. No slice ends before.
fn run_to_border<'p, W: HostSurroundings>(
    context: &RunContext<'p>,
    held: &mut Held,
    world: &mut W,
    course: Course<'p>,
    left: u64,
) -> Result<Reply, Lacking>
    requires few { left ≤ 1000000000 }
    requires fuel { IsPayable context.now.bounds held.old.fuel left }
    requires rules { HasRules context.now }
    requires kept { StaysFormed (moves_in context.now W.moves) world.old (opened_in context.now) (called_in course)
        held.old left (IsFormedIn context.now) }
    requires fits { W.fits world.old context.now }
    ensures fits { W.fits world.new context.now }
    ensures reply { IfOk result (λ r. Comes (opened_in context.now) (moves_in context.now W.moves)
        (called_in course.entry) held.old world.old left r held.new world.new) }
    ensures lacks { IfErr result (λ x. Lacks (opened_in context.now) (moves_in context.now W.moves)
        (called_in course.entry) held.old world.old left x.spent x.lack held.new world.new) }
{
    match go(context, held, world, course, left, u64::MAX, false) {
        Err(lacking) => Err(lacking),
        Ok(staged) => {
            let turns = staged.turns;
            let stage = staged.stage;
            match stage {
                Stage::Stands(_) => unreachable!(),
                Stage::Ends(how) => {
                    let behind = leave(context, world, how, left - turns);
                    Ok(Reply {
                        how: behind.how,
                        turns: turns + behind.turns,
                    })
                }
            }
        }
    }
}

/// Calls a function of a store, by its number, on these arguments, with no function open: a hook is told before it and
/// behind it, where one is set; code is run, and bodies of the host are stepped, to its end. `caller` is the number of the
/// instance whose code calls, as the definitions have it: of a start function alone.
///
/// What it replies, and what is then held, is what the definitions say of it, in each store of these objects and these
/// bounds: for some questions to the surroundings and their answers, none left out and none made up. `Unfinished` comes
/// for want of memory alone, in the run or in a step of the host.
///
/// Wherever the call may stop the store is to be well formed (`kept`), as the laws of code tell of valid code; what is
/// outside is to be that of the call (`fits`), and stays so.
pub fn run_from_outside<W: HostSurroundings>(
    context: &RunContext<'_>,
    held: &mut Held,
    world: &mut W,
    function: usize,
    arguments: &[RawVal],
    caller: Option<usize>,
) -> Result<Reply, Unfinished>
    requires few { context.now.bounds.turns ≤ 1000000000 }
    requires fuel { IsPayable context.now.bounds held.old.fuel context.now.bounds.turns }
    requires rules { HasRules context.now }
    requires kept { StaysFormed (moves_in context.now W.moves) world.old (opened_in context.now)
        (calling function arguments.now caller) held.old context.now.bounds.turns (IsFormedIn context.now) }
    requires fits { W.fits world.old context.now }
    ensures fits { W.fits world.new context.now }
    ensures reply { IfOk result (λ r. Comes (opened_in context.now) (moves_in context.now W.moves)
        (calling function arguments.now caller) held.old world.old context.now.bounds.turns r held.new world.new) }
    ensures memory { IfErr result (λ u. BreaksOff (opened_in context.now) (moves_in context.now W.moves)
        (calling function arguments.now caller) held.old world.old context.now.bounds.turns u held.new world.new) }
{
    match enter(context, world, function, arguments, caller) {
        Err(lacking) => Err(Unfinished {
            turns: lacking.spent,
        }),
        Ok(entered) => {
            let spent = entered.turns;
            let stage = entered.stage;
            match stage {
                Stage::Ends(how) => Ok(Reply { how, turns: spent }),
                Stage::Stands(course) => {
                    let left = context.bounds.turns - spent;
                    match run_to_border(context, held, world, course, left) {
                        Ok(reply) => Ok(Reply {
                            how: reply.how,
                            turns: spent + reply.turns,
                        }),
                        Err(lacking) => Err(Unfinished {
                            turns: spent + lacking.spent,
                        }),
                    }
                }
            }
        }
    }
}
