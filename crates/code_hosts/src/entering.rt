//! A call begins: the border before it, and the entry of its function.
ghost use Rattle.std.specs.Prelude.{◌≡◌, ◌≤◌, ◌+◌, ◌-◌, IfOk, IfErr};
ghost use Rattle.store_state.specs.Parts.{HeldParts};
ghost use Rattle.code_hosts.specs.Contexts.{moves_in, opened_in};
ghost use Rattle.code_hosts.specs.Courses.{called_in, Goes};
ghost use Rattle.code_hosts.specs.Entering.{calling, entering, returned};
ghost use Rattle.code_hosts.specs.Rounds.{Lacks};

use crate::borders::{Word, tell};
use crate::context::RunContext;
use crate::courses::{Course, Stage, Staged};
use crate::function_entry::enter_function;
use crate::leaving::leave;
use crate::replies::How;
use crate::rounds::{Lack, Lacking, Round};
use crate::surroundings::HostSurroundings;
use wasm_meter::CallHook;
use wasm_objects::RawVal;
use wasm_values::Refusal;

// Enters a function with no function open. Where it ends at once, the border behind it is passed.
fn enter_course<'p, W: HostSurroundings>(
    context: &RunContext<'p>,
    world: &mut W,
    function: usize,
    arguments: &[RawVal],
    caller: Option<usize>,
    left: u64,
) -> Result<Staged<'p>, Lacking>
    requires few { left ≤ 1000000000 }
    requires fits { W.fits world.old context.now }
    ensures fits { W.fits world.new context.now }
    ensures enters { IfOk result (λ x. (held : HeldParts) → Goes (opened_in context.now) (moves_in context.now W.moves)
        (returned (entering function arguments.now caller)) called_in held world.old left x held world.new) }
    ensures lacks { IfErr result (λ x. (held : HeldParts) → Lacks (opened_in context.now) (moves_in context.now W.moves)
        (returned (entering function arguments.now caller)) held world.old left x.spent x.lack held world.new) }
{
    match enter_function(context, world, 0, function, arguments, caller, left) {
        Err(_) => Err(Lacking {
            lack: Lack::Run,
            spent: 0,
        }),
        Ok(entered) => {
            let turns = entered.spent;
            let round = entered.round;
            match round {
                Round::Goes(at_work) => {
                    let around = Vec::new(context.alloc);
                    Ok(Staged {
                        stage: Stage::Stands(Course { at_work, around }),
                        turns,
                    })
                }
                Round::Limit => Ok(Staged {
                    stage: Stage::Ends(How::TurnLimit),
                    turns,
                }),
                Round::Ends(how) => {
                    let behind = leave(context, world, how, left - turns);
                    Ok(Staged {
                        stage: Stage::Ends(behind.how),
                        turns: turns + behind.turns,
                    })
                }
            }
        }
    }
}

/// Begins a call of a function of a store, by its number, on these arguments, with no function open: a hook is told before
/// it, where one is set. `caller` is the number of the instance whose code calls, as the definitions have it.
///
/// So many turns lead from the call to where it stands, with the border behind it, or to its end; that is then behind all
/// borders. What is held stays as it is.
pub fn enter<'p, W: HostSurroundings>(
    context: &RunContext<'p>,
    world: &mut W,
    function: usize,
    arguments: &[RawVal],
    caller: Option<usize>,
) -> Result<Staged<'p>, Lacking>
    requires few { context.now.bounds.turns ≤ 1000000000 }
    requires fits { W.fits world.old context.now }
    ensures fits { W.fits world.new context.now }
    ensures enters { IfOk result (λ x. (held : HeldParts) → Goes (opened_in context.now) (moves_in context.now W.moves)
        (calling function arguments.now caller) called_in held world.old context.now.bounds.turns x held world.new) }
    ensures lacks { IfErr result (λ x. (held : HeldParts) → Lacks (opened_in context.now) (moves_in context.now W.moves)
        (calling function arguments.now caller) held world.old context.now.bounds.turns x.spent x.lack held world.new) }
{
    let turns = context.bounds.turns;
    let told = tell(context, world, turns, CallHook::CallingWasm);
    let spent = told.spent;
    match told.word {
        Word::Fails => Ok(Staged {
            stage: Stage::Ends(How::Refused(Refusal::HookFault)),
            turns: spent,
        }),
        Word::Limit => Ok(Staged {
            stage: Stage::Ends(How::TurnLimit),
            turns: spent,
        }),
        Word::Passes => match enter_course(
            context,
            world,
            function,
            arguments,
            caller,
            turns - spent,
        ) {
            Ok(entered) => Ok(Staged {
                stage: entered.stage,
                turns: spent + entered.turns,
            }),
            Err(lacking) => Err(Lacking {
                lack: lacking.lack,
                spent: spent + lacking.spent,
            }),
        },
    }
}
