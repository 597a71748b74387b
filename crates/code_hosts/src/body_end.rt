//! A body of the host ends: it returns values, or fails.
ghost use Rattle.std.specs.Prelude.{◌≡◌, ◌+◌, ◌-◌, ◌*◌, IfOk, IfErr, List, length, true};
ghost use Rattle.spec_execution.specs.Hosts.{returned};
ghost use Rattle.store_state.specs.Parts.{HeldParts};
ghost use Rattle.code_hosts.specs.Contexts.{IsFormedIn, KeepsStores, moves_in, opened_in};
ghost use Rattle.code_hosts.specs.Replies.{is_told};
ghost use Rattle.code_hosts.specs.Behind.{ended};
ghost use Rattle.code_hosts.specs.Parting.{awaited, bordered};
ghost use Rattle.code_hosts.specs.Rounds.{Rounds, Lacks, IsNearer};
ghost use Rattle.code_hosts.specs.declared.states.Waiting.{Waiting};

use crate::borders::tell_behind;
use crate::context::RunContext;
use crate::replies::How;
use crate::rounds::{Lack, Lacking, Round, Rounded};
use crate::surroundings::HostSurroundings;
use store_state::Held;
use wasm_meter::CallHook;
use wasm_types::ValType;
use wasm_values::Val;

// A body ended in a way that a hook is told of.
pub(crate) fn leave_body<'p, W: HostSurroundings>(
    context: &RunContext<'_>,
    world: &mut W,
    how: How,
    left: u64,
) -> Rounded<'p>
    requires told { is_told how ≡ true }
    ensures leaves { (held : HeldParts) (around : List Waiting) → Rounds (opened_in context.now)
        (moves_in context.now W.moves) (awaited around (bordered (ended how))) held world.old left result.spent
        result.round around held world.new }
    ensures nearer { (around : List Waiting) → IsNearer result.round around (left - result.spent)
        (4 * left + length around + 2) }
{
    let told = tell_behind(context, world, left, CallHook::ReturningFromHost, how);
    let spent = told.turns;
    match told.how {
        How::TurnLimit => Rounded {
            round: Round::Limit,
            spent,
        },
        end => Rounded {
            round: Round::Ends(end),
            spent,
        },
    }
}

// A body returned these values.
pub(crate) fn return_values<'p, W: HostSurroundings>(
    context: &RunContext<'_>,
    held: &mut Held,
    world: &mut W,
    types: &[ValType],
    vals: &[Val],
    left: u64,
) -> Result<Rounded<'p>, Lacking>
    requires fits { W.fits world.old context.now }
    requires formed { IsFormedIn context.now held.old }
    ensures rounds { IfOk result (λ x. (around : List Waiting) → Rounds (opened_in context.now)
        (moves_in context.now W.moves) (awaited around (bordered (λ w. returned w types.now vals.now))) held.old
        world.old left x.spent x.round around held.new world.new) }
    ensures lacks { IfErr result (λ x. (around : List Waiting) → Lacks (opened_in context.now)
        (moves_in context.now W.moves) (awaited around (bordered (λ w. returned w types.now vals.now))) held.old
        world.old left x.spent x.lack held.new world.new) }
    ensures nearer { IfOk result (λ x. (around : List Waiting) → IsNearer x.round around (left - x.spent)
        (4 * left + length around + 2)) }
    ensures stays { KeepsStores (opened_in context.now) held.old held.new }
{
    let Ok(how) = world.returned(context, held, types, vals) else {
        return Err(Lacking {
            lack: Lack::Run,
            spent: 0,
        });
    };
    Ok(leave_body(context, world, how, left))
}
