ghost use Rattle.std.specs.Prelude.{◌≡◌, ◌≤◌, true, false};
ghost use Rattle.store_state.specs.Parts.{HeldParts};
ghost use Rattle.wasm_meter.specs.declared.call_hook.CallHook.TheVariants.{ReturningFromWasm};
ghost use Rattle.code_hosts.specs.Behind.{Passes};
ghost use Rattle.code_hosts.specs.Contexts.{moves_in, opened_in};
ghost use Rattle.code_hosts.specs.Replies.{is_told};

use crate::borders::{is_told, tell_behind};
use crate::context::RunContext;
use crate::replies::{How, Reply};
use crate::surroundings::HostSurroundings;
use wasm_meter::CallHook;

/// Passes the border behind the function of a call, which ended so: the hook is told of it, where one is set, but not of
/// an end that is none of the function's own.
pub fn leave<W: HostSurroundings>(
    context: &RunContext<'_>,
    world: &mut W,
    how: How,
    left: u64,
) -> Reply
    requires fits { W.fits world.old context.now }
    ensures fits { W.fits world.new context.now }
    ensures within { result.turns ≤ left }
    ensures told { is_told how ≡ true → (held : HeldParts) → Passes (opened_in context.now)
        (moves_in context.now W.moves) ReturningFromWasm how held world.old left result world.new }
    ensures untold { is_told how ≡ false →
        (result.how ≡ how) × (result.turns ≡ 0) × (world.new ≡ world.old) }
{
    if is_told(&how) {
        tell_behind(context, world, left, CallHook::ReturningFromWasm, how)
    } else {
        Reply { how, turns: 0 }
    }
}
