ghost use Rattle.std.specs.Prelude.{◌≤◌, ◌≡◌, true};
ghost use Rattle.store_state.specs.Parts.{HeldParts};
ghost use Rattle.code_hosts.specs.Contexts.{moves_in, opened_in};
ghost use Rattle.code_hosts.specs.Telling.{Tells};
ghost use Rattle.code_hosts.specs.Replies.{is_told};
ghost use Rattle.code_hosts.specs.Behind.{Passes};

use crate::context::RunContext;
use crate::replies::{How, Reply};
use crate::surroundings::HostSurroundings;
use wasm_meter::CallHook;
use wasm_values::Refusal;

// What telling of a border comes to.
#[derive(Clone, Copy)]
pub(crate) enum Word {
    // The hook lets the call pass, or none is set.
    Passes,
    Fails,
    // A hook was to be told, and no turn was left for it.
    Limit,
}

// What telling of a border came to, and how many turns it took.
#[derive(Clone, Copy)]
pub(crate) struct Told {
    pub(crate) word: Word,
    pub(crate) spent: u64,
}

// Tells the hook of a border, where one is set, with its turn.
pub(crate) fn tell<W: HostSurroundings>(
    context: &RunContext<'_>,
    world: &mut W,
    left: u64,
    event: CallHook,
) -> Told
    ensures tells { (held : HeldParts) → Tells (opened_in context.now) (moves_in context.now W.moves) event held
        world.old left result world.new }
    ensures within { result.spent ≤ left }
{
    if !context.bounds.hooked {
        return Told {
            word: Word::Passes,
            spent: 0,
        };
    }
    if left == 0 {
        return Told {
            word: Word::Limit,
            spent: 0,
        };
    }
    match world.ask_hook(event) {
        Err(_) => Told {
            word: Word::Fails,
            spent: 1,
        },
        Ok(_) => Told {
            word: Word::Passes,
            spent: 1,
        },
    }
}

// Whether the hook is told of the border behind a function that ended so.
pub(crate) fn is_told(how: &How) -> bool
    ensures { result ≡ is_told how.now }
{
    match how {
        How::Returned(_) | How::Trapped(_) | How::Refused(_) => true,
        How::Stuck | How::TurnLimit => false,
    }
}

// Tells the hook of the border behind a function, which ended in a way that it is told of.
pub(crate) fn tell_behind<W: HostSurroundings>(
    context: &RunContext<'_>,
    world: &mut W,
    left: u64,
    event: CallHook,
    how: How,
) -> Reply
    requires told { is_told how ≡ true }
    ensures { (held : HeldParts) → Passes (opened_in context.now) (moves_in context.now W.moves) event how held
        world.old left result world.new }
{
    let told = tell(context, world, left, event);
    let turns = told.spent;
    match told.word {
        Word::Passes => Reply { how, turns },
        Word::Fails => Reply {
            how: How::Refused(Refusal::HookFault),
            turns,
        },
        Word::Limit => Reply {
            how: How::TurnLimit,
            turns,
        },
    }
}
