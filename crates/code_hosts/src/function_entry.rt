//! A function is entered, of either kind, by a caller that is no code of the run.
ghost use Rattle.std.specs.Prelude.{◌≡◌, IfOk, OnErr, []};
ghost use Rattle.spec_execution.specs.Bodies.{exec};
ghost use Rattle.spec_execution.specs.Entering.{enter};
ghost use Rattle.spec_execution.specs.Outcomes.{Over};
ghost use Rattle.store_state.specs.Parts.{HeldParts};
ghost use Rattle.code_stack.specs.Steps.{end_of};
ghost use Rattle.code_hosts.specs.Behind.{ended};
ghost use Rattle.code_hosts.specs.Contexts.{moves_in, opened_in};
ghost use Rattle.code_hosts.specs.Entrances.{Waits};
ghost use Rattle.code_hosts.specs.Parting.{RunsCode};
ghost use Rattle.code_hosts.specs.Rounds.{Rounds, IsEnd};

use crate::body_entry::{Entrance, enter_body};
use crate::context::RunContext;
use crate::replies::How;
use crate::rounds::{Round, Rounded};
use crate::states::Open;
use crate::surroundings::HostSurroundings;
use code_run::{Fault, Started, Thread, start};
use std::alloc::Global;
use wasm_host::Event;
use wasm_objects::RawVal;
use wasm_types::OutOfMemory;

// An early end as the caller sees it.
pub(crate) fn how_of(fault: Fault) -> How
    ensures ended { ended result ≡ Over (end_of fault) }
    ensures end { IsEnd result }
{
    match fault {
        Fault::Trapped(trap) => How::Trapped(trap),
        Fault::Refused(refusal) => How::Refused(refusal),
        Fault::Stuck => How::Stuck,
    }
}

// Code is at work.
fn open_code<'p>(alloc: Global, thread: Thread<'p>) -> Result<Rounded<'p>, OutOfMemory>
    ensures { IfOk result (λ x. RunsCode thread.entry x) }
{
    match Box::new(alloc, thread) {
        Ok(thread) => Ok(Rounded {
            round: Round::Goes(Open::Code(thread)),
            spent: 0,
        }),
        Err(_) => Err(OutOfMemory),
    }
}

// Enters a function, by its number, with so many functions open around it. What it comes to stands alone: nothing waits
// for it.
pub(crate) fn enter_function<'p, W: HostSurroundings>(
    context: &RunContext<'p>,
    world: &mut W,
    depth: usize,
    function: usize,
    arguments: &[RawVal],
    caller: Option<usize>,
    left: u64,
) -> Result<Rounded<'p>, OutOfMemory>
    ensures enters { IfOk result (λ x. (held : HeldParts) → Rounds (opened_in context.now)
        (moves_in context.now W.moves) (λ w. enter exec depth function arguments.now caller w) held world.old left
        x.spent x.round [] held world.new) }
    ensures waits { OnErr result ((held : HeldParts) → Waits (opened_in context.now) (moves_in context.now W.moves)
        (λ w. enter exec depth function arguments.now caller w) held world.old world.new) }
{
    match start(
        context.alloc,
        context.program,
        context.bounds.rules.frames,
        depth,
        function,
        arguments,
    )? {
        Started::Runs(thread) => open_code(context.alloc, thread),
        Started::Fails(fault) => Ok(Rounded {
            round: Round::Ends(how_of(fault)),
            spent: 0,
        }),
        Started::Calls(call) => {
            let entered = enter_body(context, world, call, depth, arguments, caller, left)?;
            let spent = entered.spent;
            let what = entered.what;
            match what {
                Entrance::Opens(activation) => Ok(Rounded {
                    round: Round::Goes(Open::Body(activation, Event::Start)),
                    spent,
                }),
                Entrance::Fails(fault) => Ok(Rounded {
                    round: Round::Ends(how_of(fault)),
                    spent,
                }),
                Entrance::Limit => Ok(Rounded {
                    round: Round::Limit,
                    spent,
                }),
            }
        }
    }
}
