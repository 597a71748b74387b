//! The end of a function goes outwards: to the code that called it, or to the body that asked for its call.
ghost use Rattle.std.specs.Prelude.{◌≡◌, ◌+◌, ◌*◌, ◌-◌, [], IfOk, IfErr, length};
ghost use Rattle.spec_execution.specs.Activations.{replied};
ghost use Rattle.spec_execution.specs.declared.answer.Event.TheVariants.{Replied};
ghost use Rattle.store_state.specs.Parts.{HeldParts};
ghost use Rattle.wasm_values.specs.declared.store_id.StoreId.{StoreId as Id};
ghost use Rattle.wasm_host.specs.Activations.{activation_of};
ghost use Rattle.code_hosts.specs.Behind.{ended};
ghost use Rattle.code_hosts.specs.Contexts.{moves_in, opened_in};
ghost use Rattle.code_hosts.specs.Hosting.{Calls, Asks, back_to};
ghost use Rattle.code_hosts.specs.Rounds.{ends_in, IsEnd, IsLast, Rounds, Lacks, IsNearer};
ghost use Rattle.code_hosts.specs.States.{waiting_of};
ghost use Rattle.code_hosts.specs.Settling.{GoesOn, IsStep, telling};
ghost use Rattle.code_hosts.specs.declared.rounds.Lack.TheVariants as lack;

use crate::borders::tell_behind;
use crate::context::RunContext;
use crate::replies::How;
use crate::rounds::{Lack, Lacking, Round, Rounded};
use crate::states::{Open, Waiting};
use crate::surroundings::HostSurroundings;
use code_run::{HostCall, Thread};
use spec_machine::{Reply, ValList};
use wasm_host::{Activation, Event, values_at};
use wasm_meter::CallHook;
use wasm_types::{OutOfMemory, ValType};
use wasm_values::Refusal;

// There was no memory after so many turns.
fn lacking(spent: u64) -> Lacking
    ensures lack { result.lack ≡ lack.Run }
    ensures spent { result.spent ≡ spent }
{
    Lacking {
        lack: Lack::Run,
        spent,
    }
}

// A part that took no turn.
fn at_once<'p>(round: Round<'p>) -> Rounded<'p>
    ensures round { result.round ≡ round.entry }
    ensures spent { result.spent ≡ 0 }
{
    Rounded { round, spent: 0 }
}

// Code goes on behind a function of the host that it called, and that ended so.
fn back_to_code<'p>(
    mut thread: Box<Thread<'p>>,
    call: HostCall<'p>,
    how: How,
) -> Result<Round<'p>, OutOfMemory>
    requires end { IsEnd how }
    ensures { IfOk result (λ r. (id : Id) → GoesOn id (back_to (Calls thread.entry.value call.entry)) how r) }
{
    match how {
        How::Returned(results) => {
            thread.resume(call, results.as_slice())?;
            Ok(Round::Goes(Open::Code(thread)))
        }
        // The thread is dropped: an early end goes past it.
        how => Ok(Round::Ends(how)),
    }
}

// A body goes on with the reply to its operation.
fn reply_with<'p>(mut activation: Activation<'p>, reply: Reply) -> Result<Round<'p>, OutOfMemory>
    ensures { IfOk result (λ r. IsStep (replied (activation_of activation.entry) reply) Replied r) }
{
    activation.reply(reply)?;
    Ok(Round::Goes(Open::Body(activation, Event::Replied)))
}

// A body is told how the function ended whose call it asked for: of a trap or a refusal, too.
fn tell_body<'p>(
    context: &RunContext<'_>,
    activation: Activation<'p>,
    types: &[ValType],
    how: How,
) -> Result<Round<'p>, OutOfMemory>
    requires end { IsEnd how }
    ensures { IfOk result (GoesOn context.now.id (telling (activation_of activation.entry) types.now) how) }
{
    match how {
        How::Returned(raws) => {
            let vals = values_at(context.alloc, context.id, types, raws.as_slice())?;
            reply_with(activation, Reply::Values(ValList(vals)))
        }
        How::Trapped(trap) => reply_with(activation, Reply::Refused(Refusal::Trap(trap))),
        How::Refused(why) => reply_with(activation, Reply::Refused(why)),
        how => Ok(Round::Ends(how)),
    }
}

// A body goes on behind the call that it asked for, and that ended so: behind the border of that call.
fn back_to_body<'p, W: HostSurroundings>(
    context: &RunContext<'p>,
    world: &mut W,
    activation: Activation<'p>,
    types: &'p [ValType],
    how: How,
    left: u64,
) -> Result<Rounded<'p>, Lacking>
    requires end { IsEnd how }
    ensures goes_on { IfOk result (λ x. (held : HeldParts) → Rounds (opened_in context.now)
        (moves_in context.now W.moves) (λ w. back_to (Asks (activation_of activation.entry) types.now)
        (ended how w)) held world.old left x.spent x.round [] held world.new) }
    ensures lacks { IfErr result (λ x. (held : HeldParts) → Lacks (opened_in context.now)
        (moves_in context.now W.moves) (λ w. back_to (Asks (activation_of activation.entry) types.now)
        (ended how w)) held world.old left x.spent x.lack held world.new) }
{
    if let How::Stuck = how {
        return Ok(at_once(Round::Ends(how)));
    }
    let told = tell_behind(context, world, left, CallHook::ReturningFromWasm, how);
    let spent = told.turns;
    match told.how {
        How::TurnLimit => Ok(Rounded {
            round: Round::Limit,
            spent,
        }),
        how => match tell_body(context, activation, types, how) {
            Ok(round) => Ok(Rounded { round, spent }),
            Err(_) => Err(lacking(spent)),
        },
    }
}

// What waits goes on behind the function that it waits for, and that ended so.
fn go_back<'p, W: HostSurroundings>(
    context: &RunContext<'p>,
    world: &mut W,
    frame: Waiting<'p>,
    how: How,
    left: u64,
) -> Result<Rounded<'p>, Lacking>
    requires end { IsEnd how }
    ensures goes_on { IfOk result (λ x. (held : HeldParts) → Rounds (opened_in context.now)
        (moves_in context.now W.moves) (λ w. back_to (waiting_of frame.entry) (ended how w)) held world.old left
        x.spent x.round [] held world.new) }
    ensures lacks { IfErr result (λ x. (held : HeldParts) → Lacks (opened_in context.now)
        (moves_in context.now W.moves) (λ w. back_to (waiting_of frame.entry) (ended how w)) held world.old left
        x.spent x.lack held world.new) }
{
    match frame {
        Waiting::Calls(thread, call) => match back_to_code(thread, call, how) {
            Ok(round) => Ok(at_once(round)),
            Err(_) => Err(lacking(0)),
        },
        Waiting::Asks(activation, types) => back_to_body(
            context, world, activation, types, how, left,
        ),
    }
}

// The end of the function at work goes outwards, until what waits for it goes on, or nothing waits.
pub(crate) fn settle<'p, W: HostSurroundings>(
    context: &RunContext<'p>,
    world: &mut W,
    around: &mut Vec<Waiting<'p>>,
    how: How,
    left: u64,
) -> Result<Rounded<'p>, Lacking>
    requires end { IsEnd how }
    ensures settles { IfOk result (λ x. (held : HeldParts) → Rounds (opened_in context.now)
        (moves_in context.now W.moves) (ends_in around.old.items how) held world.old left x.spent x.round
        around.new.items held world.new) }
    ensures last { IfOk result (λ x. IsLast x.round around.new.items) }
    ensures nearer { IfOk result (λ x. IsNearer x.round around.new.items (left - x.spent)
        (4 * left + length around.old.items + 2)) }
    ensures lacks { IfErr result (λ x. (held : HeldParts) → Lacks (opened_in context.now)
        (moves_in context.now W.moves) (ends_in around.old.items how) held world.old left x.spent x.lack held
        world.new) }
{
    let mut how = how;
    let mut spent: u64 = 0;
    while let Some(frame) = around.pop() {
        match go_back(context, world, frame, how, left - spent) {
            Err(lack) => {
                return Err(Lacking {
                    lack: lack.lack,
                    spent: spent + lack.spent,
                });
            }
            Ok(rounded) => {
                spent += rounded.spent;
                match rounded.round {
                    Round::Ends(end) => how = end,
                    round => return Ok(Rounded { round, spent }),
                }
            }
        }
    }
    Ok(Rounded {
        round: Round::Ends(how),
        spent,
    })
}
