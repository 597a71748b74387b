//! Code goes on, and enters the functions of the host that it calls.
ghost use Rattle.std.specs.Prelude.{◌≡◌, ◌+◌, ◌-◌, ◌*◌, IfOk, IfErr, length, ◌≤◌};
ghost use Rattle.store_state.specs.Parts.{HeldParts};
ghost use Rattle.code_stack.specs.Steps.{hosted};
ghost use Rattle.code_run.specs.Steps.{seen};
ghost use Rattle.code_hosts.specs.Conditions.{IsPayable};
ghost use Rattle.code_hosts.specs.Contexts.{moves_in, opened_in};
ghost use Rattle.code_hosts.specs.Parting.{awaited};
ghost use Rattle.code_hosts.specs.Rounds.{Rounds, Lacks, IsNearer};
ghost use Rattle.code_hosts.specs.States.{due_of};
ghost use Rattle.code_hosts.specs.declared.states.Open.TheVariants.{Code};
ghost use Rattle.code_leaps.specs.Spending.{most_cost};
ghost use Rattle.spec_machine.specs.Machine.{debt};
ghost use Rattle.code_run.specs.Pausing.{due, IfEnds, IfPauses, Pauses, turns_of};
ghost use Rattle.code_leaps.specs.Turns.{Ends};

use crate::body_entry::{Entrance, enter_body};
use crate::context::RunContext;
use crate::function_entry::how_of;
use crate::replies::How;
use crate::rounds::{Lack, Lacking, Round, Rounded, later};
use crate::states::{Open, Waiting};
use crate::surroundings::HostSurroundings;
use code_run::{CodeContext, Ending, HostCall, Thread, Went};
use std::alloc::Global;
use store_state::Held;
use wasm_host::Event;
use wasm_objects::RawVal;
use wasm_types::OutOfMemory;

// Runs code until it ends or calls a function of the host, or for a slice of turns.
pub(crate) fn run_code<'p, W: HostSurroundings>(
    context: &RunContext<'p>,
    thread: &mut Box<Thread<'p>>,
    held: &mut Held,
    world: &mut W,
    left: u64,
    slice: u64,
) -> Went<'p>
    requires fuel { IsPayable context.now.bounds held.old.fuel left }
    ensures ends { IfEnds result (λ ended. Ends (opened_in context.now) (moves_in context.now W.moves)
        (due thread.old.value) held.old world.old left ended (seen thread.new.value) held.new world.new) }
    ensures pauses { IfPauses result (λ spent. Pauses (opened_in context.now) (moves_in context.now W.moves)
        (due thread.old.value) held.old world.old left slice spent thread.new.value held.new world.new) }
    ensures within { turns_of result ≤ left }
    ensures debt { debt held.new.fuel ≤ debt held.old.fuel + turns_of result * most_cost }
{
    let code = CodeContext {
        program: context.program,
        rules: context.bounds.rules,
    };
    thread.run(&code, held, world, left, slice)
}

// A copy of the results.
fn copied(alloc: Global, results: &[RawVal]) -> Result<Vec<RawVal>, OutOfMemory>
    ensures { IfOk result (λ v. v.items ≡ results.now) }
{
    Ok(Vec::from_slice(alloc, results)?)
}

// Code called a function of the host, and waits for it.
pub(crate) fn call_body<'p, W: HostSurroundings>(
    context: &RunContext<'p>,
    world: &mut W,
    thread: Box<Thread<'p>>,
    call: HostCall<'p>,
    around: &mut Vec<Waiting<'p>>,
    left: u64,
) -> Result<Rounded<'p>, Lacking>
    ensures rounds { IfOk result (λ x. (held : HeldParts) → Rounds (opened_in context.now)
        (moves_in context.now W.moves) (awaited around.old.items (hosted (seen thread.entry.value) call.entry)) held
        world.old left x.spent x.round around.new.items held world.new) }
    ensures nearer { IfOk result (λ x. IsNearer x.round around.new.items (left - x.spent)
        (4 * left + length around.old.items + 2)) }
    ensures lacks { IfErr result (λ x. (held : HeldParts) → Lacks (opened_in context.now)
        (moves_in context.now W.moves) (awaited around.old.items (hosted (seen thread.entry.value) call.entry)) held
        world.old left x.spent x.lack held world.new) }
{
    let code = thread.as_ref();
    let Ok(entered) = enter_body(
        context,
        world,
        call,
        code.depth(),
        code.arguments(call),
        Some(code.instance()),
        left,
    ) else {
        return Err(Lacking {
            lack: Lack::Run,
            spent: 0,
        });
    };
    let spent = entered.spent;
    match entered.what {
        Entrance::Opens(activation) => match around.push(Waiting::Calls(thread, call)) {
            Ok(()) => Ok(Rounded {
                round: Round::Goes(Open::Body(activation, Event::Start)),
                spent,
            }),
            Err(_) => Err(Lacking {
                lack: Lack::Run,
                spent,
            }),
        },
        // The thread is dropped: an early end goes past it.
        Entrance::Fails(fault) => Ok(Rounded {
            round: Round::Ends(how_of(fault)),
            spent,
        }),
        Entrance::Limit => Ok(Rounded {
            round: Round::Limit,
            spent,
        }),
    }
}

// Code goes on. Where it pauses behind a slice of turns, it is at work as before.
pub(crate) fn advance_code<'p, W: HostSurroundings>(
    context: &RunContext<'p>,
    held: &mut Held,
    world: &mut W,
    thread: Box<Thread<'p>>,
    around: &mut Vec<Waiting<'p>>,
    left: u64,
    slice: u64,
) -> Result<Rounded<'p>, Lacking>
    requires fuel { IsPayable context.now.bounds held.old.fuel left }
    ensures rounds { IfOk result (λ x. Rounds (opened_in context.now) (moves_in context.now W.moves)
        (due_of (Code thread.entry) around.old.items) held.old world.old left x.spent x.round around.new.items
        held.new world.new) }
    ensures fuel { IfOk result (λ x. IsPayable context.now.bounds held.new.fuel (left - x.spent)) }
    ensures nearer { IfOk result (λ x. IsNearer x.round around.new.items (left - x.spent)
        (4 * left + length around.old.items + 2)) }
    ensures lacks { IfErr result (λ x. Lacks (opened_in context.now) (moves_in context.now W.moves)
        (due_of (Code thread.entry) around.old.items) held.old world.old left x.spent x.lack held.new world.new) }
{
    let mut thread = thread;
    let ended = match run_code(context, &mut thread, held, world, left, slice) {
        Went::Ends(ended) => ended,
        Went::Pauses(spent) => {
            return Ok(Rounded {
                round: Round::Goes(Open::Code(thread)),
                spent,
            });
        }
    };
    let spent = ended.spent;
    match ended.how {
        Ending::Fails(fault) => Ok(Rounded {
            round: Round::Ends(how_of(fault)),
            spent,
        }),
        Ending::Done => match copied(context.alloc, thread.results()) {
            Ok(results) => Ok(Rounded {
                round: Round::Ends(How::Returned(results)),
                spent,
            }),
            Err(_) => Err(Lacking {
                lack: Lack::Run,
                spent,
            }),
        },
        Ending::Calls(call) => {
            let called = call_body(context, world, thread, call, around, left - spent);
            later(spent, called)
        }
        Ending::Limit => Ok(Rounded {
            round: Round::Limit,
            spent,
        }),
        Ending::Exhausted => Err(Lacking {
            lack: Lack::Run,
            spent,
        }),
    }
}
