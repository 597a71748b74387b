ghost use Rattle.std.specs.Prelude.{◌≡◌, IfOk, OnErr};
ghost use Rattle.law_code.specs.Answers.{IsTypedSaying};
ghost use Rattle.law_store.specs.Rows.{IsTypedOperation};
ghost use Rattle.wasm_host.specs.Activations.{activation_of};
ghost use Rattle.code_hosts.specs.Contexts.{moves_in, opened_in};
ghost use Rattle.code_hosts.specs.Stepping.{Says, Fails};

use crate::context::RunContext;
use crate::surroundings::HostSurroundings;
use spec_machine::Op;
use std::alloc::Global;
use store_state::Held;
use wasm_host::{Activation, Answer, Event};
use wasm_types::OutOfMemory;

// The types in an operation are types, since each was made by a constructor that tests it. It does nothing when it runs.
fn keeps_types(op: &Op)
    ensures { IsTypedOperation op.now }
{
    match op {
        Op::MemoryNew { ty } => ty.keeps_limits(),
        Op::TableNew { ty, .. } => ty.keeps_rules(),
        Op::GlobalNew { ty, .. } => ty.keeps_rules(),
        Op::TagNew { ty } => ty.keeps_rules(),
        _ => {}
    }
}

// The same of what a step says.
pub(crate) fn says_types(what: &Answer)
    ensures { IsTypedSaying what.now }
{
    if let Answer::Call(op) = what {
        keeps_types(op);
    }
}

// A step of a body, with its turn.
pub(crate) fn step<W: HostSurroundings>(
    context: &RunContext<'_>,
    held: &Held,
    world: &mut W,
    activation: &mut Activation<'_>,
    event: Event,
) -> Result<Answer, OutOfMemory>
    requires { W.fits world.old context.now }
    ensures says { IfOk result (λ what. Says (opened_in context.now) (moves_in context.now W.moves)
        (activation_of activation.old) event held.now world.old (activation_of activation.new) what world.new) }
    ensures lacks { OnErr result (Fails (opened_in context.now) (moves_in context.now W.moves)
        (activation_of activation.old) event held.now world.old world.new) }
    ensures rest { activation_of activation.new
        ≡ record (activation_of activation.old) { state = activation.new.state } }
{
    let what = world.ask_step(context, held, activation, event)?;
    says_types(&what);
    Ok(what)
}
