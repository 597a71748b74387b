ghost use Rattle.std.specs.Prelude.{◌≡◌, IfOk, OnErr};
ghost use Rattle.spec_execution.specs.Operands.{has_kind, have_kinds};
ghost use Rattle.store_state.specs.Parts.{HeldParts};
ghost use Rattle.code_hosts.specs.Contexts.{moves_in, opened_in};
ghost use Rattle.code_hosts.specs.Entrances.{entering, Enters, Waits};

use crate::borders::{Word, tell};
use crate::context::RunContext;
use crate::surroundings::HostSurroundings;
use code_run::{Fault, HostCall};
use wasm_host::Activation;
use wasm_meter::CallHook;
use wasm_objects::RawVal;
use wasm_types::{OutOfMemory, ValType};
use wasm_values::Refusal;

// What entering a function of the host comes to.
#[derive(Drop)]
pub(crate) enum Entrance<'p> {
    // Its body is to be stepped.
    Opens(Activation<'p>),
    Fails(Fault),
    // A hook was to be told, and no turn was left for it.
    Limit,
}

// What entering a function of the host came to, and how many turns it took.
#[derive(Drop)]
pub(crate) struct Entered<'p> {
    pub(crate) what: Entrance<'p>,
    pub(crate) spent: u64,
}

// Whether a value is of the kind of a type.
fn has_kind(ty: &ValType, value: RawVal) -> bool
    ensures { result ≡ has_kind ty.now value }
{
    match (ty, value) {
        (ValType::I32, RawVal::I32(_)) => true,
        (ValType::I64, RawVal::I64(_)) => true,
        (ValType::F32, RawVal::F32(_)) => true,
        (ValType::F64, RawVal::F64(_)) => true,
        (ValType::V128, RawVal::V128(_)) => true,
        (ValType::Ref(_), RawVal::Reference(_)) => true,
        _ => false,
    }
}

// Whether there are as many values as types, each of its type's kind.
fn have_kinds(types: &[ValType], values: &[RawVal]) -> bool
    ensures { result ≡ have_kinds types.now values.now }
{
    let mut wanted = types;
    let mut rest = values;
    while let [ty, further @ ..] = wanted {
        let [value, tail @ ..] = rest else {
            return false;
        };
        if !has_kind(ty, *value) {
            return false;
        }
        wanted = further;
        rest = tail;
    }
    rest.is_empty()
}

// Enters a function of the host, by its body, with so many functions open around it.
pub(crate) fn enter_body<'p, W: HostSurroundings>(
    context: &RunContext<'p>,
    world: &mut W,
    call: HostCall<'p>,
    depth: usize,
    arguments: &[RawVal],
    caller: Option<usize>,
    left: u64,
) -> Result<Entered<'p>, OutOfMemory>
    ensures enters { IfOk result (λ x. (held : HeldParts) → Enters (opened_in context.now)
        (moves_in context.now W.moves) (entering call.entry depth arguments.now caller) held world.old left x
        world.new) }
    ensures waits { OnErr result ((held : HeldParts) → Waits (opened_in context.now) (moves_in context.now W.moves)
        (entering call.entry depth arguments.now caller) held world.old world.new) }
{
    if !world.has_body(call.body) {
        return Ok(Entered {
            what: Entrance::Fails(Fault::Refused(Refusal::NoHostBody)),
            spent: 0,
        });
    }
    if !have_kinds(call.ty.params(), arguments) {
        return Ok(Entered {
            what: Entrance::Fails(Fault::Stuck),
            spent: 0,
        });
    }
    let Ok(activation) = Activation::enter(
        context.alloc,
        context.id,
        call.ty,
        call.body,
        call.stored,
        arguments,
        caller,
        depth,
    ) else {
        return Err(OutOfMemory);
    };
    let told = tell(context, world, left, CallHook::CallingHost);
    let spent = told.spent;
    match told.word {
        Word::Passes => Ok(Entered {
            what: Entrance::Opens(activation),
            spent,
        }),
        Word::Fails => Ok(Entered {
            what: Entrance::Fails(Fault::Refused(Refusal::HookFault)),
            spent,
        }),
        Word::Limit => Ok(Entered {
            what: Entrance::Limit,
            spent,
        }),
    }
}
