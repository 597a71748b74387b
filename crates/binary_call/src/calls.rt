ghost use Rattle.std.specs.Prelude.{◌≡◌, ℕ, true, Ok, Err, IfOk, IfErr, OnOk};
ghost use Rattle.spec_machine.specs.Machine.{are_engine_limits};
ghost use Rattle.wasm_meter.specs.Epochs.{CountsReadings};
ghost use Rattle.binary_run.specs.Exports.{exported_function as exported};
ghost use Rattle.binary_run.specs.Statuses.{IsReply};
ghost use Rattle.binary_run.specs.Words.{frames};
ghost use Rattle.binary_call.specs.Answers.{reply_of, HasAnswered, IsAnswer};
ghost use Rattle.binary_run.specs.Calls.{word_types};
ghost use Rattle.binary_call.specs.Calls as calls;
ghost use Rattle.binary_call.specs.Calls.{are_few, asked_for, call_of, call_of_function, spelled, IsDue};

use crate::answers::{Answer, answer_of};
use crate::arguments::{all_fit, operands_of};
use crate::bounds::Bounds;
use crate::faults::CallFault;
use crate::guests::guest_in;
use binary_run::{BytesPart, ReadCall, exported_function, run_call, taking_bytes, verdict};
use module_typing::Spaces;
use std::alloc::Global;
use wasm_meter::CountEpochs;
use wasm_module::Module;
use wasm_types::{ByteList, FuncType, OutOfMemory, ValType};
use wasm_values::Val;

/// The most bytes that a call is given.
const MOST_GIVEN: usize = 4_294_967_295;

/// The types of the parameters that the arguments are for, or what of the module takes no bytes.
fn argument_types<'a>(
    guest: &Module,
    spaces: &Spaces<'a>,
    bytes: &Option<ByteList>,
    ty: &'a FuncType,
) -> Result<&'a [ValType], BytesPart>
    requires { spaces.now.decl.now ≡ guest.now }
    ensures types { IfOk result (λ types. word_types guest.now bytes.now ty.now ≡ Ok types.now) }
    ensures none { IfErr result (λ part. word_types guest.now bytes.now ty.now ≡ Err part) }
{
    match bytes {
        None => Ok(ty.params()),
        Some(_) => taking_bytes(guest, spaces, ty),
    }
}

/// Tests that the module exports a function under the name, and that the arguments, and the bytes that it is given where it is
/// given some, stand for its parameters.
fn check(
    alloc: Global,
    guest: &Module,
    name: &str,
    arguments: &[Val],
    bounds: Bounds,
    bytes: &Option<ByteList>,
) -> Result<(), CallFault>
    ensures sound { OnOk result (call_of_function (asked_for bounds name.now arguments.now bytes.now) guest.now
        (exported guest.now name.now)
        ≡ Ok (call_of (asked_for bounds name.now arguments.now bytes.now) guest.now)) }
    ensures fault { IfErr result (λ fault. IsDue (call_of_function (asked_for bounds name.now arguments.now bytes.now) guest.now
        (exported guest.now name.now)) fault) }
{
    let Ok(spaces) = Spaces::new(alloc, guest.decl()) else {
        return Err(CallFault::OutOfMemory);
    };
    let Some(ty) = exported_function(guest, &spaces, name) else {
        return Err(CallFault::NoFunction);
    };
    let types = match argument_types(guest, &spaces, bytes, ty) {
        Ok(types) => types,
        Err(part) => return Err(CallFault::TakesNoBytes(part)),
    };
    if !all_fit(types, arguments) {
        return Err(CallFault::BadArguments);
    }
    Ok(())
}

/// Runs the commands of a call on a new store.
fn run(
    alloc: Global,
    guest: Module,
    name: &str,
    arguments: &[Val],
    bounds: Bounds,
    bytes: Option<ByteList>,
) -> Result<Answer, OutOfMemory>
    requires limits { are_engine_limits frames bounds.turns ≡ true }
    requires few { are_few bytes ≡ true }
    ensures answered { IfOk result (λ answer. (epochs : ℕ)
        × IsReply CountsReadings 0 epochs (call_of (asked_for bounds name.now arguments.now bytes) guest) (reply_of answer)) }
    ensures kind { IfOk result (λ answer. IsAnswer bytes (reply_of answer)) }
{
    let call = ReadCall {
        guest,
        arguments: operands_of(alloc, arguments)?,
        bytes,
    };
    let mut epochs = CountEpochs::new();
    let replies = run_call(alloc, bounds.options(), name, call, &mut epochs)?;
    match verdict(replies.as_slice()) {
        Some(reply) => answer_of(alloc, reply),
        None => unreachable!(),
    }
}

/// Whether a memory has room for the bytes.
fn are_few(bytes: &Option<ByteList>) -> bool
    ensures { result ≡ calls.are_few bytes.now }
{
    match bytes {
        Some(bytes) => bytes.len() <= MOST_GIVEN,
        None => true,
    }
}

/// Reads a module in the binary format, makes an instance of it without imports, and calls the function that it exports
/// under `name` with these arguments, on a new store that is given up behind the call.
///
/// Where the call is given bytes, the module exports a memory `memory` and a function `alloc` of a length to a pointer; the
/// bytes are written to where that says, and pointer and length stand behind the other arguments. The export answers a length,
/// and the bytes from the pointer on are the answer; or one integer of 64 bits, the pointer in its high half and the length in
/// its low one.
///
/// What ends it is the answer: the results, or the bytes where it was given some, or the trap or refusal by which the
/// instantiation or the call ended. A fault says why no call was made, the first of this order: `BadBounds`, `TooLong`,
/// `BadModule`, `InvalidModule`, `NoFunction`, `TakesNoBytes`, `BadArguments`; and with `OutOfMemory` memory ran out, before the
/// call or in it.
pub fn call(
    alloc: Global,
    guest: &[u8],
    name: &str,
    arguments: &[Val],
    bounds: Bounds,
    bytes: Option<ByteList>,
) -> Result<Answer, CallFault>
    ensures answered { IfOk result (λ answer.
        HasAnswered (asked_for bounds name.now arguments.now bytes) guest.now answer) }
    ensures kind { IfOk result (λ answer. IsAnswer bytes (reply_of answer)) }
    ensures fault { IfErr result (λ fault.
        IsDue (spelled (asked_for bounds name.now arguments.now bytes) guest.now) fault) }
{
    if !bounds.are_limits() {
        return Err(CallFault::BadBounds);
    }
    if !are_few(&bytes) {
        return Err(CallFault::TooLong);
    }
    let guest = guest_in(alloc, guest)?;
    check(alloc, &guest, name, arguments, bounds, &bytes)?;
    match run(alloc, guest, name, arguments, bounds, bytes) {
        Ok(answer) => Ok(answer),
        Err(_) => Err(CallFault::OutOfMemory),
    }
}
