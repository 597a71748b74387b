ghost use Rattle.std.specs.Prelude.{◌≡◌, Some, IfOk, IfErr};
ghost use Rattle.c_calls.specs.Calls.{values_out, IsGiven, HasCalled, HasCalledBytes};
ghost use Rattle.c_calls.specs.Values.{values_in, IsUnread};

use crate::ends::{Called, End};
use crate::values::{told, values_in};
use binary_call::{Answer, Bounds, CallFault};
use c_values::CValue;
use std::alloc::Global;
use wasm_types::ByteList;
use wasm_values::Val;

/// A call that wrote nothing and has no results.
fn ended(end: End) -> Called
    ensures end { result.end ≡ end }
    ensures none { result.count ≡ 0 }
{
    Called { end, count: 0 }
}

/// Copies what a call gives to the front of its room, where it fits.
fn give<A: Copy>(made: &[A], room: &mut [A]) -> Called
    ensures { IsGiven made.now room.old room.new result.end result.count }
{
    let count = made.len();
    if count > room.len() {
        return Called {
            end: End::NoRoom,
            count,
        };
    }
    room[..count].copy_from_slice(made);
    Called {
        end: End::Values,
        count,
    }
}

/// Writes results to the front of their room, where they fit.
fn give_values(alloc: Global, values: &[Val], results: &mut [CValue]) -> Called
    ensures { IsGiven (values_out values.now) results.old results.new result.end result.count }
{
    match told(alloc, values) {
        Ok(made) => give(made.as_slice(), results),
        Err(_) => ended(End::Fault(CallFault::OutOfMemory)),
    }
}

/// The values that C gave, or the end that says why there are none.
fn arguments_in(alloc: Global, arguments: &[CValue]) -> Result<Vec<Val>, End>
    ensures read { IfOk result (λ values. values_in arguments.now ≡ Some values.items) }
    ensures none { IfErr result (λ end. IsUnread (values_in arguments.now) end) }
{
    match values_in(alloc, arguments) {
        Ok(Some(values)) => Ok(values),
        Ok(None) => Err(End::BadValue),
        Err(_) => Err(End::Fault(CallFault::OutOfMemory)),
    }
}

/// Reads a module in the binary format, makes an instance of it without imports, calls the function that it exports under
/// `name` with these arguments, and writes its results to the front of `results`.
///
/// What stands behind the results stays, and with each end but `Values` all of it. With `NoRoom` the count is how many
/// results there are: the same call again, with room for so many, writes them. Which fault comes is as `binary_call` has it,
/// and `BadValue` comes before all of them but want of memory.
pub fn call(
    alloc: Global,
    guest: &[u8],
    name: &str,
    arguments: &[CValue],
    bounds: Bounds,
    results: &mut [CValue],
) -> Called
    ensures { HasCalled bounds guest.now name.now arguments.now results.old results.new result.end result.count }
{
    let values = match arguments_in(alloc, arguments) {
        Ok(values) => values,
        Err(end) => return ended(end),
    };
    match binary_call::call(alloc, guest, name, values.as_slice(), bounds, None) {
        Ok(Answer::Values(values)) => give_values(alloc, values.as_slice(), results),
        Ok(Answer::Refused(cause)) => ended(End::Refused(cause)),
        Ok(Answer::Bytes(_)) => unreachable!(),
        Err(fault) => ended(End::Fault(fault)),
    }
}

/// The same of a function that is given bytes, and answers some: these are written to the front of `out`. How they are given
/// is as `binary_call` has it, and the arguments are those before them.
pub fn call_bytes(
    alloc: Global,
    guest: &[u8],
    name: &str,
    arguments: &[CValue],
    bounds: Bounds,
    bytes: &[u8],
    out: &mut [u8],
) -> Called
    ensures { HasCalledBytes bounds guest.now name.now arguments.now bytes.now out.old out.new result.end result.count }
{
    let values = match arguments_in(alloc, arguments) {
        Ok(values) => values,
        Err(end) => return ended(end),
    };
    let Ok(bytes) = Vec::from_slice(alloc, bytes) else {
        return ended(End::Fault(CallFault::OutOfMemory));
    };
    match binary_call::call(
        alloc,
        guest,
        name,
        values.as_slice(),
        bounds,
        Some(ByteList(bytes)),
    ) {
        Ok(Answer::Bytes(told)) => give(told.as_slice(), out),
        Ok(Answer::Refused(cause)) => ended(End::Refused(cause)),
        Ok(Answer::Values(_)) => unreachable!(),
        Err(fault) => ended(End::Fault(fault)),
    }
}
