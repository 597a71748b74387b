ghost use Rattle.std.specs.Prelude.{◌≡◌, IsUtf8};
ghost use Rattle.c_calls.specs.Codes as codes;
ghost use Rattle.mullerpink_c.specs.Calls.{HasCalledBytesFor, HasCalledFor};

use crate::called::MullerpinkCalled;
use c_calls::{CBounds, Called, bounds_in};
use c_values::CValue;
use std::alloc::Global;

/// What C is told of an end.
fn told(called: Called) -> MullerpinkCalled
    ensures code { result.code ≡ codes.code called.end }
    ensures cause { result.cause ≡ codes.cause called.end }
    ensures count { result.count ≡ called.count }
{
    MullerpinkCalled {
        code: called.end.code(),
        cause: called.end.cause(),
        count: called.count,
    }
}

/// What C is told of a name that is no UTF-8.
fn no_text() -> MullerpinkCalled
    ensures code { result.code ≡ 11 }
    ensures cause { result.cause ≡ 0 }
    ensures count { result.count ≡ 0 }
{
    MullerpinkCalled {
        code: 11,
        cause: 0,
        count: 0,
    }
}

/// Reads a module in the binary format, makes an instance of it without imports, calls the function that it exports under
/// `name` with these arguments, and writes its results to the front of `results`. What stands behind them stays, and with
/// each code but 0 all of it.
#[unsafe(no_mangle)]
pub extern "C" fn mullerpink_call(
    alloc: Global,
    guest: &[u8],
    name: &[u8],
    arguments: &[CValue],
    bounds: &CBounds,
    results: &mut [CValue],
) -> MullerpinkCalled
    ensures called { IsUtf8 name.now → HasCalledFor guest.now name.now arguments.now bounds.now
        results.old results.new result.code result.cause result.count }
    ensures no_text { ¬ IsUtf8 name.now → result.code ≡ 11 }
    ensures no_cause { ¬ IsUtf8 name.now → result.cause ≡ 0 }
    ensures no_count { ¬ IsUtf8 name.now → result.count ≡ 0 }
    ensures unwritten { ¬ IsUtf8 name.now → results.new ≡ results.old }
{
    let Ok(name) = std::str::from_utf8(name) else {
        return no_text();
    };
    told(c_calls::call(alloc, guest, name, arguments, bounds_in(*bounds), results))
}

/// The same of a function that is given bytes, and answers some, by the convention of `--in` of the program `mullerpink_run`:
/// those that it answers are written to the front of `out`, and the arguments are those before pointer and length.
#[unsafe(no_mangle)]
pub extern "C" fn mullerpink_call_bytes(
    alloc: Global,
    guest: &[u8],
    name: &[u8],
    arguments: &[CValue],
    bounds: &CBounds,
    bytes: &[u8],
    out: &mut [u8],
) -> MullerpinkCalled
    ensures called { IsUtf8 name.now → HasCalledBytesFor guest.now name.now arguments.now bounds.now
        bytes.now out.old out.new result.code result.cause result.count }
    ensures no_text { ¬ IsUtf8 name.now → result.code ≡ 11 }
    ensures no_cause { ¬ IsUtf8 name.now → result.cause ≡ 0 }
    ensures no_count { ¬ IsUtf8 name.now → result.count ≡ 0 }
    ensures unwritten { ¬ IsUtf8 name.now → out.new ≡ out.old }
{
    let Ok(name) = std::str::from_utf8(name) else {
        return no_text();
    };
    told(c_calls::call_bytes(
        alloc,
        guest,
        name,
        arguments,
        bounds_in(*bounds),
        bytes,
        out,
    ))
}
