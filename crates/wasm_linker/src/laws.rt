//! What a host can rely on of a linker. Where a function makes calls, its contract is what these calls come to together.
ghost use Rattle.std.specs.Prelude.{◌≡◌, Err, OnOk};
ghost use Rattle.wasm_linker.specs.Calls.{after_call, after_calls};

use crate::linker::Linker;
use linker_map::LinkFault;
use wasm_meter::{CallHooks, DeadlineBehaviour, HostData};
use wasm_store::Store;
use wasm_types::OutOfMemory;
use wasm_values::{Extern, Instance};

/// A call that changes a linker, as data; names stand in pairs.
#[derive(Clone, Copy)]
pub enum LinkCall<'a> {
    AllowShadowing(bool),
    Define((&'a str, &'a str), Extern),
    Alias((&'a str, &'a str), (&'a str, &'a str)),
    Exports(&'a str, Instance),
}

// What a call came to matters here only where it had no memory.
fn unless_short(answer: Result<(), LinkFault>) -> Result<(), OutOfMemory>
    ensures { OnOk result (¬ (answer ≡ Err LinkFault.OutOfMemory)) }
{
    match answer {
        Err(LinkFault::OutOfMemory) => Err(OutOfMemory),
        _ => Ok(()),
    }
}

// Makes one call.
fn make_call<T: HostData, K: CallHooks<T>, B: DeadlineBehaviour<T>>(
    linker: &mut Linker,
    store: &Store<T, K, B>,
    call: LinkCall,
) -> Result<(), OutOfMemory>
    ensures { OnOk result (linker.new ≡ after_call store.now.machine call.entry linker.old) }
{
    match call {
        LinkCall::AllowShadowing(allow) => {
            linker.allow_shadowing(allow);
            Ok(())
        }
        LinkCall::Define(pair, item) => { unless_short(linker.define(store, pair.0, pair.1, item)) }
        LinkCall::Alias(pair, as_pair) => {
            unless_short(linker.alias(pair.0, pair.1, as_pair.0, as_pair.1))
        }
        LinkCall::Exports(module, instance) => unless_short(linker.instance(
            store, module, instance,
        )),
    }
}

/// After any list of calls a linker is the map that these calls give, one after another, whatever they were refused.
/// `law_linkers_are_maps` of `linker_map` says what such a map finds.
pub fn law_linker_is_its_calls<T: HostData, K: CallHooks<T>, B: DeadlineBehaviour<T>>(
    linker: &mut Linker,
    store: &Store<T, K, B>,
    calls: &[LinkCall],
) -> Result<(), OutOfMemory>
    ensures { OnOk result (linker.new ≡ after_calls store.now.machine calls.now linker.old) }
{
    let mut rest = calls;
    'calls: while let [call, tail @ ..] = rest {
        make_call(linker, store, *call)?;
        rest = tail;
    }
    Ok(())
}
