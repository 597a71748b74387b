ghost use Rattle.std.specs.Prelude.{◌≡◌, Ok, Err, OnOk, OnErr, MatchResult};
ghost use Rattle.wasm_values.specs.declared.refusals.Refusal.{Refusal};
ghost use Rattle.spec_machine.specs.InstanceCalls.{instance_at};
ghost use Rattle.spec_machine.specs.Machine.{InstanceParts};
ghost use Rattle.wasm_instance.specs.Exports.{entries};
ghost use Rattle.wasm_instance.specs.Left.{left};
ghost use Rattle.wasm_linker.specs.Defining.{objects_in, with_items, is_any_taken};
ghost use Rattle.wasm_linker.specs.Exporting.{DefinesFront};

use linker_map::{LinkFault, LinkerMap};
use wasm_instance::{Exports, InstanceCalls};
use wasm_meter::{CallHooks, DeadlineBehaviour, HostData};
use wasm_store::Store;
use wasm_types::OutOfMemory;
use wasm_values::Instance;

/// What an instance of a store exports.
pub(crate) fn exports_in<'a, T: HostData, K: CallHooks<T>, B: DeadlineBehaviour<T>>(
    store: &'a Store<T, K, B>,
    instance: Instance,
) -> Result<Exports<'a>, LinkFault>
    ensures { MatchResult result
        (λ exports. (i : InstanceParts) × (instance_at store.now.machine instance ≡ Ok i)
        × (left exports ≡ entries store.now.machine i))
        (λ fault. (why : Refusal) × (instance_at store.now.machine instance ≡ Err why) × (fault ≡ LinkFault.Refused why)) }
{
    match instance.exports(store) {
        Ok(exports) => Ok(exports),
        Err(why) => Err(LinkFault::Refused(why)),
    }
}

/// Whether one of these exports has a name that may not be defined under this first name.
pub(crate) fn is_any_taken(map: &LinkerMap, space: &str, mut exports: Exports) -> bool
    ensures { result ≡ is_any_taken map.now space.now (objects_in (left exports.entry)) }
{
    'exports: while let Some(export) = exports.next() {
        if map.is_taken(space, export.name()) {
            return true;
        }
    }
    false
}

/// Gives each of these exports its meaning under this first name, in order. After want of memory those before one of its
/// places may have theirs.
pub(crate) fn put_all(
    map: &mut LinkerMap,
    space: &str,
    mut exports: Exports,
) -> Result<(), OutOfMemory>
    ensures ok { OnOk result (map.new ≡ with_items space.now (objects_in (left exports.entry)) map.old) }
    ensures err { OnErr result (DefinesFront space.now (objects_in (left exports.entry)) map.old map.new) }
{
    'exports: while let Some(export) = exports.next() {
        map.put(space, export.name(), export.into_extern())?;
    }
    Ok(())
}
