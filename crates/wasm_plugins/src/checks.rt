//! What is asked before a guest is loaded or called. Nothing is changed by it.
ghost use Rattle.std.specs.List.{list_all};
ghost use Rattle.std.specs.Prelude.{◌≡◌, false, Err, IfErr};
ghost use Rattle.spec_machine.specs.Values.{owns_extern};
ghost use Rattle.wasm_plugins.specs.Guests.{may_load, exported, callee, may_call, Answers};
ghost use Rattle.wasm_plugins.specs.declared.faults.PluginFault.TheVariants as fault;

use crate::faults::PluginFault;
use crate::foreign::{are_owned, first_foreign};
use crate::meeting::{first_meeting, reach_of_objects};
use std::alloc::Global as Allocator;
use wasm_instance::InstanceCalls;
use wasm_meter::{CallHooks, DeadlineBehaviour, HostData};
use wasm_store::{Store, parts};
use wasm_values::{Extern, Func, Instance, Refusal, Val};

// Whether each of these objects is of the store.
fn owns_all<T: HostData, K: CallHooks<T>, B: DeadlineBehaviour<T>>(
    store: &Store<T, K, B>,
    objects: &[Extern],
) -> bool
    ensures { result ≡ list_all (owns_extern store.now.machine) objects.now }
{
    for object in objects {
        if !parts::objects(store).owns_extern(*object) {
            return false;
        }
    }
    true
}

/// Whether a module may be loaded over these imports: each is of the store, and they lead to nothing that a guest
/// reaches. That an import is of another store is told whatever memory there is.
pub(crate) fn may_load<T: HostData, K: CallHooks<T>, B: DeadlineBehaviour<T>>(
    alloc: Allocator,
    store: &Store<T, K, B>,
    guests: &[usize],
    imports: &[Extern],
) -> Result<(), PluginFault>
    ensures due { Answers (may_load store.now.machine guests.now imports.now) result }
    ensures strange { list_all (owns_extern store.now.machine) imports.now ≡ false →
        result ≡ Err (fault.Refused Refusal.WrongStore) }
{
    if !owns_all(store, imports) {
        return Err(PluginFault::Refused(Refusal::WrongStore));
    }
    let set = reach_of_objects(alloc, store, imports)?;
    match first_meeting(alloc, store, guests, &set)? {
        Some((guest, node)) => Err(PluginFault::Meets { guest, node }),
        None => Ok(()),
    }
}

// The function that an instance of this number exports under a name, for arguments of the store.
fn exported<T: HostData, K: CallHooks<T>, B: DeadlineBehaviour<T>>(
    store: &Store<T, K, B>,
    guest: usize,
    name: &str,
    params: &[Val],
) -> Result<Func, PluginFault>
    ensures { result ≡ exported store.now.machine name.now params.now guest }
{
    let instance = Instance::from_parts(store.id(), guest);
    match instance.get_func(store, name) {
        Ok(Some(func)) if are_owned(store, params) => Ok(func),
        Ok(Some(_)) => Err(PluginFault::Refused(Refusal::WrongStore)),
        Ok(None) => Err(PluginFault::Refused(Refusal::NoExport)),
        Err(why) => Err(PluginFault::Refused(why)),
    }
}

/// The function that a guest exports under a name, where it may be called on these arguments: they are of the store,
/// and the guest reaches each function among them. Only whether it does takes memory.
pub(crate) fn may_call<T: HostData, K: CallHooks<T>, B: DeadlineBehaviour<T>>(
    alloc: Allocator,
    store: &Store<T, K, B>,
    guests: &[usize],
    guest: usize,
    name: &str,
    params: &[Val],
) -> Result<Func, PluginFault>
    ensures due { Answers (may_call store.now.machine guests.now guest name.now params.now) result }
    ensures named { IfErr (callee store.now.machine guests.now guest name.now params.now) (λ why. result ≡ Err why) }
{
    let Some(number) = guests.get(guest).copied() else {
        return Err(PluginFault::NoGuest);
    };
    let func = exported(store, number, name, params)?;
    match first_foreign(alloc, store, number, params)? {
        Some(place) => Err(PluginFault::Foreign(place)),
        None => Ok(func),
    }
}
