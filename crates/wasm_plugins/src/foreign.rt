ghost use Rattle.std.specs.List.{list_all, list_any};
ghost use Rattle.std.specs.Prelude.{◌≡◌, IfOk};
ghost use Rattle.spec_machine.specs.Values.{owns_val};
ghost use Rattle.law_plugins.specs.Meeting.{reach_of};
ghost use Rattle.wasm_plugins.specs.Guests.{is_function, is_within, first_outside};

use std::alloc::Global;
use store_reach::{NodeSet, reach_of};
use wasm_meter::{CallHooks, DeadlineBehaviour, HostData};
use wasm_store::{Node, Store, parts};
use wasm_types::OutOfMemory;
use wasm_values::{Extern, Val};

// Whether a value is of the store.
fn owns_val<T: HostData, K: CallHooks<T>, B: DeadlineBehaviour<T>>(
    store: &Store<T, K, B>,
    val: Val,
) -> bool
    ensures { result ≡ owns_val store.now.machine val }
{
    match val {
        Val::FuncRef(Some(func)) => parts::objects(store).owns_extern(Extern::Func(func)),
        _ => true,
    }
}

/// Whether each of these values is of the store.
pub(crate) fn are_owned<T: HostData, K: CallHooks<T>, B: DeadlineBehaviour<T>>(
    store: &Store<T, K, B>,
    vals: &[Val],
) -> bool
    ensures { result ≡ list_all (owns_val store.now.machine) vals.now }
{
    for val in vals {
        if !owns_val(store, *val) {
            return false;
        }
    }
    true
}

fn is_function(val: Val) -> bool
    ensures { result ≡ is_function val }
{
    match val {
        Val::FuncRef(Some(_)) => true,
        _ => false,
    }
}

fn has_function(vals: &[Val]) -> bool
    ensures { result ≡ list_any is_function vals.now }
{
    for val in vals {
        if is_function(*val) {
            return true;
        }
    }
    false
}

// Whether no function is in a value but one of a set.
fn is_within(set: &NodeSet, val: Val) -> bool
    ensures { result ≡ is_within set.now val }
{
    match val {
        Val::FuncRef(Some(func)) => set.contains(Node::Func(func.index())),
        _ => true,
    }
}

// The place of the first of these values in which a function is that is none of a set.
fn first_outside(set: &NodeSet, vals: &[Val]) -> Option<usize>
    ensures { result ≡ first_outside set.now 0 vals.now }
{
    for place in 0..vals.len() {
        if !is_within(set, vals[place]) {
            return Some(place);
        }
    }
    None
}

/// The place of the first of these values in which a function is that an instance does not reach. Where there is no
/// function in them, nothing is looked for.
pub(crate) fn first_foreign<T: HostData, K: CallHooks<T>, B: DeadlineBehaviour<T>>(
    alloc: Global,
    store: &Store<T, K, B>,
    instance: usize,
    vals: &[Val],
) -> Result<Option<usize>, OutOfMemory>
    ensures { IfOk result (λ place. place ≡ first_outside (reach_of store.now.machine instance) 0 vals.now) }
{
    if !has_function(vals) {
        return Ok(None);
    }
    let set = reach_of(alloc, store, &[Node::Instance(instance)])?;
    Ok(first_outside(&set, vals))
}
