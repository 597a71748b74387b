//! Whether values that a body of the host returns are results of its function.
ghost use Rattle.std.specs.Prelude.{◌≡◌, ◌&&◌, true};
ghost use Rattle.std.specs.List.{list_all};
ghost use Rattle.spec_machine.specs.Machine.{Machine};
ghost use Rattle.spec_machine.specs.Values.{owns_val, val_fits, all_fit};
ghost use Rattle.spec_machine.specs.WellFormed.{IsWellFormed};
ghost use Rattle.code_hosts.specs.Contexts.{HasRules, IsFormedIn, KeepsStores, opened_in};
ghost use Rattle.wasm_call.specs.Results.{flags_of, own_machine};

use code_hosts::{Bounds, RunContext};
use std::mem;
use store_objects::{ObjectParts, Objects, SharedProgram};
use store_state::{Flags, Held};
use wasm_types::ValType;
use wasm_values::Val;

/// Whether a value is a number of this type.
fn is_number(ty: &ValType, val: Val) -> bool
    ensures { result ≡ true → (m : Machine) → (owns_val m val ≡ true) × (val_fits m val ty.now ≡ true) }
{
    match (ty, val) {
        (ValType::I32, Val::I32(_)) => true,
        (ValType::I64, Val::I64(_)) => true,
        (ValType::F32, Val::F32(_)) => true,
        (ValType::F64, Val::F64(_)) => true,
        (ValType::V128, Val::V128(_)) => true,
        _ => false,
    }
}

/// Whether there are as many values as types, each a number of its type: numbers are of every store.
fn are_numbers(types: &[ValType], vals: &[Val]) -> bool
    ensures { result ≡ true → (m : Machine) →
        (list_all (owns_val m) vals.now ≡ true) × (all_fit m vals.now types.now ≡ true) }
{
    let mut wanted = types;
    let mut rest = vals;
    while let Some((ty, further)) = wanted.split_first() {
        let Some((val, tail)) = rest.split_first() else {
            return false;
        };
        if !is_number(ty, *val) {
            return false;
        }
        wanted = further;
        rest = tail;
    }
    rest.is_empty()
}

/// Whom the store of a call asks.
fn flags_of(bounds: &Bounds) -> Flags
    ensures { result ≡ flags_of bounds.now }
{
    Flags {
        limited: bounds.rules.limited,
        hooked: bounds.hooked,
        behaving: bounds.rules.behaving,
    }
}

/// Whether there are as many values as types, each of the store of a call and of its type. What the call reads and what it
/// changes are put together meanwhile.
fn fit_store(
    program: &mut SharedProgram,
    context: &RunContext<'_>,
    held: &mut Held,
    types: &[ValType],
    vals: &[Val],
) -> bool
    requires formed { IsWellFormed (own_machine context.now program.old held.old) }
    ensures are { result ≡ list_all (owns_val (own_machine context.now program.old held.old)) vals.now
        && all_fit (own_machine context.now program.old held.old) vals.now types.now }
    ensures program { program.new ≡ program.old }
    ensures stays { own_machine context.now program.old held.new ≡ own_machine context.now program.old held.old }
{
    let objects = Objects::from_parts(ObjectParts {
        alloc: context.alloc,
        id: context.id,
        engine: *context.engine,
        flags: flags_of(&context.bounds),
        program: mem::replace(program, SharedProgram::new(context.alloc)),
        held: mem::replace(held, Held::new(context.alloc)),
    });
    let are = objects.are_results(vals, types);
    let parts = objects.into_parts();
    *program = parts.program;
    *held = parts.held;
    are
}

/// Whether there are as many values as types, each of the store of a call and of its type. Numbers are tested without the
/// store. `program` is what the call reads, held by itself.
pub(crate) fn are_results(
    program: &mut SharedProgram,
    context: &RunContext<'_>,
    held: &mut Held,
    types: &[ValType],
    vals: &[Val],
) -> bool
    requires program { program.old ≡ context.now.program.now }
    requires rules { HasRules context.now }
    requires formed { IsFormedIn context.now held.old }
    ensures are { (base : Machine) → (opened_in context.now).is_base base →
        (list_all (owns_val ((opened_in context.now).put base held.old)) vals.now
        && all_fit ((opened_in context.now).put base held.old) vals.now types.now) ≡ result }
    ensures program { program.new ≡ program.old }
    ensures stays { KeepsStores (opened_in context.now) held.old held.new }
{
    if are_numbers(types, vals) {
        return true;
    }
    fit_store(program, context, held, types, vals)
}
