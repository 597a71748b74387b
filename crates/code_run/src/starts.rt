ghost use Rattle.std.specs.Prelude.{◌≡◌, ◌++◌, ◌∷◌, [], IfOk, OnErr, OnOk};
ghost use Rattle.code_stack.specs.Values.{below, values_parts};
ghost use Rattle.code_run.specs.Starting.{Starts, Waits, StartsGuest, WaitsGuest};

use crate::calls::begin_locals;
use crate::thread::Thread;
use code_leaps::find_callee;
use code_stack::{Activation, Fault, HostCall, Stack, Step, Values, item};
use std::alloc::Global;
use store_state::{FunctionKind, Program};
use wasm_objects::RawVal;
use wasm_syntax::Instr;
use wasm_types::OutOfMemory;
use wasm_values::Trap;

/// A function of a store, as it was entered.
#[derive(Drop)]
pub enum Started<'p> {
    /// It is one of an instance, and its code is to be run.
    Runs(Thread<'p>),
    Fails(Fault),
    /// It is one of the host.
    Calls(HostCall<'p>),
}

// Adds these locals.
#[tactic(auto, using(crate::proofs::StartLemmas::added_more, crate::proofs::StartLemmas::added_all))]
fn add_locals(values: &mut Values, locals: &[RawVal]) -> Result<(), OutOfMemory>
    ensures { OnOk result (values.new ≡ values_parts values.old.operands (values.old.locals ++ locals.now)
        values.old.below values.old.room) }
{
    let mut rest = locals;
    'locals: while let Some((value, tail)) = rest.split_first() {
        values.add_local(*value)?;
        rest = tail;
    }
    Ok(())
}

// The values as a function begins on these arguments, with nothing around it.
fn first_values(alloc: Global, arguments: &[RawVal]) -> Result<Values, OutOfMemory>
    ensures operands { IfOk result (λ v. v.operands ≡ []) }
    ensures locals { IfOk result (λ v. v.locals ≡ arguments.now) }
    ensures below { IfOk result (λ v. v.below ≡ below ([] ∷ []) ([] ∷ [])) }
{
    let mut values = Values::new(alloc);
    if !values.enter(0)? {
        unreachable!();
    }
    add_locals(&mut values, arguments)?;
    Ok(values)
}

// A function of an instance.
fn start_guest<'p>(
    alloc: Global,
    program: &'p Program,
    instance: usize,
    number: usize,
    depth: usize,
    arguments: &[RawVal],
) -> Result<Started<'p>, OutOfMemory>
    ensures starts { IfOk result (λ s. StartsGuest program.now instance number depth arguments.now s) }
    ensures waits { OnErr result (WaitsGuest program.now instance number depth arguments.now) }
{
    // A program has each callee that a store names, with its body: code that was validated.
    let Some(callee) = find_callee(program, instance, number) else {
        return Ok(Started::Fails(Fault::Stuck));
    };
    let Some(body) = item(callee.function.blocks.as_slice(), 0) else {
        return Ok(Started::Fails(Fault::Stuck));
    };
    // Never wanting: fewer functions are open than there are frames.
    let Some(inner) = depth.checked_add(1) else {
        return Err(OutOfMemory);
    };
    let mut values = first_values(alloc, arguments)?;
    begin_locals(&mut values, callee.function.locals.as_slice())?;
    let activation = Activation {
        instance,
        module: callee.module,
        function: callee.function,
        results: callee.ty.results().len(),
        depth: inner,
    };
    Ok(Started::Runs(Thread {
        activation,
        code: body.instrs.as_slice(),
        layers: Stack::new(alloc),
        values,
        unchecked: true,
        step: Step::Goes,
        bulk: Instr::Nop,
        alloc,
    }))
}

/// Enters a function of a store, by its number, on these arguments, where `depth` functions are open around it. It runs
/// no code, and takes no turn.
///
/// `OutOfMemory` may come of a function of an instance alone.
pub fn start<'p>(
    alloc: Global,
    program: &'p Program,
    frames: usize,
    depth: usize,
    function: usize,
    arguments: &[RawVal],
) -> Result<Started<'p>, OutOfMemory>
    ensures starts { IfOk result (λ s. Starts program.now frames depth function arguments.now s) }
    ensures waits { OnErr result (Waits program.now frames depth function arguments.now) }
{
    if depth == frames {
        return Ok(Started::Fails(Fault::Trapped(Trap::StackOverflow)));
    }
    match program.function(function) {
        None => Ok(Started::Fails(Fault::Stuck)),
        Some(FunctionKind::Guest { instance, number }) => {
            let started = start_guest(alloc, program, instance, number, depth, arguments)?;
            Ok(started)
        }
        Some(FunctionKind::Host { ty, body, stored }) => {
            let call = HostCall { ty, body, stored };
            Ok(Started::Calls(call))
        }
    }
}
