ghost use Rattle.std.specs.List.{list_all};
ghost use Rattle.std.specs.Prelude.{◌≡◌, ◌≤◌, true, List, map, IfOk, IfErr, IsOk, Err, None};
ghost use Rattle.wasm_types.specs.FunctionParts.{results};
ghost use Rattle.wasm_types.specs.declared.value_types.ValType.{ValType as Kind};
ghost use Rattle.spec_machine.specs.FunctionCalls.{called};
ghost use Rattle.spec_machine.specs.Machine.{Machine};
ghost use Rattle.spec_machine.specs.Values.{raw_val, owns_val};
ghost use Rattle.spec_machine.specs.WellFormed.{IsWellFormed};
ghost use Rattle.store_state.specs.Engines.{engine_parts};
ghost use Rattle.code_hosts.specs.Asked.{outside_by};
ghost use Rattle.code_hosts.specs.Conditions.{IsPayable, StaysFormed};
ghost use Rattle.code_hosts.specs.Contexts.{HasRules, IsFormedIn, opened_in};
ghost use Rattle.code_hosts.specs.Entering.{calling};
ghost use Rattle.code_hosts.specs.Replies.{BreaksOff, Comes};
ghost use Rattle.wasm_call.specs.Asking.{IsFit, KeepsStore, outside_in};
ghost use Rattle.wasm_call.specs.Calls.{call_row, Returned, Failed, ResultsFit};
ghost use Rattle.wasm_call.specs.Invoking.{machine_in, store_in, bounds_in, IsSafe, IsUnstuck, Tells};
ghost use Rattle.wasm_call.specs.Invoking.{RunReplies, RunUnfinishes};
ghost use Rattle.wasm_call.specs.Operating.{Fits};
ghost use Rattle.wasm_call.specs.Outside.{asked, surrounded};

use crate::outside::Outside;
use code_hosts::{Bounds, How, Reply, RunContext, Unfinished, run_from_outside};
use code_run::Rules;
use std::alloc::Global;
use store_objects::{ObjectParts, SharedProgram};
use store_state::{Engine, Flags, Held, raw_val};
use wasm_host::{HostBody, values_at};
use wasm_meter::{CallHooks, DeadlineBehaviour, EpochSource, HostData};
use wasm_objects::RawVal;
use wasm_store::Store;
use wasm_store::parts::{put_objects, take_objects};
use wasm_types::{FuncType, OutOfMemory};
use wasm_values::{Func, Refusal, StoreId, Val};

/// A function that is to be called: its number in the store, its arguments, and the number of the instance whose code
/// calls, which a start function alone has.
#[derive(Clone, Copy)]
pub(crate) struct Invocation<'a> {
    pub(crate) number: usize,
    pub(crate) arguments: &'a [RawVal],
    pub(crate) caller: Option<usize>,
}

/// What a run of a function came to: its results, or why there are none, and how many turns it took.
#[derive(Drop)]
pub(crate) struct Ended {
    pub(crate) results: Result<Vec<Val>, Refusal>,
    pub(crate) turns: u64,
}

/// The values as a store holds them.
pub(crate) fn raw_values(alloc: Global, vals: &[Val]) -> Result<Vec<RawVal>, OutOfMemory>
    ensures { IfOk result (λ raws. raws.items ≡ map raw_val vals.now) }
{
    let mut raws = Vec::new(alloc);
    for val in vals {
        raws.push(raw_val(*val))?;
    }
    Ok(raws)
}

/// What a host is told of a run of a function of this type.
fn told(alloc: Global, id: StoreId, ty: &FuncType, how: How) -> Result<Vec<Val>, Refusal>
    requires { IsUnstuck how }
    ensures { (m : Machine) → m.id ≡ id → Tells m (results ty.now) how result }
{
    match how {
        How::Returned(raws) => match values_at(alloc, id, ty.results(), raws.as_slice()) {
            Ok(vals) => Ok(vals),
            Err(_) => Err(Refusal::OutOfMemory),
        },
        How::Trapped(trap) => Err(Refusal::Trap(trap)),
        How::Refused(why) => Err(why),
        How::TurnLimit => Err(Refusal::TurnLimit),
        How::Stuck => unreachable!(),
    }
}

/// What bounds a run: what the engine allows, whom the store asks, and so many turns.
fn bounds_of(engine: &Engine, flags: Flags, turns: u64) -> Bounds
    ensures { result ≡ bounds_in engine.now flags turns }
{
    Bounds {
        rules: Rules {
            frames: engine.frames() as usize,
            consumes_fuel: engine.consume_fuel(),
            reads_epochs: engine.epoch_interruption(),
            limited: flags.limited,
            behaving: flags.behaving,
        },
        hooked: flags.hooked,
        turns,
    }
}

/// Calls a function of the objects of a store, with what is outside lent to it: the loans stay what they are.
fn call_outside<
    T: HostData,
    K: CallHooks<T>,
    B: DeadlineBehaviour<T>,
    H: HostBody<T>,
    E: EpochSource,
>(
    context: &RunContext<'_>,
    held: &mut Held,
    world: &mut Outside<'_, T, K, B, H, E>,
    invocation: &Invocation<'_>,
) -> Result<Reply, Unfinished>
    requires few { context.now.bounds.turns ≤ 1000000000 }
    requires fuel { IsPayable context.now.bounds held.old.fuel context.now.bounds.turns }
    requires rules { HasRules context.now }
    requires kept { StaysFormed (asked T.growths H.has K.hooks B.behaves E.readings H.steps) (outside_in world.old)
        (opened_in context.now) (calling invocation.now.number invocation.now.arguments.now invocation.now.caller) held.old context.now.bounds.turns
        (IsFormedIn context.now) }
    requires fits { IsFit H.ready world.old context.now }
    ensures ready { H.ready world.new.host.now }
    ensures same_store { world.new.store.ghost_name ≡ world.old.store.ghost_name }
    ensures same_host { world.new.host.ghost_name ≡ world.old.host.ghost_name }
    ensures same_epochs { world.new.epochs.ghost_name ≡ world.old.epochs.ghost_name }
    ensures same_hold { world.new.program.ghost_name ≡ world.old.program.ghost_name }
    ensures store { KeepsStore world.old.store.now world.new.store.now }
    ensures replied { IfOk result (λ r. Comes (opened_in context.now)
        (asked T.growths H.has K.hooks B.behaves E.readings H.steps) (calling invocation.now.number invocation.now.arguments.now invocation.now.caller) held.old
        (outside_in world.old) context.now.bounds.turns r held.new (outside_in world.new)) }
    ensures unfinished { IfErr result (λ u. BreaksOff (opened_in context.now)
        (asked T.growths H.has K.hooks B.behaves E.readings H.steps) (calling invocation.now.number invocation.now.arguments.now invocation.now.caller) held.old
        (outside_in world.old) context.now.bounds.turns u held.new (outside_in world.new)) }
{
    run_from_outside(
        context,
        held,
        world,
        invocation.number,
        invocation.arguments,
        invocation.caller,
    )
}

/// The same, with a store, a host and a source of epochs that are lent for it, and a hold of what it reads.
fn call_lent<T: HostData, K: CallHooks<T>, B: DeadlineBehaviour<T>, H: HostBody<T>, E: EpochSource>(
    context: &RunContext<'_>,
    held: &mut Held,
    store: &mut Store<T, K, B>,
    host: &mut H,
    epochs: &mut E,
    program: &mut SharedProgram,
    invocation: &Invocation<'_>,
) -> Result<Reply, Unfinished>
    requires few { context.now.bounds.turns ≤ 1000000000 }
    requires fuel { IsPayable context.now.bounds held.old.fuel context.now.bounds.turns }
    requires rules { HasRules context.now }
    requires kept { StaysFormed (asked T.growths H.has K.hooks B.behaves E.readings H.steps)
        (outside_by store.old.host_data host.old epochs.old) (opened_in context.now)
        (calling invocation.now.number invocation.now.arguments.now invocation.now.caller) held.old
        context.now.bounds.turns (IsFormedIn context.now) }
    requires ready { H.ready host.old }
    requires program { program.old ≡ context.now.program.now }
    requires store { Fits store.old.machine context.now.bounds context.now.id (engine_parts context.now.engine.now) }
    ensures ready { H.ready host.new }
    ensures store { KeepsStore store.old store.new }
    ensures replied { IfOk result (λ r. Comes (opened_in context.now)
        (asked T.growths H.has K.hooks B.behaves E.readings H.steps)
        (calling invocation.now.number invocation.now.arguments.now invocation.now.caller) held.old
        (outside_by store.old.host_data host.old epochs.old) context.now.bounds.turns r held.new
        (outside_by store.new.host_data host.new epochs.new)) }
    ensures unfinished { IfErr result (λ u. BreaksOff (opened_in context.now)
        (asked T.growths H.has K.hooks B.behaves E.readings H.steps)
        (calling invocation.now.number invocation.now.arguments.now invocation.now.caller) held.old
        (outside_by store.old.host_data host.old epochs.old) context.now.bounds.turns u held.new
        (outside_by store.new.host_data host.new epochs.new)) }
{
    let mut world = Outside::new(store, host, epochs, program);
    call_outside(context, held, &mut world, invocation)
}

/// Runs a function on the objects that were taken out of a store, with at most so many turns. Where somebody is asked, the
/// store is, and bodies of functions of the host are stepped.
pub(crate) fn run_parts<
    T: HostData,
    K: CallHooks<T>,
    B: DeadlineBehaviour<T>,
    H: HostBody<T>,
    E: EpochSource,
>(
    parts: &mut ObjectParts,
    store: &mut Store<T, K, B>,
    host: &mut H,
    epochs: &mut E,
    invocation: &Invocation<'_>,
    turns: u64,
) -> Result<Reply, Unfinished>
    requires ready { H.ready host.old }
    requires formed { IsWellFormed (machine_in parts.old) }
    requires safe { (types : List Kind) × IsSafe (machine_in parts.old) invocation.now.number invocation.now.arguments.now invocation.now.caller types turns }
    requires few { turns ≤ 1000000000 }
    requires id { parts.old.id ≡ store.old.machine.id }
    requires engine { engine_parts parts.old.engine ≡ store.old.machine.engine }
    requires limiter { parts.old.flags.limited ≡ store.old.machine.is_limited }
    requires hook { parts.old.flags.hooked ≡ store.old.machine.is_hooked }
    requires behaviour { parts.old.flags.behaving ≡ store.old.machine.is_behaving }
    ensures ready { H.ready host.new }
    ensures replied { IfOk result (λ r. RunReplies (asked T.growths H.has K.hooks B.behaves E.readings H.steps)
        parts.old invocation.now.number invocation.now.arguments.now turns (outside_by store.old.host_data host.old epochs.old) parts.new.held
        (outside_by store.new.host_data host.new epochs.new) r invocation.now.caller) }
    ensures unfinished { IfErr result (λ u. RunUnfinishes (asked T.growths H.has K.hooks B.behaves E.readings H.steps)
        parts.old invocation.now.number invocation.now.arguments.now turns (outside_by store.old.host_data host.old epochs.old) parts.new.held
        (outside_by store.new.host_data host.new epochs.new) u invocation.now.caller) }
    ensures rest { parts.new ≡ record parts.old { held = parts.new.held } }
    ensures store { store.new ≡ record store.old { host_data = store.new.host_data } }
{
    let Ok(program) = parts.program.share(parts.alloc) else {
        return Err(Unfinished { turns: 0 });
    };
    // Operations of bodies put the objects of the run into the store, which has none of its own meanwhile.
    let own = take_objects(store);
    let ended = {
        let context = RunContext {
            alloc: parts.alloc,
            program: parts.program.get(),
            id: parts.id,
            engine: &parts.engine,
            bounds: bounds_of(&parts.engine, parts.flags, turns),
        };
        let mut program = SharedProgram::of_shared(program);
        call_lent(
            &context,
            &mut parts.held,
            store,
            host,
            epochs,
            &mut program,
            invocation,
        )
    };
    put_objects(store, own);
    parts.program.unshare(parts.alloc);
    ended
}

/// There was no memory after so many turns.
fn unfinished_after(turns: u64) -> Ended
    ensures results { result.results ≡ Err Refusal.OutOfMemory }
    ensures turns { result.turns ≡ turns }
{
    Ended {
        results: Err(Refusal::OutOfMemory),
        turns,
    }
}

/// Runs a function on the objects that were taken out of a store, where the conditions of the call hold.
pub(crate) fn run_function<
    T: HostData,
    K: CallHooks<T>,
    B: DeadlineBehaviour<T>,
    H: HostBody<T>,
    E: EpochSource,
>(
    parts: &mut ObjectParts,
    store: &mut Store<T, K, B>,
    host: &mut H,
    epochs: &mut E,
    func: Func,
    args: &[Val],
) -> Ended
    requires ready { H.ready host.old }
    requires formed { IsWellFormed (machine_in parts.old) }
    requires allowed { IsOk (called (machine_in parts.old) func args.now None) }
    requires id { parts.old.id ≡ store.old.machine.id }
    requires engine { engine_parts parts.old.engine ≡ store.old.machine.engine }
    requires limiter { parts.old.flags.limited ≡ store.old.machine.is_limited }
    requires hook { parts.old.flags.hooked ≡ store.old.machine.is_hooked }
    requires behaviour { parts.old.flags.behaving ≡ store.old.machine.is_behaving }
    ensures ready { H.ready host.new }
    ensures returned { IfOk result.results (λ vals. Returned (asked T.growths H.has K.hooks B.behaves E.readings H.steps)
        (call_row (machine_in parts.old) func args.now None)
        (surrounded (store_in parts.old 0 store.old.host_data) host.old epochs.old) vals.items
        (surrounded (store_in parts.new result.turns store.new.host_data) host.new epochs.new)) }
    ensures failed { IfErr result.results (λ why. Failed (asked T.growths H.has K.hooks B.behaves E.readings H.steps)
        (call_row (machine_in parts.old) func args.now None)
        (surrounded (store_in parts.old 0 store.old.host_data) host.old epochs.old) why
        (surrounded (store_in parts.new result.turns store.new.host_data) host.new epochs.new)) }
    ensures fit { IfOk result.results (λ vals.
        ResultsFit (machine_in parts.old) func (machine_in parts.new) vals.items) }
    ensures owned { IfOk result.results (λ vals. list_all (owns_val (machine_in parts.new)) vals.items ≡ true) }
    ensures formed { IsWellFormed (machine_in parts.new) }
    ensures rest { parts.new ≡ record parts.old { held = parts.new.held } }
    ensures store { store.new ≡ record store.old { host_data = store.new.host_data } }
{
    let Ok(arguments) = raw_values(parts.alloc, args) else {
        return unfinished_after(0);
    };
    let turns = parts.engine.turns();
    let number = func.index();
    let invocation = Invocation {
        number,
        arguments: arguments.as_slice(),
        caller: None,
    };
    match run_parts(parts, store, host, epochs, &invocation, turns) {
        Err(unfinished) => unfinished_after(unfinished.turns),
        Ok(reply) => {
            let Some(ty) = parts.program.get().function_type(number) else {
                unreachable!();
            };
            Ended {
                results: told(parts.alloc, parts.id, ty, reply.how),
                turns: reply.turns,
            }
        }
    }
}
