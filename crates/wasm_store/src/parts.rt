//! What the crates above need of a store: each growth as its rule, the question to the limiter and the act; calls that
//! take a value that may be no reference; what is asked before a call; and the count of turns. No embedder needs them.
ghost use Rattle.std.specs.Prelude.{◌≡◌, true, false, Ok};
ghost use Rattle.wasm_meter.specs.declared.deadline.UpdateDeadline.TheVariants.{Interrupt};
ghost use Rattle.spec_machine.specs.FuelCalls.{move_deadline};
ghost use Rattle.spec_machine.specs.FunctionCalls.{called};
ghost use Rattle.spec_machine.specs.InstanceCalls.{get_export};
ghost use Rattle.spec_machine.specs.MemoryCalls.{memory_new, memory_grow};
ghost use Rattle.spec_machine.specs.TableCalls.{table_new, table_set, table_fill, table_grow};
ghost use Rattle.spec_machine.specs.WellFormed.{IsWellFormed};
ghost use Rattle.store_state.specs.Calls.{Changes};
ghost use Rattle.store_state.specs.Growing.{growth_of, plan_says, due_says, Acts, IsDue};
ghost use Rattle.store_state.specs.Conditions.{conditions};
ghost use Rattle.store_state.specs.Machine.{run_machine};
ghost use Rattle.store_objects.specs.Machines.{emptied};
ghost use Rattle.wasm_store.specs.Growths.{Settles};
ghost use Rattle.wasm_store.specs.Stores.{KeepsRest};

use crate::store::Store;
use std::alloc::Global;
use std::mem;
use store_objects::{Objects, SharedProgram};
use store_state::{Growable, GrowthQuestion, GrowthRule, Held};
use wasm_meter::{
    BehaviourFailed, CallHook, CallHooks, DeadlineBehaviour, HookFailed, HostData, LimiterFailed,
    UpdateDeadline,
};
use wasm_types::{MemoryType, OutOfMemory, TableType};
use wasm_values::{Extern, Func, Instance, Memory, Ref, Refusal, Table, Val};

/// Asks the limiter.
pub fn ask<T: HostData, K: CallHooks<T>, B: DeadlineBehaviour<T>>(
    store: &mut Store<T, K, B>,
    question: &GrowthQuestion,
) -> Result<bool, LimiterFailed>
    ensures asked { T.growths store.old.host_data (growth_of question.now) result store.new.host_data }
    ensures machine { store.new.machine ≡ store.old.machine }
    ensures turns { store.new.turns ≡ store.old.turns }
{
    let (current, desired) = (question.current, question.desired);
    match question.object {
        Growable::Memory => store
            .host_data
            .memory_growing(current, desired, question.maximum),
        Growable::Table => store
            .host_data
            .table_growing(current, desired, question.maximum),
    }
}

/// Tells the hook of the store, where it has one. Where it has none nobody is told, and the answer is `Ok`.
pub fn ask_hook<T: HostData, K: CallHooks<T>, B: DeadlineBehaviour<T>>(
    store: &mut Store<T, K, B>,
    event: CallHook,
) -> Result<(), HookFailed>
    ensures asked { store.old.machine.is_hooked ≡ true →
        K.hooks store.old.host_data event result store.new.host_data }
    ensures unasked { store.old.machine.is_hooked ≡ false →
        (result ≡ Ok tt) × (store.new.host_data ≡ store.old.host_data) }
    ensures machine { store.new.machine ≡ store.old.machine }
    ensures turns { store.new.turns ≡ store.old.turns }
{
    let Some(hook) = &store.hook else {
        return Ok(());
    };
    hook.ask_hook(&mut store.host_data, event)
}

/// Asks the deadline behaviour of the store, where it has one. Where it has none nobody is asked, and a guest at or past
/// the deadline is to be interrupted.
pub fn ask_behaviour<T: HostData, K: CallHooks<T>, B: DeadlineBehaviour<T>>(
    store: &mut Store<T, K, B>,
) -> Result<UpdateDeadline, BehaviourFailed>
    ensures asked { store.old.machine.is_behaving ≡ true →
        B.behaves store.old.host_data result store.new.host_data }
    ensures unasked { store.old.machine.is_behaving ≡ false →
        (result ≡ Ok Interrupt) × (store.new.host_data ≡ store.old.host_data) }
    ensures machine { store.new.machine ≡ store.old.machine }
    ensures turns { store.new.turns ≡ store.old.turns }
{
    let Some(behaviour) = &store.behaviour else {
        return Ok(UpdateDeadline::Interrupt);
    };
    behaviour.ask_behaviour(&mut store.host_data)
}

/// Whether a growth is granted: the limiter is asked where it is to be.
pub fn settle<T: HostData, K: CallHooks<T>, B: DeadlineBehaviour<T>>(
    store: &mut Store<T, K, B>,
    rule: &GrowthRule,
) -> Result<(), Refusal>
    ensures settles { Settles T.growths rule.now store.old.host_data result store.new.host_data }
    ensures machine { store.new.machine ≡ store.old.machine }
    ensures turns { store.new.turns ≡ store.old.turns }
{
    match rule {
        GrowthRule::Grows => Ok(()),
        GrowthRule::Fails => Err(Refusal::GrowFailed),
        GrowthRule::Asks(question) => {
            let answer = ask(store, question);
            question.decide(answer)
        }
    }
}

/// What is said of a new memory.
pub fn memory_new_rule<T: HostData, K: CallHooks<T>, B: DeadlineBehaviour<T>>(
    store: &Store<T, K, B>,
    ty: &MemoryType,
) -> GrowthRule
    ensures { result ≡ plan_says store.now.machine (memory_new store.now.machine ty.now) }
{
    store.objects.memory_new_rule(ty)
}

/// Makes a memory that was granted.
pub fn memory_new<T: HostData, K: CallHooks<T>, B: DeadlineBehaviour<T>>(
    store: &mut Store<T, K, B>,
    ty: MemoryType,
) -> Result<Memory, OutOfMemory>
    requires { IsDue store.old.machine (Ok (memory_new store.old.machine ty)) }
    ensures acts { Acts (Ok (memory_new store.old.machine ty)) store.old.machine result store.new.machine }
    ensures rest { KeepsRest store.old store.new }
{
    store.objects.memory_new(ty)
}

/// What is said of a memory that is to have `delta` more pages.
pub fn memory_grow_rule<T: HostData, K: CallHooks<T>, B: DeadlineBehaviour<T>>(
    store: &Store<T, K, B>,
    memory: Memory,
    delta: u64,
) -> Result<GrowthRule, Refusal>
    ensures { result ≡ due_says store.now.machine (memory_grow store.now.machine memory delta) }
{
    store.objects.memory_grow_rule(memory, delta)
}

/// Adds pages that were granted.
pub fn memory_grow<T: HostData, K: CallHooks<T>, B: DeadlineBehaviour<T>>(
    store: &mut Store<T, K, B>,
    memory: Memory,
    delta: u64,
) -> Result<u64, OutOfMemory>
    requires { IsDue store.old.machine (memory_grow store.old.machine memory delta) }
    ensures acts { Acts (memory_grow store.old.machine memory delta) store.old.machine result store.new.machine }
    ensures rest { KeepsRest store.old store.new }
{
    store.objects.memory_grow(memory, delta)
}

/// What is said of a new table.
pub fn table_new_rule<T: HostData, K: CallHooks<T>, B: DeadlineBehaviour<T>>(
    store: &Store<T, K, B>,
    ty: &TableType,
    init: Option<Ref>,
) -> Result<GrowthRule, Refusal>
    ensures { result ≡ due_says store.now.machine (table_new store.now.machine ty.now init) }
{
    store.objects.table_new_rule(ty, init)
}

/// Makes a table that was granted.
pub fn table_new<T: HostData, K: CallHooks<T>, B: DeadlineBehaviour<T>>(
    store: &mut Store<T, K, B>,
    ty: TableType,
    init: Option<Ref>,
) -> Result<Table, OutOfMemory>
    requires { IsDue store.old.machine (table_new store.old.machine ty init) }
    ensures acts { Acts (table_new store.old.machine ty init) store.old.machine result store.new.machine }
    ensures rest { KeepsRest store.old store.new }
{
    store.objects.table_new(ty, init)
}

/// What is said of a table that is to have `delta` more elements.
pub fn table_grow_rule<T: HostData, K: CallHooks<T>, B: DeadlineBehaviour<T>>(
    store: &Store<T, K, B>,
    table: Table,
    delta: u64,
    init: Option<Ref>,
) -> Result<GrowthRule, Refusal>
    ensures { result ≡ due_says store.now.machine (table_grow store.now.machine table delta init) }
{
    store.objects.table_grow_rule(table, delta, init)
}

/// Adds elements that were granted.
pub fn table_grow<T: HostData, K: CallHooks<T>, B: DeadlineBehaviour<T>>(
    store: &mut Store<T, K, B>,
    table: Table,
    delta: u64,
    init: Option<Ref>,
) -> Result<u64, OutOfMemory>
    requires { IsDue store.old.machine (table_grow store.old.machine table delta init) }
    ensures acts { Acts (table_grow store.old.machine table delta init) store.old.machine result store.new.machine }
    ensures rest { KeepsRest store.old store.new }
{
    store.objects.table_grow(table, delta, init)
}

/// As `TableCalls::set`; a value that is no reference fits no table.
pub fn table_set<T: HostData, K: CallHooks<T>, B: DeadlineBehaviour<T>>(
    store: &mut Store<T, K, B>,
    table: Table,
    at: u64,
    value: Option<Ref>,
) -> Result<(), Refusal>
    ensures machine { Changes (table_set store.old.machine table at value)
        store.old.machine result store.new.machine }
    ensures rest { KeepsRest store.old store.new }
{
    store.objects.table_set(table, at, value)
}

/// As `TableCalls::fill`; a value that is no reference fits no table.
pub fn table_fill<T: HostData, K: CallHooks<T>, B: DeadlineBehaviour<T>>(
    store: &mut Store<T, K, B>,
    table: Table,
    at: u64,
    value: Option<Ref>,
    len: u64,
) -> Result<(), Refusal>
    ensures machine { Changes (table_fill store.old.machine table at value len)
        store.old.machine result store.new.machine }
    ensures rest { KeepsRest store.old store.new }
{
    store.objects.table_fill(table, at, value, len)
}

/// Moves the deadline to so many ticks past a reading of the epoch.
pub fn move_deadline<T: HostData, K: CallHooks<T>, B: DeadlineBehaviour<T>>(
    store: &mut Store<T, K, B>,
    reading: u64,
    ticks: u64,
)
    ensures { store.new ≡ record store.old { machine = move_deadline store.old.machine ticks reading } }
{
    store.objects.set_deadline(reading, ticks);
}

/// Makes this the number of turns that the store tells.
pub fn set_turns<T: HostData, K: CallHooks<T>, B: DeadlineBehaviour<T>>(
    store: &mut Store<T, K, B>,
    turns: u64,
)
    ensures { store.new ≡ record store.old { turns = turns } }
{
    store.turns = turns;
}

/// The allocator of the store.
pub fn allocator<T: HostData, K: CallHooks<T>, B: DeadlineBehaviour<T>>(
    store: &Store<T, K, B>,
) -> Global {
    store.objects.allocator()
}

/// What is asked before a function is called with these arguments, where `results` may say how many results there are to
/// be: `WrongStore`, then `ArgumentCount`, `ResultCount` and `TypeMismatch`.
pub fn may_call<T: HostData, K: CallHooks<T>, B: DeadlineBehaviour<T>>(
    store: &Store<T, K, B>,
    func: Func,
    args: &[Val],
    results: Option<u64>,
) -> Result<(), Refusal>
    ensures { result ≡ conditions (called store.now.machine func args.now results) }
{
    store.objects.may_call(func, args, results)
}

/// The object that an instance exports under a name.
pub fn get_export<T: HostData, K: CallHooks<T>, B: DeadlineBehaviour<T>>(
    store: &Store<T, K, B>,
    instance: Instance,
    name: &str,
) -> Result<Extern, Refusal>
    ensures { result ≡ get_export store.now.machine instance name.now }
{
    store.objects.get_export(instance, name)
}

/// The store's objects, taken out of it, so that code runs on them while the limiter is asked. In their place the store
/// has no objects; it asks whom it asked.
pub fn take_objects<T: HostData, K: CallHooks<T>, B: DeadlineBehaviour<T>>(
    store: &mut Store<T, K, B>,
) -> Objects
    ensures taken { result ≡ store.old.machine }
    ensures left { store.new ≡ record store.old { machine = emptied store.old.machine } }
{
    let objects = store.objects.emptied();
    mem::replace(&mut store.objects, objects)
}

/// Makes these the store's objects, which ask whom the store asks.
pub fn put_objects<T: HostData, K: CallHooks<T>, B: DeadlineBehaviour<T>>(
    store: &mut Store<T, K, B>,
    objects: Objects,
)
    requires hook { objects.is_hooked ≡ store.old.machine.is_hooked }
    requires behaviour { objects.is_behaving ≡ store.old.machine.is_behaving }
    ensures { store.new ≡ record store.old { machine = objects } }
{
    store.objects = objects;
}

/// These become what a run reads and what it changes of a store that has no objects.
pub fn refill<T: HostData, K: CallHooks<T>, B: DeadlineBehaviour<T>>(
    store: &mut Store<T, K, B>,
    program: SharedProgram,
    held: Held,
)
    requires { IsWellFormed (run_machine store.old.machine program held) }
    ensures { store.new ≡ record store.old { machine = run_machine store.old.machine program held } }
{
    store.objects.refill(program, held);
}

/// The store's objects, lent.
pub fn objects<T: HostData, K: CallHooks<T>, B: DeadlineBehaviour<T>>(
    store: &Store<T, K, B>,
) -> &Objects
    ensures { result.now ≡ store.now.machine }
{
    &store.objects
}
