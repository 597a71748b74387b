ghost use Rattle.std.specs.Prelude.{◌≡◌, ◌≤◌, ⊤, Err, IfOk};
ghost use Rattle.wasm_types.specs.Each.{Each};
ghost use Rattle.wasm_syntax.specs.declared.declarations.TableDecl.{TableDecl as Declared};
ghost use Rattle.law_store.specs.Granted.{IsGranted};
ghost use Rattle.spec_execution.specs.Instantiation.{new_memory_plan, new_table_plan};
ghost use Rattle.spec_machine.specs.Growth.{Plan};
ghost use Rattle.spec_machine.specs.Machine.{Machine};
ghost use Rattle.store_state.specs.Growing.{plan_says};
ghost use Rattle.wasm_instance.specs.Asking.{growing, growing_memories, growing_tables, growing_all, Comes, AreGranted, CountsQuestion};

use instance_parts::{new_memory_rule, new_table_rule};
use wasm_meter::{CallHooks, DeadlineBehaviour, HostData};
use wasm_module::{ModuleDecl, TableDecl};
use wasm_store::{GrowthRule, Store, parts};
use wasm_types::MemoryType;
use wasm_values::Refusal;

// Counts the turn of a question, where there is one: `TurnLimit` where so many turns were made already.
fn count_question<T: HostData, K: CallHooks<T>, B: DeadlineBehaviour<T>>(
    store: &mut Store<T, K, B>,
    rule: &GrowthRule,
    most: u64,
) -> Result<(), Refusal>
    requires { store.old.turns ≤ most }
    ensures { CountsQuestion rule.now most store.old result store.new }
{
    let turns = store.turns();
    match rule {
        GrowthRule::Asks(_) => {
            if turns == most {
                return Err(Refusal::TurnLimit);
            }
            parts::set_turns(store, turns + 1);
            Ok(())
        }
        _ => Ok(()),
    }
}

// Decides a growth by its rule, with the question to the limiter, which is a turn, where it is to be asked.
fn decide_growth<T: HostData, K: CallHooks<T>, B: DeadlineBehaviour<T>>(
    store: &mut Store<T, K, B>,
    rule: &GrowthRule,
    most: u64,
) -> Result<(), Refusal>
    requires { store.old.turns ≤ most }
    ensures comes { (m : Machine) (plan_in : Machine → Plan ⊤) → rule.now ≡ plan_says m (plan_in m) →
        Comes T.growths m (growing plan_in) most store.old result store.new }
    ensures granted { (m : Machine) (plan_in : Machine → Plan ⊤) → rule.now ≡ plan_says m (plan_in m) →
        IfOk result (λ _. IsGranted m (plan_in m)) }
    ensures told { ¬ (result ≡ Err Refusal.OutOfMemory) }
    ensures machine { store.new.machine ≡ store.old.machine }
    ensures within { store.new.turns ≤ most }
{
    count_question(store, rule, most)?;
    parts::settle(store, rule)
}

// Decides the growths of memories of these types from nothing, in order.
fn grow_memories<T: HostData, K: CallHooks<T>, B: DeadlineBehaviour<T>>(
    store: &mut Store<T, K, B>,
    limited: bool,
    types: &[MemoryType],
    most: u64,
) -> Result<(), Refusal>
    requires { store.old.turns ≤ most }
    ensures comes { (m : Machine) → m.is_limited ≡ limited →
        Comes T.growths m (growing_memories types.now) most store.old result store.new }
    ensures granted { (m : Machine) → m.is_limited ≡ limited →
        IfOk result (λ _. Each types.now (λ ty. IsGranted m (new_memory_plan m ty))) }
    ensures told { ¬ (result ≡ Err Refusal.OutOfMemory) }
    ensures machine { store.new.machine ≡ store.old.machine }
    ensures within { store.new.turns ≤ most }
{
    let mut rest = types;
    'memories: while let Some((ty, tail)) = rest.split_first() {
        let rule = new_memory_rule(limited, ty);
        decide_growth(store, &rule, most)?;
        rest = tail;
    }
    Ok(())
}

// Decides the growths of these tables from nothing, in order.
fn grow_tables<T: HostData, K: CallHooks<T>, B: DeadlineBehaviour<T>>(
    store: &mut Store<T, K, B>,
    limited: bool,
    tables: &[TableDecl],
    most: u64,
) -> Result<(), Refusal>
    requires { store.old.turns ≤ most }
    ensures comes { (m : Machine) → m.is_limited ≡ limited →
        Comes T.growths m (growing_tables tables.now) most store.old result store.new }
    ensures granted { (m : Machine) → m.is_limited ≡ limited →
        IfOk result (λ _. Each tables.now (λ (t : Declared). IsGranted m (new_table_plan m t.ty))) }
    ensures told { ¬ (result ≡ Err Refusal.OutOfMemory) }
    ensures machine { store.new.machine ≡ store.old.machine }
    ensures within { store.new.turns ≤ most }
{
    let mut rest = tables;
    'tables: while let Some((table, tail)) = rest.split_first() {
        let rule = new_table_rule(limited, table);
        decide_growth(store, &rule, most)?;
        rest = tail;
    }
    Ok(())
}

/// Decides the growths of the new memories of a module, and then those of its tables, from nothing to their minimum:
/// each by its rule, or by the limiter, where the store is limited. Each question counts a turn.
///
/// `TurnLimit` where one is due and so many turns were made, `GrowFailed` where a growth is denied, and `LimiterFault`
/// where the limiter failed.
pub(crate) fn grow_all<T: HostData, K: CallHooks<T>, B: DeadlineBehaviour<T>>(
    store: &mut Store<T, K, B>,
    limited: bool,
    decl: &ModuleDecl,
    most: u64,
) -> Result<(), Refusal>
    requires { store.old.turns ≤ most }
    ensures comes { (m : Machine) → m.is_limited ≡ limited →
        Comes T.growths m (growing_all decl.now) most store.old result store.new }
    ensures granted { (m : Machine) → m.is_limited ≡ limited → IfOk result (λ _. AreGranted m decl.now) }
    ensures told { ¬ (result ≡ Err Refusal.OutOfMemory) }
    ensures machine { store.new.machine ≡ store.old.machine }
    ensures within { store.new.turns ≤ most }
{
    grow_memories(store, limited, decl.memories.as_slice(), most)?;
    grow_tables(store, limited, decl.tables.as_slice(), most)
}
