//! The store of a script before its first command.
ghost use Rattle.std.specs.Prelude.{◌≡◌, true, false, IfOk};
ghost use Rattle.spec_machine.specs.Machine.{new_machine, are_engine_limits};
ghost use Rattle.store_state.specs.Engines.{engine_parts};
ghost use Rattle.wasm_run.specs.Starts.{Starts, first_id, script_engine, limited_by};
ghost use Rattle.wasm_store.specs.Stores.{store_parts};

use script_commands::{HostAnswers, ScriptEngine};
use script_data::{ScriptBehaviour, ScriptData, ScriptHook};
use std::alloc::Global;
use wasm_store::{Engine, Store};
use wasm_types::{EngineId, OutOfMemory};
use wasm_values::StoreIds;

/// The store of a script: it keeps the script's data, and may have a hook and a deadline behaviour.
pub type ScriptStore = Store<ScriptData, ScriptHook, ScriptBehaviour>;

/// The number of a script's engine.
const ENGINE: u64 = 1;

/// The engine of a script.
pub fn new_engine(asked: ScriptEngine) -> Engine
    requires { are_engine_limits asked.frames asked.turns ≡ true }
    ensures { engine_parts result ≡ script_engine asked }
{
    match Engine::new(
        EngineId(ENGINE),
        asked.consumes_fuel,
        asked.reads_epochs,
        asked.frames,
        asked.turns,
    ) {
        Some(engine) => engine,
        None => unreachable!(),
    }
}

/// A store without objects, which asks nobody.
fn empty_store(alloc: Global, asked: ScriptEngine, host_data: ScriptData) -> ScriptStore
    requires { are_engine_limits asked.frames asked.turns ≡ true }
    ensures { result ≡ store_parts (new_machine first_id (script_engine asked)) 0 host_data }
{
    let mut ids = StoreIds::new();
    match Store::try_new(alloc, &mut ids, new_engine(asked), host_data) {
        Ok(store) => store,
        Err(_) => unreachable!(),
    }
}

/// Has the store ask its limiter, or not.
fn limit(store: &mut ScriptStore, asks: bool)
    ensures { store.new ≡ record store.old { machine = limited_by asks store.old.host_data store.old.machine } }
{
    if asks {
        store.limiter();
    }
}

/// Has the store tell this hook, or none.
fn hook_in(store: &mut ScriptStore, asks: bool, hook: ScriptHook)
    requires { store.old.machine.is_hooked ≡ false }
    ensures { store.new ≡ record store.old { machine = record store.old.machine { is_hooked = asks } } }
{
    if asks {
        store.call_hook(hook);
    }
}

/// Has the store ask this deadline behaviour, or none.
fn behave_by(store: &mut ScriptStore, asks: bool, behaviour: ScriptBehaviour)
    requires { store.old.machine.is_behaving ≡ false }
    ensures { store.new ≡ record store.old { machine = record store.old.machine { is_behaving = asks } } }
{
    if asks {
        store.epoch_deadline_callback(behaviour);
    }
}

/// The store of a script before its first command, for the script's engine: its data gives the script's answers, and it
/// asks a limiter, this hook and this behaviour where the script has answers of one.
pub(crate) fn new_store(
    alloc: Global,
    asked: ScriptEngine,
    answers: HostAnswers,
    hook: ScriptHook,
    behaviour: ScriptBehaviour,
) -> Result<ScriptStore, OutOfMemory>
    requires { are_engine_limits asked.frames asked.turns ≡ true }
    ensures { IfOk result (λ store. Starts asked answers store) }
{
    let limits = answers.limiter.is_some();
    let hooks = answers.hook.is_some();
    let behaves = answers.deadline.is_some();
    let host_data = ScriptData::with_answers(alloc, answers)?;
    let mut store = empty_store(alloc, asked, host_data);
    limit(&mut store, limits);
    hook_in(&mut store, hooks, hook);
    behave_by(&mut store, behaves, behaviour);
    Ok(store)
}
