//! The store of a script before its first command: one that is recorded, and one that is replayed.
ghost use Rattle.std.specs.Prelude.{◌≡◌, true, IfOk};
ghost use Rattle.spec_machine.specs.Machine.{are_engine_limits, new_machine};
ghost use Rattle.wasm_store.specs.Stores.{store_parts};
ghost use Rattle.wasm_tape.specs.Parts.{parts_of};
ghost use Rattle.wasm_run.specs.Starts.{first_id, script_engine};
ghost use Rattle.replay_run.specs.Starts.{limited_if, most_of, IsRecordedStart, IsReplayedStart, IsUnhooked};

use script_commands::{HostAnswers, LimiterAnswers, ScriptEngine};
use script_data::ScriptData;
use std::alloc::Global;
use wasm_meter::HostData;
use wasm_replay::{Recorded, Replayed};
use wasm_run::new_engine;
use wasm_store::Store;
use wasm_tape::Tape;
use wasm_types::OutOfMemory;
use wasm_values::StoreIds;

/// Room for the answers of the limiter, and for the readings of the epoch.
pub(crate) const ROOM: usize = 1_000_000;

/// How many instances, tables and memories there may be, each, where a script has no limiter.
const MOST_OBJECTS: usize = 10_000;

/// A store without objects, which asks nobody.
fn empty_store<T: HostData>(alloc: Global, asked: ScriptEngine, host_data: T) -> Store<T>
    requires { are_engine_limits asked.frames asked.turns ≡ true }
    ensures { result ≡ store_parts (new_machine first_id (script_engine asked)) 0 host_data }
{
    let mut ids = StoreIds::new();
    match Store::try_new(alloc, &mut ids, new_engine(asked), host_data) {
        Ok(store) => store,
        Err(_) => unreachable!(),
    }
}

/// Has the store ask its limiter, or not.
fn limit<T: HostData>(store: &mut Store<T>, asks: bool)
    ensures { store.new ≡ record store.old {
      machine = limited_if asks (T.instances store.old.host_data)
          (T.memories store.old.host_data) (T.tables store.old.host_data) store.old.machine;
    } }
{
    if asks {
        store.limiter();
    }
}

/// The store of a script that is recorded.
#[tactic(auto, using(crate::proofs::StoreLemmas::recorded_start))]
pub(crate) fn recorded_store(
    alloc: Global,
    asked: ScriptEngine,
    answers: HostAnswers,
) -> Result<Store<Recorded<ScriptData>>, OutOfMemory>
    requires limits { are_engine_limits asked.frames asked.turns ≡ true }
    requires unhooked { IsUnhooked answers }
    ensures { IfOk result (λ store. IsRecordedStart asked answers store) }
{
    let asks = answers.limiter.is_some();
    let host_data = Recorded::new(alloc, ScriptData::with_answers(alloc, answers)?, ROOM)?;
    let mut store = empty_store(alloc, asked, host_data);
    limit(&mut store, asks);
    Ok(store)
}

/// How many instances, memories and tables there may be.
#[derive(Clone, Copy)]
pub(crate) struct Most {
    pub(crate) instances: usize,
    pub(crate) memories: usize,
    pub(crate) tables: usize,
}

fn most_objects(limiter: &Option<LimiterAnswers>) -> Most
    ensures { result ≡ most_of limiter.now }
{
    match limiter {
        Some(limiter) => Most {
            instances: limiter.instances,
            memories: limiter.memories,
            tables: limiter.tables,
        },
        None => Most {
            instances: MOST_OBJECTS,
            memories: MOST_OBJECTS,
            tables: MOST_OBJECTS,
        },
    }
}

/// The store of a script that is replayed by a tape.
#[tactic(auto, using(crate::proofs::StoreLemmas::replayed_start))]
pub(crate) fn replayed_store(
    alloc: Global,
    asked: ScriptEngine,
    answers: &HostAnswers,
    tape: &Tape,
) -> Result<Store<Replayed>, OutOfMemory>
    requires limits { are_engine_limits asked.frames asked.turns ≡ true }
    requires unhooked { IsUnhooked answers.now }
    ensures { IfOk result (λ store. IsReplayedStart asked answers.now (parts_of tape.now) store) }
{
    let most = most_objects(&answers.limiter);
    let host_data = Replayed::new(alloc, tape, most.instances, most.memories, most.tables)?;
    let mut store = empty_store(alloc, asked, host_data);
    limit(&mut store, answers.limiter.is_some());
    Ok(store)
}
