ghost use Rattle.std.specs.Prelude.{◌≡◌, ◌≤◌, ◌^◌};
ghost use Rattle.spec_machine.specs.Machine.{new_machine};
ghost use Rattle.store_state.specs.Engines.{engine_parts};
ghost use Rattle.wasm_values.specs.StoreIds.{Gives};
ghost use Rattle.wasm_store.specs.Stores.{store_parts};
ghost use Rattle.wasm_embedding.specs.Plain.{plain_parts};

use std::alloc::Global;
use wasm_meter::HostData;
use wasm_store::{Engine, Store};
use wasm_types::EngineId;
use wasm_values::StoreIds;

/// The number of the engine of a host that has one engine. Types in texts are of it.
pub const ENGINE: EngineId = EngineId(1);

/// The engine `ENGINE`, which consumes no fuel and reads no epochs: 1,024 functions may be open at once, and a call from
/// outside may take 1,000,000 turns.
pub fn plain_engine() -> Engine
    ensures { engine_parts result ≡ plain_parts }
{
    Engine::new(ENGINE, false, false, 1_024, 1_000_000).unwrap()
}

/// A store without objects, of the plain engine and the next id of `ids`, without a hook and a deadline behaviour. It takes
/// no memory.
///
/// It asks that `ids` has one more id; a new source has. `Store::try_new` tells it, and takes any engine, and its caller
/// names the kinds of its hook and its behaviour.
pub fn plain_store<T: HostData + Drop>(alloc: Global, ids: &mut StoreIds, host_data: T) -> Store<T>
    requires some_ids { ids.old ≤ 2 ^ 63 }
    ensures given { Gives ids.old result.machine.id ids.new }
    ensures made { result ≡ store_parts (new_machine result.machine.id plain_parts) 0 host_data }
{
    let Ok(store) = Store::try_new(alloc, ids, plain_engine(), host_data) else {
        unreachable!()
    };
    store
}
