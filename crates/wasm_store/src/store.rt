ghost use Rattle.std.specs.Prelude.{◌≡◌, ◌↔◌, ◌<◌, ◌^◌, IsErr, IfOk, IfErr, OnErr};
ghost use Rattle.std.specs.Borrow.{sem};
ghost use Rattle.spec_machine.specs.Machine.{new_machine};
ghost use Rattle.spec_machine.specs.WellFormed.{IsWellFormed};
ghost use Rattle.wasm_values.specs.StoreIds.{Gives};
ghost use Rattle.store_state.specs.Engines.{engine_parts};
ghost use Rattle.wasm_store.specs.Lending.{lends_data};
ghost use Rattle.wasm_store.specs.Stores.{store_parts};

use crate::context::{StoreContext, StoreContextMut};
use std::alloc::Global;
use std::marker::Model;
use store_objects::Objects;
use store_state::Engine;
use wasm_meter::{CallHooks, DeadlineBehaviour, HostData, NoBehaviour, NoHook};
use wasm_values::{StoreId, StoreIds};

/// What a host makes WebAssembly objects in, and what it keeps beside them.
///
/// Contracts see the machine, which is well formed, the turns of the last outermost command, and the host's data. `K`
/// is the kind of call hooks, and `B` the kind of deadline behaviours, of which the store may have one each.
#[derive(Drop)]
pub struct Store<T, K = NoHook, B = NoBehaviour> {
    pub(crate) objects: Objects,
    pub(crate) turns: u64,
    pub(crate) hook: Option<K>,
    pub(crate) behaviour: Option<B>,
    pub(crate) host_data: T,
}

impl<T, K, B> Model for Store<T, K, B> {
    ghost use Rattle.std.specs.Prelude.{◌≡◌, is_some};
    ghost use Rattle.wasm_store.specs.Stores.{StoreParts, store_parts, store_code};

    ghost Value = { StoreParts T };

    ghost coded = { store_code T.code };

    ghost view = { λ s. store_parts s.objects s.turns s.host_data };

    ghost invariant = { λ s. (s.objects.is_hooked ≡ is_some s.hook) × (s.objects.is_behaving ≡ is_some s.behaviour) };
}

/// The source of ids has no more of them: the host's data, handed back.
#[derive(Drop)]
pub struct StoreIdsSpent<T>(pub T);

impl<T: HostData, K: CallHooks<T>, B: DeadlineBehaviour<T>> Store<T, K, B> {
    /// A store without objects, of the next id of `ids`, for an engine. It takes no memory.
    ///
    /// `StoreIdsSpent` with the host's data exactly where `ids` has no more ids.
    pub fn try_new(
        alloc: Global,
        ids: &mut StoreIds,
        engine: Engine,
        host_data: T,
    ) -> Result<Store<T, K, B>, StoreIdsSpent<T>>
        ensures given { IfOk result (λ store. Gives ids.old store.machine.id ids.new) }
        ensures made { IfOk result (λ store. store
            ≡ store_parts (new_machine store.machine.id (engine_parts engine)) 0 host_data) }
        ensures refused { IsErr result ↔ (2 ^ 63 < ids.old) }
        ensures unchanged { OnErr result (ids.new ≡ ids.old) }
        ensures handed_back { IfErr result (λ spent. spent.0 ≡ host_data) }
    {
        match ids.allocate() {
            Some(id) => Ok(Store {
                objects: Objects::new(alloc, id, engine),
                turns: 0,
                hook: None,
                behaviour: None,
                host_data,
            }),
            None => Err(StoreIdsSpent(host_data)),
        }
    }

    /// The machine of every store is well formed: what the laws of `law_store` ask for of it.
    pub fn keeps_well_formed(&self)
        ensures { IsWellFormed self.now.machine }
    {
        self.objects.keeps_well_formed();
    }

    /// The store's id.
    pub fn id(&self) -> StoreId
        ensures { result ≡ self.now.machine.id }
    {
        self.objects.id()
    }

    /// The engine that the store was made for.
    pub fn engine(&self) -> &Engine
        ensures { engine_parts result.now ≡ self.now.machine.engine }
    {
        self.objects.engine()
    }

    /// The turns that the last outermost command took, and 0 before the first.
    pub fn turns(&self) -> u64
        ensures { result ≡ self.now.turns }
    {
        self.turns
    }

    /// The host's data, lent.
    pub fn data(&self) -> &T
        ensures { result.now ≡ self.now.host_data }
    {
        &self.host_data
    }

    /// The host's data, lent to be changed. Once the loan ends, the store holds what was left there.
    pub fn data_mut(&mut self) -> &mut T
        ensures* lends { sem 𝓛 (lends_data T.row K.row B.row self.entry result) }
        ensures value { result.now ≡ self.old.host_data }
    {
        &mut self.host_data
    }

    /// The host's data, handed back. The store is dropped.
    pub fn into_data(self) -> T
        ensures { result ≡ self.host_data }
    {
        self.host_data
    }

    /// The store, lent.
    pub fn as_context(&self) -> StoreContext<'_, T, K, B>
        ensures { result ≡ self.now }
    {
        StoreContext { store: self }
    }

    /// The store, lent to be changed.
    pub fn as_context_mut(&mut self) -> StoreContextMut<'_, T, K, B>
        ensures same_store { result.store.ghost_name ≡ self.entry.ghost_name }
        ensures value { result.store.now ≡ self.old }
    {
        StoreContextMut { store: self }
    }
}
