use crate::exports::{export_named, export_of};
use crate::fuel::fuel_seen;
use crate::store_view::StoreView;
use spec_machine::Reply;
use store_state::Engine;
use wasm_syntax::ModuleExport;
use wasm_values::{Extern, Refusal, Val};

/// What a step of a host function's body works with: the host's data, and what it sees of the call that it is in.
///
/// Contracts see the host's data, which a step may change, and the view of the rest, which stays as it is.
#[derive(Drop)]
pub struct Caller<'a, T> {
    pub(crate) host_data: &'a mut T,
    pub(crate) store: StoreView<'a>,
    // The number of the instance whose code called, where code did.
    pub(crate) instance: Option<usize>,
    pub(crate) args: &'a [Val],
    pub(crate) stored: &'a [Extern],
    pub(crate) replies: &'a [Reply],
}

impl<'a, T> Caller<'a, T> {
    ghost use Rattle.std.specs.Prelude.{◌≡◌};
    ghost use Rattle.std.specs.Borrow.{sem};
    ghost use Rattle.store_state.specs.Engines.{engine_parts};
    ghost use Rattle.wasm_host.specs.Lending.{lends_data};
    ghost use Rattle.wasm_host.specs.Callers.{seen, object_named, object_of};

    /// The host's data, lent.
    pub fn data(&self) -> &T
        ensures { result.now ≡ self.now.host_data.now }
    {
        self.host_data
    }

    /// The host's data, lent to be changed. Once the loan ends, it is what was left there.
    pub fn data_mut(&mut self) -> &mut T
        ensures* lends { sem 𝓛 (lends_data T.row self.entry result) }
        ensures value { result.now ≡ self.old.host_data.now }
    {
        self.host_data
    }

    /// The engine that the store was made for.
    pub fn engine(&self) -> &Engine
        ensures { engine_parts result.now ≡ (seen self.now).engine }
    {
        self.store.engine
    }

    /// The fuel that is left: 0 also where more was consumed than there was. `FuelNotConfigured` where the engine
    /// consumes none.
    pub fn get_fuel(&self) -> Result<u64, Refusal>
        ensures { result ≡ (seen self.now).fuel }
    {
        fuel_seen(&self.store)
    }

    /// The arguments that the function was called with.
    pub fn args(&self) -> &[Val]
        ensures { result.now ≡ (seen self.now).arguments }
    {
        self.args
    }

    /// The objects that were stored with the function.
    pub fn stored(&self) -> &[Extern]
        ensures { result.now ≡ (seen self.now).stored }
    {
        self.stored
    }

    /// The replies to the operations that this call of the function asked for, the first one first.
    pub fn replies(&self) -> &[Reply]
        ensures { result.now ≡ (seen self.now).replies }
    {
        self.replies
    }

    /// The object that the instance whose code called exports under a name. `None` where no export has the name, and
    /// where no code called.
    pub fn get_export(&self, name: &str) -> Option<Extern>
        ensures { result ≡ object_named (seen self.now).caller name.now }
    {
        match self.instance {
            Some(number) => export_named(&self.store, number, name),
            None => None,
        }
    }

    /// The object of an export of the module of the instance whose code called. `None` where the instance is of a module
    /// of another number, where the module exports no such thing, and where no code called.
    pub fn get_module_export(&self, export: &ModuleExport) -> Option<Extern>
        ensures { result ≡ object_of (seen self.now).caller export.now }
    {
        match self.instance {
            Some(number) => export_of(&self.store, number, export),
            None => None,
        }
    }
}
