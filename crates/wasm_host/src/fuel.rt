ghost use Rattle.std.specs.Prelude.{◌≡◌};
ghost use Rattle.spec_execution.specs.Activations.{told_fuel};
ghost use Rattle.wasm_host.specs.StoreViews.{store_of};

use crate::store_view::StoreView;
use wasm_values::Refusal;

/// The fuel that a host is told of.
pub(crate) fn fuel_seen(store: &StoreView<'_>) -> Result<u64, Refusal>
    ensures { result ≡ told_fuel (store_of store.now) }
{
    if !store.engine.consume_fuel() {
        return Err(Refusal::FuelNotConfigured);
    }
    Ok(store.held.fuel())
}
