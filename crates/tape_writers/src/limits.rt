ghost use Rattle.std.specs.Prelude.{◌≡◌, IfOk};
ghost use Rattle.serde_json.specs.View.{view};
ghost use Rattle.tape_writers.specs.Written as written;

use serde_json::{Value, json};
use std::alloc::{AllocError, Global};

pub(crate) fn get_fuel_value(alloc: Global) -> Result<Value, AllocError>
    ensures { IfOk result (λ value. view value ≡ written.get_fuel_data) }
{
    json!(in alloc; {"do": "get_fuel"})
}

pub(crate) fn set_fuel_value(alloc: Global, fuel: u64) -> Result<Value, AllocError>
    ensures { IfOk result (λ value. view value ≡ written.set_fuel_data fuel) }
{
    json!(in alloc; {"do": "set_fuel", "fuel": fuel})
}

fn interval_value(interval: Option<u64>) -> Value
    ensures { view result ≡ written.interval_data interval }
{
    match interval {
        Some(interval) => Value::from(interval),
        None => Value::Null,
    }
}

pub(crate) fn yield_interval_value(
    alloc: Global,
    interval: Option<u64>,
) -> Result<Value, AllocError>
    ensures { IfOk result (λ value. view value ≡ written.yield_interval_data interval) }
{
    let interval = interval_value(interval);
    json!(in alloc; {"do": "yield_interval", "interval": interval})
}

pub(crate) fn set_epoch_deadline_value(alloc: Global, ticks: u64) -> Result<Value, AllocError>
    ensures { IfOk result (λ value. view value ≡ written.set_epoch_deadline_data ticks) }
{
    json!(in alloc; {"do": "set_epoch_deadline", "ticks": ticks})
}
