ghost use Rattle.std.specs.Prelude.{◌≡◌};
ghost use Rattle.wasm_store.specs.Refused.{refused_by_memory};

use wasm_types::OutOfMemory;
use wasm_values::Refusal;

/// What a host is told of an act: what it gives, or that memory was wanting.
pub(crate) fn or_refused<A: Drop>(done: Result<A, OutOfMemory>) -> Result<A, Refusal>
    ensures { result ≡ refused_by_memory done }
{
    match done {
        Ok(answer) => Ok(answer),
        Err(_) => Err(Refusal::OutOfMemory),
    }
}
