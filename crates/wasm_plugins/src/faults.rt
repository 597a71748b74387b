ghost use Rattle.std.specs.Prelude.{◌≡◌};
ghost use Rattle.wasm_plugins.specs.Guests.{told_fault};

use wasm_store::Node;
use wasm_types::OutOfMemory;
use wasm_values::Refusal;

/// Why a guest was not loaded, or a call of one gave no results.
#[derive(Clone, Copy, Debug, PartialEq, Eq)]
pub enum PluginFault {
    /// There is no guest of this number.
    NoGuest,
    /// What the imports lead to and what this guest reaches have this object in common.
    Meets { guest: usize, node: Node },
    /// The argument at this place, from 0, is a function that the guest does not reach.
    Foreign(usize),
    /// The refusal of the call that was made, which is never want of memory.
    Refused(Refusal),
    /// The allocator had no memory left. No other cause is ever answered as this.
    OutOfMemory,
}

impl From<OutOfMemory> for PluginFault {
    ghost use Rattle.std.specs.Prelude.{◌≡◌};
    ghost use Rattle.wasm_plugins.specs.declared.faults.PluginFault.TheVariants as fault;

    ghost from_gives = { λ _ e. e ≡ fault.OutOfMemory };

    fn from(_error: OutOfMemory) -> PluginFault {
        PluginFault::OutOfMemory
    }
}

/// The refusal of a call on a store, as it is told of a guest.
pub(crate) fn told(why: Refusal) -> PluginFault
    ensures { result ≡ told_fault why }
{
    match why {
        Refusal::OutOfMemory => PluginFault::OutOfMemory,
        why => PluginFault::Refused(why),
    }
}
