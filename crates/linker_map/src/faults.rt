use wasm_values::Refusal;

/// Why a linker refused a call. A fault changes nothing but as the call says it of want of memory.
#[derive(Clone, Copy, Debug, PartialEq, Eq)]
pub enum LinkFault {
    /// The pair of names is there, and shadowing is off.
    AlreadyDefined,
    /// The pair of names that is to mean something else, too, is not there.
    UnknownName,
    /// The import at this place, from 0, is the first whose pair of names is not there.
    UnknownImport(usize),
    /// The call on the store was refused, but for want of memory.
    Refused(Refusal),
    /// The allocator had no memory left. No other cause is ever answered as this, and it may come at any call that
    /// takes memory.
    OutOfMemory,
}

impl From<Refusal> for LinkFault {
    ghost use Rattle.std.specs.Prelude.{◌≡◌};
    ghost use Rattle.linker_map.specs.Faults.{told_fault};

    ghost from_gives = { λ why fault. fault ≡ told_fault why };

    /// Want of memory is told as `OutOfMemory`, each other refusal as `Refused`.
    fn from(why: Refusal) -> LinkFault {
        match why {
            Refusal::OutOfMemory => LinkFault::OutOfMemory,
            why => LinkFault::Refused(why),
        }
    }
}
