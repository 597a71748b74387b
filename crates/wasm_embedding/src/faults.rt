use crate::sentences::Told;
use std::fmt;
use std::io::ErrorKind;
use thiserror::Error;
use wasm_binary::BinaryFault;
use wasm_linker::LinkFault;
use wasm_module::{Place, Rule};
use wasm_plugins::PluginFault;
use wasm_types::TypeFault;
use wasm_values::Refusal;

/// Why a host's program ends early: what its calls answer, as one type, to which `?` converts the answer of each. A refusal
/// is `Refused` and want of memory `OutOfMemory`, whoever tells it.
///
/// `{}` and `{:?}` both write a sentence, so that `main` may hand a fault on.
#[derive(Clone, Copy, PartialEq, Eq, Error)]
pub enum Fault {
    /// A call on a store was refused, or code ended without results; never for want of memory.
    #[error("{}", Told(*.0))]
    Refused(Refusal),
    /// A linker has not the names, or has them already; never `Refused` and never `OutOfMemory`.
    #[error("{}", Told(*.0))]
    Unlinked(LinkFault),
    /// A guest is not there, would meet another, or does not reach what it is given; never `Refused` and never `OutOfMemory`.
    #[error("{}", Told(*.0))]
    Guest(PluginFault),
    /// Bytes spell no module; never `OutOfMemory`.
    #[error("{}", Told(*.0))]
    Unreadable(BinaryFault),
    /// A text is no JSON, nested at most 127 deep.
    #[error("the text is no JSON, or nests more than 127 deep")]
    NotJson,
    /// A text is JSON, and declares no module.
    #[error("the JSON data declares no module")]
    NotModule,
    /// A module is not valid: the first rule that is broken, and where it is broken first.
    #[error("the module is not valid: {}, first at {}", Told(*.rule), Told(*.place))]
    Invalid { rule: Rule, place: Place },
    /// There is no type of the given parts; never `OutOfMemory`.
    #[error("{}", Told(*.0))]
    NoType(TypeFault),
    /// The source of ids has no more of them for stores.
    #[error("there is no more id for a store")]
    StoreIdsSpent,
    /// A function of the host failed.
    #[error("a function of the host failed")]
    HostFailed,
    /// A file, input or output failed.
    #[error("{0}")]
    Io(ErrorKind),
    /// The allocator had no memory left. No other cause is ever answered as this.
    #[error("there is no memory left")]
    OutOfMemory,
}

impl fmt::Debug for Fault {
    fn fmt<W: fmt::Write>(&self, f: &mut fmt::Formatter<W>) -> fmt::Result {
        fmt::Display::fmt(self, f)
    }
}
