//! The values of WebAssembly, the handles by which a host names what a store holds, and the answers of calls that are
//! refused.
#![tactic(auto)]

mod conversions;
mod externals;
mod handles;
pub mod laws;
mod references;
mod refusals;
mod store_id;
mod values;

pub use externals::Extern;
pub use handles::{Func, Global, Instance, Memory, Table, Tag};
pub use references::{AnyRef, ExternRef, NoFunc, Ref};
pub use refusals::{Refusal, Trap};
pub use store_id::{StoreId, StoreIds};
pub use values::{V128, Val};
