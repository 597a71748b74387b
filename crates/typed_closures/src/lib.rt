//! Static types as what closures of the host take and give: the lists of types and of values, the type of a closure's
//! function, and the laws of that, on which closures as functions of the host rest.
#![tactic(auto)]

mod closures;
mod returns;
mod single_returns;
mod type_lists;

pub use closures::closure_type;
pub use returns::{HostFailed, WasmRet};
pub use type_lists::WasmTyList;
