//! Calls with static types: functions whose parameters and results are types of the host, and closures of the host as
//! functions.
#![tactic(auto)]

mod calling;
mod func_typed;
mod instance_typed;
mod typed_func;
mod wrap;

pub use func_typed::FuncTyped;
pub use instance_typed::InstanceTyped;
pub use typed_closures::{HostFailed, WasmRet, WasmTyList};
pub use typed_func::TypedFunc;
pub use typed_values::{TypeCheckPosition, WasmParams, WasmResults, WasmTy};
pub use wrap::Wrap;
