//! What a store asks of the world outside: a limiter, hooks, a deadline behaviour and an epoch source; and what it
//! counts: fuel, the deadline, and objects that instances make.
#![tactic(auto)]

mod answers;
mod behaviours;
mod call_hook;
mod counts;
mod deadline;
mod epoch_sources;
mod epochs;
mod faults;
mod fuel_tank;
mod hooks;
mod host_data;
pub mod laws;
mod limiter;
mod lists;
mod numbers;
mod store_limits;

pub use answers::Answers;
pub use behaviours::{DeadlineBehaviour, NoBehaviour};
pub use call_hook::CallHook;
pub use counts::Counts;
pub use deadline::{Deadline, UpdateDeadline};
pub use epoch_sources::{CountEpochs, ListEpochs};
pub use epochs::EpochSource;
pub use faults::{BehaviourFailed, EpochFailed, HookFailed, LimiterFailed};
pub use fuel_tank::FuelTank;
pub use hooks::{CallHooks, NoHook};
pub use host_data::HostData;
pub use limiter::ResourceLimiter;
pub use lists::{
    BehaviourAnswer, EpochAnswer, GrowthAnswer, HookAnswer, ListedBehaviour, ListedData,
    ListedEpochs, ListedHook,
};
pub use store_limits::StoreLimits;
