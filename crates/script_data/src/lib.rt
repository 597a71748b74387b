//! What a script keeps in its store: host data whose answers the script gives, and the two kinds that hold what a program
//! calls for a hook and for a deadline behaviour.
#![tactic(auto)]

mod behaviour;
mod first_events;
mod hook;
mod script_data;

pub use behaviour::{BehaviourCall, ScriptBehaviour};
pub use hook::{HookCall, ScriptHook};
pub use script_data::ScriptData;
