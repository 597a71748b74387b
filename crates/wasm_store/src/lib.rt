//! Stores, and what a host does with the objects that they hold.
#![tactic(auto)]

mod context;
mod func_calls;
mod global_calls;
mod growth;
pub mod laws;
mod links;
mod memory_calls;
mod memory_lending;
mod meters;
pub mod parts;
mod store;
mod table_calls;
mod tag_calls;
mod value_calls;

pub use context::{StoreContext, StoreContextMut};
pub use func_calls::FuncCalls;
pub use global_calls::GlobalCalls;
pub use memory_calls::MemoryCalls;
pub use store::{Store, StoreIdsSpent};
pub use store_objects::Node;
pub use store_state::{Engine, Growable, GrowthQuestion, GrowthRule};
pub use table_calls::TableCalls;
pub use tag_calls::TagCalls;
pub use value_calls::{ExternCalls, RefCalls, ValCalls};
