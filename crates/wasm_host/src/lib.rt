//! What a host hands to a run: the bodies of its functions, by steps, and what a step sees; and how names are looked up.
#![tactic(auto)]

mod activation;
mod bodies;
mod caller;
mod entities;
mod exports;
mod fuel;
mod name_lists;
mod names;
mod no_host;
mod stepping;
mod store_view;
mod values;

pub use activation::Activation;
pub use bodies::HostBody;
pub use caller::Caller;
pub use name_lists::{named_objects, operand_values};
pub use names::{
    Scope, named_func, named_global, named_instance, named_memory, named_object, named_table,
    named_value, operand_value,
};
pub use no_host::NoHost;
pub use spec_execution::{Answer, Event};
pub use store_view::StoreView;
pub use values::values_at;
