//! The types of a module, with an index from what a type says to the number of the first type that says it.
#![tactic(auto)]

mod index;
mod indexed_types;
mod type_key;

pub use indexed_types::IndexedTypes;
pub use type_key::TypeKey;
