//! Readers over JSON data, each of which gives exactly what its definition says: the parts of which the formats of
//! scripts are made.
#![tactic(auto)]

mod faults;
mod fields;
mod json;
mod lists;
mod numbers;
mod texts;

pub use faults::{JsonFault, ScriptFault};
pub use fields::{field, null, one_member, only, truth, truth_or, yes};
pub use json::json_of;
pub use lists::{JsonReader, list_of, list_or_empty, two_items};
pub use numbers::{null_or_whole, signed_32, signed_64, whole, whole_to};
pub use texts::{hex_bytes, hex_vector, text};
