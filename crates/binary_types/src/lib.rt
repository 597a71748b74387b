//! The types and the declarations of a module in WebAssembly's binary format, read from left to right.
#![tactic(auto)]

mod constants;
mod entries;
mod faults;
mod function_types;
mod imports;
mod keyed;
mod limits;
mod reading;
mod segments;
mod types;

pub use entries::{GlobalReader, MemoryReader, TableReader, TagReader, TypeIndexReader};
pub use faults::BinaryFault;
pub use function_types::{made, type_section};
pub use imports::{ExportReader, ImportReader};
pub use keyed::keyed_reference;
pub use reading::{
    BinaryReader, byte, fixed, listed, name, next_byte, signed_32, signed_64, times, whole_32,
};
pub use segments::{DataReader, ElementReader};
pub use types::{heap_type, is_code, signed_index, type_index, value_by, value_type};
