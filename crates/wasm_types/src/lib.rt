//! WebAssembly types with their limits and their matching, and the small list types that all crates share.
#![tactic(auto)]

mod extern_type;
mod faults;
mod func_type;
mod imports;
pub mod laws;
mod lists;
mod matching;
mod memory_type;
mod plain;
mod sound;
mod table_type;
mod value_types;

pub use extern_type::{ExternType, GlobalType, TagType};
pub use faults::{OutOfMemory, TypeFault};
pub use imports::{global_fits, import_matches, memory_fits, table_fits};
pub use lists::{ByteList, Items, Text};
pub use matching::{are_all_of, match_all};
pub use memory_type::MemoryType;
pub use plain::{Cell, EngineId, Finality, HeapTopType, Mutability, Resource};
pub use table_type::TableType;
pub use value_types::{FuncType, HeapType, RefType, ValType};
