//! The objects of a store as raw values: memories, tables, globals and segments.
#![tactic(auto)]

mod global;
mod memory;
mod ranges;
mod raw;
mod segments;
mod slots;
mod table;

pub use global::GlobalObject;
pub use memory::MemoryObject;
pub use raw::{RawRef, RawVal};
pub use segments::{DataSegment, ElemSegment};
pub use table::TableObject;
