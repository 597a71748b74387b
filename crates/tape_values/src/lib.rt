//! Names, values, operands and types on a tape as JSON data: how they are written, and, where a script has them otherwise, how
//! they are read.
#![tactic(auto)]

mod faults;
mod lists;
mod name_reader;
mod operand_reader;
mod operands;
mod store_numbers;
mod types;

pub use faults::WriteFault;
pub use lists::{JsonWriter, list_value};
pub use name_reader::name;
pub use operand_reader::{OperandReader, ValReader, operand};
pub use operands::{bytes_value, name_value, operand_value, val_value};
pub use types::{ref_type_value, type_value, val_type_value};
