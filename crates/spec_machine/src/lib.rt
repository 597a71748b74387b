//! The written machine: what a store holds, and what each command does to it and answers, as definitions; and the plain
//! types that they speak of. The definitions stand in `specs/`, and every contract above cites them.
#![tactic(auto)]

mod command;
mod copies;
mod lists;
mod name;
mod operation;
mod reply;

pub use command::Command;
pub use lists::{NameList, OperandList, TextName, ValList};
pub use name::{Name, Operand};
pub use operation::Op;
pub use reply::Reply;
pub use wasm_types::ByteList;
