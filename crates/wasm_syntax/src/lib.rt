//! What a module is made of: its declarations and the instructions of its code, as plain types; and, in `specs/`, when a
//! declaration is valid and how code is typed.
#![tactic(auto)]

mod accesses;
mod constants;
mod declarations;
mod entities;
mod instr;
mod module_fault;
mod operators;
mod segments;

pub use accesses::{LoadOp, StoreOp};
pub use constants::ConstExpr;
pub use declarations::{
    Block, ExportDecl, FuncDecl, GlobalDecl, ImportDecl, ModuleDecl, TableDecl, TargetList,
};
pub use entities::{EntityIndex, ModuleExport};
pub use instr::Instr;
pub use module_fault::{ModuleFault, Part, Place, Rule};
pub use operators::{BinOp, UnOp};
pub use segments::{DataDecl, DataMode, ElemDecl, ElemMode};
