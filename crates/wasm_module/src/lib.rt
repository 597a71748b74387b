//! Modules: declarations that keep each rule, and the validator that makes them.
#![tactic(auto)]

mod exports;
mod fronts;
mod images;
mod kept;
mod leading;
mod modules;
mod sound;
mod validation;

pub use images::{MemoryImages, TableImages};
pub use modules::Module;
pub use wasm_syntax::{
    BinOp, Block, ConstExpr, DataDecl, DataMode, ElemDecl, ElemMode, EntityIndex, ExportDecl,
    FuncDecl, GlobalDecl, ImportDecl, Instr, LoadOp, ModuleDecl, ModuleExport, ModuleFault, Part,
    Place, Rule, StoreOp, TableDecl, TargetList, UnOp,
};
