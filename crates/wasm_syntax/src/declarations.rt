use crate::constants::ConstExpr;
use crate::entities::EntityIndex;
use crate::instr::Instr;
use crate::segments::{DataDecl, ElemDecl};
use std::marker::Model;
use wasm_types::{
    EngineId, ExternType, FuncType, GlobalType, Items, MemoryType, TableType, Text, ValType,
};

/// A module as a host declares it.
///
/// In each of the five index spaces (functions, tables, memories, globals, tags) stand the imports of that kind in
/// order, then the defined items in order. The host chooses the number.
pub struct ModuleDecl {
    pub engine: EngineId,
    pub number: u64,
    pub types: Items<FuncType>,
    pub imports: Items<ImportDecl>,
    pub functions: Items<FuncDecl>,
    pub tables: Items<TableDecl>,
    pub memories: Items<MemoryType>,
    pub globals: Items<GlobalDecl>,
    /// The number of each tag's type.
    pub tags: Items<u32>,
    pub exports: Items<ExportDecl>,
    pub elements: Items<ElemDecl>,
    pub datas: Items<DataDecl>,
    /// The index of the function that runs when the module is instantiated.
    pub start: Option<u32>,
}

// Written out, so that the crates above do not prove it again of all that is in it.
impl Drop for ModuleDecl {
    fn drop(self) {
        let ModuleDecl {
            engine: _engine,
            number: _number,
            types: _types,
            imports: _imports,
            functions: _functions,
            tables: _tables,
            memories: _memories,
            globals: _globals,
            tags: _tags,
            exports: _exports,
            elements: _elements,
            datas: _datas,
            start: _start,
        } = self;
    }
}

/// An import: two names, and the type of what is wanted.
pub struct ImportDecl {
    pub module: Text,
    pub name: Text,
    pub ty: ExternType,
}

// Written out, so that the crates above do not prove it again of all that is in it.
impl Drop for ImportDecl {
    fn drop(self) {
        let ImportDecl {
            module: _module,
            name: _name,
            ty: _ty,
        } = self;
    }
}

/// A defined function: the number of its type, the types of its locals behind the parameters, its blocks, and the
/// labels of its branch tables. Block 0 is the body.
pub struct FuncDecl {
    pub ty: u32,
    pub locals: Items<ValType>,
    pub blocks: Items<Block>,
    pub targets: Items<TargetList>,
}

// Written out, so that the crates above do not prove it again of all that is in it.
impl Drop for FuncDecl {
    fn drop(self) {
        let FuncDecl {
            ty: _ty,
            locals: _locals,
            blocks: _blocks,
            targets: _targets,
        } = self;
    }
}

/// The labels of a branch table, the last of which is the default. Contracts see the list of the labels.
#[derive(Drop)]
pub struct TargetList(pub Vec<u32>);

impl Model for TargetList {
    ghost use Rattle.std.specs.Prelude.{List, ℕ};

    ghost Value = { List ℕ };

    ghost view = { λ list. list.0.items };
}

impl TargetList {
    ghost use Rattle.std.specs.Prelude.{◌≡◌};

    /// The labels, lent.
    pub fn as_slice(&self) -> &[u32]
        ensures { result.now ≡ self.now }
    {
        self.0.as_slice()
    }
}

/// A block of code: the number of its type, and its instructions.
pub struct Block {
    pub ty: u32,
    pub instrs: Items<Instr>,
}

// Written out, so that the crates above do not prove it again of all that is in it.
impl Drop for Block {
    fn drop(self) {
        let Block {
            ty: _ty,
            instrs: _instrs,
        } = self;
    }
}

/// A defined table: its type, and the value of its elements at the start.
pub struct TableDecl {
    pub ty: TableType,
    pub init: ConstExpr,
}

// Written out, so that the crates above do not prove it again of all that is in it.
impl Drop for TableDecl {
    fn drop(self) {
        let TableDecl {
            ty: _ty,
            init: _init,
        } = self;
    }
}

/// A defined global: its type, and its value at the start.
pub struct GlobalDecl {
    pub ty: GlobalType,
    pub init: ConstExpr,
}

// Written out, so that the crates above do not prove it again of all that is in it.
impl Drop for GlobalDecl {
    fn drop(self) {
        let GlobalDecl {
            ty: _ty,
            init: _init,
        } = self;
    }
}

/// An export: its name, and what it names.
pub struct ExportDecl {
    pub name: Text,
    pub entity: EntityIndex,
}

// Written out, so that the crates above do not prove it again of all that is in it.
impl Drop for ExportDecl {
    fn drop(self) {
        let ExportDecl {
            name: _name,
            entity: _entity,
        } = self;
    }
}
