ghost use Rattle.std.specs.Prelude.{◌≡◌, ◌≤◌, ◌^◌, []};
ghost use Rattle.binary_code.specs.Bodies.{locals_in};
ghost use Rattle.wasm_binary.specs.Modules as modules;
ghost use Rattle.wasm_binary.specs.Sections as forms;

use crate::bodies::Bodies;
use binary_code::CodeContext;
use binary_index::IndexedTypes;
use std::alloc::Global;
use wasm_syntax::{DataDecl, ElemDecl, ExportDecl, GlobalDecl, ImportDecl, ModuleDecl, TableDecl};
use wasm_types::{EngineId, FuncType, Items, MemoryType};

/// The kinds of sections, without custom sections.
#[derive(Clone, Copy)]
pub(crate) enum SectionKind {
    Type,
    Import,
    Function,
    Table,
    Memory,
    Tag,
    Global,
    Export,
    Start,
    Element,
    DataCount,
    Code,
    Data,
}

impl SectionKind {
    /// The kind of this id.
    pub(crate) fn of_id(id: u8) -> Option<SectionKind>
        ensures { result ≡ forms.kind_of id }
    {
        match id {
            1 => Some(SectionKind::Type),
            2 => Some(SectionKind::Import),
            3 => Some(SectionKind::Function),
            4 => Some(SectionKind::Table),
            5 => Some(SectionKind::Memory),
            6 => Some(SectionKind::Global),
            7 => Some(SectionKind::Export),
            8 => Some(SectionKind::Start),
            9 => Some(SectionKind::Element),
            10 => Some(SectionKind::Code),
            11 => Some(SectionKind::Data),
            12 => Some(SectionKind::DataCount),
            13 => Some(SectionKind::Tag),
            _ => None,
        }
    }

    /// Its place in the order of sections, from 1 on.
    pub(crate) fn rank(self) -> u8
        ensures { result ≡ forms.rank_of self }
    {
        match self {
            SectionKind::Type => 1,
            SectionKind::Import => 2,
            SectionKind::Function => 3,
            SectionKind::Table => 4,
            SectionKind::Memory => 5,
            SectionKind::Tag => 6,
            SectionKind::Global => 7,
            SectionKind::Export => 8,
            SectionKind::Start => 9,
            SectionKind::Element => 10,
            SectionKind::DataCount => 11,
            SectionKind::Code => 12,
            SectionKind::Data => 13,
        }
    }
}

/// What the sections before hold.
#[derive(Drop)]
pub(crate) struct Sections {
    /// The place of the last one in the order of sections, 0 before the first.
    pub(crate) last: u8,
    /// How many types the type section has.
    pub(crate) declared: usize,
    /// These, and behind them the types that blocks added.
    pub(crate) types: IndexedTypes,
    pub(crate) imports: Items<ImportDecl>,
    /// The numbers of the functions' types.
    pub(crate) functions: Items<u32>,
    pub(crate) bodies: Bodies,
    pub(crate) tables: Items<TableDecl>,
    pub(crate) memories: Items<MemoryType>,
    pub(crate) globals: Items<GlobalDecl>,
    /// The numbers of the tags' types.
    pub(crate) tags: Items<u32>,
    pub(crate) exports: Items<ExportDecl>,
    pub(crate) start: Option<u32>,
    pub(crate) elements: Items<ElemDecl>,
    /// How many data segments there are to be, where that was said.
    pub(crate) counted: Option<u32>,
    pub(crate) datas: Items<DataDecl>,
}

/// Whether there are as many data segments as were counted, where they were.
pub(crate) fn is_count(counted: Option<u32>, count: usize) -> bool
    ensures { result ≡ forms.is_count counted count }
{
    match counted {
        Some(counted) => count == counted as usize,
        None => true,
    }
}

impl Sections {
    /// Before the first section.
    pub(crate) fn new(alloc: Global) -> Sections
        ensures { result ≡ forms.no_sections }
    {
        Sections {
            last: 0,
            declared: 0,
            types: IndexedTypes::new(alloc),
            imports: Items(Vec::new(alloc)),
            functions: Items(Vec::new(alloc)),
            bodies: Bodies::none(alloc),
            tables: Items(Vec::new(alloc)),
            memories: Items(Vec::new(alloc)),
            globals: Items(Vec::new(alloc)),
            tags: Items(Vec::new(alloc)),
            exports: Items(Vec::new(alloc)),
            start: None,
            elements: Items(Vec::new(alloc)),
            counted: None,
            datas: Items(Vec::new(alloc)),
        }
    }

    /// The types of the type section.
    pub(crate) fn declared_types(&self) -> &[FuncType]
        ensures { result.now ≡ forms.declared_types self.now }
    {
        self.types.first(self.declared)
    }

    /// By what code is read.
    pub(crate) fn code_context(&self, engine: EngineId) -> CodeContext
        ensures { result ≡ forms.code_context engine self.now }
    {
        CodeContext {
            engine,
            declared: self.declared,
            counted: self.counted.is_some(),
        }
    }

    /// The types, which are taken out.
    pub(crate) fn take_types(&mut self, alloc: Global) -> IndexedTypes
        ensures taken { result ≡ self.old.types }
        ensures rest { self.new ≡ (record self.old { types = [] }) }
    {
        std::mem::replace(&mut self.types, IndexedTypes::new(alloc))
    }

    /// Whether there are as many bodies as functions, and as many data segments as were counted.
    pub(crate) fn is_whole(&self) -> bool
        ensures { result ≡ modules.is_whole self.now }
    {
        self.bodies.len() == self.functions.len() && is_count(self.counted, self.datas.len())
    }

    /// The module of these sections.
    pub(crate) fn into_module(self, engine: EngineId, number: u64) -> ModuleDecl
        ensures made { result ≡ modules.module_by engine number self }
        ensures locals { locals_in result.functions ≤ 2 ^ 24 }
    {
        ModuleDecl {
            engine,
            number,
            types: self.types.into_items(),
            imports: self.imports,
            functions: self.bodies.into_items(),
            tables: self.tables,
            memories: self.memories,
            globals: self.globals,
            tags: self.tags,
            exports: self.exports,
            elements: self.elements,
            datas: self.datas,
            start: self.start,
        }
    }
}
