ghost use Rattle.std.specs.Prelude.{◌≡◌, IfOk, length, map, option_copied, slice_get};
ghost use Rattle.wasm_syntax.specs.Contexts.{imported, as_function, as_table, as_memory};
ghost use Rattle.wasm_syntax.specs.Contexts.{as_global, as_tag};
ghost use Rattle.wasm_syntax.specs.Contexts.{functions, tables, memories, globals, tags};
ghost use Rattle.wasm_syntax.specs.Contexts.{function_type};
ghost use Rattle.module_typing.specs.Imported.{seen};

use crate::imported::{
    imported_functions, imported_globals, imported_memories, imported_tables, imported_tags,
};
use crate::places::{item, referred};
use std::alloc::Global;
use wasm_syntax::{DataDecl, ModuleDecl};
use wasm_types::{FuncType, GlobalType, MemoryType, OutOfMemory, RefType, TableType};

/// The index spaces of a module: its imports sorted by kind, beside the declaration.
#[derive(Drop)]
pub struct Spaces<'a> {
    /// The declaration of the module.
    pub decl: &'a ModuleDecl,
    functions: Vec<&'a FuncType>,
    tables: Vec<&'a TableType>,
    memories: Vec<&'a MemoryType>,
    globals: Vec<&'a GlobalType>,
    tags: Vec<&'a FuncType>,
    ghost functions_imported: { seen functions.items ≡ imported as_function decl.now },
    ghost tables_imported: { seen tables.items ≡ imported as_table decl.now },
    ghost memories_imported: { seen memories.items ≡ imported as_memory decl.now },
    ghost globals_imported: { seen globals.items ≡ imported as_global decl.now },
    ghost tags_imported: { seen tags.items ≡ imported as_tag decl.now },
}

impl<'a> Spaces<'a> {
    /// The index spaces of a declaration.
    pub fn new(alloc: Global, decl: &'a ModuleDecl) -> Result<Spaces<'a>, OutOfMemory>
        ensures { IfOk result (λ spaces. spaces.decl.now ≡ decl.now) }
    {
        let imports = decl.imports.as_slice();
        let functions = imported_functions(alloc, imports)?;
        let tables = imported_tables(alloc, imports)?;
        let memories = imported_memories(alloc, imports)?;
        let globals = imported_globals(alloc, imports)?;
        let tags = imported_tags(alloc, imports)?;
        Ok(Spaces {
            decl,
            functions,
            tables,
            memories,
            globals,
            tags,
        })
    }

    /// The type of the function of this index.
    pub fn function_type(&self, index: u32) -> Option<&'a FuncType>
        ensures { option_copied result ≡ function_type (functions self.now.decl.now) index }
    {
        let place = index as usize;
        if place < self.functions.len() {
            return referred(&self.functions, place);
        }
        let function = item(self.decl.functions.as_slice(), place - self.functions.len())?;
        item(self.decl.types.as_slice(), function.ty as usize)
    }

    /// The type of the table of this index.
    pub fn table(&self, index: u32) -> Option<&'a TableType>
        ensures { option_copied result ≡ slice_get (tables self.now.decl.now) index }
    {
        let place = index as usize;
        if place < self.tables.len() {
            return referred(&self.tables, place);
        }
        let defined = item(self.decl.tables.as_slice(), place - self.tables.len())?;
        Some(&defined.ty)
    }

    /// The type of the global of this index.
    pub fn global(&self, index: u32) -> Option<&'a GlobalType>
        ensures { option_copied result ≡ slice_get (globals self.now.decl.now) index }
    {
        let place = index as usize;
        if place < self.globals.len() {
            return referred(&self.globals, place);
        }
        let defined = item(self.decl.globals.as_slice(), place - self.globals.len())?;
        Some(&defined.ty)
    }

    /// The type of the memory of this index.
    pub fn memory(&self, index: u32) -> Option<&'a MemoryType>
        ensures { option_copied result ≡ slice_get (memories self.now.decl.now) index }
    {
        let place = index as usize;
        if place < self.memories.len() {
            return referred(&self.memories, place);
        }
        item(self.decl.memories.as_slice(), place - self.memories.len())
    }

    /// The function type of the tag of this index.
    pub fn tag_type(&self, index: u32) -> Option<&'a FuncType>
        ensures { option_copied result ≡ function_type (tags self.now.decl.now) index }
    {
        let place = index as usize;
        if place < self.tags.len() {
            return referred(&self.tags, place);
        }
        let ty = item(self.decl.tags.as_slice(), place - self.tags.len())?;
        item(self.decl.types.as_slice(), *ty as usize)
    }

    /// The type of the items of the element segment of this index.
    pub fn element(&self, index: u32) -> Option<&'a RefType>
        ensures { option_copied result
            ≡ slice_get (map (λ e. e.ty) self.now.decl.now.elements) index }
    {
        let segment = item(self.decl.elements.as_slice(), index as usize)?;
        Some(&segment.ty)
    }

    /// The data segment of this index.
    pub fn data(&self, index: u32) -> Option<&'a DataDecl>
        ensures { option_copied result ≡ slice_get self.now.decl.now.datas index }
    {
        item(self.decl.datas.as_slice(), index as usize)
    }

    /// The number of imported functions, which have the indices in front.
    pub fn imported_function_count(&self) -> usize
        ensures { result ≡ length (imported as_function self.now.decl.now) }
    {
        self.functions.len()
    }

    /// The number of functions, imported and defined.
    pub fn function_count(&self) -> usize
        ensures { result ≡ length (functions self.now.decl.now) }
    {
        self.functions.as_slice().len() + self.decl.functions.as_slice().len()
    }

    /// The number of imported tables, which have the indices in front.
    pub fn imported_table_count(&self) -> usize
        ensures { result ≡ length (imported as_table self.now.decl.now) }
    {
        self.tables.len()
    }

    /// The number of tables, imported and defined.
    pub fn table_count(&self) -> usize
        ensures { result ≡ length (tables self.now.decl.now) }
    {
        self.tables.as_slice().len() + self.decl.tables.as_slice().len()
    }

    /// The number of imported memories, which have the indices in front.
    pub fn imported_memory_count(&self) -> usize
        ensures { result ≡ length (imported as_memory self.now.decl.now) }
    {
        self.memories.len()
    }

    /// The number of memories, imported and defined.
    pub fn memory_count(&self) -> usize
        ensures { result ≡ length (memories self.now.decl.now) }
    {
        self.memories.as_slice().len() + self.decl.memories.as_slice().len()
    }

    /// The number of imported globals, which have the indices in front.
    pub fn imported_global_count(&self) -> usize
        ensures { result ≡ length (imported as_global self.now.decl.now) }
    {
        self.globals.len()
    }

    /// The number of globals, imported and defined.
    pub fn global_count(&self) -> usize
        ensures { result ≡ length (globals self.now.decl.now) }
    {
        self.globals.as_slice().len() + self.decl.globals.as_slice().len()
    }

    /// The number of imported tags, which have the indices in front.
    pub fn imported_tag_count(&self) -> usize
        ensures { result ≡ length (imported as_tag self.now.decl.now) }
    {
        self.tags.len()
    }

    /// The number of tags, imported and defined.
    pub fn tag_count(&self) -> usize
        ensures { result ≡ length (tags self.now.decl.now) }
    {
        self.tags.as_slice().len() + self.decl.tags.as_slice().len()
    }
}
