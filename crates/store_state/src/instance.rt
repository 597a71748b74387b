ghost use Rattle.std.specs.Prelude.{◌≡◌, length, slice_get, option_copied, None};
ghost use Rattle.wasm_syntax.specs.FirstBroken.{first_broken};
ghost use Rattle.wasm_syntax.specs.Rules.{IsValid};
ghost use Rattle.store_state.specs.Machine.{type_in};
ghost use Rattle.store_state.specs.Parts.{names};

use std::marker::Model;
use wasm_module::Module;
use wasm_syntax::ModuleDecl;
use wasm_types::FuncType;

/// What an instance names: its module, and of each index space the numbers in the store.
pub struct Instance {
    module: Module,
    functions: Vec<usize>,
    tables: Vec<usize>,
    memories: Vec<usize>,
    globals: Vec<usize>,
    tags: Vec<usize>,
}

// Written out, so that the crates above do not prove it again of all that is in it.
impl Drop for Instance {
    fn drop(self) {
        let Instance {
            module: _module,
            functions: _functions,
            tables: _tables,
            memories: _memories,
            globals: _globals,
            tags: _tags,
        } = self;
    }
}

impl Model for Instance {
    ghost use Rattle.store_state.specs.Codes.{names_code};
    ghost use Rattle.store_state.specs.Parts.{Names, names};

    ghost Value = { Names };

    ghost coded = { names_code };

    ghost view = { λ i. names i.module i.functions.items i.tables.items i.memories.items i.globals.items i.tags.items };
}

impl Instance {
    /// An instance of a module with these numbers.
    pub fn new(
        validated: Module,
        functions: Vec<usize>,
        tables: Vec<usize>,
        memories: Vec<usize>,
        globals: Vec<usize>,
        tags: Vec<usize>,
    ) -> Instance
        ensures { result ≡ names validated functions.items tables.items memories.items globals.items tags.items }
    {
        Instance {
            module: validated,
            functions,
            tables,
            memories,
            globals,
            tags,
        }
    }

    /// Its module, lent.
    pub fn module(&self) -> &Module
        ensures { result.now ≡ self.now.decl }
    {
        &self.module
    }

    /// The declaration of its module, lent. It keeps each rule.
    #[inline]
    pub fn decl(&self) -> &ModuleDecl
        ensures value { result.now ≡ self.now.decl }
        ensures kept { first_broken self.now.decl ≡ None }
        ensures valid { IsValid self.now.decl }
    {
        self.module.decl()
    }

    /// The type of a function that the module defines, by its number among these, lent.
    pub fn function_type(&self, number: usize) -> Option<&FuncType>
        ensures { option_copied result ≡ type_in self.now number }
    {
        let decl = self.decl();
        let function = decl.functions.as_slice().get(number)?;
        decl.types.as_slice().get(function.ty as usize)
    }

    /// For each function that the module defines a hint for the room that its operands need: see
    /// `Module::operand_heights`.
    pub fn operand_heights(&self) -> &[u32]
        ensures { length result.now ≡ length self.now.decl.functions }
    {
        self.module.operand_heights()
    }

    /// How many functions it names.
    pub fn function_count(&self) -> usize
        ensures { result ≡ length self.now.functions }
    {
        self.functions.len()
    }

    /// How many tables it names.
    pub fn table_count(&self) -> usize
        ensures { result ≡ length self.now.tables }
    {
        self.tables.len()
    }

    /// How many memories it names.
    pub fn memory_count(&self) -> usize
        ensures { result ≡ length self.now.memories }
    {
        self.memories.len()
    }

    /// How many globals it names.
    pub fn global_count(&self) -> usize
        ensures { result ≡ length self.now.globals }
    {
        self.globals.len()
    }

    /// The function under an index, by its number in the store.
    #[inline]
    pub fn function(&self, index: usize) -> Option<usize>
        ensures { result ≡ slice_get self.now.functions index }
    {
        self.functions.get(index).copied()
    }

    /// The table under an index, by its number in the store.
    #[inline]
    pub fn table(&self, index: usize) -> Option<usize>
        ensures { result ≡ slice_get self.now.tables index }
    {
        self.tables.get(index).copied()
    }

    /// The memory under an index, by its number in the store.
    #[inline]
    pub fn memory(&self, index: usize) -> Option<usize>
        ensures { result ≡ slice_get self.now.memories index }
    {
        self.memories.get(index).copied()
    }

    /// The global under an index, by its number in the store.
    #[inline]
    pub fn global(&self, index: usize) -> Option<usize>
        ensures { result ≡ slice_get self.now.globals index }
    {
        self.globals.get(index).copied()
    }

    /// The tag under an index, by its number in the store.
    pub fn tag(&self, index: usize) -> Option<usize>
        ensures { result ≡ slice_get self.now.tags index }
    {
        self.tags.get(index).copied()
    }
}
