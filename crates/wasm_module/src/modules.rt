ghost use Rattle.std.specs.Prelude.{◌≡◌, length, None, IfOk};
ghost use Rattle.wasm_syntax.specs.FirstBroken.{first_broken};
ghost use Rattle.wasm_syntax.specs.Modules.{IsModule};
ghost use Rattle.wasm_syntax.specs.Rules.{IsValid};
ghost use Rattle.wasm_module.specs.Exports.{entries, entity_named, export_named};
ghost use Rattle.wasm_module.specs.Fitting.{AreTables, AreMemories};
ghost use Rattle.wasm_module.specs.Images.{
  leading_elements,
  leading_datas,
  table_images,
  memory_images,
};
ghost use Rattle.wasm_module.specs.Kept.{kept_of};

use crate::exports::Exports;
use crate::images::{MemoryImages, TableImages};
use crate::kept::Kept;
use crate::sound::is_module;
use std::alloc::Global;
use std::marker::Model;
use std::rc::Rc;
use wasm_syntax::{ModuleDecl, ModuleExport};
use wasm_types::{EngineId, OutOfMemory};

/// A module: a declaration that keeps each rule, and in which every type is a type. Contracts see the declaration.
///
/// Its parts are shared: `clone` makes no copy of them.
pub struct Module {
    shared: Rc<Validated>,
}

// Written out, so that the crates above do not prove it again of all that is in it.
impl Drop for Module {
    fn drop(self) {
        let Module { shared: _shared } = self;
    }
}

// A declaration that keeps each rule, its exports by name, the greatest height of each function's operands, and its
// images where they are dense.
#[derive(Drop)]
struct Validated {
    decl: ModuleDecl,
    exports: Exports,
    heights: Vec<u32>,
    images: Kept,
    ghost kept: { first_broken decl ≡ None },
    ghost by_name: { entity_named exports ≡ entity_named (entries decl.exports) },
    ghost for_each: { length heights.items ≡ length decl.functions },
    ghost imaged: { images ≡ kept_of decl },
}

impl Model for Module {
    ghost use Rattle.wasm_syntax.specs.declared.declarations.ModuleDecl.{ModuleDecl};
    ghost use Rattle.wasm_syntax.specs.DeclarationCodes.{module_decl_code};
    ghost use Rattle.wasm_syntax.specs.Modules.{IsModule};

    ghost Value = { ModuleDecl };

    ghost coded = { module_decl_code };

    ghost view = { λ m. m.shared.value.decl };

    ghost invariant = { λ m. IsModule m.shared.value.decl };
}

impl Module {
    // The module of a declaration that keeps each rule, with its exports by name, a height for each function, and its images.
    pub(crate) fn new(
        alloc: Global,
        decl: ModuleDecl,
        exports: Exports,
        heights: Vec<u32>,
        images: Kept,
    ) -> Result<Module, OutOfMemory>
        requires kept { first_broken decl ≡ None }
        requires by_name { entity_named exports ≡ entity_named (entries decl.exports) }
        requires for_each { length heights.items ≡ length decl.functions }
        requires imaged { images ≡ kept_of decl }
        ensures { IfOk result (λ made. made ≡ decl) }
    {
        is_module(&decl);
        let shared = Rc::new(
            alloc,
            Validated {
                decl,
                exports,
                heights,
                images,
            },
        )?;
        Ok(Module { shared })
    }

    /// The engine whose types the module has.
    pub fn engine(&self) -> EngineId
        ensures { result ≡ self.now.engine }
    {
        self.shared.decl.engine
    }

    /// The number that the host chose for the module.
    pub fn number(&self) -> u64
        ensures { result ≡ self.now.number }
    {
        self.shared.decl.number
    }

    /// The declaration, lent. It keeps each rule, and in it every type is a type.
    pub fn decl(&self) -> &ModuleDecl
        ensures value { result.now ≡ self.now }
        ensures kept { first_broken self.now ≡ None }
        ensures valid { IsValid self.now }
        ensures is_module { IsModule self.now }
    {
        &self.shared.decl
    }

    /// The export of this name: the module's number, and what the export names. `None` exactly where no export has the
    /// name.
    pub fn get_export_index(&self, name: &str) -> Option<ModuleExport>
        ensures { result ≡ export_named self.now name.now }
    {
        let entity = self.shared.exports.get(name)?;
        Some(ModuleExport {
            module: self.shared.decl.number,
            entity,
        })
    }

    /// For each defined function, in order, the greatest number of its operands at one moment: a hint for the room that
    /// they need. Nothing is proved of the numbers but that there is one for each function.
    pub fn operand_heights(&self) -> &[u32]
        ensures { length result.now ≡ length self.now.functions }
    {
        self.shared.heights.as_slice()
    }

    /// How many element segments lead: what such a segment does is known from the module alone, and so is that of each before
    /// it.
    pub fn leading_elements(&self) -> usize
        ensures { result ≡ leading_elements self.now }
    {
        self.shared.images.elements()
    }

    /// How many data segments lead: none where an element segment does not.
    pub fn leading_datas(&self) -> usize
        ensures { result ≡ leading_datas self.now }
    {
        self.shared.images.datas()
    }

    /// What the leading segments leave in each defined table, up to the last place that one of them wrote. The images are shared
    /// where the module keeps them: where they hold, all together, at most 8 cells for each item of its element segments. Else
    /// they are made anew, by each call.
    pub fn table_images(&self, alloc: Global) -> Result<TableImages, OutOfMemory>
        ensures images { IfOk result (λ images. images ≡ table_images self.now) }
        ensures fits { IfOk result (λ images. AreTables self.now images) }
    {
        let images = self.shared.images.tables(alloc, &self.shared.decl)?;
        Ok(images)
    }

    /// What the leading segments leave in each defined memory, up to the last byte that one of them wrote. The images are
    /// shared where the module keeps them: where they hold, all together, at most 8 bytes for each byte of its data segments.
    /// Else they are made anew, by each call.
    pub fn memory_images(&self, alloc: Global) -> Result<MemoryImages, OutOfMemory>
        ensures images { IfOk result (λ images. images ≡ memory_images self.now) }
        ensures fits { IfOk result (λ images. AreMemories self.now images) }
    {
        let images = self.shared.images.memories(alloc, &self.shared.decl)?;
        Ok(images)
    }

    /// The same module, shared. `OutOfMemory` where the count of sharers is full.
    pub fn clone(&self) -> Result<Module, OutOfMemory>
        ensures { IfOk result (λ shared. shared ≡ self.now) }
    {
        let shared = self.shared.clone()?;
        Ok(Module { shared })
    }
}
