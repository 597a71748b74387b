ghost use Rattle.std.specs.Prelude.{◌≡◌, ◌++◌, ◌∷◌, [], length, take, slice_get, option_map, option_copied, OnOk, OnErr};
ghost use Rattle.store_state.specs.Functions.{kind_behind};
ghost use Rattle.store_state.specs.Lists.{names_behind};
ghost use Rattle.store_state.specs.Machine.{function_number, table_number, memory_number, global_number, type_named};
ghost use Rattle.store_state.specs.Parts.{program_parts};

use crate::function::{Function, FunctionKind};
use crate::instance::Instance;
use std::alloc::Global;
use std::marker::Model;
use wasm_types::{FuncType, OutOfMemory};

/// What a run reads and never changes: the functions and the instances of a store, each in the order in which they
/// were made.
pub struct Program {
    functions: Vec<Function>,
    instances: Vec<Instance>,
}

// Written out, so that the crates above do not prove it again of all that is in it.
impl Drop for Program {
    fn drop(self) {
        let Program {
            functions: _functions,
            instances: _instances,
        } = self;
    }
}

impl Model for Program {
    ghost use Rattle.store_state.specs.Codes.{program_code};
    ghost use Rattle.store_state.specs.Parts.{ProgramParts, program_parts};

    ghost Value = { ProgramParts };

    ghost coded = { program_code };

    ghost view = { λ p. program_parts p.functions.items p.instances.items };
}

impl Program {
    /// No functions and no instances.
    pub fn new(alloc: Global) -> Program
        ensures { result ≡ program_parts [] [] }
    {
        Program {
            functions: Vec::new(alloc),
            instances: Vec::new(alloc),
        }
    }

    /// A function more.
    pub fn add_function(&mut self, function: Function) -> Result<(), OutOfMemory>
        ensures ok { OnOk result (self.new ≡ program_parts (self.old.functions ++ function ∷ []) self.old.instances) }
        ensures err { OnErr result (self.new ≡ self.old) }
    {
        self.functions.push(function)?;
        Ok(())
    }

    /// An instance more.
    pub fn add_instance(&mut self, instance: Instance) -> Result<(), OutOfMemory>
        ensures ok { OnOk result (self.new ≡ program_parts self.old.functions (self.old.instances ++ instance ∷ [])) }
        ensures err { OnErr result (self.new ≡ self.old) }
    {
        self.instances.push(instance)?;
        Ok(())
    }

    /// The functions of an instance and the instance more, both at the end.
    pub(crate) fn append(
        &mut self,
        mut functions: Vec<Function>,
        instance: Instance,
    ) -> Result<(), OutOfMemory>
        ensures ok { OnOk result (self.new
            ≡ program_parts (self.old.functions ++ functions.items) (self.old.instances ++ instance ∷ [])) }
        ensures err { OnErr result (self.new ≡ self.old) }
    {
        self.instances.reserve(1)?;
        self.functions.append(&mut functions)?;
        self.instances.push_reserved(instance);
        Ok(())
    }

    /// Keeps the first so many functions, and the first so many instances.
    pub(crate) fn truncate(&mut self, functions: usize, instances: usize)
        ensures { self.new
            ≡ program_parts (take functions self.old.functions) (take instances self.old.instances) }
    {
        self.functions.truncate(functions);
        self.instances.truncate(instances);
    }

    /// How many functions there are.
    #[inline]
    pub fn function_count(&self) -> usize
        ensures { result ≡ length self.now.functions }
    {
        self.functions.len()
    }

    /// How many instances there are.
    pub fn instance_count(&self) -> usize
        ensures { result ≡ length self.now.instances }
    {
        self.instances.len()
    }

    /// The type of the function of this number, lent.
    pub fn function_type(&self, number: usize) -> Option<&FuncType>
        ensures { option_copied result ≡ type_named self.now number }
    {
        match self.function(number)? {
            FunctionKind::Guest { instance, number } => self
                .instance(instance)?
                .function_type(number),
            FunctionKind::Host {
                ty,
                body: _,
                stored: _,
            } => Some(ty),
        }
    }

    /// The function of this number.
    #[inline]
    pub fn function(&self, number: usize) -> Option<FunctionKind<'_>>
        ensures { option_map kind_behind result ≡ slice_get self.now.functions number }
    {
        let function = self.functions.get(number)?;
        Some(function.kind())
    }

    /// The instance of this number, lent.
    #[inline]
    pub fn instance(&self, number: usize) -> Option<&Instance>
        ensures { option_map names_behind result ≡ slice_get self.now.instances number }
    {
        self.instances.get(number)
    }

    /// The number of the function that an instance names under an index.
    #[inline]
    pub fn function_number(&self, instance: usize, index: u32) -> Option<usize>
        ensures { result ≡ function_number self.now instance index }
    {
        self.instance(instance)?.function(index as usize)
    }

    /// The number of the table that an instance names under an index.
    #[inline]
    pub fn table_number(&self, instance: usize, index: u32) -> Option<usize>
        ensures { result ≡ table_number self.now instance index }
    {
        self.instance(instance)?.table(index as usize)
    }

    /// The number of the memory that an instance names under an index.
    #[inline]
    pub fn memory_number(&self, instance: usize, index: u32) -> Option<usize>
        ensures { result ≡ memory_number self.now instance index }
    {
        self.instance(instance)?.memory(index as usize)
    }

    /// The number of the global that an instance names under an index.
    #[inline]
    pub fn global_number(&self, instance: usize, index: u32) -> Option<usize>
        ensures { result ≡ global_number self.now instance index }
    {
        self.instance(instance)?.global(index as usize)
    }
}
