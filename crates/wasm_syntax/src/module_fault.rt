use wasm_types::OutOfMemory;

/// A rule that a declaration must keep. The order is that in which a validator answers them.
#[derive(Clone, Copy, PartialEq, Eq)]
pub enum Rule {
    /// No list is too long.
    Size,
    /// Each type is of the module's engine.
    Engine,
    /// Each index outside of code is there.
    Index,
    /// Each local has a default value.
    Local,
    /// The blocks of a function are a tree below block 0, within the limits.
    Shape,
    /// Each constant expression fits.
    Const,
    /// The type of an active element segment matches that of its table.
    Element,
    /// No two exports have one name.
    ExportName,
    /// The start function has neither parameters nor results.
    Start,
    /// Code is well typed.
    Body,
}

/// A part of a declaration. The order is that in which a validator answers them.
#[derive(Clone, Copy, PartialEq, Eq)]
pub enum Part {
    Types,
    Imports,
    Functions,
    Tables,
    Memories,
    Globals,
    Tags,
    Exports,
    Elements,
    Datas,
    Start,
}

/// An item of a declaration: its number in the list of its part, from 0 on. The start function is item 0 of its part.
#[derive(Clone, Copy, PartialEq, Eq)]
pub struct Place {
    pub part: Part,
    pub item: u32,
}

/// Why a declaration makes no module.
#[derive(Clone, Copy, PartialEq, Eq)]
pub enum ModuleFault {
    /// A rule is broken, and no rule, part or item in front of this one.
    InvalidModule { rule: Rule, place: Place },
    OutOfMemory,
}

impl From<OutOfMemory> for ModuleFault {
    ghost use Rattle.std.specs.Prelude.{◌≡◌};
    ghost use Rattle.wasm_syntax.specs.declared.module_fault.ModuleFault.TheVariants as fault;

    ghost from_gives = { λ _ e. e ≡ fault.OutOfMemory };

    fn from(_error: OutOfMemory) -> ModuleFault {
        ModuleFault::OutOfMemory
    }
}
