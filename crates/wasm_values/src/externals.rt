ghost use Rattle.std.specs.Prelude.{◌≡◌};
ghost use Rattle.wasm_values.specs.Externals.{extern_func, extern_global, extern_table, extern_memory, extern_tag};

use crate::handles::{Func, Global, Memory, Table, Tag};

/// What a module imports or exports, by its handle in a store.
#[derive(Clone, Copy)]
pub enum Extern {
    Func(Func),
    Global(Global),
    Table(Table),
    Memory(Memory),
    Tag(Tag),
}

impl Extern {
    /// The function, where it is one.
    pub fn into_func(self) -> Option<Func>
        ensures { result ≡ extern_func self }
    {
        match self {
            Extern::Func(func) => Some(func),
            _ => None,
        }
    }

    /// The global, where it is one.
    pub fn into_global(self) -> Option<Global>
        ensures { result ≡ extern_global self }
    {
        match self {
            Extern::Global(global) => Some(global),
            _ => None,
        }
    }

    /// The table, where it is one.
    pub fn into_table(self) -> Option<Table>
        ensures { result ≡ extern_table self }
    {
        match self {
            Extern::Table(table) => Some(table),
            _ => None,
        }
    }

    /// The memory, where it is one.
    pub fn into_memory(self) -> Option<Memory>
        ensures { result ≡ extern_memory self }
    {
        match self {
            Extern::Memory(memory) => Some(memory),
            _ => None,
        }
    }

    /// The tag, where it is one.
    pub fn into_tag(self) -> Option<Tag>
        ensures { result ≡ extern_tag self }
    {
        match self {
            Extern::Tag(tag) => Some(tag),
            _ => None,
        }
    }
}
