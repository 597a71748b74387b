ghost use Rattle.wasm_types.specs.FunctionParts.{heap_of};
ghost use Rattle.wasm_types.specs.FunctionRules.{IsHeapSound, IsSound};
ghost use Rattle.wasm_types.specs.SoundTypes.{IsRefSound, IsValSound, IsTableSound, IsGlobalSound, IsExternSound};

use crate::extern_type::{ExternType, GlobalType, TagType};
use crate::table_type::TableType;
use crate::value_types::{HeapType, RefType, ValType};

// What each type keeps, since each was made by a constructor that tests it. None of these does anything when it runs.

impl HeapType {
    /// A function type in it keeps the rules that its constructor tests.
    pub fn keeps_rules(&self)
        ensures { IsHeapSound (heap_of self.now) }
    {
        if let HeapType::ConcreteFunc(ty) = self {
            ty.keeps_rules();
        }
    }
}

impl RefType {
    /// A function type in it keeps the rules that its constructor tests.
    pub fn keeps_rules(&self)
        ensures { IsRefSound self.now }
    {
        self.heap_type().keeps_rules();
    }
}

impl ValType {
    /// A function type in it keeps the rules that its constructor tests.
    pub fn keeps_rules(&self)
        ensures { IsValSound self.now }
    {
        if let ValType::Ref(ty) = self {
            ty.keeps_rules();
        }
    }
}

impl TableType {
    /// Its limits are in order, and a function type in its element type keeps the rules that its constructor tests.
    pub fn keeps_rules(&self)
        ensures { IsTableSound self.now }
    {
        self.keeps_limits();
        self.element().keeps_rules();
    }
}

impl GlobalType {
    /// A function type in its content keeps the rules that its constructor tests.
    pub fn keeps_rules(&self)
        ensures { IsGlobalSound self.now }
    {
        self.content().keeps_rules();
    }
}

impl TagType {
    /// Its function type keeps the rules that its constructor tests.
    pub fn keeps_rules(&self)
        ensures { IsSound self.now }
    {
        self.ty().keeps_rules();
    }
}

impl ExternType {
    /// The type keeps what the constructors of its kind test.
    pub fn keeps_rules(&self)
        ensures { IsExternSound self.now }
    {
        match self {
            ExternType::Func(ty) => ty.keeps_rules(),
            ExternType::Global(ty) => ty.keeps_rules(),
            ExternType::Table(ty) => ty.keeps_rules(),
            ExternType::Memory(ty) => ty.keeps_limits(),
            ExternType::Tag(ty) => ty.keeps_rules(),
        }
    }
}
