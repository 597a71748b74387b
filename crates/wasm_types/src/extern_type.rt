ghost use Rattle.std.specs.Prelude.{◌≡◌};
ghost use Rattle.wasm_types.specs.GlobalTypes.{global_parts};

use crate::memory_type::MemoryType;
use crate::plain::Mutability;
use crate::table_type::TableType;
use crate::value_types::{FuncType, ValType};
use std::alloc::AllocError;
use std::marker::Model;

/// The type of a global: the type of its value, and whether it may be set.
#[derive(PartialEq, Eq)]
pub struct GlobalType {
    content: ValType,
    mutability: Mutability,
}

// Written out, so that the crates above do not prove it again of all that is in it.
impl Drop for GlobalType {
    fn drop(self) {
        let GlobalType {
            content: _content,
            mutability: _mutability,
        } = self;
    }
}

impl Model for GlobalType {
    ghost use Rattle.wasm_types.specs.GlobalTypes.{GlobalParts, global_code, global_parts};

    ghost Value = { GlobalParts };

    ghost coded = { global_code };

    ghost view = { λ t. global_parts t.content t.mutability };

    ghost inverse = { λ p. record { content = p.content; mutability = p.mutability } };
}

impl GlobalType {
    /// The type of globals of this content and mutability.
    pub fn new(content: ValType, mutability: Mutability) -> GlobalType
        ensures { result ≡ global_parts content mutability }
    {
        GlobalType {
            content,
            mutability,
        }
    }

    /// The type of the value, lent.
    pub fn content(&self) -> &ValType
        ensures { result.now ≡ self.now.content }
    {
        &self.content
    }

    /// Whether the global may be set.
    pub fn mutability(&self) -> Mutability
        ensures { result ≡ self.now.mutability }
    {
        self.mutability
    }
}

impl Clone for GlobalType {
    ghost use Rattle.std.specs.Prelude.{◌≡◌};

    ghost is_clone = { λ x y. y ≡ x };

    fn clone(&self) -> Result<GlobalType, AllocError> {
        let content = self.content.clone()?;
        Ok(GlobalType {
            content,
            mutability: self.mutability,
        })
    }
}

/// The type of a tag. Contracts see its function type.
#[derive(PartialEq, Eq)]
pub struct TagType {
    ty: FuncType,
}

// Written out, so that the crates above do not prove it again of all that is in it.
impl Drop for TagType {
    fn drop(self) {
        let TagType { ty: _ty } = self;
    }
}

impl Model for TagType {
    ghost use Rattle.wasm_types.specs.Signatures.{Signature};
    ghost use Rattle.wasm_types.specs.SignatureCode.{signature_code};

    ghost Value = { Signature };

    ghost coded = { signature_code };

    ghost view = { λ t. t.ty };

    ghost inverse = { λ ty. record { ty = ty } };
}

impl TagType {
    /// The type of tags of this function type.
    pub fn new(ty: FuncType) -> TagType
        ensures { result ≡ ty }
    {
        TagType { ty }
    }

    /// The function type, lent.
    pub fn ty(&self) -> &FuncType
        ensures { result.now ≡ self.now }
    {
        &self.ty
    }
}

impl Clone for TagType {
    ghost use Rattle.std.specs.Prelude.{◌≡◌};

    ghost is_clone = { λ x y. y ≡ x };

    fn clone(&self) -> Result<TagType, AllocError> {
        let ty = self.ty.clone()?;
        Ok(TagType { ty })
    }
}

/// The type of what a module imports or exports.
#[derive(PartialEq, Eq, Drop)]
pub enum ExternType {
    Func(FuncType),
    Global(GlobalType),
    Table(TableType),
    Memory(MemoryType),
    Tag(TagType),
}

impl Clone for ExternType {
    ghost use Rattle.std.specs.Prelude.{◌≡◌};

    ghost is_clone = { λ x y. y ≡ x };

    fn clone(&self) -> Result<ExternType, AllocError> {
        match self {
            ExternType::Func(ty) => Ok(ExternType::Func(ty.clone()?)),
            ExternType::Global(ty) => Ok(ExternType::Global(ty.clone()?)),
            ExternType::Table(ty) => Ok(ExternType::Table(ty.clone()?)),
            ExternType::Memory(ty) => Ok(ExternType::Memory(ty.clone()?)),
            ExternType::Tag(ty) => Ok(ExternType::Tag(ty.clone()?)),
        }
    }
}
