ghost use Rattle.std.specs.Prelude.{◌≡◌, ◌+◌, ◌++◌, [], ◌∷◌, List, false, OnOk};
ghost use Rattle.wasm_types.specs.Equality.{of_finality};
ghost use Rattle.wasm_types.specs.FunctionParts.{heap_of};
ghost use Rattle.wasm_types.specs.Matching.{is_concrete};
ghost use Rattle.wasm_types.specs.Signatures.{Signature};
ghost use Rattle.binary_index.specs.Keys.{Says, bit, heap_key, is_named, one};

use std::alloc::Global;
use std::marker::Model;
use wasm_types::{Finality, HeapType, OutOfMemory, ValType};

/// What a function type says but for its engine, as numbers, of which it is made from left to right. Contracts see the
/// numbers.
///
/// A function type within it is a number in a list of types, so that a key is as long as the type is in bytes.
#[derive(Drop)]
pub struct TypeKey {
    numbers: Vec<u64>,
}

impl Model for TypeKey {
    ghost use Rattle.std.specs.Prelude.{List, ℕ};

    ghost Value = { List ℕ };

    ghost view = { λ key. key.numbers.items };
}

impl TypeKey {
    /// Of no number.
    pub fn new(alloc: Global) -> TypeKey
        ensures { result ≡ [] }
    {
        TypeKey {
            numbers: Vec::new(alloc),
        }
    }

    /// Takes all numbers away.
    pub fn clear(&mut self)
        ensures { self.new ≡ [] }
    {
        self.numbers.clear();
    }

    pub(crate) fn as_slice(&self) -> &[u64]
        ensures { result.now ≡ self.now }
    {
        self.numbers.as_slice()
    }

    pub(crate) fn push(&mut self, number: u64) -> Result<(), OutOfMemory>
        ensures { OnOk result (self.new ≡ self.old ++ number ∷ []) }
    {
        self.numbers.push(number)?;
        Ok(())
    }

    /// Whether the type is final.
    pub fn push_finality(&mut self, finality: Finality) -> Result<(), OutOfMemory>
        ensures { OnOk result (self.new ≡ self.old ++ of_finality finality ∷ []) }
    {
        match finality {
            Finality::Final => self.push(0),
            Finality::NonFinal => self.push(1),
        }
    }

    /// That there is no supertype; or that the parameters end.
    pub fn push_end(&mut self) -> Result<(), OutOfMemory>
        ensures { OnOk result (self.new ≡ self.old ++ 0 ∷ []) }
    {
        self.push(0)
    }

    /// Whether null is among the references of a type.
    pub fn push_nullability(&mut self, nullable: bool) -> Result<(), OutOfMemory>
        ensures { OnOk result (self.new ≡ self.old ++ (6 + bit nullable) ∷ []) }
    {
        self.push(6 + u64::from(nullable))
    }

    /// A heap type that is no function type.
    pub fn push_abstract(&mut self, ty: &HeapType) -> Result<(), OutOfMemory>
        ensures { (ts : List Signature) → is_concrete ty.now ≡ false →
            OnOk result (self.new ≡ self.old ++ heap_key ts (heap_of ty.now)) }
    {
        match ty {
            HeapType::NoFunc => self.push(0),
            HeapType::Func => self.push(1),
            HeapType::NoExtern => self.push(2),
            HeapType::Extern => self.push(3),
            HeapType::None => self.push(4),
            HeapType::I31 => self.push(5),
            HeapType::Eq => self.push(6),
            HeapType::Any => self.push(7),
            HeapType::ConcreteFunc(_) => Ok(()),
        }
    }

    /// A value type that names no function type.
    pub fn push_plain(&mut self, ty: &ValType) -> Result<(), OutOfMemory>
        ensures { (ts : List Signature) → is_named ty.now ≡ false →
            OnOk result (Says ts (one ty.now) self.old self.new) }
    {
        match ty {
            ValType::I32 => self.push(1),
            ValType::I64 => self.push(2),
            ValType::F32 => self.push(3),
            ValType::F64 => self.push(4),
            ValType::V128 => self.push(5),
            ValType::Ref(ty) => {
                self.push_nullability(ty.is_nullable())?;
                self.push_abstract(ty.heap_type())
            }
        }
    }
}
