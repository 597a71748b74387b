ghost use Rattle.std.specs.Prelude.{◌≡◌, ◌≤◌};
ghost use Rattle.std.specs.Option.{option_copied};
ghost use Rattle.wasm_types.specs.Signatures.{depth, size};
ghost use Rattle.wasm_types.specs.FunctionParts.{ref_type, is_nullable, heap_type, nullable_ref, engine, finality, supertype, params, results};
ghost use Rattle.wasm_types.specs.FunctionRules.{IsSound};
ghost use Rattle.wasm_types.specs.Matching.{heap_top, is_concrete};

use crate::plain::{EngineId, Finality, HeapTopType};
use std::alloc::AllocError;
use std::marker::Model;
use std::rc::Rc;

/// What a reference may point to: functions, data of the host, or data of WebAssembly, in three families with a
/// greatest and a least type each.
#[cycle(types)]
#[derive(PartialEq, Eq, Drop)]
pub enum HeapType {
    NoFunc,
    ConcreteFunc(FuncType),
    Func,
    NoExtern,
    Extern,
    None,
    I31,
    Eq,
    Any,
}

/// The type of a reference: a heap type, and whether null is among its values.
#[cycle(types)]
#[derive(PartialEq, Eq)]
pub struct RefType {
    pub(crate) nullable: bool,
    pub(crate) heap_type: HeapType,
}

// Written out, so that the crates above do not prove it again of all that is in it.
impl Drop for RefType {
    #[cycle(dropped)]
    fn drop(self) {
        let RefType {
            nullable: _nullable,
            heap_type: _heap_type,
        } = self;
    }
}

/// The type of a value.
#[cycle(types)]
#[derive(PartialEq, Eq, Drop)]
pub enum ValType {
    I32,
    I64,
    F32,
    F64,
    V128,
    Ref(RefType),
}

/// The type of a function: its engine, its finality, its supertype, its parameters and its results.
///
/// Its parts are shared: `clone` makes no copy of them. Two types are equal exactly where all five parts are.
#[cycle(types)]
pub struct FuncType {
    pub(crate) parts: Rc<FuncParts>,
}

// Written out, so that the crates above do not prove it again of each type in it.
impl Drop for FuncType {
    #[cycle(dropped)]
    fn drop(self) {
        let FuncType { parts: _parts } = self;
    }
}

#[cycle(types)]
#[derive(Drop)]
pub(crate) struct FuncParts {
    pub(crate) engine: EngineId,
    pub(crate) finality: Finality,
    pub(crate) supertype: Option<FuncType>,
    pub(crate) params: Vec<ValType>,
    pub(crate) results: Vec<ValType>,
    pub(crate) depth: u32,
    pub(crate) size: u32,
}

impl Model for FuncType {
    ghost use Rattle.wasm_types.specs.Signatures.{Signature, depth};
    ghost use Rattle.wasm_types.specs.SignatureCode.{signature_code};

    ghost Value = { Signature };

    ghost coded = { signature_code };

    ghost use Rattle.wasm_types.specs.FunctionParts.{view_of};

    ghost view = { view_of };

    ghost use Rattle.wasm_types.specs.FunctionRules.{IsKept};

    ghost invariant = { IsKept };

    ghost size = { depth };

    ghost use Rattle.wasm_types.specs.Falls.{depth_falls};

    ghost size_decreases = { depth_falls };
}

impl PartialEq for FuncType {
    ghost use Rattle.wasm_types.specs.Equality.{same};
    ghost use Rattle.wasm_types.specs.EqualityLaws.{same_part_laws};

    ghost eq = { same };

    ghost laws = { same_part_laws };

    #[cycle(types)]
    #[tactic(auto, using(crate::proofs::RoundTripLemmas::types_size, crate::proofs::RoundTripLemmas::types_alike, crate::proofs::RoundTripLemmas::finality_alike, crate::proofs::RoundTripLemmas::above_alike))]
    fn eq(&self, other: &Self) -> bool {
        let a: &FuncParts = &self.parts;
        let b: &FuncParts = &other.parts;
        a.engine == b.engine
            && a.finality == b.finality
            && a.supertype == b.supertype
            && a.params == b.params
            && a.results == b.results
    }
}

impl Eq for FuncType {
    ghost use Rattle.wasm_types.specs.EqualityLaws.{same_laws};

    ghost laws = { same_laws };
}

impl Clone for FuncType {
    ghost use Rattle.std.specs.Prelude.{◌≡◌};

    ghost is_clone = { λ x y. y ≡ x };

    fn clone(&self) -> Result<FuncType, AllocError> {
        let parts = self.parts.clone()?;
        Ok(FuncType { parts })
    }
}

impl FuncType {
    /// The engine that the type was made for.
    pub fn engine(&self) -> EngineId
        ensures { result.0 ≡ engine self.now }
    {
        self.parts.engine
    }

    /// Whether the type may be another's supertype.
    pub fn finality(&self) -> Finality
        ensures { result ≡ finality self.now }
    {
        self.parts.finality
    }

    /// The declared supertype, lent, where there is one.
    #[tactic(auto, using(crate::proofs::RoundTripLemmas::option_of_supertype))]
    pub fn supertype(&self) -> Option<&FuncType>
        ensures { option_copied result ≡ supertype self.now }
    {
        self.parts.supertype.as_ref()
    }

    /// The types of the parameters, in order, lent.
    #[tactic(auto, using(crate::proofs::RoundTripLemmas::val_types_of))]
    pub fn params(&self) -> &[ValType]
        ensures { result.now ≡ params self.now }
    {
        self.parts.params.as_slice()
    }

    /// The types of the results, in order, lent.
    #[tactic(auto, using(crate::proofs::RoundTripLemmas::val_types_of))]
    pub fn results(&self) -> &[ValType]
        ensures { result.now ≡ results self.now }
    {
        self.parts.results.as_slice()
    }

    /// Each function type keeps the rules that its constructor tests, and so does each function type in it.
    pub fn keeps_rules(&self)
        ensures { IsSound self.now }
    {
        let _parts = &self.parts;
    }

    pub(crate) fn depth(&self) -> u32
        ensures value { result ≡ depth self.now }
        ensures bound { result ≤ 32 }
    {
        self.parts.depth
    }

    pub(crate) fn size(&self) -> u32
        ensures value { result ≡ size self.now }
        ensures bound { result ≤ 65536 }
    {
        self.parts.size
    }
}

impl Clone for HeapType {
    ghost use Rattle.std.specs.Prelude.{◌≡◌};

    ghost is_clone = { λ x y. y ≡ x };

    fn clone(&self) -> Result<HeapType, AllocError> {
        match self {
            HeapType::NoFunc => Ok(HeapType::NoFunc),
            HeapType::ConcreteFunc(ty) => Ok(HeapType::ConcreteFunc(ty.clone()?)),
            HeapType::Func => Ok(HeapType::Func),
            HeapType::NoExtern => Ok(HeapType::NoExtern),
            HeapType::Extern => Ok(HeapType::Extern),
            HeapType::None => Ok(HeapType::None),
            HeapType::I31 => Ok(HeapType::I31),
            HeapType::Eq => Ok(HeapType::Eq),
            HeapType::Any => Ok(HeapType::Any),
        }
    }
}

impl Clone for RefType {
    ghost use Rattle.std.specs.Prelude.{◌≡◌};

    ghost is_clone = { λ x y. y ≡ x };

    fn clone(&self) -> Result<RefType, AllocError> {
        let heap_type = self.heap_type.clone()?;
        Ok(RefType {
            nullable: self.nullable,
            heap_type,
        })
    }
}

impl Clone for ValType {
    ghost use Rattle.std.specs.Prelude.{◌≡◌};

    ghost is_clone = { λ x y. y ≡ x };

    fn clone(&self) -> Result<ValType, AllocError> {
        match self {
            ValType::I32 => Ok(ValType::I32),
            ValType::I64 => Ok(ValType::I64),
            ValType::F32 => Ok(ValType::F32),
            ValType::F64 => Ok(ValType::F64),
            ValType::V128 => Ok(ValType::V128),
            ValType::Ref(ty) => Ok(ValType::Ref(ty.clone()?)),
        }
    }
}

impl HeapType {
    /// The greatest type of the family.
    pub fn top(&self) -> HeapTopType
        ensures { result ≡ heap_top self.now }
    {
        match self {
            HeapType::NoFunc | HeapType::ConcreteFunc(_) | HeapType::Func => HeapTopType::Func,
            HeapType::NoExtern | HeapType::Extern => HeapTopType::Extern,
            HeapType::None | HeapType::I31 | HeapType::Eq | HeapType::Any => HeapTopType::Any,
        }
    }

    /// Whether it is a function type.
    pub fn is_concrete(&self) -> bool
        ensures { result ≡ is_concrete self.now }
    {
        matches!(self, HeapType::ConcreteFunc(_))
    }
}

impl RefType {
    /// The type of references to `heap_type`, with null among them where it is `nullable`.
    pub fn new(nullable: bool, heap_type: HeapType) -> RefType
        ensures { result ≡ ref_type nullable heap_type }
    {
        RefType {
            nullable,
            heap_type,
        }
    }

    /// Whether null is a value of the type.
    pub fn is_nullable(&self) -> bool
        ensures { result ≡ is_nullable self.now }
    {
        self.nullable
    }

    /// What the references point to, lent.
    pub fn heap_type(&self) -> &HeapType
        ensures { result.now ≡ heap_type self.now }
    {
        &self.heap_type
    }
}

impl ValType {
    /// Nullable references to functions.
    pub fn funcref() -> ValType
        ensures { result ≡ nullable_ref HeapType.Func }
    {
        ValType::Ref(RefType::new(true, HeapType::Func))
    }

    /// Nullable references to data of the host.
    pub fn externref() -> ValType
        ensures { result ≡ nullable_ref HeapType.Extern }
    {
        ValType::Ref(RefType::new(true, HeapType::Extern))
    }

    /// Nullable references to data of WebAssembly.
    pub fn anyref() -> ValType
        ensures { result ≡ nullable_ref HeapType.Any }
    {
        ValType::Ref(RefType::new(true, HeapType::Any))
    }

    /// The null function reference alone.
    pub fn nullfuncref() -> ValType
        ensures { result ≡ nullable_ref HeapType.NoFunc }
    {
        ValType::Ref(RefType::new(true, HeapType::NoFunc))
    }

    /// The null reference of the host's data alone.
    pub fn nullexternref() -> ValType
        ensures { result ≡ nullable_ref HeapType.NoExtern }
    {
        ValType::Ref(RefType::new(true, HeapType::NoExtern))
    }

    /// The null reference of WebAssembly's data alone.
    pub fn nullref() -> ValType
        ensures { result ≡ nullable_ref HeapType.None }
    {
        ValType::Ref(RefType::new(true, HeapType::None))
    }
}
