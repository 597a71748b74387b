ghost use Rattle.std.specs.Prelude.{◌≡◌};
ghost use Rattle.wasm_types.specs.Signatures.{is_of, are_of};
ghost use Rattle.wasm_types.specs.Equality.{same};
ghost use Rattle.wasm_types.specs.FunctionParts.{types_of, heap_is_of, ref_is_of, val_is_of};
ghost use Rattle.wasm_types.specs.Matching.{heap_matches, ref_matches, val_matches, matches, all_match};

use crate::plain::{EngineId, HeapTopType};
use crate::value_types::{FuncType, HeapType, RefType, ValType};

impl FuncType {
    // Types of another depth or size are unlike, which spares the comparison of all that is in them.
    fn is_same_as(&self, other: &FuncType) -> bool
        ensures { result ≡ same self.now other.now }
    {
        if self.depth() != other.depth() {
            return false;
        }
        if self.size() != other.size() {
            return false;
        }
        self == other
    }

    /// Whether a function of this type may stand where one of the other is wanted: whether the other equals this type
    /// or a member of its chain of supertypes.
    pub fn matches(&self, other: &FuncType) -> bool
        ensures { result ≡ matches self.now other.now }
    {
        if other.is_same_as(self) {
            return true;
        }
        match self.supertype() {
            None => false,
            Some(above) => above.matches(other),
        }
    }

    /// Whether no function type of another engine is in it.
    #[tactic(auto, using(crate::proofs::SoundTypeLemmas::is_of_by_engine))]
    pub fn comes_from_same_engine(&self, engine: EngineId) -> bool
        ensures { result ≡ is_of engine.0 self.now }
    {
        self.parts.engine == engine
    }
}

impl HeapType {
    /// Whether each reference to this heap type may stand where one to the other is wanted.
    pub fn matches(&self, other: &HeapType) -> bool
        ensures { result ≡ heap_matches self.now other.now }
    {
        match self {
            HeapType::NoFunc => matches!(other.top(), HeapTopType::Func),
            HeapType::ConcreteFunc(ty) => match other {
                HeapType::ConcreteFunc(declared) => ty.matches(declared),
                HeapType::Func => true,
                _ => false,
            },
            HeapType::Func => matches!(other, HeapType::Func),
            HeapType::NoExtern => matches!(other.top(), HeapTopType::Extern),
            HeapType::Extern => matches!(other, HeapType::Extern),
            HeapType::None => matches!(other.top(), HeapTopType::Any),
            HeapType::I31 => matches!(other, HeapType::I31 | HeapType::Eq | HeapType::Any),
            HeapType::Eq => matches!(other, HeapType::Eq | HeapType::Any),
            HeapType::Any => matches!(other, HeapType::Any),
        }
    }

    /// Whether no function type of another engine is in it.
    pub fn comes_from_same_engine(&self, engine: EngineId) -> bool
        ensures { result ≡ heap_is_of engine.0 self.now }
    {
        match self {
            HeapType::ConcreteFunc(ty) => ty.comes_from_same_engine(engine),
            _ => true,
        }
    }
}

impl RefType {
    /// Whether each reference of this type is one of the other: the heap types match, and this type is non-null or
    /// the other nullable.
    pub fn matches(&self, other: &RefType) -> bool
        ensures { result ≡ ref_matches self.now other.now }
    {
        self.heap_type().matches(other.heap_type()) && (!self.is_nullable() || other.is_nullable())
    }

    /// Whether no function type of another engine is in it.
    pub fn comes_from_same_engine(&self, engine: EngineId) -> bool
        ensures { result ≡ ref_is_of engine.0 self.now }
    {
        self.heap_type().comes_from_same_engine(engine)
    }
}

impl ValType {
    /// Whether each value of this type is one of the other.
    pub fn matches(&self, other: &ValType) -> bool
        ensures { result ≡ val_matches self.now other.now }
    {
        match (self, other) {
            (ValType::I32, ValType::I32) => true,
            (ValType::I64, ValType::I64) => true,
            (ValType::F32, ValType::F32) => true,
            (ValType::F64, ValType::F64) => true,
            (ValType::V128, ValType::V128) => true,
            (ValType::Ref(a), ValType::Ref(b)) => a.matches(b),
            _ => false,
        }
    }

    /// Whether no function type of another engine is in it.
    pub fn comes_from_same_engine(&self, engine: EngineId) -> bool
        ensures { result ≡ val_is_of engine.0 self.now }
    {
        match self {
            ValType::Ref(ty) => ty.comes_from_same_engine(engine),
            _ => true,
        }
    }
}

/// Whether there are as many types, and each matches the other at its place.
pub fn match_all(types: &[ValType], others: &[ValType]) -> bool
    ensures { result ≡ all_match types.now others.now }
{
    let mut rest = types;
    let mut wanted = others;
    while let [ty, tail @ ..] = rest {
        let [other, after @ ..] = wanted else {
            return false;
        };
        if !ty.matches(other) {
            return false;
        }
        rest = tail;
        wanted = after;
    }
    wanted.is_empty()
}

/// Whether no function type of another engine is in any of the types.
#[tactic(auto, using(crate::proofs::ListLemmas::are_more))]
pub fn are_all_of(engine: EngineId, types: &[ValType]) -> bool
    ensures { result ≡ are_of engine.0 (types_of types.now) }
{
    let mut rest = types;
    while let [ty, tail @ ..] = rest {
        if !ty.comes_from_same_engine(engine) {
            return false;
        }
        rest = tail;
    }
    true
}
