ghost use Rattle.std.specs.Prelude.{ℕ, ◌<◌, ◌^◌};

use crate::handles::Func;
use crate::values::Val;
use wasm_types::{HeapTopType, HeapType};

/// The type of no function: it has no value, so that `Option<NoFunc>` has null alone.
#[derive(Clone, Copy)]
pub enum NoFunc {}

/// A reference to data of the host: a number of the host's choosing, which belongs to no store.
#[derive(Clone, Copy, PartialEq, Eq)]
pub struct ExternRef(pub u64);

/// A reference to data of WebAssembly: a number below 2^31.
#[derive(Clone, Copy, PartialEq, Eq)]
pub struct AnyRef {
    value: u32,
    ghost small: { value < 2 ^ 31 },
}

/// A reference, null where it holds `None`.
#[derive(Clone, Copy)]
pub enum Ref {
    Func(Option<Func>),
    Extern(Option<ExternRef>),
    Any(Option<AnyRef>),
}

impl NoFunc {
    ghost use Rattle.std.specs.Prelude.{◌≡◌, None};

    /// The null function reference, as a host's static type sees it.
    pub fn null() -> Option<NoFunc>
        ensures { result ≡ None }
    {
        None
    }

    /// The null function reference.
    pub fn null_ref() -> Ref
        ensures { result ≡ Ref.Func None }
    {
        Ref::Func(None)
    }

    /// The null function reference, as a value.
    pub fn null_val() -> Val
        ensures { result ≡ Val.FuncRef None }
    {
        Val::FuncRef(None)
    }
}

impl AnyRef {
    ghost use Rattle.std.specs.Prelude.{◌≡◌, ◌↔◌, ◌<◌, ◌≤◌, ◌^◌, IsNone, IfSome};
    ghost use Rattle.wasm_values.specs.References.{i31};

    /// The reference to a number of 31 bits.
    ///
    /// `None` exactly where the value is 2^31 or more.
    pub fn from_i31(value: u32) -> Option<AnyRef>
        ensures given { IfSome result (λ any. i31 any ≡ value) }
        ensures refused { IsNone result ↔ (2 ^ 31 ≤ value) }
    {
        if value < 1 << 31 {
            Some(AnyRef { value })
        } else {
            None
        }
    }

    /// The number, below 2^31.
    pub fn i31(&self) -> u32
        ensures value { result ≡ i31 self.now }
        ensures within { result < 2 ^ 31 }
    {
        self.value
    }
}

impl Ref {
    ghost use Rattle.std.specs.Prelude.{◌≡◌, Some, IsSome, not};
    ghost use Rattle.wasm_types.specs.Matching.{heap_top};
    ghost use Rattle.wasm_values.specs.References.{null_of, is_null, is_func, is_extern, is_any, ref_func, ref_extern, ref_any};

    /// The null of the greatest type above `heap_type`.
    pub fn null(heap_type: &HeapType) -> Ref
        ensures { result ≡ null_of (heap_top heap_type.now) }
    {
        match heap_type.top() {
            HeapTopType::Func => Ref::Func(None),
            HeapTopType::Extern => Ref::Extern(None),
            HeapTopType::Any => Ref::Any(None),
        }
    }

    /// Whether it is null.
    pub fn is_null(&self) -> bool
        ensures { result ≡ is_null self.now }
    {
        match self {
            Ref::Func(func) => func.is_none(),
            Ref::Extern(data) => data.is_none(),
            Ref::Any(data) => data.is_none(),
        }
    }

    /// Whether it is not null.
    pub fn is_non_null(&self) -> bool
        ensures { result ≡ not (is_null self.now) }
    {
        !self.is_null()
    }

    /// Whether it is a function reference, null or not.
    pub fn is_func(&self) -> bool
        ensures { result ≡ is_func self.now }
    {
        matches!(self, Ref::Func(_))
    }

    /// Whether it is a reference to data of the host, null or not.
    pub fn is_extern(&self) -> bool
        ensures { result ≡ is_extern self.now }
    {
        matches!(self, Ref::Extern(_))
    }

    /// Whether it is a reference to data of WebAssembly, null or not.
    pub fn is_any(&self) -> bool
        ensures { result ≡ is_any self.now }
    {
        matches!(self, Ref::Any(_))
    }

    /// The function, or null, where it is a function reference.
    pub fn as_func(&self) -> Option<Option<Func>>
        ensures { result ≡ ref_func self.now }
    {
        match *self {
            Ref::Func(func) => Some(func),
            _ => None,
        }
    }

    /// The host's data, or null, where it is a reference to such.
    pub fn as_extern(&self) -> Option<Option<ExternRef>>
        ensures { result ≡ ref_extern self.now }
    {
        match *self {
            Ref::Extern(data) => Some(data),
            _ => None,
        }
    }

    /// WebAssembly's data, or null, where it is a reference to such.
    pub fn as_any(&self) -> Option<Option<AnyRef>>
        ensures { result ≡ ref_any self.now }
    {
        match *self {
            Ref::Any(data) => Some(data),
            _ => None,
        }
    }

    /// The function, or null, of a function reference.
    pub fn unwrap_func(&self) -> Option<Func>
        requires { IsSome (ref_func self.now) }
        ensures { ref_func self.now ≡ Some result }
    {
        match *self {
            Ref::Func(func) => func,
            _ => unreachable!(),
        }
    }

    /// The host's data, or null, of a reference to such.
    pub fn unwrap_extern(&self) -> Option<ExternRef>
        requires { IsSome (ref_extern self.now) }
        ensures { ref_extern self.now ≡ Some result }
    {
        match *self {
            Ref::Extern(data) => data,
            _ => unreachable!(),
        }
    }

    /// WebAssembly's data, or null, of a reference to such.
    pub fn unwrap_any(&self) -> Option<AnyRef>
        requires { IsSome (ref_any self.now) }
        ensures { ref_any self.now ≡ Some result }
    {
        match *self {
            Ref::Any(data) => data,
            _ => unreachable!(),
        }
    }
}
