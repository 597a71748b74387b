ghost use Rattle.std.specs.Prelude.{◌≡◌, Some, None, IsSome};
ghost use Rattle.wasm_types.specs.Matching.{heap_top};
ghost use Rattle.wasm_values.specs.References.{null_of};
ghost use Rattle.wasm_values.specs.Values.{val_of, default_of, val_i32, val_i64, val_v128, val_func_ref, val_extern_ref, val_any_ref, val_ref};

use crate::handles::Func;
use crate::references::{AnyRef, ExternRef, Ref};
use wasm_types::{HeapTopType, HeapType, ValType};

/// A vector of 128 bits.
#[derive(Clone, Copy, PartialEq, Eq)]
pub struct V128(pub u128);

/// A value of WebAssembly. A float is held by its bits; a reference is null where it holds `None`.
#[derive(Clone, Copy)]
pub enum Val {
    I32(i32),
    I64(i64),
    F32(u32),
    F64(u64),
    V128(V128),
    FuncRef(Option<Func>),
    ExternRef(Option<ExternRef>),
    AnyRef(Option<AnyRef>),
}

impl Val {
    /// The null of the greatest type above `heap_type`.
    pub fn null_ref(heap_type: &HeapType) -> Val
        ensures { result ≡ val_of (null_of (heap_top heap_type.now)) }
    {
        match heap_type.top() {
            HeapTopType::Func => Val::FuncRef(None),
            HeapTopType::Extern => Val::ExternRef(None),
            HeapTopType::Any => Val::AnyRef(None),
        }
    }

    /// The null function reference.
    pub fn null_func_ref() -> Val
        ensures { result ≡ Val.FuncRef None }
    {
        Val::FuncRef(None)
    }

    /// The null reference to data of the host.
    pub fn null_extern_ref() -> Val
        ensures { result ≡ Val.ExternRef None }
    {
        Val::ExternRef(None)
    }

    /// The null reference to data of WebAssembly.
    pub fn null_any_ref() -> Val
        ensures { result ≡ Val.AnyRef None }
    {
        Val::AnyRef(None)
    }

    /// The value that a local of the type begins with: zero, or null.
    ///
    /// `None` exactly where the type is a reference that is not nullable.
    pub fn default_for_ty(ty: &ValType) -> Option<Val>
        ensures { result ≡ default_of ty.now }
    {
        match ty {
            ValType::I32 => Some(Val::I32(0)),
            ValType::I64 => Some(Val::I64(0)),
            ValType::F32 => Some(Val::F32(0)),
            ValType::F64 => Some(Val::F64(0)),
            ValType::V128 => Some(Val::V128(V128(0))),
            ValType::Ref(ty) if ty.is_nullable() => Some(Val::null_ref(ty.heap_type())),
            ValType::Ref(_) => None,
        }
    }

    /// The number, where it is an `i32`.
    pub fn i32(&self) -> Option<i32>
        ensures { result ≡ val_i32 self.now }
    {
        match *self {
            Val::I32(number) => Some(number),
            _ => None,
        }
    }

    /// The number, where it is an `i64`.
    pub fn i64(&self) -> Option<i64>
        ensures { result ≡ val_i64 self.now }
    {
        match *self {
            Val::I64(number) => Some(number),
            _ => None,
        }
    }

    /// The vector, where it is one.
    pub fn v128(&self) -> Option<V128>
        ensures { result ≡ val_v128 self.now }
    {
        match *self {
            Val::V128(vector) => Some(vector),
            _ => None,
        }
    }

    /// The function, or null, where it is a function reference.
    pub fn func_ref(&self) -> Option<Option<Func>>
        ensures { result ≡ val_func_ref self.now }
    {
        match *self {
            Val::FuncRef(func) => Some(func),
            _ => None,
        }
    }

    /// As `func_ref`.
    pub fn funcref(&self) -> Option<Option<Func>>
        ensures { result ≡ val_func_ref self.now }
    {
        self.func_ref()
    }

    /// The host's data, or null, where it is a reference to such.
    pub fn extern_ref(&self) -> Option<Option<ExternRef>>
        ensures { result ≡ val_extern_ref self.now }
    {
        match *self {
            Val::ExternRef(data) => Some(data),
            _ => None,
        }
    }

    /// As `extern_ref`.
    pub fn externref(&self) -> Option<Option<ExternRef>>
        ensures { result ≡ val_extern_ref self.now }
    {
        self.extern_ref()
    }

    /// WebAssembly's data, or null, where it is a reference to such.
    pub fn any_ref(&self) -> Option<Option<AnyRef>>
        ensures { result ≡ val_any_ref self.now }
    {
        match *self {
            Val::AnyRef(data) => Some(data),
            _ => None,
        }
    }

    /// As `any_ref`.
    pub fn anyref(&self) -> Option<Option<AnyRef>>
        ensures { result ≡ val_any_ref self.now }
    {
        self.any_ref()
    }

    /// The reference, where it is one of any kind.
    pub fn ref_(self) -> Option<Ref>
        ensures { result ≡ val_ref self }
    {
        match self {
            Val::FuncRef(func) => Some(Ref::Func(func)),
            Val::ExternRef(data) => Some(Ref::Extern(data)),
            Val::AnyRef(data) => Some(Ref::Any(data)),
            _ => None,
        }
    }

    /// The number of an `i32`.
    pub fn unwrap_i32(&self) -> i32
        requires { IsSome (val_i32 self.now) }
        ensures { val_i32 self.now ≡ Some result }
    {
        match *self {
            Val::I32(number) => number,
            _ => unreachable!(),
        }
    }

    /// The number of an `i64`.
    pub fn unwrap_i64(&self) -> i64
        requires { IsSome (val_i64 self.now) }
        ensures { val_i64 self.now ≡ Some result }
    {
        match *self {
            Val::I64(number) => number,
            _ => unreachable!(),
        }
    }

    /// The vector of a value that is one.
    pub fn unwrap_v128(&self) -> V128
        requires { IsSome (val_v128 self.now) }
        ensures { val_v128 self.now ≡ Some result }
    {
        match *self {
            Val::V128(vector) => vector,
            _ => unreachable!(),
        }
    }

    /// The function, or null, of a function reference.
    pub fn unwrap_func_ref(&self) -> Option<Func>
        requires { IsSome (val_func_ref self.now) }
        ensures { val_func_ref self.now ≡ Some result }
    {
        match *self {
            Val::FuncRef(func) => func,
            _ => unreachable!(),
        }
    }

    /// As `unwrap_func_ref`.
    pub fn unwrap_funcref(&self) -> Option<Func>
        requires { IsSome (val_func_ref self.now) }
        ensures { val_func_ref self.now ≡ Some result }
    {
        self.unwrap_func_ref()
    }

    /// The host's data, or null, of a reference to such.
    pub fn unwrap_extern_ref(&self) -> Option<ExternRef>
        requires { IsSome (val_extern_ref self.now) }
        ensures { val_extern_ref self.now ≡ Some result }
    {
        match *self {
            Val::ExternRef(data) => data,
            _ => unreachable!(),
        }
    }

    /// As `unwrap_extern_ref`.
    pub fn unwrap_externref(&self) -> Option<ExternRef>
        requires { IsSome (val_extern_ref self.now) }
        ensures { val_extern_ref self.now ≡ Some result }
    {
        self.unwrap_extern_ref()
    }

    /// WebAssembly's data, or null, of a reference to such.
    pub fn unwrap_any_ref(&self) -> Option<AnyRef>
        requires { IsSome (val_any_ref self.now) }
        ensures { val_any_ref self.now ≡ Some result }
    {
        match *self {
            Val::AnyRef(data) => data,
            _ => unreachable!(),
        }
    }

    /// As `unwrap_any_ref`.
    pub fn unwrap_anyref(&self) -> Option<AnyRef>
        requires { IsSome (val_any_ref self.now) }
        ensures { val_any_ref self.now ≡ Some result }
    {
        self.unwrap_any_ref()
    }
}
