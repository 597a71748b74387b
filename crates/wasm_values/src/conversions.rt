ghost use Rattle.std.specs.Prelude.{◌≡◌, Some};
ghost use Rattle.wasm_values.specs.Values.{vector, val_of};
ghost use Rattle.wasm_values.specs.declared.externals.Extern.{Extern};
ghost use Rattle.wasm_values.specs.declared.references.Ref.{Ref};
ghost use Rattle.wasm_values.specs.declared.refusals.Refusal.{Refusal};
ghost use Rattle.wasm_values.specs.declared.values.Val.{Val};

use crate::externals::Extern;
use crate::handles::{Func, Global, Memory, Table, Tag};
use crate::references::{AnyRef, ExternRef, Ref};
use crate::refusals::Refusal;
use crate::values::{V128, Val};
use std::alloc::{AllocError, AllocFailed};
use wasm_types::OutOfMemory;

impl From<i32> for Val {
    ghost from_gives = { λ x y. y ≡ Val.I32 x };

    fn from(value: i32) -> Val {
        Val::I32(value)
    }
}

impl From<i64> for Val {
    ghost from_gives = { λ x y. y ≡ Val.I64 x };

    fn from(value: i64) -> Val {
        Val::I64(value)
    }
}

impl From<u128> for Val {
    ghost from_gives = { λ x y. y ≡ Val.V128 (vector x) };

    fn from(value: u128) -> Val {
        Val::V128(V128(value))
    }
}

impl From<V128> for Val {
    ghost from_gives = { λ x y. y ≡ Val.V128 x };

    fn from(value: V128) -> Val {
        Val::V128(value)
    }
}

impl From<Ref> for Val {
    ghost from_gives = { λ x y. y ≡ val_of x };

    fn from(value: Ref) -> Val {
        match value {
            Ref::Func(func) => Val::FuncRef(func),
            Ref::Extern(data) => Val::ExternRef(data),
            Ref::Any(data) => Val::AnyRef(data),
        }
    }
}

impl From<Func> for Val {
    ghost from_gives = { λ x y. y ≡ Val.FuncRef (Some x) };

    fn from(value: Func) -> Val {
        Val::FuncRef(Some(value))
    }
}

impl From<Option<Func>> for Val {
    ghost from_gives = { λ x y. y ≡ Val.FuncRef x };

    fn from(value: Option<Func>) -> Val {
        Val::FuncRef(value)
    }
}

impl From<ExternRef> for Val {
    ghost from_gives = { λ x y. y ≡ Val.ExternRef (Some x) };

    fn from(value: ExternRef) -> Val {
        Val::ExternRef(Some(value))
    }
}

impl From<Option<ExternRef>> for Val {
    ghost from_gives = { λ x y. y ≡ Val.ExternRef x };

    fn from(value: Option<ExternRef>) -> Val {
        Val::ExternRef(value)
    }
}

impl From<AnyRef> for Val {
    ghost from_gives = { λ x y. y ≡ Val.AnyRef (Some x) };

    fn from(value: AnyRef) -> Val {
        Val::AnyRef(Some(value))
    }
}

impl From<Option<AnyRef>> for Val {
    ghost from_gives = { λ x y. y ≡ Val.AnyRef x };

    fn from(value: Option<AnyRef>) -> Val {
        Val::AnyRef(value)
    }
}

impl From<Func> for Ref {
    ghost from_gives = { λ x y. y ≡ Ref.Func (Some x) };

    fn from(value: Func) -> Ref {
        Ref::Func(Some(value))
    }
}

impl From<Option<Func>> for Ref {
    ghost from_gives = { λ x y. y ≡ Ref.Func x };

    fn from(value: Option<Func>) -> Ref {
        Ref::Func(value)
    }
}

impl From<ExternRef> for Ref {
    ghost from_gives = { λ x y. y ≡ Ref.Extern (Some x) };

    fn from(value: ExternRef) -> Ref {
        Ref::Extern(Some(value))
    }
}

impl From<Option<ExternRef>> for Ref {
    ghost from_gives = { λ x y. y ≡ Ref.Extern x };

    fn from(value: Option<ExternRef>) -> Ref {
        Ref::Extern(value)
    }
}

impl From<AnyRef> for Ref {
    ghost from_gives = { λ x y. y ≡ Ref.Any (Some x) };

    fn from(value: AnyRef) -> Ref {
        Ref::Any(Some(value))
    }
}

impl From<Option<AnyRef>> for Ref {
    ghost from_gives = { λ x y. y ≡ Ref.Any x };

    fn from(value: Option<AnyRef>) -> Ref {
        Ref::Any(value)
    }
}

impl From<Func> for Extern {
    ghost from_gives = { λ x y. y ≡ Extern.Func x };

    fn from(value: Func) -> Extern {
        Extern::Func(value)
    }
}

impl From<Global> for Extern {
    ghost from_gives = { λ x y. y ≡ Extern.Global x };

    fn from(value: Global) -> Extern {
        Extern::Global(value)
    }
}

impl From<Table> for Extern {
    ghost from_gives = { λ x y. y ≡ Extern.Table x };

    fn from(value: Table) -> Extern {
        Extern::Table(value)
    }
}

impl From<Memory> for Extern {
    ghost from_gives = { λ x y. y ≡ Extern.Memory x };

    fn from(value: Memory) -> Extern {
        Extern::Memory(value)
    }
}

impl From<Tag> for Extern {
    ghost from_gives = { λ x y. y ≡ Extern.Tag x };

    fn from(value: Tag) -> Extern {
        Extern::Tag(value)
    }
}

impl From<OutOfMemory> for Refusal {
    ghost from_gives = { λ _ y. y ≡ Refusal.OutOfMemory };

    fn from(_error: OutOfMemory) -> Refusal {
        Refusal::OutOfMemory
    }
}

impl From<AllocError> for Refusal {
    ghost from_gives = { λ _ y. y ≡ Refusal.OutOfMemory };

    fn from(_error: AllocError) -> Refusal {
        Refusal::OutOfMemory
    }
}

impl<T: Drop> From<AllocFailed<T>> for Refusal {
    ghost from_gives = { λ _ y. y ≡ Refusal.OutOfMemory };

    fn from(_error: AllocFailed<T>) -> Refusal {
        Refusal::OutOfMemory
    }
}
