ghost use Rattle.std.specs.Prelude.{◌≡◌};
ghost use Rattle.spec_machine.specs.ValueCalls.{val_ty, val_matches_ty, ref_ty, ref_matches_ty, extern_ty};
ghost use Rattle.wasm_values.specs.declared.externals.Extern.{Extern as Object};
ghost use Rattle.wasm_values.specs.declared.references.Ref.{Ref as Reference};
ghost use Rattle.wasm_values.specs.declared.values.Val.{Val as Value};
ghost use Rattle.store_state.specs.Calls.{Copies};

use crate::store::Store;
use wasm_meter::{CallHooks, DeadlineBehaviour, HostData};
use wasm_types::{ExternType, RefType, ValType};
use wasm_values::{Extern, Ref, Refusal, Val};

/// What a host asks of values on a store. Contracts see the implementor as a value.
///
/// Each call is refused with `WrongStore` where a function in the value is not of the store, before all else.
pub trait ValCalls {
    /// The value.
    ghost value: { Self → Value };

    /// Its type: a function has its own, data of the host that of all such data. It takes memory where the value is a
    /// function.
    fn ty<T: HostData, K: CallHooks<T>, B: DeadlineBehaviour<T>>(
        &self,
        store: &Store<T, K, B>,
    ) -> Result<ValType, Refusal>
        ensures { Copies (val_ty store.now.machine (value self.now)) result };

    /// Whether it may stand where one of the type is wanted. `WrongEngine` where the type is of another engine.
    fn matches_ty<T: HostData, K: CallHooks<T>, B: DeadlineBehaviour<T>>(
        &self,
        store: &Store<T, K, B>,
        ty: &ValType,
    ) -> Result<bool, Refusal>
        ensures { result ≡ val_matches_ty store.now.machine (value self.now) ty.now };
}

impl ValCalls for Val {
    ghost value = { λ val. val };

    fn ty<T: HostData, K: CallHooks<T>, B: DeadlineBehaviour<T>>(
        &self,
        store: &Store<T, K, B>,
    ) -> Result<ValType, Refusal> {
        store.objects.val_ty(*self)
    }

    fn matches_ty<T: HostData, K: CallHooks<T>, B: DeadlineBehaviour<T>>(
        &self,
        store: &Store<T, K, B>,
        ty: &ValType,
    ) -> Result<bool, Refusal> {
        store.objects.val_matches_ty(*self, ty)
    }
}

/// What a host asks of references on a store. Contracts see the implementor as a reference.
///
/// Each call is refused with `WrongStore` where it is a function that is not of the store, before all else.
pub trait RefCalls {
    /// The reference.
    ghost reference: { Self → Reference };

    /// Its type, nullable exactly for null. It takes memory where the reference is a function.
    fn ty<T: HostData, K: CallHooks<T>, B: DeadlineBehaviour<T>>(
        &self,
        store: &Store<T, K, B>,
    ) -> Result<RefType, Refusal>
        ensures { Copies (ref_ty store.now.machine (reference self.now)) result };

    /// Whether it may stand where one of the type is wanted. `WrongEngine` where the type is of another engine.
    fn matches_ty<T: HostData, K: CallHooks<T>, B: DeadlineBehaviour<T>>(
        &self,
        store: &Store<T, K, B>,
        ty: &RefType,
    ) -> Result<bool, Refusal>
        ensures { result ≡ ref_matches_ty store.now.machine (reference self.now) ty.now };
}

impl RefCalls for Ref {
    ghost reference = { λ reference. reference };

    fn ty<T: HostData, K: CallHooks<T>, B: DeadlineBehaviour<T>>(
        &self,
        store: &Store<T, K, B>,
    ) -> Result<RefType, Refusal> {
        store.objects.ref_ty(*self)
    }

    fn matches_ty<T: HostData, K: CallHooks<T>, B: DeadlineBehaviour<T>>(
        &self,
        store: &Store<T, K, B>,
        ty: &RefType,
    ) -> Result<bool, Refusal> {
        store.objects.ref_matches_ty(*self, ty)
    }
}

/// What a host asks of objects by their kind. Contracts see the implementor as an object.
pub trait ExternCalls {
    /// The object.
    ghost object: { Self → Object };

    /// Its type. It takes memory where that holds a function's type. `WrongStore` where the object is not of the store.
    fn ty<T: HostData, K: CallHooks<T>, B: DeadlineBehaviour<T>>(
        &self,
        store: &Store<T, K, B>,
    ) -> Result<ExternType, Refusal>
        ensures { Copies (extern_ty store.now.machine (object self.now)) result };
}

impl ExternCalls for Extern {
    ghost object = { λ object. object };

    fn ty<T: HostData, K: CallHooks<T>, B: DeadlineBehaviour<T>>(
        &self,
        store: &Store<T, K, B>,
    ) -> Result<ExternType, Refusal> {
        store.objects.extern_ty(*self)
    }
}
