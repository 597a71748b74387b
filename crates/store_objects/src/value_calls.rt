ghost use Rattle.std.specs.Prelude.{◌≡◌, IfOk};
ghost use Rattle.spec_machine.specs.Machine.{Machine};
ghost use Rattle.spec_machine.specs.ValueCalls.{val_ty, val_matches_ty, ref_ty, ref_matches_ty, extern_ty};
ghost use Rattle.spec_machine.specs.Values.{type_of_ref, type_of_val};
ghost use Rattle.store_state.specs.Calls.{Copies};

use crate::objects::Objects;
use wasm_types::{ExternType, HeapType, OutOfMemory, RefType, ValType};
use wasm_values::{Extern, ExternRef, Func, Ref, Refusal, Val};

impl Objects {
    fn func_ref_type(&self, func: Option<Func>) -> Result<RefType, OutOfMemory>
        ensures { IfOk result (λ ty. ty ≡ type_of_ref self.now (Ref.Func func)) }
    {
        let Some(func) = func else {
            return Ok(RefType::new(true, HeapType::NoFunc));
        };
        match self.function_type(func.index()) {
            Some(own) => Ok(RefType::new(false, HeapType::ConcreteFunc(own.clone()?))),
            None => Ok(RefType::new(false, HeapType::Func)),
        }
    }

    /// The least type of a reference.
    fn ref_type(&self, reference: Ref) -> Result<RefType, OutOfMemory>
        ensures { IfOk result (λ ty. ty ≡ type_of_ref self.now reference) }
    {
        match reference {
            Ref::Func(func) => self.func_ref_type(func),
            Ref::Extern(None) => Ok(RefType::new(true, HeapType::NoExtern)),
            Ref::Extern(Some(_)) => Ok(RefType::new(false, HeapType::Extern)),
            Ref::Any(None) => Ok(RefType::new(true, HeapType::None)),
            Ref::Any(Some(_)) => Ok(RefType::new(false, HeapType::I31)),
        }
    }

    /// The type that a host is told of a value.
    fn val_type(&self, val: Val) -> Result<ValType, OutOfMemory>
        ensures { IfOk result (λ ty. ty ≡ type_of_val self.now val) }
    {
        match val {
            Val::I32(_) => Ok(ValType::I32),
            Val::I64(_) => Ok(ValType::I64),
            Val::F32(_) => Ok(ValType::F32),
            Val::F64(_) => Ok(ValType::F64),
            Val::V128(_) => Ok(ValType::V128),
            Val::FuncRef(func) => Ok(ValType::Ref(self.func_ref_type(func)?)),
            Val::ExternRef(host) => Ok(extern_ref_type(host)),
            Val::AnyRef(any) => Ok(ValType::Ref(self.ref_type(Ref::Any(any))?)),
        }
    }

    /// The type of a value: a function has its own, data of the host that of all such data. It takes memory where the
    /// value is a function.
    pub fn val_ty(&self, val: Val) -> Result<ValType, Refusal>
        ensures { Copies (val_ty self.now val) result }
    {
        if !self.owns_val(val) {
            return Err(Refusal::WrongStore);
        }
        match self.val_type(val) {
            Ok(ty) => Ok(ty),
            Err(_) => Err(Refusal::OutOfMemory),
        }
    }

    /// Whether a value may stand where one of the type is wanted. `WrongEngine` where the type is of another engine.
    pub fn val_matches_ty(&self, val: Val, ty: &ValType) -> Result<bool, Refusal>
        ensures { result ≡ val_matches_ty self.now val ty.now }
    {
        if !self.owns_val(val) {
            return Err(Refusal::WrongStore);
        }
        if !ty.comes_from_same_engine(self.engine.id()) {
            return Err(Refusal::WrongEngine);
        }
        Ok(self.val_fits(val, ty))
    }

    /// The type of a reference, nullable exactly for null. It takes memory where the reference is a function.
    pub fn ref_ty(&self, reference: Ref) -> Result<RefType, Refusal>
        ensures { Copies (ref_ty self.now reference) result }
    {
        if !self.owns_ref(reference) {
            return Err(Refusal::WrongStore);
        }
        match self.ref_type(reference) {
            Ok(ty) => Ok(ty),
            Err(_) => Err(Refusal::OutOfMemory),
        }
    }

    /// Whether a reference may stand where one of the type is wanted. `WrongEngine` where the type is of another engine.
    pub fn ref_matches_ty(&self, reference: Ref, ty: &RefType) -> Result<bool, Refusal>
        ensures { result ≡ ref_matches_ty self.now reference ty.now }
    {
        if !self.owns_ref(reference) {
            return Err(Refusal::WrongStore);
        }
        if !ty.comes_from_same_engine(self.engine.id()) {
            return Err(Refusal::WrongEngine);
        }
        Ok(self.ref_fits(reference, ty))
    }

    /// The type of an object. It takes memory where that holds a function's type.
    pub fn extern_ty(&self, object: Extern) -> Result<ExternType, Refusal>
        ensures { Copies (extern_ty self.now object) result }
    {
        match object {
            Extern::Func(func) => Ok(ExternType::Func(self.func_ty(func)?)),
            Extern::Global(global) => Ok(ExternType::Global(self.global_ty(global)?)),
            Extern::Table(table) => Ok(ExternType::Table(self.table_ty(table)?)),
            Extern::Memory(memory) => Ok(ExternType::Memory(self.memory_ty(memory)?)),
            Extern::Tag(tag) => Ok(ExternType::Tag(self.tag_ty(tag)?)),
        }
    }
}

// A reference to the host's data is nullable to the host, as the wasmtime crate has it.
fn extern_ref_type(host: Option<ExternRef>) -> ValType
    ensures { (m : Machine) → result ≡ type_of_val m (Val.ExternRef host) }
{
    match host {
        Some(_) => ValType::externref(),
        None => ValType::nullexternref(),
    }
}
