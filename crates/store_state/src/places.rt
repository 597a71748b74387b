ghost use Rattle.std.specs.Prelude.{◌≡◌};
ghost use Rattle.wasm_types.specs.Matching.{heap_matches};
ghost use Rattle.wasm_values.specs.References.{null_of};
ghost use Rattle.spec_machine.specs.TableCalls.{raw_given};
ghost use Rattle.spec_machine.specs.Values.{any_of, ref_at, val_at, raw_ref, raw_func, raw_extern, raw_any, raw_val, top_of};

use wasm_objects::{RawRef, RawVal};
use wasm_types::{FuncType, HeapTopType, HeapType, ValType};
use wasm_values::{AnyRef, ExternRef, Func, Ref, StoreId, V128, Val};

// A reference as a place of a store holds it.
fn raw_func(func: Option<Func>) -> RawRef
    ensures { result ≡ raw_func func }
{
    match func {
        Some(func) => RawRef::Func(func.index()),
        None => RawRef::Null,
    }
}

fn raw_extern(host: Option<ExternRef>) -> RawRef
    ensures { result ≡ raw_extern host }
{
    match host {
        Some(host) => RawRef::Extern(host.0),
        None => RawRef::Null,
    }
}

fn raw_any(any: Option<AnyRef>) -> RawRef
    ensures { result ≡ raw_any any }
{
    match any {
        Some(any) => RawRef::I31(any.i31()),
        None => RawRef::Null,
    }
}

fn raw_ref(reference: Ref) -> RawRef
    ensures { result ≡ raw_ref reference }
{
    match reference {
        Ref::Func(func) => raw_func(func),
        Ref::Extern(data) => raw_extern(data),
        Ref::Any(any) => raw_any(any),
    }
}

/// What is given as an element, as a table holds it.
pub fn raw_given(given: Option<Ref>) -> RawRef
    ensures { result ≡ raw_given given }
{
    match given {
        Some(reference) => raw_ref(reference),
        None => RawRef::Null,
    }
}

/// A value as a global holds it.
pub fn raw_val(val: Val) -> RawVal
    ensures { result ≡ raw_val val }
{
    match val {
        Val::I32(number) => RawVal::I32(number),
        Val::I64(number) => RawVal::I64(number),
        Val::F32(bits) => RawVal::F32(bits),
        Val::F64(bits) => RawVal::F64(bits),
        Val::V128(vector) => RawVal::V128(vector.0),
        Val::FuncRef(func) => RawVal::Reference(raw_func(func)),
        Val::ExternRef(data) => RawVal::Reference(raw_extern(data)),
        Val::AnyRef(any) => RawVal::Reference(raw_any(any)),
    }
}

fn any_of(number: u32) -> Option<AnyRef>
    ensures { result ≡ any_of number }
{
    AnyRef::from_i31(number)
}

fn null_of(greatest: HeapTopType) -> Ref
    ensures { result ≡ null_of greatest }
{
    match greatest {
        HeapTopType::Func => Ref::Func(None),
        HeapTopType::Extern => Ref::Extern(None),
        HeapTopType::Any => Ref::Any(None),
    }
}

/// A reference in a place of a store, as a host handles it.
pub fn ref_at(id: StoreId, greatest: HeapTopType, raw: RawRef) -> Ref
    ensures { result ≡ ref_at id greatest raw }
{
    match raw {
        RawRef::Null => null_of(greatest),
        RawRef::Func(index) => Ref::Func(Some(Func::from_parts(id, index))),
        RawRef::Extern(number) => Ref::Extern(Some(ExternRef(number))),
        RawRef::I31(number) => Ref::Any(any_of(number)),
    }
}

// The greatest heap type above a type; for a number that of functions.
fn top_of(ty: &ValType) -> HeapTopType
    ensures { result ≡ top_of ty.now }
{
    match ty {
        ValType::Ref(ty) => ty.heap_type().top(),
        _ => HeapTopType::Func,
    }
}

/// A value in a place of a store of this type, as a host handles it.
pub fn val_at(id: StoreId, ty: &ValType, raw: RawVal) -> Val
    ensures { result ≡ val_at id ty.now raw }
{
    match raw {
        RawVal::I32(number) => Val::I32(number),
        RawVal::I64(number) => Val::I64(number),
        RawVal::F32(bits) => Val::F32(bits),
        RawVal::F64(bits) => Val::F64(bits),
        RawVal::V128(bits) => Val::V128(V128(bits)),
        RawVal::Reference(raw) => Val::from(ref_at(id, top_of(ty), raw)),
    }
}

/// Whether a reference to a function of this type fits: by the wanted heap type, so that no type is copied.
pub fn func_fits(own: &FuncType, wanted: &HeapType) -> bool
    ensures { result ≡ heap_matches (HeapType.ConcreteFunc own.now) wanted.now }
{
    match wanted {
        HeapType::ConcreteFunc(wanted) => own.matches(wanted),
        HeapType::Func => true,
        _ => false,
    }
}
