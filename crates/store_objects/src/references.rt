ghost use Rattle.std.specs.Prelude.{◌≡◌, option_copied};
ghost use Rattle.wasm_types.specs.Matching.{val_matches};
ghost use Rattle.spec_machine.specs.TableCalls.{owns_given, given_fits};
ghost use Rattle.spec_machine.specs.Values.{owns_func, owns_func_ref, owns_extern, owns_ref, owns_val, function_type, type_of_ref, ref_fits, val_fits};

use crate::objects::Objects;
use store_state::func_fits;
use wasm_types::{FuncType, HeapType, RefType, ValType};
use wasm_values::{Extern, Func, Global, Memory, Ref, Table, Tag, Val};

impl Objects {
    /// The type of a function of this store, by its number.
    pub(crate) fn function_type(&self, index: usize) -> Option<&FuncType>
        ensures { option_copied result ≡ function_type self.now index }
    {
        self.program.get().function_type(index)
    }

    /// Whether a function is of this store.
    pub(crate) fn owns_func(&self, func: Func) -> bool
        ensures { result ≡ owns_func self.now func }
    {
        self.is_own(func.store_id()) && func.index() < self.program.get().function_count()
    }

    fn owns_func_ref(&self, func: Option<Func>) -> bool
        ensures { result ≡ owns_func_ref self.now func }
    {
        match func {
            Some(func) => self.owns_func(func),
            None => true,
        }
    }

    /// Whether a reference is of this store.
    pub(crate) fn owns_ref(&self, reference: Ref) -> bool
        ensures { result ≡ owns_ref self.now reference }
    {
        match reference {
            Ref::Func(func) => self.owns_func_ref(func),
            _ => true,
        }
    }

    /// The same of what is given as an element.
    pub(crate) fn owns_given(&self, given: Option<Ref>) -> bool
        ensures { result ≡ owns_given self.now given }
    {
        match given {
            Some(reference) => self.owns_ref(reference),
            None => true,
        }
    }

    /// Whether a value is of this store.
    pub(crate) fn owns_val(&self, val: Val) -> bool
        ensures { result ≡ owns_val self.now val }
    {
        match val {
            Val::FuncRef(func) => self.owns_func_ref(func),
            _ => true,
        }
    }

    fn owns_global(&self, global: Global) -> bool
        ensures { result ≡ owns_extern self.now (Extern.Global global) }
    {
        self.is_own(global.store_id()) && global.index() < self.held.global_count()
    }

    fn owns_table(&self, table: Table) -> bool
        ensures { result ≡ owns_extern self.now (Extern.Table table) }
    {
        self.is_own(table.store_id()) && table.index() < self.held.table_count()
    }

    fn owns_memory(&self, memory: Memory) -> bool
        ensures { result ≡ owns_extern self.now (Extern.Memory memory) }
    {
        self.is_own(memory.store_id()) && memory.index() < self.held.memory_count()
    }

    fn owns_tag(&self, tag: Tag) -> bool
        ensures { result ≡ owns_extern self.now (Extern.Tag tag) }
    {
        self.is_own(tag.store_id()) && tag.index() < self.held.tag_count()
    }

    /// Whether an object is of this store.
    pub fn owns_extern(&self, object: Extern) -> bool
        ensures { result ≡ owns_extern self.now object }
    {
        match object {
            Extern::Func(func) => self.owns_func(func),
            Extern::Global(global) => self.owns_global(global),
            Extern::Table(table) => self.owns_table(table),
            Extern::Memory(memory) => self.owns_memory(memory),
            Extern::Tag(tag) => self.owns_tag(tag),
        }
    }

    fn func_ref_fits(&self, func: Option<Func>, ty: &RefType) -> bool
        ensures { result ≡ ref_fits self.now (Ref.Func func) ty.now }
    {
        let Some(func) = func else {
            return RefType::new(true, HeapType::NoFunc).matches(ty);
        };
        match self.function_type(func.index()) {
            Some(own) => func_fits(own, ty.heap_type()),
            None => matches!(ty.heap_type(), HeapType::Func),
        }
    }

    /// Whether a reference may stand where one of the type is wanted.
    pub(crate) fn ref_fits(&self, reference: Ref, ty: &RefType) -> bool
        ensures { result ≡ ref_fits self.now reference ty.now }
    {
        match reference {
            Ref::Func(func) => self.func_ref_fits(func, ty),
            Ref::Extern(None) => RefType::new(true, HeapType::NoExtern).matches(ty),
            Ref::Extern(Some(_)) => RefType::new(false, HeapType::Extern).matches(ty),
            Ref::Any(None) => RefType::new(true, HeapType::None).matches(ty),
            Ref::Any(Some(_)) => RefType::new(false, HeapType::I31).matches(ty),
        }
    }

    /// Whether what is given as an element fits a type; a value that is no reference fits none.
    pub(crate) fn given_fits(&self, given: Option<Ref>, ty: &RefType) -> bool
        ensures { result ≡ given_fits self.now given ty.now }
    {
        match given {
            Some(reference) => self.ref_fits(reference, ty),
            None => false,
        }
    }

    fn reference_fits(&self, reference: Ref, ty: &ValType) -> bool
        ensures { result ≡ val_matches (ValType.Ref (type_of_ref self.now reference)) ty.now }
    {
        match ty {
            ValType::Ref(ty) => self.ref_fits(reference, ty),
            _ => false,
        }
    }

    /// Whether a value may stand where one of the type is wanted.
    pub(crate) fn val_fits(&self, val: Val, ty: &ValType) -> bool
        ensures { result ≡ val_fits self.now val ty.now }
    {
        match val {
            Val::I32(_) => matches!(ty, ValType::I32),
            Val::I64(_) => matches!(ty, ValType::I64),
            Val::F32(_) => matches!(ty, ValType::F32),
            Val::F64(_) => matches!(ty, ValType::F64),
            Val::V128(_) => matches!(ty, ValType::V128),
            Val::FuncRef(func) => self.reference_fits(Ref::Func(func), ty),
            Val::ExternRef(data) => self.reference_fits(Ref::Extern(data), ty),
            Val::AnyRef(any) => self.reference_fits(Ref::Any(any), ty),
        }
    }
}
