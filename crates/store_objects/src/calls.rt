ghost use Rattle.std.specs.Prelude.{◌≡◌, ◌&&◌, Ok, Err, MatchResult};
ghost use Rattle.std.specs.List.{list_all};
ghost use Rattle.spec_machine.specs.FunctionCalls.{called, is_count};
ghost use Rattle.spec_machine.specs.InstanceCalls.{instance_at, object, exported_object, get_export};
ghost use Rattle.spec_machine.specs.Machine.{InstanceParts};
ghost use Rattle.spec_machine.specs.Values.{owns_val, all_fit};
ghost use Rattle.store_state.specs.Conditions.{conditions};
ghost use Rattle.store_state.specs.Machine.{IsNamed};

use crate::objects::Objects;
use store_state::Instance as StoredInstance;
use wasm_module::EntityIndex;
use wasm_types::ValType;
use wasm_values::{Extern, Func, Global, Instance, Memory, Refusal, Table, Tag, Val};

impl Objects {
    // Whether all of these values are of this store.
    fn owns_vals(&self, vals: &[Val]) -> bool
        ensures { result ≡ list_all (owns_val self.now) vals.now }
    {
        for val in vals {
            if !self.owns_val(*val) {
                return false;
            }
        }
        true
    }

    // Whether there are as many values as types, and each may stand where its type is wanted.
    fn vals_fit(&self, vals: &[Val], types: &[ValType]) -> bool
        ensures { result ≡ all_fit self.now vals.now types.now }
    {
        let mut rest = vals;
        let mut wanted = types;
        while let [val, tail @ ..] = rest {
            let [ty, after @ ..] = wanted else {
                return false;
            };
            if !self.val_fits(*val, ty) {
                return false;
            }
            rest = tail;
            wanted = after;
        }
        wanted.is_empty()
    }

    /// What is asked before a function is called with these arguments, where `results` may say how many results there
    /// are to be.
    ///
    /// `WrongStore` where an argument is not of this store, then `ArgumentCount`, `ResultCount`, and `TypeMismatch` where
    /// an argument does not fit its parameter.
    pub fn may_call(&self, func: Func, args: &[Val], results: Option<u64>) -> Result<(), Refusal>
        ensures { result ≡ conditions (called self.now func args.now results) }
    {
        let ty = self.func(func)?;
        if !self.owns_vals(args) {
            return Err(Refusal::WrongStore);
        }
        if args.len() != ty.params().len() {
            return Err(Refusal::ArgumentCount);
        }
        if !is_count(results, ty.results().len() as u64) {
            return Err(Refusal::ResultCount);
        }
        if !self.vals_fit(args, ty.params()) {
            return Err(Refusal::TypeMismatch);
        }
        Ok(())
    }

    /// Whether these are of the store, as many as the types, and each of its type.
    pub fn are_results(&self, vals: &[Val], types: &[ValType]) -> bool
        ensures { result ≡ list_all (owns_val self.now) vals.now && all_fit self.now vals.now types.now }
    {
        self.owns_vals(vals) && self.vals_fit(vals, types)
    }

    /// The instance of a handle, lent.
    pub fn instance(&self, instance: Instance) -> Result<&StoredInstance, Refusal>
        ensures { MatchResult result
            (λ stored. (i : InstanceParts) × (instance_at self.now instance ≡ Ok i) × IsNamed i stored.now)
            (λ why. instance_at self.now instance ≡ Err why) }
    {
        if !self.is_own(instance.store_id()) {
            return Err(Refusal::WrongStore);
        }
        match self.program.get().instance(instance.index()) {
            Some(stored) => Ok(stored),
            None => Err(Refusal::WrongStore),
        }
    }

    // The object that an instance has under an index.
    fn object(&self, instance: &StoredInstance, entity: EntityIndex) -> Option<Extern>
        ensures { (i : InstanceParts) → IsNamed i instance.now → result ≡ object self.now i entity }
    {
        match entity {
            EntityIndex::Func(index) => {
                let number = instance.function(index as usize)?;
                Some(Extern::Func(Func::from_parts(self.id, number)))
            }
            EntityIndex::Global(index) => {
                let number = instance.global(index as usize)?;
                Some(Extern::Global(Global::from_parts(self.id, number)))
            }
            EntityIndex::Table(index) => {
                let number = instance.table(index as usize)?;
                Some(Extern::Table(Table::from_parts(self.id, number)))
            }
            EntityIndex::Memory(index) => {
                let number = instance.memory(index as usize)?;
                Some(Extern::Memory(Memory::from_parts(self.id, number)))
            }
            EntityIndex::Tag(index) => {
                let number = instance.tag(index as usize)?;
                Some(Extern::Tag(Tag::from_parts(self.id, number)))
            }
        }
    }

    // The object that an instance exports under a name.
    fn exported(&self, instance: &StoredInstance, name: &str) -> Option<Extern>
        ensures { (i : InstanceParts) → IsNamed i instance.now → result ≡ exported_object self.now i name.now }
    {
        match instance.module().get_export_index(name) {
            Some(export) => self.object(instance, export.entity),
            None => None,
        }
    }

    /// The object that an instance exports under a name.
    pub fn get_export(&self, instance: Instance, name: &str) -> Result<Extern, Refusal>
        ensures { result ≡ get_export self.now instance name.now }
    {
        let stored = self.instance(instance)?;
        self.exported(stored, name).ok_or(Refusal::NoExport)
    }
}

// Whether there are as many results as are wanted, where it is said how many.
fn is_count(wanted: Option<u64>, count: u64) -> bool
    ensures { result ≡ is_count wanted count }
{
    match wanted {
        Some(wanted) => wanted == count,
        None => true,
    }
}
