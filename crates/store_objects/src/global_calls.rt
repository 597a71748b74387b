ghost use Rattle.std.specs.Prelude.{◌≡◌, Some, MatchResult, slice_get};
ghost use Rattle.wasm_values.specs.Handles.{global_index};
ghost use Rattle.spec_machine.specs.GlobalCalls.{global_at, global_new, global_ty, global_get, global_set};
ghost use Rattle.store_state.specs.Calls.{Changes, Copies, Makes};
ghost use Rattle.store_objects.specs.Machines.{AsksAlike};

use crate::objects::Objects;
use store_state::{raw_val, val_at};
use wasm_objects::GlobalObject;
use wasm_types::{GlobalType, Mutability};
use wasm_values::{Global, Refusal, Val};

impl Objects {
    /// The global of a handle, lent.
    pub fn global(&self, global: Global) -> Result<&GlobalObject, Refusal>
        ensures { MatchResult result
            (λ object. (global_at self.now global ≡ Ok object.now)
            × (slice_get self.now.globals (global_index global) ≡ Some object.now))
            (λ why. global_at self.now global ≡ Err why) }
    {
        if !self.is_own(global.store_id()) {
            return Err(Refusal::WrongStore);
        }
        match self.held.global_object(global.index()) {
            Some(object) => Ok(object),
            None => Err(Refusal::WrongStore),
        }
    }

    /// The type that a global was made with. It takes memory where the type of the value is that of a function.
    pub fn global_ty(&self, global: Global) -> Result<GlobalType, Refusal>
        ensures { Copies (global_ty self.now global) result }
    {
        let object = self.global(global)?;
        match object.ty().clone() {
            Ok(ty) => Ok(ty),
            Err(_) => Err(Refusal::OutOfMemory),
        }
    }

    /// The value of a global.
    pub fn global_get(&self, global: Global) -> Result<Val, Refusal>
        ensures { result ≡ global_get self.now global }
    {
        let object = self.global(global)?;
        Ok(val_at(self.id, object.ty().content(), object.get()))
    }

    /// Makes `val` the value of a global.
    ///
    /// `ImmutableGlobal` where the global is constant, then `TypeMismatch` where the value does not fit.
    pub fn global_set(&mut self, global: Global, val: Val) -> Result<(), Refusal>
        ensures due { Changes (global_set self.old global val) self.old result self.new }
        ensures asks { AsksAlike self.old self.new }
    {
        let object = self.global(global)?;
        if !self.owns_val(val) {
            return Err(Refusal::WrongStore);
        }
        if matches!(object.ty().mutability(), Mutability::Const) {
            return Err(Refusal::ImmutableGlobal);
        }
        if !self.val_fits(val, object.ty().content()) {
            return Err(Refusal::TypeMismatch);
        }
        if self.held.set_global(global.index(), raw_val(val)) {
            return Ok(());
        }
        unreachable!()
    }

    /// A new global that holds `val`.
    ///
    /// `WrongEngine` where the type is of another engine, then `TypeMismatch` where the value does not fit.
    pub fn global_new(&mut self, ty: GlobalType, val: Val) -> Result<Global, Refusal>
        ensures due { Makes (global_new self.old ty val) self.old result self.new }
        ensures asks { AsksAlike self.old self.new }
    {
        if !self.owns_val(val) {
            return Err(Refusal::WrongStore);
        }
        let content = ty.content();
        if !content.comes_from_same_engine(self.engine.id()) {
            return Err(Refusal::WrongEngine);
        }
        if !self.val_fits(val, content) {
            return Err(Refusal::TypeMismatch);
        }
        content.keeps_rules();
        let handle = Global::from_parts(self.id, self.held.global_count());
        let Ok(()) = self.held.add_global(GlobalObject::new(ty, raw_val(val))) else {
            return Err(Refusal::OutOfMemory);
        };
        Ok(handle)
    }
}
