ghost use Rattle.std.specs.Prelude.{◌≡◌, MatchResult};
ghost use Rattle.std.specs.List.{list_all};
ghost use Rattle.spec_machine.specs.ValueCalls.{func_new, func_ty, func_matches_ty};
ghost use Rattle.spec_machine.specs.Values.{owns_extern};
ghost use Rattle.store_state.specs.Calls.{Copies, Makes};
ghost use Rattle.store_objects.specs.Machines.{AsksAlike};

use crate::objects::Objects;
use store_state::Function;
use wasm_types::FuncType;
use wasm_values::{Extern, Func, Refusal};

impl Objects {
    /// The type of a function, lent.
    pub fn func(&self, func: Func) -> Result<&FuncType, Refusal>
        ensures { MatchResult result
            (λ ty. func_ty self.now func ≡ Ok ty.now) (λ why. func_ty self.now func ≡ Err why) }
    {
        if !self.is_own(func.store_id()) {
            return Err(Refusal::WrongStore);
        }
        match self.function_type(func.index()) {
            Some(ty) => Ok(ty),
            None => Err(Refusal::WrongStore),
        }
    }

    /// The type that a function was made with. It takes memory.
    pub fn func_ty(&self, func: Func) -> Result<FuncType, Refusal>
        ensures { Copies (func_ty self.now func) result }
    {
        let own = self.func(func)?;
        match own.clone() {
            Ok(copy) => Ok(copy),
            Err(_) => Err(Refusal::OutOfMemory),
        }
    }

    /// Whether a function may stand where one of the type is wanted. `WrongEngine` where the type is of another engine.
    pub fn func_matches_ty(&self, func: Func, ty: &FuncType) -> Result<bool, Refusal>
        ensures { result ≡ func_matches_ty self.now func ty.now }
    {
        let own = self.func(func)?;
        if !ty.comes_from_same_engine(self.engine.id()) {
            return Err(Refusal::WrongEngine);
        }
        Ok(own.matches(ty))
    }

    // Whether all of these objects are of this store.
    fn owns_all(&self, stored: &[Extern]) -> bool
        ensures { result ≡ list_all (owns_extern self.now) stored.now }
    {
        for object in stored {
            if !self.owns_extern(*object) {
                return false;
            }
        }
        true
    }

    /// A new function of the host: its type, the number of its body, and the objects that its body may name.
    ///
    /// `WrongEngine` where the type is of another engine.
    pub fn func_new(
        &mut self,
        ty: FuncType,
        body: usize,
        stored: &[Extern],
    ) -> Result<Func, Refusal>
        ensures due { Makes (func_new self.old ty body stored.now) self.old result self.new }
        ensures asks { AsksAlike self.old self.new }
    {
        if !self.owns_all(stored) {
            return Err(Refusal::WrongStore);
        }
        if !ty.comes_from_same_engine(self.engine.id()) {
            return Err(Refusal::WrongEngine);
        }
        ty.keeps_rules();
        let handle = Func::from_parts(self.id, self.program.get().function_count());
        let Ok(stored) = Vec::from_slice(self.alloc, stored) else {
            return Err(Refusal::OutOfMemory);
        };
        let Ok(()) = self.program.add_function(Function::host(ty, body, stored)) else {
            return Err(Refusal::OutOfMemory);
        };
        Ok(handle)
    }
}
