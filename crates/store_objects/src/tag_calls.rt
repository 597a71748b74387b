ghost use Rattle.std.specs.Prelude.{◌≡◌, MatchResult};
ghost use Rattle.spec_machine.specs.GlobalCalls.{tag_new, tag_ty, tag_eq};
ghost use Rattle.store_state.specs.Calls.{Copies, Makes};
ghost use Rattle.store_objects.specs.Machines.{AsksAlike};

use crate::objects::Objects;
use wasm_types::{FuncType, TagType};
use wasm_values::{Refusal, Tag};

impl Objects {
    /// The function type of a tag, lent.
    pub fn tag(&self, tag: Tag) -> Result<&FuncType, Refusal>
        ensures { MatchResult result
            (λ ty. tag_ty self.now tag ≡ Ok ty.now) (λ why. tag_ty self.now tag ≡ Err why) }
    {
        if !self.is_own(tag.store_id()) {
            return Err(Refusal::WrongStore);
        }
        match self.held.tag(tag.index()) {
            Some(ty) => Ok(ty),
            None => Err(Refusal::WrongStore),
        }
    }

    /// The type that a tag was made with. It takes memory.
    pub fn tag_ty(&self, tag: Tag) -> Result<TagType, Refusal>
        ensures { Copies (tag_ty self.now tag) result }
    {
        let own = self.tag(tag)?;
        match own.clone() {
            Ok(copy) => Ok(TagType::new(copy)),
            Err(_) => Err(Refusal::OutOfMemory),
        }
    }

    /// Whether two handles are of one tag. Tags of one type are two all the same.
    pub fn tag_eq(&self, a: Tag, b: Tag) -> Result<bool, Refusal>
        ensures { result ≡ tag_eq self.now a b }
    {
        self.tag(a)?;
        self.tag(b)?;
        Ok(a.index() == b.index())
    }

    /// A new tag of the type. `WrongEngine` where the type is of another engine.
    pub fn tag_new(&mut self, ty: &TagType) -> Result<Tag, Refusal>
        ensures due { Makes (tag_new self.old ty.now) self.old result self.new }
        ensures asks { AsksAlike self.old self.new }
    {
        let own = ty.ty();
        if !own.comes_from_same_engine(self.engine.id()) {
            return Err(Refusal::WrongEngine);
        }
        own.keeps_rules();
        let handle = Tag::from_parts(self.id, self.held.tag_count());
        let Ok(copy) = own.clone() else {
            return Err(Refusal::OutOfMemory);
        };
        let Ok(()) = self.held.add_tag(copy) else {
            return Err(Refusal::OutOfMemory);
        };
        Ok(handle)
    }
}
