ghost use Rattle.std.specs.Prelude.{◌≡◌, option_copied, slice_get};

use crate::places::item;
use crate::spaces::Spaces;
use wasm_syntax::{Block, FuncDecl};
use wasm_types::{FuncType, ValType};

// The code of a function, in its module.
#[derive(Clone, Copy)]
pub(crate) struct Code<'a, 'd> {
    pub(crate) spaces: &'a Spaces<'d>,
    pub(crate) function: &'a FuncDecl,
    ty: Option<&'d FuncType>,
    ghost ty_is: { option_copied ty ≡ slice_get spaces.now.decl.now.types function.now.ty },
}

impl<'a, 'd> Code<'a, 'd> {
    ghost use Rattle.std.specs.Prelude.{◌≡◌, option_copied, slice_get};
    ghost use Rattle.wasm_syntax.specs.Contexts.{params_of};
    ghost use Rattle.wasm_types.specs.Signatures.{Signature};
    ghost use Rattle.wasm_syntax.specs.declared.declarations.Block.{Block};
    ghost use Rattle.wasm_syntax.specs.Typing.{Typed, on_block, there};
    ghost use Rattle.module_typing.specs.Answers.{pair_seen};
    ghost use Rattle.module_typing.specs.Code.{in_code};

    pub(crate) fn new(spaces: &'a Spaces<'d>, function: &'a FuncDecl) -> Code<'a, 'd>
        ensures spaces { result.spaces.now.decl.now ≡ spaces.now.decl.now }
        ensures function { result.function.now ≡ function.now }
    {
        let ty = item(spaces.decl.types.as_slice(), function.ty as usize);
        Code {
            spaces,
            function,
            ty,
        }
    }

    // The results of the function.
    pub(crate) fn results(&self) -> &'d [ValType]
        ensures { result.now ≡ (in_code self.now).results }
    {
        match self.ty {
            None => &[],
            Some(ty) => ty.results(),
        }
    }

    fn params(&self) -> &'d [ValType]
        ensures { result.now
            ≡ params_of (slice_get self.now.spaces.now.decl.now.types self.now.function.now.ty) }
    {
        match self.ty {
            None => &[],
            Some(ty) => ty.params(),
        }
    }

    // The type of a local, the parameters first.
    pub(crate) fn local(&self, index: u32) -> Option<&ValType>
        ensures { option_copied result ≡ slice_get (in_code self.now).locals index }
    {
        let place = index as usize;
        let params = self.params();
        if place < params.len() {
            return item(params, place);
        }
        item(self.function.locals.as_slice(), place - params.len())
    }

    // A function type of the module.
    pub(crate) fn ty(&self, index: u32) -> Option<&'d FuncType>
        ensures { option_copied result ≡ slice_get (in_code self.now).spaces.types index }
    {
        item(self.spaces.decl.types.as_slice(), index as usize)
    }

    // A block of the function.
    pub(crate) fn block(&self, index: u32) -> Option<&'a Block>
        ensures { option_copied result ≡ slice_get (in_code self.now).blocks index }
    {
        item(self.function.blocks.as_slice(), index as usize)
    }

    // A block of the function, with its type.
    pub(crate) fn typed_block(&self, index: u32) -> Option<(&'a Block, &'d FuncType)>
        ensures { (go : Block → Signature → Typed) → on_block (in_code self.now) index go
            ≡ there (pair_seen result) (λ p. go p.0 p.1) }
    {
        let block = self.block(index)?;
        let ty = self.ty(block.ty)?;
        Some((block, ty))
    }

    // A target list of the function.
    pub(crate) fn targets(&self, index: u32) -> Option<&'a [u32]>
        ensures { option_copied result ≡ slice_get (in_code self.now).targets index }
    {
        let targets = item(self.function.targets.as_slice(), index as usize)?;
        Some(targets.as_slice())
    }
}
