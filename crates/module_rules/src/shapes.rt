ghost use Rattle.std.specs.Prelude.{◌≡◌, IfOk, None};
ghost use Rattle.wasm_syntax.specs.FirstBroken.{broken};
ghost use Rattle.wasm_syntax.specs.declared.module_fault.Rule.TheVariants as rule;

use module_shapes::has_shape;
use std::alloc::Global;
use wasm_syntax::{ModuleDecl, Part, Place};
use wasm_types::OutOfMemory;

/// The first function whose blocks are no tree below its body, or pass the limits.
///
/// The caller has seen that `size` gives none, so that the number of each item has 32 bits. `OutOfMemory` where the
/// allocator had no memory left, and for no other cause.
#[tactic(auto, using(crate::proofs::SizeLemmas::few))]
pub fn shape(alloc: Global, decl: &ModuleDecl) -> Result<Option<Place>, OutOfMemory>
    requires { broken rule.Size decl.now ≡ None }
    ensures { IfOk result (λ place. place ≡ broken rule.Shape decl.now) }
{
    let mut number = 0;
    let mut rest = decl.functions.as_slice();
    while let Some((function, tail)) = rest.split_first() {
        if !has_shape(alloc, function)? {
            return Ok(Some(Place {
                part: Part::Functions,
                item: number,
            }));
        }
        number += 1;
        rest = tail;
    }
    Ok(None)
}
